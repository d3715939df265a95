//! From the words of `canon` to a canonical form.
ghost use Rattle.std.specs.Prelude.{◌≡◌, ◌≢◌, ◌∷◌, [], Err, IfOk, None, encode_utf8_all, map};
ghost use Rattle.std.specs.Option.{ForSome};
ghost use Rattle.c14n_methods.specs.Limits.{form_within};
ghost use Rattle.c14n_methods.specs.Methods.{canonical_form};
ghost use Rattle.node_sets.specs.Members.{has};
ghost use Rattle.xmldsig.specs.Form as spec;
ghost use Rattle.xmldsig.specs.Code.Form as code;
ghost use Rattle.xmldsig.specs.Code.Stops.{Answers, AsksAll, StopCounts};

use crate::ending::Refusal;
use crate::files::fetch_document;
use crate::stop::Stop;
use bumpalo::Bump;
use c14n_methods::octets_within;
use node_sets::NodeSet;
use sig_base::{CanonMethod, NoMemory, Octets, PrefixList, Text};
use sig_outside::Folder;
use std::alloc::Global;
use transforms::prefixes_in_scope;
use xml_doc::{Doc, IdAnswer};
use xml_read::read_document;
use xpath_eval::filter_each;
use xpath_syntax::{Expr, Prefixes, parse};

/// What the words of `canon` ask for, besides the document.
#[derive(Drop)]
pub(crate) struct Form {
    /// The method.
    pub method: CanonMethod,
    /// The ID of the element that is written, if the words name one.
    pub id: Option<Text>,
    /// The expression that keeps the rows at which it is true, if there is one.
    pub xpath: Option<Text>,
    /// The PrefixList of an exclusive method.
    pub prefixes: PrefixList,
}

/// The canonical form of a set, where it is within the limit. Only an exclusive method takes the prefixes.
fn form_within(
    alloc: Global,
    method: CanonMethod,
    prefixes: &PrefixList,
    set: &NodeSet<'_>,
) -> Result<Option<Octets>, NoMemory>
    ensures { IfOk result (λ octets. octets
        ≡ form_within (canonical_form method (map encode_utf8_all prefixes.now) set.now.rows (has set.now.members))) }
{
    if method.is_exclusive() {
        octets_within(alloc, method, prefixes, set.lend())
    } else {
        octets_within(alloc, method, &PrefixList::new(alloc), set.lend())
    }
}

/// The canonical form of a set.
fn form_of_set(
    alloc: Global,
    method: CanonMethod,
    prefixes: &PrefixList,
    set: &NodeSet<'_>,
) -> Result<Octets, Stop>
    ensures outcome { Answers result (spec.within_limit
        (canonical_form method (map encode_utf8_all prefixes.now) set.now.rows (has set.now.members))) }
    ensures no_fault { result ≢ Err Stop.ReadFault }
{
    match form_within(alloc, method, prefixes, set)? {
        Some(octets) => Ok(octets),
        None => Err(Stop::Refused(Refusal::OctetsTooLong)),
    }
}

/// All rows of a document.
fn whole<'d>(alloc: Global, doc: &'d Doc<'d>) -> Result<NodeSet<'d>, NoMemory>
    ensures members { IfOk result (λ set. has set.members ≡ spec.all_rows doc.now) }
    ensures rows { IfOk result (λ set. set.rows ≡ doc.now) }
{
    Ok(NodeSet::all(alloc, doc)?)
}

/// The subtree of the element that bears the ID.
fn subtree_of<'d>(alloc: Global, doc: &'d Doc<'d>, id: &Text) -> Result<NodeSet<'d>, Stop>
    ensures outcome { code.Selects result (spec.subtree_rows doc.now id.now) }
    ensures rows { IfOk result (λ set. set.rows ≡ doc.now) }
    ensures no_fault { result ≢ Err Stop.ReadFault }
{
    match doc.element_by_id(id.as_str()) {
        IdAnswer::One(element) => Ok(NodeSet::subtree(alloc, doc, element)?),
        IdAnswer::None => Err(Stop::Refused(Refusal::NoSuchId)),
        IdAnswer::Several(first, second) => {
            Err(Stop::Refused(Refusal::AmbiguousId(first, second)))
        }
    }
}

/// The prefixes that an expression may use: those in scope of the document element.
fn document_prefixes<'d>(alloc: Global, doc: &Doc<'d>) -> Result<Prefixes<'d>, NoMemory>
    ensures { IfOk result (λ prefixes. prefixes ≡ spec.document_prefixes doc.now) }
{
    match doc.document_element() {
        Some(element) => prefixes_in_scope(alloc, doc, element),
        None => Ok(Prefixes::new(alloc)),
    }
}

/// The expression of the words.
fn expression_of(alloc: Global, doc: &Doc<'_>, xpath: &Text) -> Result<Expr, Stop>
    ensures outcome { Answers result (spec.expression_of doc.now xpath.now) }
    ensures no_fault { result ≢ Err Stop.ReadFault }
{
    let prefixes = document_prefixes(alloc, doc)?;
    match parse(alloc, xpath.as_str(), &prefixes) {
        Ok(expr) => Ok(expr),
        Err(cause) => Err(Stop::by_syntax(cause)),
    }
}

/// The rows at which an expression is true.
fn evaluated<'d>(alloc: Global, doc: &'d Doc<'d>, expr: &Expr) -> Result<NodeSet<'d>, Stop>
    ensures outcome { code.Selects result (spec.evaluated_rows doc.now expr.now) }
    ensures rows { IfOk result (λ set. set.rows ≡ doc.now) }
    ensures no_fault { result ≢ Err Stop.ReadFault }
{
    let mut set = whole(alloc, doc)?;
    match filter_each(alloc, expr, &mut set, None) {
        Ok(()) => Ok(set),
        Err(cause) => Err(Stop::by_evaluation(cause)),
    }
}

/// The rows at which the expression of the words is true.
fn true_rows<'d>(alloc: Global, doc: &'d Doc<'d>, xpath: &Text) -> Result<NodeSet<'d>, Stop>
    ensures outcome { code.Selects result (spec.true_rows doc.now xpath.now) }
    ensures rows { IfOk result (λ set. set.rows ≡ doc.now) }
    ensures no_fault { result ≢ Err Stop.ReadFault }
{
    let expr = expression_of(alloc, doc, xpath)?;
    evaluated(alloc, doc, &expr)
}

/// The rows at which the expression of the words is true, or all.
fn kept<'d>(alloc: Global, doc: &'d Doc<'d>, xpath: &Option<Text>) -> Result<NodeSet<'d>, Stop>
    ensures outcome { code.Selects result (spec.selected_rows doc.now None xpath.now) }
    ensures rows { IfOk result (λ set. set.rows ≡ doc.now) }
    ensures no_fault { result ≢ Err Stop.ReadFault }
{
    match xpath {
        Some(xpath) => true_rows(alloc, doc, xpath),
        None => Ok(whole(alloc, doc)?),
    }
}

/// The rows that are written: those of the element with the ID, or else those that the expression keeps.
fn selected<'d>(alloc: Global, doc: &'d Doc<'d>, form: &Form) -> Result<NodeSet<'d>, Stop>
    ensures outcome { code.Selects result (spec.selected_rows doc.now form.now.id form.now.xpath) }
    ensures rows { IfOk result (λ set. set.rows ≡ doc.now) }
    ensures no_fault { result ≢ Err Stop.ReadFault }
{
    match &form.id {
        Some(id) => subtree_of(alloc, doc, id),
        None => kept(alloc, doc, &form.xpath),
    }
}

/// The canonical form of the rows of a document that are written.
fn form_of_rows(alloc: Global, doc: &Doc<'_>, form: &Form) -> Result<Octets, Stop>
    ensures outcome { Answers result (spec.rows_outcome form.now.method form.now.id form.now.xpath form.now.prefixes doc.now) }
    ensures no_fault { result ≢ Err Stop.ReadFault }
{
    let set = selected(alloc, doc, form)?;
    form_of_set(alloc, form.method, &form.prefixes, &set)
}

/// Reads a document, and writes the canonical form of the rows that are asked for.
fn form_of_document(alloc: Global, bytes: &[u8], form: &Form) -> Result<Octets, Stop>
    ensures outcome { Answers result (spec.document_outcome form.now.method form.now.id form.now.xpath form.now.prefixes bytes.now) }
    ensures no_fault { result ≢ Err Stop.ReadFault }
{
    let bump = Bump::new(alloc);
    match read_document(alloc, &bump, bytes) {
        Ok(doc) => form_of_rows(alloc, &doc, form),
        Err(cause) => Err(Stop::by_reader(cause)),
    }
}

/// Fetches a document, and writes the canonical form of the rows that are asked for.
pub(crate) fn find_form<F: Folder>(
    alloc: Global,
    doc: &Text,
    form: &Form,
    folder: &mut F,
) -> Result<Octets, Stop>
    ensures outcome { ForSome (F.held folder.old) (λ files. Answers result
        (spec.form_outcome doc.now form.now.method form.now.id form.now.xpath form.now.prefixes files)) }
    ensures asked { ForSome (F.held folder.old) (λ files. AsksAll result (encode_utf8_all doc.now ∷ []) (F.asked folder.old)
        (F.asked folder.new)) }
    ensures cause { StopCounts result (F.faults folder.old) (F.faults folder.new) }
{
    let file = fetch_document(alloc, folder, doc)?;
    form_of_document(alloc, file.bytes(), form)
}
