//! The nodes to which a same-document reference refers (XML Signature 1.1 §4.4.3.2 and §4.4.3.3).

ghost use Rattle.std.specs.Prelude.{◌≡◌, ◌<◌, length, IfOk, Ok, encode_utf8_all};
ghost use Rattle.xml_doc.specs.Ids.{answer_of, bearers};
ghost use Rattle.node_sets.specs.Members.{has};
ghost use Rattle.transforms.specs.Code.Answers.{Selects};
ghost use Rattle.sig_base.specs.Outcomes.{and_then};
ghost use Rattle.transforms.specs.Start as spec;

use crate::refusal::RefRefusal;
use node_sets::NodeSet;
use sig_base::{NoMemory, Text};
use std::alloc::Global;
use xml_doc::{Doc, IdAnswer};

/// The element that bears the ID, if just one does.
fn bearer(doc: &Doc<'_>, id: &Text) -> Result<u32, RefRefusal>
    ensures element { result ≡ spec.selected (answer_of (bearers doc.now (encode_utf8_all id.now))) }
    ensures within { IfOk result (λ e. e < length doc.now) }
{
    match doc.element_by_id(id.as_str()) {
        IdAnswer::One(e) => Ok(e),
        IdAnswer::None => Err(RefRefusal::NoSuchId),
        IdAnswer::Several(first, second) => Err(RefRefusal::AmbiguousId(first, second)),
    }
}

/// The rows of the document, its comments only where they are wanted.
pub(crate) fn whole_set<'d>(
    alloc: Global,
    doc: &'d Doc<'d>,
    comments: bool,
) -> Result<NodeSet<'d>, NoMemory>
    ensures rows { IfOk result (λ set. set.rows ≡ doc.now) }
    ensures members { IfOk result (λ set. has set.members ≡ spec.in_whole comments doc.now) }
{
    let mut set = NodeSet::all(alloc, doc)?;
    if !comments {
        set.drop_comments();
    }
    Ok(set)
}

/// The rows of the element's subtree, its comments only where they are wanted.
fn element_set<'d>(
    alloc: Global,
    doc: &'d Doc<'d>,
    element: u32,
    comments: bool,
) -> Result<NodeSet<'d>, NoMemory>
    requires { element < length doc.now }
    ensures rows { IfOk result (λ set. set.rows ≡ doc.now) }
    ensures members { IfOk result (λ set. has set.members ≡ spec.in_element comments doc.now element) }
{
    let mut set = NodeSet::subtree(alloc, doc, element)?;
    if !comments {
        set.drop_comments();
    }
    Ok(set)
}

/// The same of the element that bears the ID.
pub(crate) fn bearer_set<'d>(
    alloc: Global,
    doc: &'d Doc<'d>,
    id: &Text,
    comments: bool,
) -> Result<NodeSet<'d>, RefRefusal>
    ensures members { Selects result (and_then (spec.selected (answer_of (bearers doc.now (encode_utf8_all id.now))))
        (λ e. Ok (spec.in_element comments doc.now e))) }
    ensures rows { IfOk result (λ set. set.rows ≡ doc.now) }
{
    let element = bearer(doc, id)?;
    Ok(element_set(alloc, doc, element, comments)?)
}
