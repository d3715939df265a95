//! XPath filtering (XML Signature 1.1 §6.6.3) and XPath Filter 2.0.

ghost use Rattle.std.specs.Prelude.{◌≡◌, ◌<◌, ◌≤◌, true, length, IfOk, IfSome};
ghost use Rattle.std.specs.List.{All};
ghost use Rattle.dsig_fields.specs.Fits.{FilterFits, IsElement};
ghost use Rattle.transforms.specs.Code.Answers.{Alters, Collects, Gives, eval_cause, nodes_of, syntax_cause};
ghost use Rattle.transforms.specs.Expressions as spec;

use crate::refusal::RefRefusal;
use dsig_fields::FilterList;
use filter2::apply;
use node_sets::NodeSet;
use sig_base::{FilterKind, NoMemory, Text};
use std::alloc::Global;
use xml_doc::Doc;
use xpath_eval::{EvalRefusal, filter_each};
use xpath_syntax::{Expr, Prefixes, SyntaxRefusal, parse};

/// Why an expression can't be read: want of memory is the same here and there.
fn syntax_cause(number: u32, part: u32, cause: SyntaxRefusal) -> RefRefusal
    ensures { result ≡ syntax_cause number part cause }
{
    match cause {
        SyntaxRefusal::Memory => RefRefusal::Memory,
        _ => RefRefusal::Syntax {
            step: number,
            part,
            cause,
        },
    }
}

/// Why an expression can't be evaluated: want of memory is the same here and there.
fn eval_cause(number: u32, part: u32, cause: EvalRefusal) -> RefRefusal
    ensures { result ≡ eval_cause number part cause }
{
    match cause {
        EvalRefusal::Memory => RefRefusal::Memory,
        _ => RefRefusal::Eval {
            step: number,
            part,
            cause,
        },
    }
}

/// The prefixes in scope of an element, each with its namespace name (XPath 1.0 §5.4).
///
/// # Errors
/// Want of memory.
pub fn prefixes_in_scope<'d>(
    alloc: Global,
    doc: &Doc<'d>,
    element: u32,
) -> Result<Prefixes<'d>, NoMemory>
    requires { element < length doc.now }
    ensures { IfOk result (λ prefixes. prefixes ≡ spec.prefixes_in_scope doc.now element) }
{
    let mut prefixes = Prefixes::new(alloc);
    let end = doc.own_rows(element).first_attribute;
    for y in element + 1..end {
        prefixes.add(doc.local_name(y), doc.value(y))?;
    }
    Ok(prefixes)
}

/// The expression that an element has, as that part of the step of this number.
fn expression_of(
    alloc: Global,
    doc: &Doc<'_>,
    number: u32,
    part: u32,
    row: u32,
    text: &Text,
) -> Result<Expr, RefRefusal>
    requires { row < length doc.now }
    ensures { Gives (λ e. e) result (spec.expression_of doc.now number part row text.now) }
{
    let prefixes = prefixes_in_scope(alloc, doc, row)?;
    match parse(alloc, text.as_str(), &prefixes) {
        Ok(expr) => Ok(expr),
        Err(cause) => Err(syntax_cause(number, part, cause)),
    }
}

/// The node of `here()` in the expression of an element: there is none in a document other than the one in which that stands.
fn here_in(own: bool, row: u32) -> Option<u32>
    ensures { result ≡ spec.here_in own row }
{
    if own { Some(row) } else { None }
}

/// Keeps the nodes of a set at which an expression is true.
fn keep_true(
    alloc: Global,
    own: bool,
    number: u32,
    row: u32,
    expr: &Expr,
    set: &mut NodeSet<'_>,
) -> Result<(), RefRefusal>
    requires { own ≡ true → row < length set.old.rows }
    ensures members { Alters own result set.new (spec.true_nodes number row (nodes_of own set.old) expr.now) }
    ensures rows { set.new.rows ≡ set.old.rows }
{
    match filter_each(alloc, expr, set, here_in(own, row)) {
        Ok(()) => Ok(()),
        Err(cause) => Err(eval_cause(number, 1, cause)),
    }
}

/// Keeps the nodes of a set at which the expression of an XPath step is true (XML Signature 1.1 §6.6.3).
pub(crate) fn filter_by(
    alloc: Global,
    doc: &Doc<'_>,
    own: bool,
    number: u32,
    row: u32,
    text: &Text,
    set: &mut NodeSet<'_>,
) -> Result<(), RefRefusal>
    requires own { own ≡ true → set.old.rows ≡ doc.now }
    requires fits { IsElement doc.now row }
    ensures members { Alters own result set.new (spec.xpath_filtered doc.now number row text.now (nodes_of own set.old)) }
    ensures rows { set.new.rows ≡ set.old.rows }
{
    let expr = expression_of(alloc, doc, number, 1, row, text)?;
    keep_true(alloc, own, number, row, &expr, set)
}

/// The expressions of filters, with what they do to the set.
fn expressions_of(
    alloc: Global,
    doc: &Doc<'_>,
    number: u32,
    filters: &FilterList,
) -> Result<Vec<(FilterKind, Expr)>, RefRefusal>
    requires few { length filters.now ≤ 16 }
    requires fit { All (FilterFits doc.now) filters.now }
    ensures expressions { Collects result (spec.expressions_from doc.now number 1 filters.now) }
    ensures count { IfOk result (λ expressions. length expressions.items ≡ length filters.now) }
{
    let mut expressions = Vec::new(alloc);
    let mut k = 0;
    while let Some(filter) = filters.get(k) {
        k += 1;
        let expr = expression_of(alloc, doc, number, k as u32, filter.row, &filter.text)?;
        expressions.push((filter.kind, expr))?;
    }
    Ok(expressions)
}

/// The nodes of `here()` in the expressions of filters.
fn heres_in(alloc: Global, own: bool, filters: &FilterList) -> Result<Vec<Option<u32>>, NoMemory>
    requires { length filters.now ≤ 16 }
    ensures { IfOk result (λ heres. heres.items ≡ spec.heres_in own filters.now) }
{
    let mut heres = Vec::new(alloc);
    let mut k = 0;
    while let Some(filter) = filters.get(k) {
        k += 1;
        heres.push(here_in(own, filter.row))?;
    }
    Ok(heres)
}

/// Keeps the nodes of a set that filters keep whose expressions are these.
fn keep_filtered(
    alloc: Global,
    own: bool,
    number: u32,
    filters: &FilterList,
    expressions: &[(FilterKind, Expr)],
    set: &mut NodeSet<'_>,
) -> Result<(), RefRefusal>
    requires few { length filters.now ≤ 16 }
    requires count { length expressions.now ≡ length filters.now }
    requires rows { own ≡ true → All (FilterFits set.old.rows) filters.now }
    ensures members { Alters own result set.new (spec.filters_applied number filters.now (nodes_of own set.old) expressions.now) }
    ensures rows { set.new.rows ≡ set.old.rows }
{
    let heres = heres_in(alloc, own, filters)?;
    match apply(alloc, expressions, set, &heres) {
        Ok(()) => Ok(()),
        Err(refusal) => Err(eval_cause(number, refusal.part, refusal.cause)),
    }
}

/// Keeps the nodes of a set that the filters of a step keep (XML-Signature XPath Filter 2.0 §3).
pub(crate) fn apply_filters(
    alloc: Global,
    doc: &Doc<'_>,
    own: bool,
    number: u32,
    filters: &FilterList,
    set: &mut NodeSet<'_>,
) -> Result<(), RefRefusal>
    requires own { own ≡ true → set.old.rows ≡ doc.now }
    requires few { length filters.now ≤ 16 }
    requires fit { All (FilterFits doc.now) filters.now }
    ensures members { Alters own result set.new (spec.nodes_filtered doc.now number filters.now (nodes_of own set.old)) }
    ensures rows { set.new.rows ≡ set.old.rows }
{
    let expressions = expressions_of(alloc, doc, number, filters)?;
    keep_filtered(alloc, own, number, filters, &expressions, set)
}
