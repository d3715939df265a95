//! Evaluation for callers.
ghost use Rattle.std.specs.Prelude.{◌≡◌, ◌<◌, false, length, IfOk, IfSome};
ghost use Rattle.node_sets.specs.Members.{has};
ghost use Rattle.xpath_eval.specs.Code.Context.{AreRows};
ghost use Rattle.xpath_eval.specs.Meaning.{meaning};
ghost use Rattle.xpath_eval.specs.Reads.{reads_context};
ghost use Rattle.xpath_eval.specs.Code.Outcome.{Answers};
ghost use Rattle.xpath_eval.specs.Value.{Gives, Keeps, alone, each_true, selected, truth_at};

use crate::evaluation::evaluate;
use crate::found::{Found, truth_of};
use crate::nodes::{insert_all, rows_of};
use crate::reads::reads_context;
use crate::refusal::EvalRefusal;
use crate::scene::Scene;
use node_sets::NodeSet;
use sig_base::Text;
use sqlite_items::Items;
use std::alloc::Global;
use xml_doc::Doc;
use xpath_syntax::Expr;
use xpath_value::Number;

/// What an expression comes to (XPath 1.0 §1).
#[derive(Drop)]
pub enum Value<'d> {
    /// A boolean.
    Truth(bool),
    /// A number.
    Num(Number),
    /// A text.
    Words(Text),
    /// A node set.
    Nodes(NodeSet<'d>),
}

/// What an expression comes to at row `context`, with position and size 1. `here` is the node of `here()`
/// (XML Signature 1.1 §6.6.3), which is refused where there is none.
///
/// The first refusal that the evaluation meets is the answer, and [`EvalRefusal::Memory`] may come at any point of it.
pub fn eval<'d>(
    alloc: Global,
    expr: &Expr,
    doc: &'d Doc<'d>,
    context: u32,
    here: Option<u32>,
) -> Result<Value<'d>, EvalRefusal>
    requires context { context < length doc.now }
    requires here { IfSome here (λ h. h < length doc.now) }
    ensures { Gives doc.now result (meaning expr.now (alone doc.now here context)) }
{
    let scene = Scene {
        doc,
        node: context,
        place: 1,
        size: 1,
        here,
    };
    match evaluate(alloc, expr, &scene)? {
        Found::Truth(b) => Ok(Value::Truth(b)),
        Found::Num(n) => Ok(Value::Num(n)),
        Found::Words(w) => Ok(Value::Words(w)),
        Found::Nodes(ys) => {
            let mut set = NodeSet::empty(alloc, doc)?;
            insert_all(&mut set, ys.as_slice());
            Ok(Value::Nodes(set))
        }
    }
}

/// Whether an expression is true as a boolean at a row.
fn is_true_at(
    alloc: Global,
    expr: &Expr,
    doc: &Doc<'_>,
    y: u32,
    here: Option<u32>,
) -> Result<bool, EvalRefusal>
    requires row { y < length doc.now }
    requires here { IfSome here (λ h. h < length doc.now) }
    ensures { Answers result (truth_at expr.now doc.now here y) }
{
    let scene = Scene {
        doc,
        node: y,
        place: 1,
        size: 1,
        here,
    };
    let value = evaluate(alloc, expr, &scene)?;
    Ok(truth_of(&value))
}

/// The rows at which an expression is true as a boolean.
fn selected(
    alloc: Global,
    expr: &Expr,
    doc: &Doc<'_>,
    ys: &[u32],
    here: Option<u32>,
) -> Result<Items<u32>, EvalRefusal>
    requires rows { AreRows doc.now ys.now }
    requires here { IfSome here (λ h. h < length doc.now) }
    ensures value { Answers result (selected (truth_at expr.now doc.now here) ys.now) }
    ensures rows { IfOk result (AreRows doc.now) }
{
    let mut kept = Items::new(alloc);
    for y in ys {
        let is_true = is_true_at(alloc, expr, doc, *y, here)?;
        if is_true {
            kept.push(*y)?;
        }
    }
    Ok(kept)
}

/// All of the rows or none, as an expression that doesn't read the context is true as a boolean or not. Where there is no
/// row, it isn't evaluated.
fn all_or_none(
    alloc: Global,
    expr: &Expr,
    doc: &Doc<'_>,
    ys: Items<u32>,
    here: Option<u32>,
) -> Result<Items<u32>, EvalRefusal>
    requires unread { reads_context expr.now ≡ false }
    requires rows { AreRows doc.now ys }
    requires here { IfSome here (λ h. h < length doc.now) }
    ensures value { Answers result (selected (truth_at expr.now doc.now here) ys) }
    ensures rows { IfOk result (AreRows doc.now) }
{
    match ys.as_slice().first() {
        Some(y) => {
            let is_true = is_true_at(alloc, expr, doc, *y, here)?;
            Ok(if is_true { ys } else { Items::new(alloc) })
        }
        None => Ok(ys),
    }
}

/// The rows at which an expression is true as a boolean. One that doesn't read the context is evaluated once for all.
fn chosen(
    alloc: Global,
    expr: &Expr,
    doc: &Doc<'_>,
    ys: Items<u32>,
    here: Option<u32>,
) -> Result<Items<u32>, EvalRefusal>
    requires rows { AreRows doc.now ys }
    requires here { IfSome here (λ h. h < length doc.now) }
    ensures value { Answers result (selected (truth_at expr.now doc.now here) ys) }
    ensures rows { IfOk result (AreRows doc.now) }
{
    if reads_context(expr) {
        selected(alloc, expr, doc, ys.as_slice(), here)
    } else {
        all_or_none(alloc, expr, doc, ys, here)
    }
}

/// Keeps the rows of a set at which an expression is true as a boolean, with position and size 1.
///
/// It is evaluated for the rows in document order, and the first refusal is the answer. A refusal leaves the set unchanged.
/// An expression that doesn't read the context, such as `count(//a) > 5`, is evaluated once for all rows.
pub fn filter_each<'d>(
    alloc: Global,
    expr: &Expr,
    set: &mut NodeSet<'d>,
    here: Option<u32>,
) -> Result<(), EvalRefusal>
    requires here { IfSome here (λ h. h < length set.old.rows) }
    ensures { Keeps result set.old set.new (each_true expr.now set.old.rows (has set.old.members) here) }
{
    let doc = set.doc();
    let rows = rows_of(alloc, set)?;
    let ys = chosen(alloc, expr, doc, rows, here)?;
    let mut kept = NodeSet::empty(alloc, doc)?;
    insert_all(&mut kept, ys.as_slice());
    *set = kept;
    Ok(())
}
