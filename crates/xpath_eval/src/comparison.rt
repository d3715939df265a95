//! Comparisons.
ghost use Rattle.std.specs.Prelude.{◌≡◌, map, IfOk};
ghost use Rattle.xpath_eval.specs.Comparisons.{compare_integers, compare_numbers, compare_texts, compared, compared_as, compared_as_numbers, equality, is_equality, is_not_equal, is_number, is_truth, number_at, numbers_in, some_pair, texts_in};
ghost use Rattle.xpath_eval.specs.Code.Context.{AreRows, IsOver};
ghost use Rattle.xpath_eval.specs.Found.{each, text_at};
ghost use Rattle.xpath_eval.specs.Code.Outcome.{Answers};
ghost use Rattle.std.specs.List.{list_any};

use crate::found::{Found, number_at, number_in, text_at, text_in, truth_of};
use crate::refusal::EvalRefusal;
use sig_base::{NoMemory, Text};
use sqlite_items::Items;
use std::alloc::Global;
use xml_doc::Doc;
use xpath_syntax::BinaryOp;
use xpath_value::Number;

/// Whether an operator is `=` or `!=`.
fn is_equality(op: BinaryOp) -> bool
    ensures { result ≡ is_equality op }
{
    matches!(op, BinaryOp::Equal | BinaryOp::NotEqual)
}

/// What `=` or `!=` answers, where it is known whether both sides are the same.
fn equality(op: BinaryOp, same: bool) -> bool
    ensures { result ≡ equality op same }
{
    match op {
        BinaryOp::Equal => same,
        _ => !same,
    }
}

/// How two whole numbers compare.
fn compare_integers(op: BinaryOp, a: i64, b: i64) -> bool
    ensures { result ≡ compare_integers op a b }
{
    match op {
        BinaryOp::Less => a < b,
        BinaryOp::LessEqual => a <= b,
        BinaryOp::Greater => b < a,
        BinaryOp::GreaterEqual => b <= a,
        _ => equality(op, a <= b && b <= a),
    }
}

/// Whether an operator is `!=`.
fn is_not_equal(op: BinaryOp) -> bool
    ensures { result ≡ is_not_equal op }
{
    matches!(op, BinaryOp::NotEqual)
}

/// How two numbers compare.
fn compare_numbers(op: BinaryOp, a: Number, b: Number) -> bool
    ensures { result ≡ compare_numbers op a b }
{
    match a {
        Number::Nan => is_not_equal(op),
        Number::Whole(m) => match b {
            Number::Nan => is_not_equal(op),
            Number::Whole(n) => compare_integers(op, m, n),
        },
    }
}

/// How two texts compare.
#[tactic(auto, using(crate::proofs::Texts::same_text))]
fn compare_texts(op: BinaryOp, a: &Text, b: &Text) -> bool
    ensures { result ≡ compare_texts op a.now b.now }
{
    equality(op, a.as_str() == b.as_str())
}

/// Whether a text and one of some texts compare so.
fn some_text(op: BinaryOp, x: &Text, ys: &[Text]) -> bool
    ensures { result ≡ list_any (compare_texts op x.now) ys.now }
{
    for y in ys {
        if compare_texts(op, x, y) {
            return true;
        }
    }
    false
}

/// Whether some text and one of the others compare so.
fn some_texts(op: BinaryOp, xs: &[Text], ys: &[Text]) -> bool
    ensures { result ≡ some_pair (compare_texts op) xs.now ys.now }
{
    for x in xs {
        if some_text(op, x, ys) {
            return true;
        }
    }
    false
}

/// Whether a number and one of some numbers compare so.
fn some_number(op: BinaryOp, x: Number, ys: &[Number]) -> bool
    ensures { result ≡ list_any (compare_numbers op x) ys.now }
{
    for y in ys {
        if compare_numbers(op, x, *y) {
            return true;
        }
    }
    false
}

/// Whether some number and one of the others compare so.
fn some_numbers(op: BinaryOp, xs: &[Number], ys: &[Number]) -> bool
    ensures { result ≡ some_pair (compare_numbers op) xs.now ys.now }
{
    for x in xs {
        if some_number(op, *x, ys) {
            return true;
        }
    }
    false
}

/// The string values of rows.
fn texts_at(alloc: Global, doc: &Doc<'_>, ys: &[u32]) -> Result<Items<Text>, NoMemory>
    requires { AreRows doc.now ys.now }
    ensures { IfOk result (λ ts. ts ≡ map (text_at doc.now) ys.now) }
{
    let mut texts = Items::new(alloc);
    for y in ys {
        texts.push(text_at(alloc, doc, *y)?)?;
    }
    Ok(texts)
}

/// What is compared as text.
fn texts_in(alloc: Global, doc: &Doc<'_>, value: &Found) -> Result<Items<Text>, NoMemory>
    requires { IsOver doc.now value.now }
    ensures { IfOk result (λ ts. ts ≡ texts_in doc.now value.now) }
{
    match value {
        Found::Nodes(ys) => texts_at(alloc, doc, ys.as_slice()),
        other => {
            let mut texts = Items::new(alloc);
            texts.push(text_in(alloc, doc, other)?)?;
            Ok(texts)
        }
    }
}

/// The numbers that the string values of rows spell.
#[tactic(auto, unfolding(crate::specs::Found::each))]
pub(crate) fn numbers_at(
    alloc: Global,
    doc: &Doc<'_>,
    ys: &[u32],
) -> Result<Items<Number>, EvalRefusal>
    requires { AreRows doc.now ys.now }
    ensures { Answers result (each (number_at doc.now) ys.now) }
{
    let mut numbers = Items::new(alloc);
    for y in ys {
        numbers.push(number_at(alloc, doc, *y)?)?;
    }
    Ok(numbers)
}

/// What is compared as numbers.
fn numbers_in(alloc: Global, doc: &Doc<'_>, value: &Found) -> Result<Items<Number>, EvalRefusal>
    requires { IsOver doc.now value.now }
    ensures { Answers result (numbers_in doc.now value.now) }
{
    match value {
        Found::Nodes(ys) => numbers_at(alloc, doc, ys.as_slice()),
        other => {
            let mut numbers = Items::new(alloc);
            numbers.push(number_in(alloc, doc, other)?)?;
            Ok(numbers)
        }
    }
}

/// Whether the value is a boolean.
fn is_truth(value: &Found) -> bool
    ensures { result ≡ is_truth value.now }
{
    matches!(value, Found::Truth(_))
}

/// Whether the value is a number.
fn is_number(value: &Found) -> bool
    ensures { result ≡ is_number value.now }
{
    matches!(value, Found::Num(_))
}

/// How two values compare as numbers.
fn compared_as_numbers(
    alloc: Global,
    op: BinaryOp,
    doc: &Doc<'_>,
    x: &Found,
    y: &Found,
) -> Result<bool, EvalRefusal>
    requires left { IsOver doc.now x.now }
    requires right { IsOver doc.now y.now }
    ensures { Answers result (compared_as_numbers op doc.now x.now y.now) }
{
    let ms = numbers_in(alloc, doc, x)?;
    let ns = numbers_in(alloc, doc, y)?;
    Ok(some_numbers(op, ms.as_slice(), ns.as_slice()))
}

/// How two values compare, of which none is a node set beside a boolean.
fn compared_as(
    alloc: Global,
    op: BinaryOp,
    doc: &Doc<'_>,
    x: &Found,
    y: &Found,
) -> Result<bool, EvalRefusal>
    requires left { IsOver doc.now x.now }
    requires right { IsOver doc.now y.now }
    ensures { Answers result (compared_as op doc.now x.now y.now) }
{
    if is_equality(op) && (is_truth(x) || is_truth(y)) {
        return Ok(equality(op, truth_of(x) == truth_of(y)));
    }
    if is_equality(op) && !(is_number(x) || is_number(y)) {
        let xs = texts_in(alloc, doc, x)?;
        let ys = texts_in(alloc, doc, y)?;
        return Ok(some_texts(op, xs.as_slice(), ys.as_slice()));
    }
    compared_as_numbers(alloc, op, doc, x, y)
}

/// How two values compare (XPath 1.0 §3.4).
pub(crate) fn compared(
    alloc: Global,
    op: BinaryOp,
    doc: &Doc<'_>,
    x: &Found,
    y: &Found,
) -> Result<bool, EvalRefusal>
    requires left { IsOver doc.now x.now }
    requires right { IsOver doc.now y.now }
    ensures { Answers result (compared op doc.now x.now y.now) }
{
    match x {
        Found::Truth(_) => match y {
            Found::Nodes(ys) => compared_as(alloc, op, doc, x, &Found::Truth(ys.len() != 0)),
            _ => compared_as(alloc, op, doc, x, y),
        },
        Found::Nodes(xs) => match y {
            Found::Truth(_) => compared_as(alloc, op, doc, &Found::Truth(xs.len() != 0), y),
            _ => compared_as(alloc, op, doc, x, y),
        },
        _ => compared_as(alloc, op, doc, x, y),
    }
}
