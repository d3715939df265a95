//! What an expression comes to, and the conversions between its types.
ghost use Rattle.std.specs.Prelude.{◌≡◌, ◌<◌, List, ℕ, length, string_bytes, IfOk};
ghost use Rattle.std.specs.Str.{chars};
ghost use Rattle.xml_doc.specs.Rows.{RowOf};
ghost use Rattle.std.specs.List.{flat_map};
ghost use Rattle.xml_doc.specs.Shape.{row_at};
ghost use Rattle.xml_doc.specs.Values.{string_value, subtree, text_of};
ghost use Rattle.xpath_eval.specs.Code.Context.{AreRows, IsOver};
ghost use Rattle.xpath_eval.specs.Found.{counted, nodes_in, number_in, number_of_truth, number_of_words, text_at, text_in, text_of_first, text_of_truth, truth_of, truth_of_number};
ghost use Rattle.xpath_eval.specs.Code.Outcome.{Answers};

use crate::refusal::EvalRefusal;
use sig_base::{NoMemory, Text};
use sqlite_items::Items;
use std::alloc::Global;
use xml_doc::{Doc, Kind};
use xpath_value::{Number, NumberFault, number_of_text, text_of_number};

/// What an expression comes to (XPath 1.0 §1).
#[derive(Drop)]
pub enum Found {
    /// A boolean.
    Truth(bool),
    /// A number.
    Num(Number),
    /// A text.
    Words(Text),
    /// A node set: its rows in document order.
    Nodes(Items<u32>),
}

/// A number as a boolean: NaN and 0 are false.
fn truth_of_number(n: Number) -> bool
    ensures { result ≡ truth_of_number n }
{
    match n {
        Number::Whole(value) => value != 0,
        Number::Nan => false,
    }
}

/// A value as a boolean (XPath 1.0 §4.3).
pub(crate) fn truth_of(value: &Found) -> bool
    ensures { result ≡ truth_of value.now }
{
    match value {
        Found::Truth(b) => *b,
        Found::Num(n) => truth_of_number(*n),
        Found::Words(w) => w.len() != 0,
        Found::Nodes(ys) => ys.len() != 0,
    }
}

/// What a row adds to the string value of one above it.
fn added_by<'a>(doc: &Doc<'a>, y: u32) -> &'a str
    requires { y < length doc.now }
    ensures { result.now ≡ text_of (row_at doc.now y) }
{
    match doc.kind(y) {
        Kind::Text => doc.value(y),
        _ => "",
    }
}

/// The string value of a row (XPath 1.0 §5).
pub(crate) fn string_value(alloc: Global, doc: &Doc<'_>, y: u32) -> Result<String, NoMemory>
    requires { y < length doc.now }
    ensures { IfOk result (λ s. string_bytes s ≡ string_value doc.now y) }
{
    match doc.kind(y) {
        Kind::Root | Kind::Element => joined(alloc, doc, y),
        _ => Ok(String::from_str(alloc, doc.value(y))?),
    }
}

/// The texts below a row, joined.
fn joined(alloc: Global, doc: &Doc<'_>, y: u32) -> Result<String, NoMemory>
    requires { y < length doc.now }
    ensures { IfOk result (λ s. string_bytes s ≡ flat_map text_of (subtree doc.now y)) }
{
    let mut text = String::new(alloc);
    for k in y..doc.behind(y) {
        text.push_str(added_by(doc, k))?;
    }
    Ok(text)
}

/// The string value of a row, as a text.
pub(crate) fn text_at(alloc: Global, doc: &Doc<'_>, y: u32) -> Result<Text, NoMemory>
    requires { y < length doc.now }
    ensures { IfOk result (λ t. t ≡ text_at doc.now y) }
{
    Ok(Text::from_string(string_value(alloc, doc, y)?))
}

/// The string value of the first row.
fn text_of_first(alloc: Global, doc: &Doc<'_>, ys: &Items<u32>) -> Result<Text, NoMemory>
    requires { AreRows doc.now ys.now }
    ensures { IfOk result (λ t. t ≡ text_of_first doc.now ys.now) }
{
    match ys.get(0) {
        Some(y) => text_at(alloc, doc, *y),
        None => Ok(Text::new(alloc)),
    }
}

/// A boolean as a text.
fn text_of_truth(b: bool) -> &'static str
    ensures { chars result.now ≡ text_of_truth b }
{
    if b { "true" } else { "false" }
}

/// A value as a text (XPath 1.0 §4.2).
pub(crate) fn text_in(alloc: Global, doc: &Doc<'_>, value: &Found) -> Result<Text, NoMemory>
    requires { IsOver doc.now value.now }
    ensures { IfOk result (λ t. t ≡ text_in doc.now value.now) }
{
    match value {
        Found::Truth(b) => Text::from_str(alloc, text_of_truth(*b)),
        Found::Num(n) => text_of_number(alloc, *n),
        Found::Words(w) => Text::from_str(alloc, w.as_str()),
        Found::Nodes(ys) => text_of_first(alloc, doc, ys),
    }
}

/// The number that a text spells.
pub(crate) fn number_of_words(text: &str) -> Result<Number, EvalRefusal>
    ensures { result ≡ number_of_words (chars text.now) }
{
    match number_of_text(text) {
        Ok(n) => Ok(n),
        Err(NumberFault::Fraction) => Err(EvalRefusal::Fraction),
        Err(NumberFault::NumberRange) => Err(EvalRefusal::NumberRange),
    }
}

/// The number that the string value of a row spells.
pub(crate) fn number_at(alloc: Global, doc: &Doc<'_>, y: u32) -> Result<Number, EvalRefusal>
    requires { y < length doc.now }
    ensures { Answers result (number_of_words (text_at doc.now y)) }
{
    let text = text_at(alloc, doc, y)?;
    number_of_words(text.as_str())
}

/// A boolean as a number.
fn number_of_truth(b: bool) -> Number
    ensures { result ≡ number_of_truth b }
{
    if b {
        Number::Whole(1)
    } else {
        Number::Whole(0)
    }
}

/// A value as a number (XPath 1.0 §4.4).
pub(crate) fn number_in(alloc: Global, doc: &Doc<'_>, value: &Found) -> Result<Number, EvalRefusal>
    requires { IsOver doc.now value.now }
    ensures { Answers result (number_in doc.now value.now) }
{
    match value {
        Found::Truth(b) => Ok(number_of_truth(*b)),
        Found::Num(n) => Ok(*n),
        Found::Words(w) => number_of_words(w.as_str()),
        Found::Nodes(ys) => {
            let text = text_of_first(alloc, doc, ys)?;
            number_of_words(text.as_str())
        }
    }
}

/// The rows of a node set. `NotNodes` comes exactly where the value is none (XPath 1.0 §3.3).
pub(crate) fn nodes_in(value: Found) -> Result<Items<u32>, EvalRefusal>
    ensures value { result ≡ nodes_in value }
    ensures rows { (rows : List RowOf) → IsOver rows value → IfOk result (AreRows rows) }
{
    match value {
        Found::Nodes(ys) => Ok(ys),
        _ => Err(EvalRefusal::NotNodes),
    }
}
