//! Elements by their IDs (XPath 1.0 §4.1, `id`).
ghost use Rattle.std.specs.Prelude.{◌≡◌, ◌++◌, ◌<◌, ◌∷◌, [], length, map, IfOk, OnOk};
ghost use Rattle.std.specs.List.{All, flat_map};
ghost use Rattle.std.specs.Str.{chars};
ghost use Rattle.xpath_value.specs.Characters.{is_space};
ghost use Rattle.xpath_eval.specs.Code.Context.{AreRows, IsOver};
ghost use Rattle.xpath_eval.specs.Found.{text_at};
ghost use Rattle.xpath_eval.specs.Functions.{bearing, elements_by_id, id_tokens, tokens_of};
ghost use Rattle.xpath_eval.specs.Code.Outcome.{Answers};
ghost use Rattle.xpath_eval.specs.declared.found.Found.TheVariants.{Nodes};

use crate::found::{Found, text_at, text_in};
use crate::nodes::{one, ordered};
use crate::refusal::EvalRefusal;
use sig_base::{NoMemory, Text};
use sqlite_items::Items;
use std::alloc::Global;
use xml_doc::{Doc, IdAnswer};

/// Whether a character is white space.
fn is_space(c: char) -> bool
    ensures { result ≡ is_space c }
{
    c == ' ' || c == '\t' || c == '\r' || c == '\n'
}

/// Appends the texts between the white space of a text.
fn push_tokens(alloc: Global, tokens: &mut Items<Text>, text: &str) -> Result<(), NoMemory>
    ensures { OnOk result (tokens.new ≡ tokens.old ++ tokens_of (chars text.now)) }
{
    let mut begun = Text::new(alloc);
    for c in text.chars() {
        if !is_space(c) {
            begun.push(c)?;
        } else if begun.len() != 0 {
            tokens.push(begun)?;
            begun = Text::new(alloc);
        }
    }
    if begun.len() != 0 {
        tokens.push(begun)?;
    }
    Ok(())
}

/// The texts between the white space of string values.
fn tokens_at(alloc: Global, doc: &Doc<'_>, ys: &[u32]) -> Result<Items<Text>, NoMemory>
    requires { AreRows doc.now ys.now }
    ensures { IfOk result (λ ts. ts ≡ flat_map (λ y. tokens_of (text_at doc.now y)) ys.now) }
{
    let mut tokens = Items::new(alloc);
    for y in ys {
        let text = text_at(alloc, doc, *y)?;
        push_tokens(alloc, &mut tokens, text.as_str())?;
    }
    Ok(tokens)
}

/// The texts that are IDs.
fn id_tokens(alloc: Global, doc: &Doc<'_>, value: &Found) -> Result<Items<Text>, NoMemory>
    requires { IsOver doc.now value.now }
    ensures { IfOk result (λ ts. ts ≡ id_tokens doc.now value.now) }
{
    match value {
        Found::Nodes(ys) => tokens_at(alloc, doc, ys.as_slice()),
        other => {
            let text = text_in(alloc, doc, other)?;
            let mut tokens = Items::new(alloc);
            push_tokens(alloc, &mut tokens, text.as_str())?;
            Ok(tokens)
        }
    }
}

/// The elements that bear the IDs, in the order of these.
fn bearing(alloc: Global, doc: &Doc<'_>, tokens: &[Text]) -> Result<Items<u32>, EvalRefusal>
    ensures value { Answers result (bearing doc.now tokens.now) }
    ensures rows { IfOk result (AreRows doc.now) }
{
    let mut ys = Items::new(alloc);
    for token in tokens {
        match doc.element_by_id(token.as_str()) {
            IdAnswer::None => {}
            IdAnswer::One(y) => ys.push(y)?,
            IdAnswer::Several(y, z) => return Err(EvalRefusal::AmbiguousId(y, z)),
        }
    }
    Ok(ys)
}

/// What `id` comes to.
pub(crate) fn elements_by_id(
    alloc: Global,
    doc: &Doc<'_>,
    value: &Found,
) -> Result<Found, EvalRefusal>
    requires { IsOver doc.now value.now }
    ensures value { Answers result (elements_by_id doc.now value.now) }
    ensures rows { IfOk result (IsOver doc.now) }
{
    let tokens = id_tokens(alloc, doc, value)?;
    let ys = bearing(alloc, doc, tokens.as_slice())?;
    Ok(Found::Nodes(ordered(alloc, doc, ys)?))
}

/// The same for the string value of a row.
pub(crate) fn elements_by_id_at(alloc: Global, doc: &Doc<'_>, y: u32) -> Result<Found, EvalRefusal>
    requires { y < length doc.now }
    ensures value { Answers result (elements_by_id doc.now (Nodes (y ∷ []))) }
    ensures rows { IfOk result (IsOver doc.now) }
{
    let own = Found::Nodes(one(alloc, y)?);
    elements_by_id(alloc, doc, &own)
}
