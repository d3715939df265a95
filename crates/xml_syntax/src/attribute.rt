//! The attributes of a tag (XML 1.0 §3.1).
ghost use Rattle.std.specs.Prelude.{◌≡◌, ◌&&◌, length, suc, true, IfOk};
ghost use Rattle.std.specs.String.{string_bytes};
ghost use Rattle.xml_syntax.specs.Characters.{behind, passes_next};
ghost use Rattle.xml_syntax.specs.Classes.{is_quote, is_space, value_code};
ghost use Rattle.xml_names.specs.Characters.{is_name_start};
ghost use Rattle.xml_syntax.specs.Grammar.{are_apart, has_name};
ghost use Rattle.xml_syntax.specs.Reading.{value_part_of, value_of, attribute_of, attributes_of};
ghost use Rattle.xml_syntax.specs.Seen.{Gives, Adds, seen_attribute, seen_attributes, seen_text};

use crate::class::Class;
use crate::cursor::Cursor;
use crate::event::{Attribute, Text};
use crate::fault::SyntaxFault;
use crate::parts::{mark, name, quote, skip_space};
use crate::reference::reference;
use crate::run::Run;
use std::alloc::{AllocError, Global};
use std::collections::BTreeSet;
use xml_names::is_char;

// A literal character of a value, as it is normalized.
fn in_value(c: char) -> char
    ensures { result ≡ value_code c }
{
    if c == '\t' || c == '\n' { ' ' } else { c }
}

// Adds one character or reference of a value.
#[tactic(auto, unfolding(crate::specs::Reading::value_part_of))]
fn value_part(cursor: &mut Cursor<'_>, quote: char, into: &mut String) -> Result<(), SyntaxFault>
    ensures { Adds result (string_bytes into.old) (string_bytes into.new) cursor.new (value_part_of quote cursor.old) }
{
    if cursor.begins('&') {
        let c = reference(cursor)?;
        into.push(c)?;
        return Ok(());
    }
    let Some((c, _)) = cursor.next() else {
        return Err(SyntaxFault::NotWellFormed);
    };
    if c == quote || c == '<' || c == '&' || !is_char(c) {
        return Err(SyntaxFault::NotWellFormed);
    }
    into.push(in_value(c))?;
    Ok(())
}

// A value behind its opening quote, and the closing quote.
fn value<'a>(alloc: Global, cursor: &mut Cursor<'a>, quote: char) -> Result<Text<'a>, SyntaxFault>
    requires { is_quote quote ≡ true }
    ensures { Gives seen_text result cursor.new (value_of quote (length cursor.old) cursor.old) }
{
    let run = cursor.run(Run::Value);
    if cursor.begins(quote) {
        cursor.next();
        return Ok(Text::Plain(run));
    }
    let mut value = String::new(alloc);
    value.push_str(run)?;
    while !cursor.begins(quote) {
        value_part(cursor, quote, &mut value)?;
        let run = cursor.run(Run::Value);
        value.push_str(run)?;
    }
    cursor.next();
    Ok(Text::Made(value))
}

#[tactic(auto, unfolding(crate::specs::Reading::attribute_of))]
fn attribute<'a>(alloc: Global, cursor: &mut Cursor<'a>) -> Result<Attribute<'a>, SyntaxFault>
    ensures { Gives seen_attribute result cursor.new (attribute_of cursor.old) }
{
    let name = name(cursor)?;
    skip_space(cursor);
    mark(cursor, '=')?;
    skip_space(cursor);
    let quote = quote(cursor)?;
    let value = value(alloc, cursor, quote)?;
    Ok(Attribute { name, value })
}

// Takes white space, and tells whether an attribute follows some.
fn attribute_follows(cursor: &mut Cursor<'_>) -> bool
    ensures follows { result ≡ (passes_next is_space cursor.old && passes_next is_name_start (behind is_space cursor.old)) }
    ensures rest { cursor.new ≡ behind is_space cursor.old }
{
    let spaced = cursor.passes(Class::Space);
    skip_space(cursor);
    spaced && cursor.passes(Class::NameStart)
}

/// The attributes of a tag, and the white space behind them.
pub fn attributes<'a>(
    alloc: Global,
    cursor: &mut Cursor<'a>,
) -> Result<Vec<Attribute<'a>>, SyntaxFault>
    ensures { Gives (λ v. seen_attributes v.items) result cursor.new (attributes_of (suc (length cursor.old)) cursor.old) }
{
    let mut list = Vec::new(alloc);
    while attribute_follows(cursor) {
        let next = attribute(alloc, cursor)?;
        list.push(next)?;
    }
    list.shrink_to_fit();
    Ok(list)
}

// Up to how many names are compared with one another, without a set.
const FEW: usize = 32;

// Whether one of the attributes has this name.
fn has_name(name: &str, list: &[Attribute<'_>]) -> bool
    ensures { result ≡ has_name name.now (seen_attributes list.now) }
{
    match list {
        [] => false,
        [first, others @ ..] => {
            if name == first.name {
                true
            } else {
                has_name(name, others)
            }
        }
    }
}

// Whether no name stands twice among a few.
fn few_differ(list: &[Attribute<'_>]) -> bool
    ensures { result ≡ are_apart (seen_attributes list.now) }
{
    match list {
        [] => true,
        [first, others @ ..] => {
            if has_name(first.name, others) {
                false
            } else {
                few_differ(others)
            }
        }
    }
}

/// Whether no name stands twice.
pub fn names_differ(alloc: Global, list: &[Attribute<'_>]) -> Result<bool, AllocError>
    ensures { IfOk result (λ differ. differ ≡ are_apart (seen_attributes list.now)) }
{
    if list.len() <= FEW {
        return Ok(few_differ(list));
    }
    let mut names: BTreeSet<&str> = BTreeSet::new(alloc);
    for attribute in list {
        let is_new = names.insert(attribute.name)?;
        if !is_new {
            return Ok(false);
        }
    }
    Ok(true)
}
