//! What stands in content: characters, comments, instructions and tags.
ghost use Rattle.std.specs.Prelude.{◌≡◌};
ghost use Rattle.std.specs.String.{string_bytes};
ghost use Rattle.xml_syntax.specs.Characters.{begins};
ghost use Rattle.xml_syntax.specs.Reading.{plain_of, char_data_of, section_of, comment_of, instruction_value_of, instruction_of, text_follows, text_of, markup_of};
ghost use Rattle.xml_syntax.specs.Classes.{is_in_any_case};
ghost use Rattle.xml_syntax.specs.Seen.{Gives, Adds, seen_item, seen_instruction};
ghost use Rattle.xml_syntax.specs.Code.Seen.{seen_pending};
ghost use Rattle.std.specs.Prelude.{codes};

use crate::class::Class;
use crate::cursor::Cursor;
use crate::event::{Instruction, Tag};
use crate::fault::SyntaxFault;
use crate::literal::{add_until, literal, until};
use crate::parts::{name, one, skip_space};
use crate::pending::Pending;
use crate::reference::reference;
use crate::run::Run;
use crate::tag::tag;
use std::alloc::Global;

/// What stands next in content, where it isn't characters.
#[derive(Debug, Drop)]
pub enum Item<'a> {
    /// A comment's text.
    Comment(String),
    /// A processing instruction.
    Instruction(Instruction<'a>),
    /// An empty-element tag, and the offset behind it.
    Empty(Tag<'a>, u32),
    /// A start tag.
    Start(Tag<'a>),
    /// An end tag: its name and its offset.
    End(&'a str, u32),
}

// What is left of the longest run of character data.
fn plain_rest(cursor: &mut Cursor<'_>, into: &mut String) -> Result<(), SyntaxFault>
    ensures { Adds result (string_bytes into.old) (string_bytes into.new) cursor.new (plain_of cursor.old) }
{
    while cursor.passes(Class::Plain) {
        if cursor.begins_with(&[']', ']', '>']) {
            return Err(SyntaxFault::NotWellFormed);
        }
        let c = one(cursor, Class::Plain)?;
        into.push(c)?;
        let run = cursor.run(Run::Text);
        into.push_str(run)?;
    }
    Ok(())
}

// The longest run of character data.
fn plain<'a>(cursor: &mut Cursor<'a>, into: &mut Pending<'a>) -> Result<(), SyntaxFault>
    ensures { Adds result (seen_pending into.old) (seen_pending into.new) cursor.new (plain_of cursor.old) }
{
    let run = cursor.run(Run::Text);
    into.add_run(run)?;
    plain_rest(cursor, &mut into.made)
}

// CharData (XML 1.0 §2.4).
#[tactic(auto, unfolding(crate::specs::Reading::char_data_of))]
fn char_data<'a>(cursor: &mut Cursor<'a>, into: &mut Pending<'a>) -> Result<(), SyntaxFault>
    ensures { Adds result (seen_pending into.old) (seen_pending into.new) cursor.new (char_data_of cursor.old) }
{
    if !cursor.passes(Class::Plain) {
        return Err(SyntaxFault::NotWellFormed);
    }
    plain(cursor, into)
}

// A CDATA section (XML 1.0 §2.7).
#[tactic(auto, unfolding(crate::specs::Reading::section_of))]
fn section(cursor: &mut Cursor<'_>, into: &mut String) -> Result<(), SyntaxFault>
    ensures { Adds result (string_bytes into.old) (string_bytes into.new) cursor.new (section_of cursor.old) }
{
    literal(cursor, &['<', '!', '[', 'C', 'D', 'A', 'T', 'A', '['])?;
    add_until(cursor, &[']', ']', '>'], into)?;
    literal(cursor, &[']', ']', '>'])?;
    Ok(())
}

// Adds a CDATA section.
fn add_section(cursor: &mut Cursor<'_>, into: &mut Pending<'_>) -> Result<(), SyntaxFault>
    ensures { Adds result (seen_pending into.old) (seen_pending into.new) cursor.new (section_of cursor.old) }
{
    section(cursor, &mut into.made)
}

/// A comment (XML 1.0 §2.5).
#[tactic(auto, unfolding(crate::specs::Reading::comment_of))]
pub fn comment(alloc: Global, cursor: &mut Cursor<'_>) -> Result<String, SyntaxFault>
    ensures { Gives (λ text. string_bytes text) result cursor.new (comment_of cursor.old) }
{
    literal(cursor, &['<', '!', '-', '-'])?;
    let text = until(alloc, cursor, &['-', '-'])?;
    literal(cursor, &['-', '-', '>'])?;
    Ok(text)
}

// What follows the target of an instruction.
#[tactic(auto, unfolding(crate::specs::Reading::instruction_value_of))]
fn instruction_value(alloc: Global, cursor: &mut Cursor<'_>) -> Result<String, SyntaxFault>
    ensures { Gives (λ text. string_bytes text) result cursor.new (instruction_value_of cursor.old) }
{
    let mut value = String::new(alloc);
    if cursor.passes(Class::Space) {
        skip_space(cursor);
        add_until(cursor, &['?', '>'], &mut value)?;
    }
    literal(cursor, &['?', '>'])?;
    Ok(value)
}

// Whether the target is one that no instruction may have.
fn is_reserved(target: &str) -> bool
    ensures { result ≡ is_in_any_case (codes "xml") target.now }
{
    target.eq_ignore_ascii_case("xml")
}

/// A processing instruction (XML 1.0 §2.6).
#[tactic(auto, unfolding(crate::specs::Reading::instruction_of))]
pub fn instruction<'a>(
    alloc: Global,
    cursor: &mut Cursor<'a>,
) -> Result<Instruction<'a>, SyntaxFault>
    ensures { Gives seen_instruction result cursor.new (instruction_of cursor.old) }
{
    literal(cursor, &['<', '?'])?;
    let target = name(cursor)?;
    if is_reserved(target) {
        return Err(SyntaxFault::NotWellFormed);
    }
    let value = instruction_value(alloc, cursor)?;
    Ok(Instruction { target, value })
}

/// Whether characters, or what stands for some, come next.
pub fn text_follows(cursor: &Cursor<'_>) -> bool
    ensures { result ≡ text_follows cursor.now }
{
    if cursor.sees_tag() {
        return false;
    }
    if cursor.begins('<') {
        cursor.begins_with(&['<', '!', '['])
    } else {
        true
    }
}

/// Adds characters, or what a reference or a CDATA section stands for.
#[tactic(auto, unfolding(crate::specs::Reading::text_of))]
pub fn text<'a>(cursor: &mut Cursor<'a>, into: &mut Pending<'a>) -> Result<(), SyntaxFault>
    ensures { Adds result (seen_pending into.old) (seen_pending into.new) cursor.new (text_of cursor.old) }
{
    if cursor.begins('<') {
        return add_section(cursor, into);
    }
    if cursor.begins('&') {
        let c = reference(cursor)?;
        into.add(c)?;
        return Ok(());
    }
    char_data(cursor, into)
}

/// A comment, an instruction or a tag.
#[tactic(auto, unfolding(crate::specs::Reading::markup_of))]
pub fn markup<'a>(alloc: Global, cursor: &mut Cursor<'a>) -> Result<Item<'a>, SyntaxFault>
    ensures { Gives seen_item result cursor.new (markup_of cursor.old) }
{
    if cursor.sees_tag() {
        return tag(alloc, cursor);
    }
    if cursor.begins_with(&['<', '!']) {
        let text = comment(alloc, cursor)?;
        return Ok(Item::Comment(text));
    }
    if cursor.begins_with(&['<', '?']) {
        let instruction = instruction(alloc, cursor)?;
        return Ok(Item::Instruction(instruction));
    }
    tag(alloc, cursor)
}
