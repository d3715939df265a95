//! A whole document.
ghost use Rattle.std.specs.Prelude.{◌≡◌, ◌+◌, ◌^◌, ◌<◌, ◌++◌, ◌↔◌, List, [], ◌∷◌, length, IfOk, OnOk, IsErrOf, Ok, true, false};
ghost use Rattle.std.specs.Str.{chars};
ghost use Rattle.xml_syntax.specs.Characters.{Placed, characters};
ghost use Rattle.xml_syntax.specs.Tree.{Content, events};
ghost use Rattle.xml_syntax.specs.Tree as tree;
ghost use Rattle.xml_syntax.specs.Grammar.{SpellsDocument};
ghost use Rattle.xml_syntax.specs.Reading.{behind_tag, element_of};
ghost use Rattle.xml_syntax.specs.Outcome.{is_other_encoding, names_other_encoding, has_doc_type, syntax_outcome, Answers, IsTold, NamesOtherEncoding, HasDocType, SpellsNothing};
ghost use Rattle.xml_syntax.specs.Seen.{seen_item, seen_tag, seen_all, seen_open, seen_encoding, AddsContent};

use crate::content::read_open;
use crate::cursor::Cursor;
use crate::declaration::declared;
use crate::event::{Event, Tag};
use crate::fault::SyntaxFault;
use crate::item::Item;
use crate::prolog::misc;
use crate::tag::tag;
use std::alloc::{AllocError, Global};

// The stack of one open element.
fn opened<'a>(alloc: Global, tag: &Tag<'a>) -> Result<Vec<&'a str>, AllocError>
    ensures { IfOk result (λ v. seen_open v.items ≡ tag.now.name.now ∷ []) }
{
    let mut stack = Vec::new(alloc);
    stack.push(tag.name)?;
    Ok(stack)
}

// Adds the begin of an element.
fn add_start<'a>(events: &mut Vec<Event<'a>>, tag: Tag<'a>) -> Result<(), AllocError>
    ensures { OnOk result (seen_all events.new.items ≡ seen_all events.old.items ++ tree.Start (seen_tag tag.entry) ∷ []) }
{
    events.push(Event::Start(tag))?;
    Ok(())
}

// An element behind its first tag.
#[tactic(auto, unfolding(crate::specs::Reading::behind_tag))]
fn behind_tag<'a>(
    alloc: Global,
    cursor: &mut Cursor<'a>,
    events: &mut Vec<Event<'a>>,
    item: Item<'a>,
) -> Result<(), SyntaxFault>
    ensures { AddsContent result (seen_all events.old.items) (seen_all events.new.items) cursor.new
        (behind_tag (seen_item item.entry) cursor.old) }
{
    match item {
        Item::Empty(tag, until) => {
            events.push(Event::Start(tag))?;
            events.push(Event::End(until))?;
            Ok(())
        }
        Item::Start(tag) => {
            let mut stack = opened(alloc, &tag)?;
            add_start(events, tag)?;
            read_open(alloc, cursor, &mut stack, events)
        }
        _ => Err(SyntaxFault::NotWellFormed),
    }
}

// An element.
#[tactic(auto, unfolding(crate::specs::Reading::element_of))]
fn element<'a>(
    alloc: Global,
    cursor: &mut Cursor<'a>,
    events: &mut Vec<Event<'a>>,
) -> Result<(), SyntaxFault>
    ensures { AddsContent result (seen_all events.old.items) (seen_all events.new.items) cursor.new (element_of cursor.old) }
{
    let item = tag(alloc, cursor)?;
    behind_tag(alloc, cursor, events, item)
}

// Whether the name is one of another encoding than UTF-8.
fn is_other_encoding(name: &Option<String>) -> bool
    ensures { result ≡ is_other_encoding (seen_encoding name.now) }
{
    match name {
        None => false,
        Some(name) => !name.as_str().eq_ignore_ascii_case("utf-8"),
    }
}

// A whole document.
fn document<'a>(alloc: Global, cursor: &mut Cursor<'a>) -> Result<Vec<Event<'a>>, SyntaxFault>
    ensures { Answers result (syntax_outcome cursor.old) }
{
    let encoding = declared(alloc, cursor)?;
    if is_other_encoding(&encoding) {
        return Err(SyntaxFault::Encoding);
    }
    let mut events = Vec::new(alloc);
    misc(alloc, cursor, &mut events)?;
    if cursor.begins_with(&['<', '!', 'D', 'O', 'C', 'T', 'Y', 'P', 'E']) {
        return Err(SyntaxFault::DocType);
    }
    element(alloc, cursor, &mut events)?;
    misc(alloc, cursor, &mut events)?;
    if !cursor.is_empty() {
        return Err(SyntaxFault::NotWellFormed);
    }
    Ok(events)
}

/// The events of the one tree that a document spells, in document order.
///
/// The text is the document behind its byte order mark, if it has one, and `at` is the offset of its first octet: 0, or 3
/// behind a mark. The document has fewer than 2^32 octets.
///
/// # Errors
///
/// The first of `Encoding`, `DocType` and `NotWellFormed` that holds, or `Memory` where memory runs out.
pub fn read_events<'a>(alloc: Global, text: &'a str, at: u32) -> Result<Vec<Event<'a>>, SyntaxFault>
    requires { at + length text.now < 2 ^ 32 }
    ensures exact { Answers result (syntax_outcome (characters at (chars text.now))) }
    ensures spelled { IfOk result (λ v. IsTold (characters at (chars text.now)) (seen_all v.items)) }
    ensures encoding { IsErrOf result SyntaxFault.Encoding → NamesOtherEncoding (characters at (chars text.now)) }
    ensures doc_type { IsErrOf result SyntaxFault.DocType → HasDocType (characters at (chars text.now)) }
    ensures not_well_formed { IsErrOf result SyntaxFault.NotWellFormed → SpellsNothing (characters at (chars text.now)) }
{
    let mut cursor = Cursor::new(text, at);
    document(alloc, &mut cursor)
}
