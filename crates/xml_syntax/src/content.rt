//! The content of the open elements.
ghost use Rattle.std.specs.Prelude.{◌≡◌, ◌++◌, OnOk, length};
ghost use Rattle.xml_syntax.specs.Reading.{left_of};
ghost use Rattle.xml_syntax.specs.Seen.{seen_item, seen_open, seen_all, text_events, AddsLeft};
ghost use Rattle.xml_syntax.specs.Code.Seen.{TakesItem, seen_pending};

use crate::cursor::Cursor;
use crate::event::Event;
use crate::fault::SyntaxFault;
use crate::item::{Item, markup, text, text_follows};
use crate::pending::Pending;
use std::alloc::{AllocError, Global};

// Opens or closes an element where the item does, and adds the item's events.
fn take_item<'a>(
    stack: &mut Vec<&'a str>,
    events: &mut Vec<Event<'a>>,
    item: Item<'a>,
) -> Result<(), SyntaxFault>
    ensures { TakesItem result (seen_item item.entry) (seen_open stack.old.items) (seen_open stack.new.items) (seen_all events.old.items)
        (seen_all events.new.items) }
{
    match item {
        Item::Comment(text) => events.push(Event::Comment(text))?,
        Item::Instruction(instruction) => events.push(Event::Instruction(instruction))?,
        Item::Empty(tag, until) => {
            events.push(Event::Start(tag))?;
            events.push(Event::End(until))?;
        }
        Item::Start(tag) => {
            stack.push(tag.name)?;
            events.push(Event::Start(tag))?;
        }
        Item::End(name, from) => {
            let closed = match stack.pop() {
                Some(top) => name == top,
                None => false,
            };
            if !closed {
                return Err(SyntaxFault::NotWellFormed);
            }
            events.push(Event::End(from))?;
        }
    }
    Ok(())
}

// Adds the event of a text that ends here, unless it is empty.
fn add_text<'a>(
    alloc: Global,
    events: &mut Vec<Event<'a>>,
    pending: Pending<'a>,
) -> Result<(), AllocError>
    ensures { OnOk result (seen_all events.new.items ≡ seen_all events.old.items ++ text_events (seen_pending pending.entry)) }
{
    let text = pending.into_text(alloc)?;
    if !text.as_str().is_empty() {
        events.push(Event::Text(text))?;
    }
    Ok(())
}

/// Reads what is left of the open elements.
pub fn read_open<'a>(
    alloc: Global,
    cursor: &mut Cursor<'a>,
    stack: &mut Vec<&'a str>,
    events: &mut Vec<Event<'a>>,
) -> Result<(), SyntaxFault>
    ensures { AddsLeft result (seen_all events.old.items) (seen_all events.new.items) cursor.new
        (left_of (length cursor.old) (seen_open stack.old.items) cursor.old) }
{
    let mut pending = Pending::new(alloc);
    while !stack.is_empty() {
        if text_follows(cursor) {
            text(cursor, &mut pending)?;
        } else {
            let item = markup(alloc, cursor)?;
            add_text(alloc, events, pending)?;
            pending = Pending::new(alloc);
            take_item(stack, events, item)?;
        }
    }
    Ok(())
}
