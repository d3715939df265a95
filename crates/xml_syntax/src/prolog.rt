//! White space, comments and instructions around the document element (XML 1.0 §2.8).
ghost use Rattle.std.specs.Prelude.{◌≡◌, length, suc};
ghost use Rattle.xml_syntax.specs.Reading.{misc_follows, misc_part_of, misc_of};
ghost use Rattle.xml_syntax.specs.Seen.{seen_all, AddsContent};

use crate::class::Class;
use crate::cursor::Cursor;
use crate::event::Event;
use crate::fault::SyntaxFault;
use crate::item::{comment, instruction};
use crate::parts::skip_space;
use std::alloc::Global;

// Whether a part comes next.
fn misc_follows(cursor: &Cursor<'_>) -> bool
    ensures { result ≡ misc_follows cursor.now }
{
    cursor.passes(Class::Space)
        || cursor.begins_with(&['<', '!', '-', '-'])
        || cursor.begins_with(&['<', '?'])
}

// White space, a comment or an instruction.
#[tactic(auto, unfolding(crate::specs::Reading::misc_part_of))]
fn misc_part<'a>(
    alloc: Global,
    cursor: &mut Cursor<'a>,
    events: &mut Vec<Event<'a>>,
) -> Result<(), SyntaxFault>
    ensures { AddsContent result (seen_all events.old.items) (seen_all events.new.items) cursor.new (misc_part_of cursor.old) }
{
    if cursor.passes(Class::Space) {
        skip_space(cursor);
        return Ok(());
    }
    if cursor.begins_with(&['<', '?']) {
        let instruction = instruction(alloc, cursor)?;
        events.push(Event::Instruction(instruction))?;
        return Ok(());
    }
    let text = comment(alloc, cursor)?;
    events.push(Event::Comment(text))?;
    Ok(())
}

/// Any number of white space, comments and instructions.
pub fn misc<'a>(
    alloc: Global,
    cursor: &mut Cursor<'a>,
    events: &mut Vec<Event<'a>>,
) -> Result<(), SyntaxFault>
    ensures { AddsContent result (seen_all events.old.items) (seen_all events.new.items) cursor.new
        (misc_of (suc (length cursor.old)) cursor.old) }
{
    while misc_follows(cursor) {
        misc_part(alloc, cursor, events)?;
    }
    Ok(())
}
