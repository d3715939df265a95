//! The rows of a document, from its events.
ghost use Rattle.std.specs.Prelude.{◌≡◌, ◌<◌, ◌≤◌, [], ◌∷◌, length, reverse, option_map, IfSome, MatchOption};
ghost use Rattle.xml_syntax.specs.Seen.{seen, seen_all, seen_tag};
ghost use Rattle.xml_syntax.specs.Tree as tree;
ghost use Rattle.xml_syntax.specs.Tree.{Content};
ghost use Rattle.xml_resolve.specs.Resolve.{Name, Resolved, element_name, resolve};
ghost use Rattle.xml_resolve.specs.Rows.{element_row, first_bindings, rows_of};
ghost use Rattle.xml_resolve.specs.Limits.{row_limit};
ghost use Rattle.xml_resolve.specs.SeenRows.{Builds, Finds, Makes, seen_open};
ghost use Rattle.xml_resolve.specs.Code.SeenRows.{AddsFound, Fills, TakesEvent};
ghost use Rattle.xml_resolve.specs.Table.{all_rows, bound_by, built, no_stack, tag_rows};

use crate::attributes::{bindings_behind, declares_any, ordered, rising};
use crate::bindings::Bindings;
use crate::fault::RowFault;
use crate::open::OpenElements;
use crate::rows::{
    close_row, plain, push_attributes, push_namespaces, push_node, push_rising, push_row, push_text,
};
use bumpalo::Bump;
use std::alloc::Global;
use xml_doc::{Kind, Row, RowList};
use xml_names::split_qname;
use xml_syntax::{Event, Tag};

/// An element's name: its prefix, its local name and its namespace name.
#[tactic(auto, unfolding(crate::specs::Resolve::element_name))]
fn name_in<'a>(
    bindings: &Bindings<'a>,
    text: &'a str,
) -> Result<(&'a str, &'a str, &'a str), RowFault>
    ensures { Finds (λ x. record { prefix = x.0.now; local = x.1.now; uri = x.2.now }) result
        (element_name (bound_by bindings.now) text.now) }
{
    let Some((prefix, local)) = split_qname(text) else {
        return Err(RowFault::Namespaces);
    };
    match bindings.get(prefix) {
        Some(uri) => Ok((prefix, local, uri)),
        None => {
            if prefix.is_empty() {
                Ok((prefix, local, ""))
            } else {
                Err(RowFault::Namespaces)
            }
        }
    }
}

/// Adds the row of an element, which is completed at its end.
fn push_element<'a>(
    rows: &mut RowList<'a>,
    parent: u32,
    bindings: &Bindings<'a>,
    tag: &Tag<'a>,
) -> Result<(), RowFault>
    requires { length rows.old ≤ row_limit }
    ensures { AddsFound result rows.old rows.new (option_map
        (λ (n : Name). element_row parent (length rows.old) n tag.now.from tag.now.body_from 0 tag.now.is_empty ∷ [])
        (element_name (bound_by bindings.now) tag.now.name.now)) }
{
    let (prefix_text, local_name, uri) = name_in(bindings, tag.name)?;
    let number = rows.len() as u32;
    push_row(
        rows,
        Row {
            prefix_text,
            uri,
            tag_from: tag.from,
            body_from: tag.body_from,
            empty_tag: tag.is_empty,
            ..plain(Kind::Element, parent, number, local_name, "")
        },
    )
}

/// Adds the rows of a tag: of its element, of the namespaces in scope in it, and of its attributes.
#[tactic(auto, unfolding(crate::specs::Table::tag_rows))]
fn push_tag<'a>(
    alloc: Global,
    bump: &'a Bump,
    rows: &mut RowList<'a>,
    parent: u32,
    bindings: &Bindings<'a>,
    tag: &Tag<'a>,
) -> Result<(), RowFault>
    requires { length rows.old ≤ row_limit }
    ensures { AddsFound result rows.old rows.new (tag_rows parent (length rows.old) bindings.now (seen_tag tag.now)) }
{
    let number = rows.len() as u32;
    push_element(rows, parent, bindings, tag)?;
    push_namespaces(rows, number, bindings.pairs())?;
    match rising(alloc, bump, bindings, &tag.attributes)? {
        Some(list) => push_rising(rows, number, &list),
        None => {
            let attributes = ordered(alloc, bump, bindings, &tag.attributes)?;
            push_attributes(rows, number, &attributes)
        }
    }
}

/// Adds the rows of a tag, and opens its element.
fn start_element<'a>(
    alloc: Global,
    bump: &'a Bump,
    first: &Bindings<'a>,
    elements: &mut OpenElements<'a>,
    rows: &mut RowList<'a>,
    tag: &Tag<'a>,
) -> Result<(), RowFault>
    requires few { length rows.old ≤ row_limit }
    requires first { first.now ≡ first_bindings }
    ensures { TakesEvent result (seen_open elements.old) (seen_open elements.new) rows.old rows.new (tree.Start (seen_tag tag.now)) }
{
    let number = rows.len() as u32;
    let parent = elements.parent();
    if declares_any(&tag.attributes) {
        let own = bindings_behind(bump, elements.bindings(first), &tag.attributes)?;
        push_tag(alloc, bump, rows, parent, &own, tag)?;
        elements.open_with(number, own)
    } else {
        push_tag(alloc, bump, rows, parent, elements.bindings(first), tag)?;
        elements.open_within(number)
    }
}

/// Takes an event, where these elements are open.
#[tactic(auto, unfolding(crate::specs::Table::built))]
fn take_event<'a>(
    alloc: Global,
    bump: &'a Bump,
    first: &Bindings<'a>,
    elements: &mut OpenElements<'a>,
    rows: &mut RowList<'a>,
    event: &Event<'a>,
) -> Result<(), RowFault>
    requires few { length rows.old ≤ row_limit }
    requires first { first.now ≡ first_bindings }
    ensures { TakesEvent result (seen_open elements.old) (seen_open elements.new) rows.old rows.new (seen event.now) }
{
    match event {
        Event::Start(tag) => start_element(alloc, bump, first, elements, rows, tag),
        Event::End(until) => {
            let number = elements.parent();
            elements.close();
            close_row(rows, number, *until);
            Ok(())
        }
        Event::Text(text) => push_text(bump, rows, elements.parent(), text),
        Event::Comment(text) => push_node(bump, rows, elements.parent(), Kind::Comment, "", text),
        Event::Instruction(pi) => push_node(
            bump,
            rows,
            elements.parent(),
            Kind::Instruction,
            pi.target,
            &pi.value,
        ),
    }
}

/// After how many events the memory of those that were taken is given back.
const SHARE: usize = 4096;

/// Takes the first of the events that are left, of which the list has the first last.
fn next_event<'a>(left: &mut Vec<Event<'a>>) -> Option<Event<'a>>
    ensures first { MatchOption result (left.old.items ≡ [])
        (λ event. reverse left.old.items ≡ event ∷ reverse left.new.items) }
    ensures fewer { IfSome result (λ _. length left.new.items < length left.old.items) }
{
    let event = left.pop();
    if left.len() % SHARE == 0 {
        left.shrink_to_fit();
    }
    event
}

/// Adds the rows that stand below the root. Each event is let go once it is taken.
#[tactic(auto, unfolding(crate::specs::Table::built))]
fn fill<'a>(
    alloc: Global,
    bump: &'a Bump,
    rows: &mut RowList<'a>,
    events: Vec<Event<'a>>,
) -> Result<(), RowFault>
    requires { length rows.old ≤ row_limit }
    ensures { Fills result rows.new (built no_stack rows.old (seen_all events.entry.items)) }
{
    let first = Bindings::first(alloc)?;
    let mut elements = OpenElements::new(alloc);
    let mut left = events;
    left.reverse();
    while let Some(event) = next_event(&mut left) {
        take_event(alloc, bump, &first, &mut elements, rows, &event)?;
    }
    Ok(())
}

/// All rows that the events make.
fn build<'a>(alloc: Global, bump: &'a Bump, events: Vec<Event<'a>>) -> Result<RowList<'a>, RowFault>
    ensures { Makes result (all_rows (seen_all events.entry.items)) }
{
    let mut rows = RowList::new(alloc);
    push_row(&mut rows, plain(Kind::Root, 0, 0, "", ""))?;
    fill(alloc, bump, &mut rows, events)?;
    close_row(&mut rows, 0, 0);
    Ok(rows)
}

/// The rows that events make, with their texts in the document or in the arena. Of the events of a tree whose names can be resolved, as
/// [`check_names`](crate::check_names) tells, they are the rows of the tree: those of XPath 1.0 §5 in document order.
///
/// Events and rows are not held together: the memory of events that were taken is given back while rows are made.
///
/// # Errors
///
/// `TooManyRows` exactly where there are more than 1,000,000 rows, unless memory runs out first: it is tested before a row is
/// added, so that no more are ever held. `Namespaces` only where a name can't be resolved. `Memory` where memory runs out.
pub fn build_rows<'a>(
    alloc: Global,
    bump: &'a Bump,
    events: Vec<Event<'a>>,
) -> Result<RowList<'a>, RowFault>
    ensures exact { Makes result (all_rows (seen_all events.entry.items)) }
    ensures tree { (t : Content) (r : Resolved) → seen_all events.entry.items ≡ tree.events t → resolve [] t ≡ Some r → Builds result (rows_of r) }
{
    build(alloc, bump, events)
}
