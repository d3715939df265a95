//! The nearest `xml:` attributes of each name, kept for parts of the stack of them.
//!
//! An element of the set whose parent is outside it imports the nearest `xml:` attribute of each name above it (Canonical XML 1.0
//! §2.4). So that it needn't go through the whole stack, the nearest are kept for parts of it that begin at its bottom. Each part
//! has as many entries more than the one before it as are kept of that one, or [`FEW`]: then the entries above the last part are
//! no more than an element imports, or a few, and all that is kept is at most twice as long as the stack.
ghost use Rattle.std.specs.Prelude.{◌≡◌, ◌<◌, ◌≤◌, ◌+◌, ◌++◌, ℕ, List, true, length, take, reverse, vec_capacity, IfSome};
ghost use Rattle.std.specs.List.{All, between, filter};
ghost use Rattle.xml_doc.specs.Fields.{OwnRowsStand};
ghost use Rattle.xml_doc.specs.Rows.{RowOf};
ghost use Rattle.node_sets.specs.View.{in_view};
ghost use Rattle.c14n_text.specs.Rows.{parent_of};
ghost use Rattle.c14n_text.specs.Namespaces.{Rule};
ghost use Rattle.c14n_text.specs.Attributes.{is_xml, in_order};
ghost use Rattle.c14n_rows.specs.Rules.{rule_of};
ghost use Rattle.c14n_rows.specs.Stacks.{OrderedAt};
ghost use Rattle.c14n_rows.specs.Code.Order.{may_import};
ghost use Rattle.c14n_rows.specs.Code.Nearest.{last_part, nearest_of, IsNext, NearestAt};
ghost use Rattle.c14n_rows.specs.Code.Stacks.{Keeps, KeepsOrdered, StacksAt};

use crate::attributes::imports_attributes;
use crate::imports::{Ordered, merge, push_import, push_imports};
use crate::namespaces::Method;
use crate::stacks::Stacks;
use node_sets::SetView;
use xml_doc::{Doc, OwnRows};

/// How many entries a part has more than the one before it at least.
pub(crate) const FEW: usize = 16;

/// The root, which has no attributes: what a rule imports at all may be imported to it.
const ROOT: u32 = 0;

/// For the first entries of the stack of `xml:` attributes: where the nearest of each name are kept.
#[derive(Clone, Copy)]
pub(crate) struct Part {
    /// How many entries it has.
    pub count: usize,
    /// The place of the first row that is kept.
    pub from: usize,
    /// The place behind the last one.
    pub until: usize,
}

/// What is kept, in memory of a fixed size.
#[derive(Drop)]
pub(crate) struct Nearest {
    /// The rows, part by part, and those of one part in order.
    pub rows: Vec<u32>,
    /// The parts, of which none is shorter than the one before it.
    pub parts: Vec<Part>,
    /// How many of the parts there are now.
    pub used: usize,
}

/// The longest part; one without an entry, where there is none.
fn last_part(nearest: &Nearest) -> Part
    requires { nearest.now.used ≤ length nearest.now.parts.items }
    ensures { result ≡ last_part nearest.now }
{
    if nearest.used == 0 {
        Part {
            count: 0,
            from: 0,
            until: 0,
        }
    } else {
        nearest.parts[nearest.used - 1]
    }
}

/// Forgets the parts that have more than `count` entries.
pub(crate) fn forget(nearest: &mut Nearest, count: usize)
    requires { nearest.old.used ≤ length nearest.old.parts.items }
    ensures { (rows : List RowOf) (rule : Rule) (xml : List ℕ) → NearestAt rows rule xml nearest.old
        → NearestAt rows rule (take count xml) nearest.new }
{
    while last_part(nearest).count > count {
        nearest.used -= 1;
    }
}

/// How many entries the next part has, where the stack has so many.
fn next_count(nearest: &Nearest, entries: usize) -> Option<usize>
    requires used { nearest.now.used ≤ length nearest.now.parts.items }
    requires ordered { (last_part nearest.now).from ≤ (last_part nearest.now).until }
    requires few { (last_part nearest.now).count ≤ entries }
    ensures { IfSome result (IsNext nearest.now entries) }
{
    let last = last_part(nearest);
    let more = (last.until - last.from).max(FEW);
    if more <= entries - last.count {
        Some(last.count + more)
    } else {
        None
    }
}

/// Appends those of these `xml:` attributes that may be imported to element `x`.
fn push_kept(
    doc: &Doc<'_>,
    method: Method<'_, '_>,
    own: OwnRows,
    x: u32,
    kept: &[u32],
    attributes: &mut Vec<u32>,
)
    requires own { OwnRowsStand doc.now x own.first_attribute own.first_child }
    requires fit { All (λ a. a < length doc.now) kept.now }
    requires are { All (λ a. is_xml doc.now a ≡ true) kept.now }
    requires room { length attributes.old.items + length kept.now ≤ vec_capacity attributes.old }
    ensures items { attributes.new.items ≡ attributes.old.items ++ filter (may_import doc.now (rule_of method.entry) x) kept.now }
    ensures capacity { vec_capacity attributes.old ≤ vec_capacity attributes.new }
{
    for a in kept {
        push_import(doc, method, own, x, *a, attributes);
    }
}

/// Appends in order those that may be imported to element `x` of these `xml:` attributes, of which the nearest stand last: from
/// the last part, and from the entries above it.
pub(crate) fn push_nearest(
    doc: &Doc<'_>,
    method: Method<'_, '_>,
    own: OwnRows,
    x: u32,
    nearest: &Nearest,
    xml: &[u32],
    ordered: &mut Ordered,
)
    requires own { OwnRowsStand doc.now x own.first_attribute own.first_child }
    requires nearest { NearestAt doc.now (rule_of method) xml.now nearest.now }
    requires xml_fit { All (λ a. a < length doc.now) xml.now }
    requires xml_are { All (λ a. is_xml doc.now a ≡ true) xml.now }
    requires fit { All (λ a. a < length doc.now) ordered.old.attributes.items }
    requires room { length ordered.old.attributes.items + length xml.now ≤ vec_capacity ordered.old.attributes }
    requires spare { length ordered.old.attributes.items + length xml.now ≤ vec_capacity ordered.old.spare }
    ensures attributes { ordered.new.attributes.items ≡ ordered.old.attributes.items
        ++ in_order doc.now (filter (may_import doc.now (rule_of method.entry) x) (reverse xml.now)) }
    ensures fit { All (λ a. a < length doc.now) ordered.new.attributes.items }
    ensures few { length ordered.new.attributes.items ≤ length ordered.old.attributes.items + length xml.now }
    ensures attributes_kept { vec_capacity ordered.old.attributes ≤ vec_capacity ordered.new.attributes }
    ensures spare_kept { vec_capacity ordered.old.spare ≤ vec_capacity ordered.new.spare }
{
    let part = last_part(nearest);
    let start = ordered.attributes.len();
    push_imports(doc, method, own, x, &xml[part.count..], ordered);
    let middle = ordered.attributes.len();
    push_kept(
        doc,
        method,
        own,
        x,
        &nearest.rows[part.from..part.until],
        &mut ordered.attributes,
    );
    merge(doc, ordered, start, middle);
}

/// Writes rows from place `from` on.
fn write_rows(rows: &mut [u32], from: usize, kept: &[u32])
    requires { from + length kept.now ≤ length rows.old }
    ensures before { take from rows.new ≡ take from rows.old }
    ensures here { between from (from + length kept.now) rows.new ≡ kept.now }
    ensures count { length rows.new ≡ length rows.old }
{
    let until = from + kept.len();
    rows[from..until].copy_from_slice(kept);
}

/// Keeps these rows for a part of so many entries, where there is room for them.
fn write_part(nearest: &mut Nearest, count: usize, kept: &[u32]) -> bool
    requires used { nearest.old.used ≤ length nearest.old.parts.items }
    requires until { (last_part nearest.old).until ≤ length nearest.old.rows.items }
    ensures parts { (rows : List RowOf) (rule : Rule) (xml : List ℕ) → NearestAt rows rule xml nearest.old → count ≤ length xml
        → (last_part nearest.old).count ≤ count → kept.now ≡ nearest_of rows rule (take count xml)
        → NearestAt rows rule xml nearest.new }
    ensures last { result ≡ true → (last_part nearest.new).count ≡ count }
{
    let from = last_part(nearest).until;
    if nearest.used == nearest.parts.len() || nearest.rows.len() - from < kept.len() {
        return false;
    }
    write_rows(&mut nearest.rows, from, kept);
    let until = from + kept.len();
    nearest.parts[nearest.used] = Part { count, from, until };
    nearest.used += 1;
    true
}

/// Keeps the nearest of the first entries of the stack, so many of them, where there is room for them.
fn keep_part(
    doc: &Doc<'_>,
    method: Method<'_, '_>,
    nearest: &mut Nearest,
    xml: &[u32],
    count: usize,
    ordered: &mut Ordered,
) -> bool
    requires nearest { NearestAt doc.now (rule_of method) xml.now nearest.old }
    requires more { (last_part nearest.old).count ≤ count }
    requires few { count ≤ length xml.now }
    requires xml_fit { All (λ a. a < length doc.now) xml.now }
    requires xml_are { All (λ a. is_xml doc.now a ≡ true) xml.now }
    requires room { length xml.now ≤ vec_capacity ordered.old.attributes }
    requires spare { length xml.now ≤ vec_capacity ordered.old.spare }
    ensures nearest { NearestAt doc.now (rule_of method.entry) xml.now nearest.new }
    ensures last { result ≡ true → (last_part nearest.new).count ≡ count }
    ensures kept { KeepsOrdered ordered.old ordered.new }
{
    let _rows = doc.rows();
    let own = doc.own_rows(ROOT);
    ordered.attributes.clear();
    push_nearest(doc, method, own, ROOT, nearest, &xml[..count], ordered);
    write_part(nearest, count, &ordered.attributes)
}

/// Keeps the nearest for each part of the stack for which they are not kept yet.
fn keep_nearest(
    doc: &Doc<'_>,
    method: Method<'_, '_>,
    nearest: &mut Nearest,
    xml: &[u32],
    ordered: &mut Ordered,
)
    requires nearest { NearestAt doc.now (rule_of method) xml.now nearest.old }
    requires xml_fit { All (λ a. a < length doc.now) xml.now }
    requires xml_are { All (λ a. is_xml doc.now a ≡ true) xml.now }
    requires room { length xml.now ≤ vec_capacity ordered.old.attributes }
    requires spare { length xml.now ≤ vec_capacity ordered.old.spare }
    ensures nearest { NearestAt doc.now (rule_of method.entry) xml.now nearest.new }
    ensures kept { KeepsOrdered ordered.old ordered.new }
{
    while let Some(count) = next_count(nearest, xml.len()) {
        if !keep_part(doc, method, nearest, xml, count, ordered) {
            return;
        }
    }
}

/// Keeps the nearest where attributes are imported to row `x`, before it begins.
pub(crate) fn keep_imports(
    doc: &Doc<'_>,
    set: SetView<'_>,
    method: Method<'_, '_>,
    stacks: &mut Stacks,
    ordered: &mut Ordered,
    x: u32,
)
    requires here { x < length doc.now }
    requires stacks { StacksAt doc.now (in_view set) (rule_of method) (parent_of doc.now x) stacks.old }
    requires ordered_room { OrderedAt doc.now x ordered.old }
    ensures stacks { StacksAt doc.now (in_view set.entry) (rule_of method.entry) (parent_of doc.now x) stacks.new }
    ensures kept { Keeps stacks.old stacks.new }
    ensures ordered_kept { KeepsOrdered ordered.old ordered.new }
{
    let _rows = doc.rows();
    if imports_attributes(doc, set, method, x) {
        keep_nearest(doc, method, &mut stacks.nearest, &stacks.xml, ordered);
    }
}
