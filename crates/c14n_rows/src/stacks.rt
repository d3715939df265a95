//! What a walk keeps of the elements that are open.
//!
//! An element that is open leaves a slot for each of its namespace rows and one for itself, and its `xml:` attributes.
//! They say for the rows below it what a search over the elements above would find.
ghost use Rattle.std.specs.Prelude.{◌≡◌, ◌<◌, ◌≤◌, ◌+◌, ◌-◌, ℕ, List, true, cond, length, vec_capacity, IfSome, Some, None, [], ◌∷◌, ◌++◌};
ghost use Rattle.std.specs.List.{All, find, range_with_len, filter};
ghost use Rattle.xml_doc.specs.Kinds.{is_element};
ghost use Rattle.xml_doc.specs.Fields.{is_namespace_of, OwnRowsStand};
ghost use Rattle.xml_doc.specs.Shape.{row_at};
ghost use Rattle.node_sets.specs.View.{in_view};
ghost use Rattle.c14n_text.specs.Rows.{parent_of, kind_of};
ghost use Rattle.c14n_text.specs.Code.Rows.{last_of};
ghost use Rattle.c14n_text.specs.Namespaces.{eleven};
ghost use Rattle.c14n_text.specs.Attributes.{is_xml};
ghost use Rattle.c14n_text.specs.Bases.{is_base, is_eleven};
ghost use Rattle.c14n_rows.specs.Rules.{rule_of};
ghost use Rattle.c14n_rows.specs.Joined.{PreparedFit};
ghost use Rattle.c14n_rows.specs.Stacks.{count_of, octets_of, total, upwards, IsEmpty, RoomAt};
ghost use Rattle.c14n_rows.specs.Code.Utilized.{AreMarked};
ghost use Rattle.c14n_rows.specs.Code.Stacks.{frame_start, is_named, rendered, runs_at, slots_at, values_on, xml_at, FrameAt, Keeps, KeepsRoom, SlotFits, StacksAt};

use crate::attributes::{is_element, is_xml};
use crate::bases::{Joining, is_base, is_eleven};
use crate::names::row_named;
use crate::namespaces::{Method, is_default, renders, renders_default};
use crate::nearest::{Nearest, forget};
use crate::utilized::mark_utilized;
use c14n_bases::Bases;
use node_sets::SetView;
use xml_doc::{Doc, OwnRows};

/// For a namespace row of an element that is open, or for the element itself and the default: the row of the prefix, in the
/// set, of the nearest element from it upwards that counts for the prefix.
#[derive(Clone, Copy)]
pub(crate) struct Slot {
    pub row: u32,
    pub near: Option<u32>,
}

/// What an open element left: the slots of its namespace rows, and what is rendered for the default.
#[derive(Clone, Copy)]
pub(crate) struct Frame<'s> {
    pub default: Option<u32>,
    pub slots: &'s [Slot],
}

/// What the open elements left.
#[derive(Drop)]
pub(crate) struct Stacks {
    pub slots: Vec<Slot>,
    pub xml: Vec<u32>,
    /// The nearest of the rows of `xml`.
    pub nearest: Nearest,
    pub runs: Vec<u32>,
    /// The values of those rows of `runs` that are no elements.
    pub prepared: Bases,
    /// Of the namespace rows of the element that begins: whether an attribute of it utilizes the prefix.
    pub marks: Vec<bool>,
    pub joining: Joining,
}

/// The first of the namespace rows from `from` to before `until` that is in the set and is that of the default.
fn default_row(doc: &Doc<'_>, set: SetView<'_>, from: u32, until: u32) -> Option<u32>
    requires { until ≤ length doc.now }
    ensures value { result ≡ find (is_named doc.now (in_view set.entry) []) (range_with_len from (until - from)) }
    ensures there { IfSome result (λ z. z < length doc.now) }
{
    for z in from..until {
        if is_default(doc, set, z) {
            return Some(z);
        }
    }
    None
}

/// How many slots stand on the stack up to the own one of the parent of row `x`.
fn frame_start(
    doc: &Doc<'_>,
    set: SetView<'_>,
    method: Method<'_, '_>,
    slots: &[Slot],
    x: u32,
) -> usize
    requires here { x < length doc.now }
    requires slots_are { slots.now ≡ slots_at doc.now (in_view set) (rule_of method) (parent_of doc.now x) }
    ensures value { result ≡ frame_start doc.now (in_view set.entry) (rule_of method.entry) (parent_of doc.now x) }
    ensures within { result ≤ length slots.now }
{
    let _rows = doc.rows();
    let top = doc.above(x);
    let mut i = slots.len();
    while i > 0 {
        if slots[i - 1].row == top {
            return i;
        }
        i -= 1;
    }
    0
}

/// What is rendered for the default below the parent of row `x`, whose own slot is the last before place `start`.
fn default_at(
    doc: &Doc<'_>,
    set: SetView<'_>,
    method: Method<'_, '_>,
    slots: &[Slot],
    start: usize,
    x: u32,
) -> Option<u32>
    requires here { x < length doc.now }
    requires slots_are { slots.now ≡ slots_at doc.now (in_view set) (rule_of method) (parent_of doc.now x) }
    requires slots_fit { All (SlotFits doc.now) slots.now }
    requires start { start ≡ frame_start doc.now (in_view set) (rule_of method) (parent_of doc.now x) }
    requires within { start ≤ length slots.now }
    ensures value { result ≡ rendered doc.now (in_view set.entry) (rule_of method.entry) [] (parent_of doc.now x) }
    ensures there { IfSome result (λ z. z < length doc.now) }
{
    let _rows = doc.rows();
    if start == 0 {
        None
    } else {
        slots[start - 1].near
    }
}

/// What the parent of row `x` left.
pub(crate) fn frame_above<'s>(
    doc: &Doc<'_>,
    set: SetView<'_>,
    method: Method<'_, '_>,
    slots: &'s [Slot],
    x: u32,
) -> Frame<'s>
    requires here { x < length doc.now }
    requires slots_are { slots.now ≡ slots_at doc.now (in_view set) (rule_of method) (parent_of doc.now x) }
    requires slots_fit { All (SlotFits doc.now) slots.now }
    ensures { FrameAt doc.now (in_view set.entry) (rule_of method.entry) (parent_of doc.now x) result }
{
    let _rows = doc.rows();
    let start = frame_start(doc, set, method, slots, x);
    let default = default_at(doc, set, method, slots, start, x);
    Frame {
        default,
        slots: &slots[start..],
    }
}

/// The row whose namespace is rendered for a prefix above row `x`: what its parent left for the prefix.
pub(crate) fn rendered_above(
    doc: &Doc<'_>,
    set: SetView<'_>,
    method: Method<'_, '_>,
    frame: Frame<'_>,
    x: u32,
    prefix: &str,
) -> Option<u32>
    requires here { x < length doc.now }
    requires frame { FrameAt doc.now (in_view set) (rule_of method) (parent_of doc.now x) frame }
    ensures value { result ≡ rendered doc.now (in_view set.entry) (rule_of method.entry) prefix.now (parent_of doc.now x) }
    ensures there { IfSome result (λ z. z < length doc.now) }
{
    let _rows = doc.rows();
    if prefix.is_empty() {
        return frame.default;
    }
    let top = doc.above(x);
    let until = top + 1 + frame.slots.len() as u32;
    match row_named(doc, top, until, prefix) {
        Some(z) => frame.slots[(z - top) as usize - 1].near,
        None => None,
    }
}

/// A row where it is in the set.
fn if_in_set(set: SetView<'_>, y: u32) -> Option<u32>
    ensures value { result ≡ cond (in_view set.entry y) (Some y) None }
    ensures there { (count : ℕ) → y < count → IfSome result (λ z. z < count) }
{
    if set.contains(y) { Some(y) } else { None }
}

/// The same for the rows below element `x` and the prefix of its namespace row `y`.
fn rendered_here(
    doc: &Doc<'_>,
    set: SetView<'_>,
    method: Method<'_, '_>,
    above: Frame<'_>,
    marks: &[bool],
    x: u32,
    y: u32,
) -> Option<u32>
    requires below { 0 < x }
    requires here { x < length doc.now }
    requires row { y < length doc.now }
    requires namespace { is_namespace_of doc.now x y ≡ true }
    requires marked { AreMarked doc.now (in_view set) (rule_of method) x marks.now }
    requires frame { FrameAt doc.now (in_view set) (rule_of method) (parent_of doc.now x) above }
    ensures value { result ≡ rendered doc.now (in_view set.entry) (rule_of method.entry) (row_at doc.now y).local_name x }
    ensures there { IfSome result (λ z. z < length doc.now) }
{
    let _rows = doc.rows();
    if renders(doc, set, method, marks, x, y) {
        if_in_set(set, y)
    } else {
        rendered_above(doc, set, method, above, x, doc.local_name(y))
    }
}

/// The same for the default.
fn default_here(
    doc: &Doc<'_>,
    set: SetView<'_>,
    method: Method<'_, '_>,
    above: Option<u32>,
    own: OwnRows,
    x: u32,
) -> Option<u32>
    requires below { 0 < x }
    requires here { x < length doc.now }
    requires own { OwnRowsStand doc.now x own.first_attribute own.first_child }
    requires above_is { above ≡ rendered doc.now (in_view set) (rule_of method) [] (parent_of doc.now x) }
    requires above_fits { IfSome above (λ z. z < length doc.now) }
    ensures value { result ≡ rendered doc.now (in_view set.entry) (rule_of method.entry) [] x }
    ensures there { IfSome result (λ z. z < length doc.now) }
{
    let _rows = doc.rows();
    if renders_default(doc, set, method, x) {
        default_row(doc, set, x + 1, own.first_attribute)
    } else {
        above
    }
}

/// Puts a slot on the stack, which has room for it.
fn push_slot(slots: &mut Vec<Slot>, slot: Slot)
    requires { length slots.old.items < vec_capacity slots.old }
    ensures items { slots.new.items ≡ slots.old.items ++ slot ∷ [] }
    ensures capacity { vec_capacity slots.old ≤ vec_capacity slots.new }
{
    slots.push(slot).unwrap();
}

/// Puts an attribute row on the stack, which has room for it.
pub(crate) fn push_row(xml: &mut Vec<u32>, a: u32)
    requires { length xml.old.items < vec_capacity xml.old }
    ensures items { xml.new.items ≡ xml.old.items ++ a ∷ [] }
    ensures capacity { vec_capacity xml.old ≤ vec_capacity xml.new }
{
    xml.push(a).unwrap();
}

/// Puts the slots of an element on the stack, which has those of its parent on it.
fn enter_slots(
    doc: &Doc<'_>,
    set: SetView<'_>,
    method: Method<'_, '_>,
    marks: &[bool],
    slots: &mut Vec<Slot>,
    x: u32,
)
    requires below { 0 < x }
    requires here { x < length doc.now }
    requires element { is_element (kind_of doc.now x) ≡ true }
    requires marked { AreMarked doc.now (in_view set) (rule_of method) x marks.now }
    requires slots_are { slots.old.items ≡ slots_at doc.now (in_view set) (rule_of method) (parent_of doc.now x) }
    requires slots_fit { All (SlotFits doc.now) slots.old.items }
    requires room { total (count_of doc.now) (upwards doc.now x) ≤ vec_capacity slots.old }
    ensures slots_are { slots.new.items ≡ slots_at doc.now (in_view set.entry) (rule_of method.entry) x }
    ensures slots_fit { All (SlotFits doc.now) slots.new.items }
    ensures capacity { vec_capacity slots.old ≤ vec_capacity slots.new }
{
    let _rows = doc.rows();
    let own = doc.own_rows(x);
    let base = slots.len();
    let start = frame_start(doc, set, method, slots, x);
    let default = default_at(doc, set, method, slots, start, x);
    let near = default_here(doc, set, method, default, own, x);
    push_slot(slots, Slot { row: x, near });
    for y in x + 1..own.first_attribute {
        let above = Frame {
            default,
            slots: &slots[start..base],
        };
        let near = rendered_here(doc, set, method, above, marks, x, y);
        push_slot(slots, Slot { row: y, near });
    }
}

/// Takes the slots of an element from the stack.
fn leave_slots(
    doc: &Doc<'_>,
    set: SetView<'_>,
    method: Method<'_, '_>,
    slots: &mut Vec<Slot>,
    x: u32,
)
    requires below { 0 < x }
    requires here { x < length doc.now }
    requires element { is_element (kind_of doc.now x) ≡ true }
    requires slots_are { slots.old.items ≡ slots_at doc.now (in_view set) (rule_of method) x }
    requires slots_fit { All (SlotFits doc.now) slots.old.items }
    ensures slots_are { slots.new.items ≡ slots_at doc.now (in_view set.entry) (rule_of method.entry) (parent_of doc.now x) }
    ensures slots_fit { All (SlotFits doc.now) slots.new.items }
    ensures capacity { vec_capacity slots.new ≡ vec_capacity slots.old }
{
    let _rows = doc.rows();
    let own = doc.own_rows(x);
    let kept = slots.len() - (own.first_attribute - x) as usize;
    slots.truncate(kept);
}

/// Puts the `xml:` attributes of an element on the stack, the last one first.
fn enter_xml(doc: &Doc<'_>, xml: &mut Vec<u32>, x: u32)
    requires below { 0 < x }
    requires here { x < length doc.now }
    requires element { is_element (kind_of doc.now x) ≡ true }
    requires xml_are { xml.old.items ≡ xml_at doc.now (parent_of doc.now x) }
    requires xml_fit { All (λ a. a < length doc.now) xml.old.items }
    requires room { total (count_of doc.now) (upwards doc.now x) ≤ vec_capacity xml.old }
    ensures xml_are { xml.new.items ≡ xml_at doc.now x }
    ensures xml_fit { All (λ a. a < length doc.now) xml.new.items }
    ensures capacity { vec_capacity xml.old ≤ vec_capacity xml.new }
{
    let _rows = doc.rows();
    let own = doc.own_rows(x);
    let mut a = own.first_child;
    while a > own.first_attribute {
        a -= 1;
        if is_xml(doc, a) {
            push_row(xml, a);
        }
    }
}

/// How many of the attribute rows from `from` to before `until` are of the namespace of `xml`.
fn count_xml(doc: &Doc<'_>, from: u32, until: u32) -> usize
    requires { until ≤ length doc.now }
    ensures { result ≡ length (filter (is_xml doc.now) (range_with_len from (until - from))) }
{
    let mut count = 0;
    for a in from..until {
        if is_xml(doc, a) {
            count += 1;
        }
    }
    count
}

/// Takes the `xml:` attributes of an element from the stack.
fn leave_xml(doc: &Doc<'_>, xml: &mut Vec<u32>, x: u32)
    requires below { 0 < x }
    requires here { x < length doc.now }
    requires xml_are { xml.old.items ≡ xml_at doc.now x }
    requires xml_fit { All (λ a. a < length doc.now) xml.old.items }
    ensures xml_are { xml.new.items ≡ xml_at doc.now (parent_of doc.now x) }
    ensures xml_fit { All (λ a. a < length doc.now) xml.new.items }
    ensures capacity { vec_capacity xml.new ≡ vec_capacity xml.old }
{
    let _rows = doc.rows();
    let own = doc.own_rows(x);
    let kept = xml.len() - count_xml(doc, own.first_attribute, own.first_child);
    xml.truncate(kept);
}

/// Puts on the stack what an element leaves for the runs: itself where it is in the set, and else its `xml:base` rows, the
/// last one first. The values of these are prepared.
fn enter_runs(doc: &Doc<'_>, set: SetView<'_>, runs: &mut Vec<u32>, prepared: &mut Bases, x: u32)
    requires below { 0 < x }
    requires here { x < length doc.now }
    requires element { is_element (kind_of doc.now x) ≡ true }
    requires runs_are { runs.old.items ≡ runs_at doc.now (in_view set) eleven (parent_of doc.now x) }
    requires runs_fit { All (λ b. b < length doc.now) runs.old.items }
    requires prepared_are { prepared.old.bases ≡ values_on doc.now runs.old.items }
    requires room { total (count_of doc.now) (upwards doc.now x) ≤ vec_capacity runs.old }
    requires octets { PreparedFit (total (octets_of doc.now) (upwards doc.now x)) prepared.old }
    ensures runs_are { runs.new.items ≡ runs_at doc.now (in_view set.entry) eleven x }
    ensures runs_fit { All (λ b. b < length doc.now) runs.new.items }
    ensures prepared_are { prepared.new.bases ≡ values_on doc.now runs.new.items }
    ensures capacity { vec_capacity runs.old ≤ vec_capacity runs.new }
    ensures prepared_room { KeepsRoom prepared.old prepared.new }
{
    let _rows = doc.rows();
    if set.contains(x) {
        push_row(runs, x);
        return;
    }
    let own = doc.own_rows(x);
    let mut a = own.first_child;
    while a > own.first_attribute {
        a -= 1;
        if is_base(doc, a) {
            push_row(runs, a);
            prepared.push(doc.value(a).as_bytes());
        }
    }
}

/// How many of the attribute rows from `from` to before `until` are `xml:base` rows.
fn count_bases(doc: &Doc<'_>, from: u32, until: u32) -> usize
    requires { until ≤ length doc.now }
    ensures { result ≡ length (filter (is_base doc.now) (range_with_len from (until - from))) }
{
    let mut count = 0;
    for a in from..until {
        if is_base(doc, a) {
            count += 1;
        }
    }
    count
}

/// Takes what an element left for the runs from the stack.
fn leave_runs(doc: &Doc<'_>, set: SetView<'_>, runs: &mut Vec<u32>, prepared: &mut Bases, x: u32)
    requires below { 0 < x }
    requires here { x < length doc.now }
    requires element { is_element (kind_of doc.now x) ≡ true }
    requires runs_are { runs.old.items ≡ runs_at doc.now (in_view set) eleven x }
    requires runs_fit { All (λ b. b < length doc.now) runs.old.items }
    requires prepared_are { prepared.old.bases ≡ values_on doc.now runs.old.items }
    ensures runs_are { runs.new.items ≡ runs_at doc.now (in_view set.entry) eleven (parent_of doc.now x) }
    ensures runs_fit { All (λ b. b < length doc.now) runs.new.items }
    ensures prepared_are { prepared.new.bases ≡ values_on doc.now runs.new.items }
    ensures capacity { vec_capacity runs.new ≡ vec_capacity runs.old }
    ensures prepared_room { KeepsRoom prepared.old prepared.new }
{
    let _rows = doc.rows();
    if set.contains(x) {
        let kept = runs.len() - 1;
        runs.truncate(kept);
        return;
    }
    let own = doc.own_rows(x);
    let count = count_bases(doc, own.first_attribute, own.first_child);
    let kept = runs.len() - count;
    let kept_bases = prepared.len() - count;
    runs.truncate(kept);
    prepared.truncate(kept_bases);
}

/// Puts what an element leaves for the runs on the stack, where the rule has runs.
fn enter_run(
    doc: &Doc<'_>,
    set: SetView<'_>,
    method: Method<'_, '_>,
    runs: &mut Vec<u32>,
    prepared: &mut Bases,
    x: u32,
)
    requires below { 0 < x }
    requires here { x < length doc.now }
    requires element { is_element (kind_of doc.now x) ≡ true }
    requires runs_are { runs.old.items ≡ runs_at doc.now (in_view set) (rule_of method) (parent_of doc.now x) }
    requires runs_fit { All (λ b. b < length doc.now) runs.old.items }
    requires prepared_are { prepared.old.bases ≡ values_on doc.now runs.old.items }
    requires room { total (count_of doc.now) (upwards doc.now x) ≤ vec_capacity runs.old }
    requires octets { is_eleven (rule_of method) ≡ true → PreparedFit (total (octets_of doc.now) (upwards doc.now x)) prepared.old }
    ensures runs_are { runs.new.items ≡ runs_at doc.now (in_view set.entry) (rule_of method.entry) x }
    ensures runs_fit { All (λ b. b < length doc.now) runs.new.items }
    ensures prepared_are { prepared.new.bases ≡ values_on doc.now runs.new.items }
    ensures capacity { vec_capacity runs.old ≤ vec_capacity runs.new }
    ensures prepared_room { KeepsRoom prepared.old prepared.new }
{
    let _rows = doc.rows();
    if is_eleven(method) {
        enter_runs(doc, set, runs, prepared, x);
    }
}

/// Takes it from the stack.
fn leave_run(
    doc: &Doc<'_>,
    set: SetView<'_>,
    method: Method<'_, '_>,
    runs: &mut Vec<u32>,
    prepared: &mut Bases,
    x: u32,
)
    requires below { 0 < x }
    requires here { x < length doc.now }
    requires element { is_element (kind_of doc.now x) ≡ true }
    requires runs_are { runs.old.items ≡ runs_at doc.now (in_view set) (rule_of method) x }
    requires runs_fit { All (λ b. b < length doc.now) runs.old.items }
    requires prepared_are { prepared.old.bases ≡ values_on doc.now runs.old.items }
    ensures runs_are { runs.new.items ≡ runs_at doc.now (in_view set.entry) (rule_of method.entry) (parent_of doc.now x) }
    ensures runs_fit { All (λ b. b < length doc.now) runs.new.items }
    ensures prepared_are { prepared.new.bases ≡ values_on doc.now runs.new.items }
    ensures capacity { vec_capacity runs.new ≡ vec_capacity runs.old }
    ensures prepared_room { KeepsRoom prepared.old prepared.new }
{
    let _rows = doc.rows();
    if is_eleven(method) {
        leave_runs(doc, set, runs, prepared, x);
    }
}

/// Marks the prefixes that a row's attributes utilize, before it begins.
pub(crate) fn mark_prefixes(
    doc: &Doc<'_>,
    set: SetView<'_>,
    method: Method<'_, '_>,
    stacks: &mut Stacks,
    x: u32,
)
    requires here { x < length doc.now }
    requires stacks { StacksAt doc.now (in_view set) (rule_of method) (parent_of doc.now x) stacks.old }
    requires room { RoomAt doc.now (rule_of method) x stacks.old }
    ensures stacks { StacksAt doc.now (in_view set.entry) (rule_of method.entry) (parent_of doc.now x) stacks.new }
    ensures marked { AreMarked doc.now (in_view set.entry) (rule_of method.entry) x stacks.new.marks.items }
    ensures joining { stacks.new.joining ≡ stacks.old.joining }
    ensures kept { Keeps stacks.old stacks.new }
{
    mark_utilized(doc, set, method, &mut stacks.marks, x);
}

/// Puts what a row that begins leaves on the stacks.
pub(crate) fn enter(
    doc: &Doc<'_>,
    set: SetView<'_>,
    method: Method<'_, '_>,
    stacks: &mut Stacks,
    x: u32,
)
    requires below { 0 < x }
    requires here { x < length doc.now }
    requires stacks { StacksAt doc.now (in_view set) (rule_of method) (parent_of doc.now x) stacks.old }
    requires room { RoomAt doc.now (rule_of method) x stacks.old }
    requires marked { AreMarked doc.now (in_view set) (rule_of method) x stacks.old.marks.items }
    ensures stacks { StacksAt doc.now (in_view set.entry) (rule_of method.entry) x stacks.new }
    ensures kept { Keeps stacks.old stacks.new }
{
    let _rows = doc.rows();
    if is_element(doc.kind(x)) {
        enter_slots(doc, set, method, &stacks.marks, &mut stacks.slots, x);
        enter_xml(doc, &mut stacks.xml, x);
        enter_run(doc, set, method, &mut stacks.runs, &mut stacks.prepared, x);
    }
}

/// Takes what a row that ends left from the stacks.
pub(crate) fn leave(
    doc: &Doc<'_>,
    set: SetView<'_>,
    method: Method<'_, '_>,
    stacks: &mut Stacks,
    x: u32,
)
    requires below { 0 < x }
    requires here { x < length doc.now }
    requires stacks { StacksAt doc.now (in_view set) (rule_of method) x stacks.old }
    ensures stacks { StacksAt doc.now (in_view set.entry) (rule_of method.entry) (parent_of doc.now x) stacks.new }
    ensures kept { Keeps stacks.old stacks.new }
{
    let _rows = doc.rows();
    if is_element(doc.kind(x)) {
        leave_slots(doc, set, method, &mut stacks.slots, x);
        leave_xml(doc, &mut stacks.xml, x);
        forget(&mut stacks.nearest, stacks.xml.len());
        leave_run(doc, set, method, &mut stacks.runs, &mut stacks.prepared, x);
    }
}

/// The row under `top` that row `x` below it stands in, or is.
fn child_towards(doc: &Doc<'_>, top: u32, x: u32) -> u32
    requires here { x < length doc.now }
    requires below { top < x }
    requires within { x ≤ last_of doc.now top }
    ensures behind { top < result }
    ensures before { result ≤ x }
    ensures parent { parent_of doc.now result ≡ top }
    ensures within { x ≤ last_of doc.now result }
{
    let _rows = doc.rows();
    let mut y = x;
    let mut up = doc.above(y);
    while up != top {
        y = up;
        up = doc.above(y);
    }
    y
}

/// Puts what row `x` and the rows above it leave on stacks that are empty.
pub(crate) fn enter_all(
    doc: &Doc<'_>,
    set: SetView<'_>,
    method: Method<'_, '_>,
    stacks: &mut Stacks,
    x: u32,
)
    requires here { x < length doc.now }
    requires empty { IsEmpty stacks.old }
    requires room { RoomAt doc.now (rule_of method) x stacks.old }
    ensures stacks { StacksAt doc.now (in_view set.entry) (rule_of method.entry) x stacks.new }
    ensures kept { Keeps stacks.old stacks.new }
{
    let _rows = doc.rows();
    let mut top = 0;
    while top != x {
        let next = child_towards(doc, top, x);
        mark_prefixes(doc, set, method, stacks, next);
        enter(doc, set, method, stacks, next);
        top = next;
    }
}
