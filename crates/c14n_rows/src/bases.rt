//! The `xml:base` that Canonical XML 1.1 gives an element whose parent is outside the set. The rule is this project's own.
//!
//! The values of a run are joined once for all elements right below it that have none of their own. Its bases are prepared
//! where they are put on the stack, so that joining below one doesn't go through it.
ghost use Rattle.std.specs.Prelude.{◌≡◌, ℕ, ◌<◌, ◌≤◌, ◌+◌, ◌-◌, ◌++◌, ◌&&◌, true, false, length, take, Some, None, IfSome, List, slice_get, vec_capacity};
ghost use Rattle.std.specs.List.{All, filter, range_with_len};
ghost use Rattle.xml_doc.specs.Kinds.{is_element};
ghost use Rattle.xml_doc.specs.Rows.{RowOf};
ghost use Rattle.node_sets.specs.View.{in_view};
ghost use Rattle.c14n_bases.specs.Join.{join};
ghost use Rattle.c14n_text.specs.Rows.{kind_of, parent_of};
ghost use Rattle.c14n_text.specs.Attributes.{imports_attributes};
ghost use Rattle.c14n_text.specs.Bases.{bases, is_base, is_eleven, is_none, joined_base, with_bases};
ghost use Rattle.c14n_rows.specs.Rules.{rule_of};
ghost use Rattle.c14n_rows.specs.Joined.{BasesFit, weights};
ghost use Rattle.c14n_rows.specs.Code.Joined.{BaseThere, FoundThere, IsRun, IsSettled, JoinedLast, KeepsBases, base_of, filled, found_of, if_base, with_value};
ghost use Rattle.c14n_rows.specs.Stacks.{RoomAt};
ghost use Rattle.c14n_rows.specs.Code.Stacks.{Keeps, StacksAt, run_on, values_on};

use crate::attributes::{imports_attributes, is_element, is_xml};
use crate::namespaces::Method;
use crate::stacks::Stacks;
use c14n_bases::{Bases, Joined};
use node_sets::SetView;
use xml_doc::Doc;

/// A joined `xml:base` that is lent.
#[derive(Clone, Copy)]
pub(crate) struct Base<'b> {
    /// The row in whose place it stands.
    pub place: u32,
    /// The joined value.
    pub value: &'b [u8],
}

/// Where a joined `xml:base` stands, with the row in whose place it is.
#[derive(Clone, Copy)]
pub(crate) enum Found {
    /// There is none.
    Nothing,
    /// It is the value of the run that was joined last.
    Run(u32),
    /// It is the value of an element that has one, below a run.
    Own(u32),
}

/// Joined values, and the memory for joining.
#[derive(Drop)]
pub(crate) struct Joining {
    /// The nearest row of the run that was joined last.
    pub nearest: Option<u32>,
    /// The value of that run.
    pub run: Joined,
    /// The value of an element that has one, below a run.
    pub own: Joined,
    /// Memory for joining.
    pub spare: Vec<u8>,
}

/// Lends what was found.
pub(crate) fn lend(found: Found, joining: &Joining) -> Option<Base<'_>>
    requires { IsSettled found joining.now }
    ensures value { base_of result ≡ found_of found joining.now }
    ensures there { (rows : List RowOf) → FoundThere rows found → BaseThere rows result }
{
    match found {
        Found::Nothing => None,
        Found::Run(place) => Some(Base {
            place,
            value: joining.run.value(),
        }),
        Found::Own(place) => Some(Base {
            place,
            value: joining.own.value(),
        }),
    }
}

/// Whether the rule is that of Canonical XML 1.1.
pub(crate) fn is_eleven(method: Method<'_, '_>) -> bool
    ensures { result ≡ is_eleven (rule_of method.entry) }
{
    matches!(method, Method::Eleven)
}

/// Whether an attribute row is an `xml:base`.
pub(crate) fn is_base(doc: &Doc<'_>, a: u32) -> bool
    requires { a < length doc.now }
    ensures { result ≡ is_base doc.now a }
{
    is_xml(doc, a) && doc.local_name(a) == "base"
}

/// Joins a value below those of a run, which stand on top of the stack; the first `count` bases are those of this stack.
fn join_run(
    doc: &Doc<'_>,
    runs: &[u32],
    prepared: &Bases,
    count: usize,
    joined: &mut Joined,
    spare: &mut Vec<u8>,
)
    requires runs_fit { All (λ b. b < length doc.now) runs.now }
    requires count { count ≤ length prepared.now.bases }
    requires prepared { take count prepared.now.bases ≡ values_on doc.now runs.now }
    requires room { length joined.old.value + weights doc.now (run_on doc.now runs.now) ≤ joined.old.room }
    requires spare { length joined.old.value + weights doc.now (run_on doc.now runs.now) ≤ vec_capacity spare.old }
    ensures joined { (place : ℕ) → Some (place, joined.new.value)
        ≡ with_bases doc.now (Some (place, joined.old.value)) (run_on doc.now runs.now) }
    ensures few { length joined.new.value ≤ length joined.old.value + weights doc.now (run_on doc.now runs.now) }
    ensures room { joined.new.room ≡ joined.old.room }
    ensures capacity { vec_capacity spare.old ≤ vec_capacity spare.new }
{
    let mut i = runs.len();
    let mut k = count;
    while i > 0 {
        i -= 1;
        let b = runs[i];
        if is_element(doc.kind(b)) {
            return;
        }
        k -= 1;
        joined.join_prepared(prepared, k, spare);
    }
}

/// The nearest row of the run that stands on top of the stack.
fn nearest_base(doc: &Doc<'_>, runs: &[u32]) -> Option<u32>
    requires runs_fit { All (λ b. b < length doc.now) runs.now }
    ensures nearest { result ≡ slice_get (run_on doc.now runs.now) 0 }
    ensures there { IfSome result (λ b. b < length doc.now) }
{
    if runs.is_empty() {
        return None;
    }
    let b = runs[runs.len() - 1];
    if is_element(doc.kind(b)) {
        None
    } else {
        Some(b)
    }
}

/// Joins the bases of a run whose nearest row is `b` and that goes on.
fn join_bases(
    doc: &Doc<'_>,
    runs: &[u32],
    prepared: &Bases,
    joined: &mut Joined,
    spare: &mut Vec<u8>,
    b: u32,
)
    requires runs_fit { All (λ b. b < length doc.now) runs.now }
    requires nearest { Some b ≡ slice_get (run_on doc.now runs.now) 0 }
    requires more { is_none (run_on doc.now (take (length runs.now - 1) runs.now)) ≡ false }
    requires prepared { prepared.now.bases ≡ values_on doc.now runs.now }
    requires room { weights doc.now (run_on doc.now runs.now) ≤ joined.old.room }
    requires spare { weights doc.now (run_on doc.now runs.now) ≤ vec_capacity spare.old }
    ensures joined { IsRun b joined.new (with_bases doc.now None (run_on doc.now runs.now)) }
    ensures room { joined.new.room ≡ joined.old.room }
    ensures capacity { vec_capacity spare.old ≤ vec_capacity spare.new }
{
    let nearest = prepared.len() - 1;
    joined.join_two(prepared, nearest, nearest - 1);
    join_run(
        doc,
        &runs[..runs.len() - 2],
        prepared,
        nearest - 1,
        joined,
        spare,
    );
    joined.settle();
}

/// Joins the run whose nearest row is `b`. One value alone stays as it is.
fn join_whole(doc: &Doc<'_>, runs: &[u32], prepared: &Bases, joining: &mut Joining, b: u32)
    requires runs_fit { All (λ b. b < length doc.now) runs.now }
    requires nearest { Some b ≡ slice_get (run_on doc.now runs.now) 0 }
    requires prepared { prepared.now.bases ≡ values_on doc.now runs.now }
    requires fit { BasesFit (weights doc.now (run_on doc.now runs.now)) joining.old }
    ensures joined { IsRun b joining.new.run (with_bases doc.now None (run_on doc.now runs.now)) }
    ensures kept { KeepsBases joining.old joining.new }
{
    match nearest_base(doc, &runs[..runs.len() - 1]) {
        None => joining.run.set(doc.value(b).as_bytes()),
        Some(_) => join_bases(doc, runs, prepared, &mut joining.run, &mut joining.spare, b),
    }
}

/// Joins the run whose nearest row is `b`, where it isn't the one that was joined last.
fn join_nearest(doc: &Doc<'_>, runs: &[u32], prepared: &Bases, joining: &mut Joining, b: u32)
    requires runs_fit { All (λ b. b < length doc.now) runs.now }
    requires nearest { Some b ≡ slice_get (run_on doc.now runs.now) 0 }
    requires prepared { prepared.now.bases ≡ values_on doc.now runs.now }
    requires fit { BasesFit (weights doc.now (run_on doc.now runs.now)) joining.old }
    requires joined { joining.old.nearest ≡ Some b → IsRun b joining.old.run (with_bases doc.now None (run_on doc.now runs.now)) }
    ensures joined { IsRun b joining.new.run (with_bases doc.now None (run_on doc.now runs.now)) }
    ensures nearest { joining.new.nearest ≡ Some b }
    ensures kept { KeepsBases joining.old joining.new }
{
    if joining.nearest != Some(b) {
        join_whole(doc, runs, prepared, joining, b);
        joining.nearest = Some(b);
    }
}

/// An element's value so far, joined below that of its attribute `a` where this is an `xml:base`; `place` is the row of
/// the first of these, if one came.
fn join_attribute(
    doc: &Doc<'_>,
    own: &mut Joined,
    spare: &mut Vec<u8>,
    place: Option<u32>,
    a: u32,
) -> Option<u32>
    requires here { a < length doc.now }
    requires there { IfSome place (λ b. b < length doc.now) }
    requires settled { IfSome place (λ b. own.old.settled ≡ true) }
    requires room { filled place own.old.value + weights doc.now (if_base doc.now a) ≤ own.old.room }
    requires spare { filled place own.old.value + weights doc.now (if_base doc.now a) ≤ vec_capacity spare.old }
    ensures value { with_value result own.new.value ≡ with_bases doc.now (with_value place own.old.value) (if_base doc.now a) }
    ensures there { IfSome result (λ b. b < length doc.now) }
    ensures settled { IfSome result (λ b. own.new.settled ≡ true) }
    ensures few { filled result own.new.value ≤ filled place own.old.value + weights doc.now (if_base doc.now a) }
    ensures room { own.new.room ≡ own.old.room }
    ensures capacity { vec_capacity spare.old ≤ vec_capacity spare.new }
{
    if !is_base(doc, a) {
        return place;
    }
    let value = doc.value(a).as_bytes();
    match place {
        None => {
            own.set(value);
            Some(a)
        }
        Some(first) => {
            own.join_below(value, spare);
            Some(first)
        }
    }
}

/// The value of the `xml:base` rows among the attribute rows from `from` to before `until`.
fn join_attributes(
    doc: &Doc<'_>,
    own: &mut Joined,
    spare: &mut Vec<u8>,
    from: u32,
    until: u32,
) -> Option<u32>
    requires rows { until ≤ length doc.now }
    requires room { weights doc.now (filter (is_base doc.now) (range_with_len from (until - from))) ≤ own.old.room }
    requires spare { weights doc.now (filter (is_base doc.now) (range_with_len from (until - from))) ≤ vec_capacity spare.old }
    ensures value { with_value result own.new.value
        ≡ with_bases doc.now None (filter (is_base doc.now) (range_with_len from (until - from))) }
    ensures there { IfSome result (λ b. b < length doc.now) }
    ensures few { filled result own.new.value ≤ weights doc.now (filter (is_base doc.now) (range_with_len from (until - from))) }
    ensures room { own.new.room ≡ own.old.room }
    ensures capacity { vec_capacity spare.old ≤ vec_capacity spare.new }
{
    let mut place = None;
    for a in from..until {
        place = join_attribute(doc, own, spare, place, a);
    }
    place
}

/// The joined value of element `x`, where the run above it has the row `b` nearest.
fn join_element(
    doc: &Doc<'_>,
    runs: &[u32],
    prepared: &Bases,
    joining: &mut Joining,
    x: u32,
    b: u32,
) -> Found
    requires here { x < length doc.now }
    requires runs_fit { All (λ b. b < length doc.now) runs.now }
    requires row { b < length doc.now }
    requires nearest { Some b ≡ slice_get (run_on doc.now runs.now) 0 }
    requires prepared { prepared.now.bases ≡ values_on doc.now runs.now }
    requires fit { BasesFit (weights doc.now (bases doc.now x) + weights doc.now (run_on doc.now runs.now)) joining.old }
    requires joined { joining.old.nearest ≡ Some b → IsRun b joining.old.run (with_bases doc.now None (run_on doc.now runs.now)) }
    ensures value { found_of result joining.new ≡ with_bases doc.now None (bases doc.now x ++ run_on doc.now runs.now) }
    ensures there { FoundThere doc.now result }
    ensures settled { IsSettled result joining.new }
    ensures joined { JoinedLast joining.old joining.new b (with_bases doc.now None (run_on doc.now runs.now)) }
    ensures kept { KeepsBases joining.old joining.new }
{
    let rows = doc.own_rows(x);
    let own = join_attributes(
        doc,
        &mut joining.own,
        &mut joining.spare,
        rows.first_attribute,
        rows.first_child,
    );
    match own {
        None => {
            join_nearest(doc, runs, prepared, joining, b);
            Found::Run(b)
        }
        Some(place) => {
            join_run(
                doc,
                runs,
                prepared,
                prepared.len(),
                &mut joining.own,
                &mut joining.spare,
            );
            joining.own.settle();
            Found::Own(place)
        }
    }
}

/// Whether values are joined for row `x` where a run stands above it.
fn joins(doc: &Doc<'_>, set: SetView<'_>, method: Method<'_, '_>, x: u32) -> bool
    requires { x < length doc.now }
    ensures { result ≡ (is_eleven (rule_of method.entry)
        && (is_element (kind_of doc.now x) && imports_attributes doc.now (in_view set.entry) (rule_of method.entry) x)) }
{
    is_eleven(method) && is_element(doc.kind(x)) && imports_attributes(doc, set, method, x)
}

/// What stands as the `xml:base` of row `x` in the place of its own.
pub(crate) fn joined_base(
    doc: &Doc<'_>,
    set: SetView<'_>,
    method: Method<'_, '_>,
    stacks: &mut Stacks,
    x: u32,
) -> Found
    requires below { 0 < x }
    requires here { x < length doc.now }
    requires stacks { StacksAt doc.now (in_view set) (rule_of method) (parent_of doc.now x) stacks.old }
    requires room { RoomAt doc.now (rule_of method) x stacks.old }
    ensures value { found_of result stacks.new.joining ≡ joined_base doc.now (in_view set.entry) (rule_of method.entry) x }
    ensures there { FoundThere doc.now result }
    ensures settled { IsSettled result stacks.new.joining }
    ensures stacks { StacksAt doc.now (in_view set.entry) (rule_of method.entry) (parent_of doc.now x) stacks.new }
    ensures kept { Keeps stacks.old stacks.new }
{
    let _rows = doc.rows();
    if !joins(doc, set, method, x) {
        return Found::Nothing;
    }
    match nearest_base(doc, &stacks.runs) {
        None => Found::Nothing,
        Some(b) => join_element(
            doc,
            &stacks.runs,
            &stacks.prepared,
            &mut stacks.joining,
            x,
            b,
        ),
    }
}
