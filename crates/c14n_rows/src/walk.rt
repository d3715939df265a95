//! The walk over the rows, in document order.
ghost use Rattle.std.specs.Prelude.{◌≡◌, ◌<◌, ◌≤◌, ℕ, List, [], length, MatchOption};
ghost use Rattle.sig_base.specs.Puts.{Puts};
ghost use Rattle.node_sets.specs.View.{in_view, rows_of};
ghost use Rattle.c14n_rows.specs.Rules.{rule_of};
ghost use Rattle.c14n_rows.specs.Stacks.{IsEmpty, OrderedAt, OrderedIn, RoomAt, RoomIn};
ghost use Rattle.c14n_rows.specs.Code.Stacks.{IsNowhere, IsWalked, Keeps, KeepsOrdered, OnDone, StacksAt};
ghost use Rattle.c14n_text.specs.Rows.{is_child, parent_of};
ghost use Rattle.c14n_text.specs.Code.Quiet.{IsQuiet, bearer};
ghost use Rattle.c14n_text.specs.Canon.{canon, closing, document_element, opening};
ghost use Rattle.c14n_text.specs.Code.Progress.{Progress, Closed, whole};

use crate::bases::{joined_base, lend};
use crate::imports::Ordered;
use crate::namespaces::Method;
use crate::nearest::keep_imports;
use crate::rows::{put_closing, put_opening};
use crate::stacks::{Stacks, enter, enter_all, leave, mark_prefixes};
use node_sets::SetView;
use sig_base::{OctetSink, Put};
use xml_doc::{Doc, Kind};

/// Whether a row is a child of its parent, and no namespace row or attribute row of it.
fn is_child(doc: &Doc<'_>, x: u32) -> bool
    requires { x < length doc.now }
    ensures { result ≡ is_child doc.now x }
{
    match doc.kind(x) {
        Kind::Namespace | Kind::Attribute => false,
        _ => true,
    }
}

/// The row itself, or the element whose namespace row or attribute row it is.
fn bearer(doc: &Doc<'_>, i: u32) -> u32
    requires { i < length doc.now }
    ensures { result ≡ bearer doc.now i }
{
    if is_child(doc, i) { i } else { doc.above(i) }
}

/// Ends each open row that ends before row `next`, from the innermost outwards.
fn close_ended<S: OctetSink>(
    doc: &Doc<'_>,
    set: SetView<'_>,
    method: Method<'_, '_>,
    stacks: &mut Stacks,
    opened: &mut u32,
    next: u32,
    sink: &mut S,
) -> Put
    requires here { opened.old < length doc.now }
    requires stacks { StacksAt doc.now (in_view set) (rule_of method) opened.old stacks.old }
    ensures stacks { OnDone result (StacksAt doc.now (in_view set.entry) (rule_of method.entry) opened.new stacks.new) }
    ensures kept { Keeps stacks.old stacks.new }
    ensures walked { (before : _) (opens : ℕ → List ℕ)
        → Progress doc.now opens (closing doc.now (in_view set.entry)) S.stands_for S.refusals S.makes before sink.old opened.old next
        → Closed doc.now opens (closing doc.now (in_view set.entry)) S.stands_for S.refusals S.makes before sink.new opened.new next result }
{
    let _rows = doc.rows();
    while *opened != 0 && doc.last(*opened) < next {
        if let Put::Refused = put_closing(doc, set, *opened, sink) {
            return Put::Refused;
        }
        leave(doc, set, method, stacks, *opened);
        *opened = doc.above(*opened);
    }
    Put::Done
}

/// Begins a row; `element` is the document element.
fn open_row<S: OctetSink>(
    doc: &Doc<'_>,
    set: SetView<'_>,
    method: Method<'_, '_>,
    stacks: &mut Stacks,
    ordered: &mut Ordered,
    comments: bool,
    element: Option<u32>,
    x: u32,
    sink: &mut S,
) -> Put
    requires below { 0 < x }
    requires here { x < length doc.now }
    requires element { element ≡ document_element doc.now }
    requires stacks { StacksAt doc.now (in_view set) (rule_of method) (parent_of doc.now x) stacks.old }
    requires room { RoomAt doc.now (rule_of method) x stacks.old }
    requires ordered_room { OrderedAt doc.now x ordered.old }
    ensures puts { Puts S.stands_for S.refusals S.makes sink.old sink.new
        (opening doc.now (in_view set.entry) (rule_of method.entry) comments x) result }
    ensures stacks { OnDone result (StacksAt doc.now (in_view set.entry) (rule_of method.entry) x stacks.new) }
    ensures kept { Keeps stacks.old stacks.new }
    ensures ordered_kept { KeepsOrdered ordered.old ordered.new }
{
    keep_imports(doc, set, method, stacks, ordered, x);
    let found = joined_base(doc, set, method, stacks, x);
    mark_prefixes(doc, set, method, stacks, x);
    let base = lend(found, &stacks.joining);
    if let Put::Refused = put_opening(
        doc, set, method, stacks, ordered, base, comments, element, x, sink,
    ) {
        return Put::Refused;
    }
    enter(doc, set, method, stacks, x);
    Put::Done
}

/// Ends all open rows, of which `innermost` is the innermost, where no row from `until` on writes anything.
fn close_all<S: OctetSink>(
    doc: &Doc<'_>,
    set: SetView<'_>,
    innermost: u32,
    until: u32,
    sink: &mut S,
) -> Put
    requires here { innermost < length doc.now }
    ensures walked { (before : _) (opens : ℕ → List ℕ) → ((x : ℕ) → until ≤ x → opens x ≡ [])
        → ((x : ℕ) → until ≤ x → closing doc.now (in_view set.entry) x ≡ [])
        → Progress doc.now opens (closing doc.now (in_view set.entry)) S.stands_for S.refusals S.makes before sink.old innermost until
        → Puts S.stands_for S.refusals S.makes before sink.new (whole doc.now opens (closing doc.now (in_view set.entry))) result }
{
    let _rows = doc.rows();
    let mut opened = innermost;
    while opened != 0 {
        if let Put::Refused = put_closing(doc, set, opened, sink) {
            return Put::Refused;
        }
        opened = doc.above(opened);
    }
    Put::Done
}

/// Writes the canonical form of a set from row `start` to before row `until`, where no other row writes anything.
fn write_range<S: OctetSink>(
    doc: &Doc<'_>,
    set: SetView<'_>,
    method: Method<'_, '_>,
    stacks: &mut Stacks,
    ordered: &mut Ordered,
    comments: bool,
    start: u32,
    until: u32,
    sink: &mut S,
) -> Put
    requires stacks { StacksAt doc.now (in_view set) (rule_of method) (parent_of doc.now start) stacks.old }
    requires room { RoomIn doc.now (rule_of method) start until stacks.old }
    requires ordered_room { OrderedIn doc.now start until ordered.old }
    requires behind_root { 0 < start }
    requires ordered { start < until }
    requires within { until ≤ length doc.now }
    requires quiet_before { (x : ℕ) → x < start → IsQuiet doc.now (in_view set) x }
    requires quiet_behind { (x : ℕ) → until ≤ x → IsQuiet doc.now (in_view set) x }
    ensures puts { Puts S.stands_for S.refusals S.makes sink.old sink.new
        (canon (rule_of method.entry) comments doc.now (in_view set.entry)) result }
    ensures kept { Keeps stacks.old stacks.new }
    ensures ordered_kept { KeepsOrdered ordered.old ordered.new }
{
    let _rows = doc.rows();
    let element = doc.document_element();
    let mut opened = doc.above(start);
    for next in start..until {
        if let Put::Refused = close_ended(doc, set, method, stacks, &mut opened, next, sink) {
            return Put::Refused;
        }
        if is_child(doc, next) {
            if let Put::Refused = open_row(
                doc, set, method, stacks, ordered, comments, element, next, sink,
            ) {
                return Put::Refused;
            }
            opened = next;
        }
    }
    close_all(doc, set, opened, until, sink)
}

/// The rows over which the walk for a set goes.
#[derive(Clone, Copy)]
pub(crate) struct Walked {
    /// The first.
    pub start: u32,
    /// The one behind the last.
    pub until: u32,
}

/// The range that has the set's rows, and the elements whose namespace rows or attribute rows they are; none where no row
/// writes anything.
pub(crate) fn walked_range(set: SetView<'_>) -> Option<Walked>
    ensures { MatchOption result (IsNowhere (rows_of set.entry) (in_view set.entry))
        (λ range. IsWalked (rows_of set.entry) (in_view set.entry) range.start range.until) }
{
    let doc = set.doc();
    let span = set.span();
    let _rows = doc.rows();
    let from = span.from.max(1);
    if from < span.until {
        let start = bearer(doc, from);
        Some(Walked {
            start,
            until: span.until,
        })
    } else {
        None
    }
}

/// Writes the canonical form of a set, with comments or without, on stacks that are empty and have room. The walk goes
/// over its range, and besides it looks at the elements above the first row of this alone: a subtree doesn't cost the whole
/// document.
pub(crate) fn write_walked<S: OctetSink>(
    doc: &Doc<'_>,
    set: SetView<'_>,
    method: Method<'_, '_>,
    stacks: &mut Stacks,
    ordered: &mut Ordered,
    comments: bool,
    range: Walked,
    sink: &mut S,
) -> Put
    requires walked { IsWalked doc.now (in_view set) range.start range.until }
    requires empty { IsEmpty stacks.old }
    requires room { RoomIn doc.now (rule_of method) range.start range.until stacks.old }
    requires ordered_room { OrderedIn doc.now range.start range.until ordered.old }
    ensures puts { Puts S.stands_for S.refusals S.makes sink.old sink.new
        (canon (rule_of method.entry) comments doc.now (in_view set.entry)) result }
    ensures kept { Keeps stacks.old stacks.new }
    ensures ordered_kept { KeepsOrdered ordered.old ordered.new }
{
    let _rows = doc.rows();
    enter_all(doc, set, method, stacks, doc.above(range.start));
    write_range(
        doc,
        set,
        method,
        stacks,
        ordered,
        comments,
        range.start,
        range.until,
        sink,
    )
}

/// Writes the canonical form of a set of whose rows none writes anything: there is nothing to write.
pub(crate) fn write_nothing<S: OctetSink>(
    doc: &Doc<'_>,
    set: SetView<'_>,
    method: Method<'_, '_>,
    comments: bool,
    sink: &mut S,
) -> Put
    requires { IsNowhere doc.now (in_view set) }
    ensures { Puts S.stands_for S.refusals S.makes sink.old sink.new (canon (rule_of method.entry) comments doc.now (in_view set.entry))
        result }
{
    let _rows = doc.rows();
    Put::Done
}

/// Writes the canonical form of a set, with comments or without, on stacks that are empty and have room for each row.
pub(crate) fn write_rows<S: OctetSink>(
    set: SetView<'_>,
    method: Method<'_, '_>,
    stacks: &mut Stacks,
    ordered: &mut Ordered,
    comments: bool,
    sink: &mut S,
) -> Put
    requires empty { IsEmpty stacks.old }
    requires room { RoomIn (rows_of set) (rule_of method) 1 (length (rows_of set)) stacks.old }
    requires ordered_room { OrderedIn (rows_of set) 1 (length (rows_of set)) ordered.old }
    ensures puts { Puts S.stands_for S.refusals S.makes sink.old sink.new
        (canon (rule_of method.entry) comments (rows_of set.entry) (in_view set.entry)) result }
    ensures kept { Keeps stacks.old stacks.new }
    ensures ordered_kept { KeepsOrdered ordered.old ordered.new }
{
    let doc = set.doc();
    match walked_range(set) {
        None => write_nothing(doc, set, method, comments, sink),
        Some(range) => write_walked(doc, set, method, stacks, ordered, comments, range, sink),
    }
}
