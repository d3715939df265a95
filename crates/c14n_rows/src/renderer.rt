//! A renderer: the memory of the walks over one document, taken once.
ghost use Rattle.std.specs.Prelude.{◌≡◌, ◌<◌, ◌≤◌, ◌+◌, ◌-◌, [], true, length, IfOk, OnOk, OnErr, None};
ghost use Rattle.std.specs.List.{filter, range_with_len};
ghost use Rattle.sig_base.specs.Puts.{Puts};
ghost use Rattle.node_sets.specs.View.{in_view, rows_of};
ghost use Rattle.c14n_text.specs.Rows.{parent_of};
ghost use Rattle.c14n_text.specs.Namespaces.{eleven};
ghost use Rattle.c14n_text.specs.Bases.{is_base, is_eleven};
ghost use Rattle.c14n_text.specs.Canon.{canon};
ghost use Rattle.c14n_rows.specs.Rules.{rule_of};
ghost use Rattle.c14n_rows.specs.Joined.{BasesFit, PreparedFit, weights};
ghost use Rattle.c14n_rows.specs.Code.Joined.{if_base};
ghost use Rattle.c14n_rows.specs.Stacks.{octets_of, total, upwards, IsEmpty, OrderedIn, RoomIn};
ghost use Rattle.c14n_rows.specs.Code.Stacks.{counted_of, HasRoom, IsOpen, IsTaken, IsTakenFor};

use crate::attributes::is_element;
use crate::bases::{Joining, is_base, is_eleven};
use crate::imports::Ordered;
use crate::namespaces::Method;
use crate::nearest::{FEW, Nearest, Part};
use crate::stacks::Stacks;
use crate::walk::{walked_range, write_nothing, write_rows, write_walked};
use c14n_bases::{Bases, Joined};
use node_sets::SetView;
use sig_base::{NoMemory, OctetSink, Put};
use std::alloc::Global;
use std::marker::Model;
use xml_doc::Doc;

/// Writes canonical forms of sets over one document, and takes no memory for it.
#[derive(Drop)]
pub struct Renderer<'d> {
    doc: &'d Doc<'d>,
    stacks: Stacks,
    ordered: Ordered,
}

impl<'d> Model for Renderer<'d> {
    ghost use Rattle.std.specs.Prelude.{List, length};
    ghost use Rattle.xml_doc.specs.Rows.{RowOf};
    ghost use Rattle.c14n_text.specs.Namespaces.{eleven};
    ghost use Rattle.c14n_rows.specs.Stacks.{IsEmpty, OrderedIn, RoomIn};

    ghost Value = { List RowOf };

    ghost view = { λ r. r.doc.now };

    ghost invariant = { λ r. IsEmpty r.stacks × RoomIn r.doc.now eleven 1 (length r.doc.now) r.stacks × OrderedIn r.doc.now 1 (length r.doc.now) r.ordered };
}

/// What is counted of each row.
#[derive(Clone, Copy)]
pub(crate) enum Counted {
    /// How many entries an element has on the stacks: one for itself, and one for each of its namespace rows and attribute
    /// rows.
    Entries,
    /// How many octets the joining of its `xml:base` rows takes.
    Values,
}

/// How many octets the joining of an attribute row takes.
fn count_value(doc: &Doc<'_>, a: u32) -> Result<usize, NoMemory>
    requires { a < length doc.now }
    ensures { IfOk result (λ n. n ≡ weights doc.now (if_base doc.now a)) }
{
    if is_base(doc, a) {
        add(doc.value(a).len(), 4)
    } else {
        Ok(0)
    }
}

/// The same of the attribute rows from `from` to before `until`.
fn count_values(doc: &Doc<'_>, from: u32, until: u32) -> Result<usize, NoMemory>
    requires { until ≤ length doc.now }
    ensures { IfOk result (λ n. n ≡ weights doc.now (filter (is_base doc.now) (range_with_len from (until - from)))) }
{
    let mut count = 0;
    for a in from..until {
        let weight = count_value(doc, a)?;
        count = add(count, weight)?;
    }
    Ok(count)
}

/// A sum. No memory is as large as one that isn't a number of octets.
fn add(m: usize, n: usize) -> Result<usize, NoMemory>
    ensures { IfOk result (λ sum. sum ≡ m + n) }
{
    m.checked_add(n).ok_or(NoMemory)
}

/// What is counted of a row.
fn count_of(doc: &Doc<'_>, counted: Counted, x: u32) -> Result<usize, NoMemory>
    requires { x < length doc.now }
    ensures { IfOk result (λ n. n ≡ counted_of counted doc.now x) }
{
    let _rows = doc.rows();
    if !is_element(doc.kind(x)) {
        return Ok(0);
    }
    let own = doc.own_rows(x);
    match counted {
        Counted::Entries => Ok((own.first_child - x) as usize),
        Counted::Values => count_values(doc, own.first_attribute, own.first_child),
    }
}

/// Ends each open row that ends before row `next`; `sum` is that of the counts of the open rows.
fn leave_ended(
    doc: &Doc<'_>,
    counted: Counted,
    opened: &mut u32,
    sum: &mut usize,
    next: u32,
) -> Result<(), NoMemory>
    requires is_open { IsOpen doc.now (counted_of counted doc.now) opened.old next sum.old }
    ensures is_open { OnOk result (IsOpen doc.now (counted_of counted doc.now) opened.new next sum.new) }
    ensures reaches { OnOk result (next < length doc.now → parent_of doc.now next ≡ opened.new) }
{
    let _rows = doc.rows();
    while *opened != 0 && doc.last(*opened) < next {
        let count = count_of(doc, counted, *opened)?;
        *sum -= count;
        *opened = doc.above(*opened);
    }
    Ok(())
}

/// The sum of the counts of a row and the rows above it.
fn sum_above(doc: &Doc<'_>, counted: Counted, x: u32) -> Result<usize, NoMemory>
    requires { x < length doc.now }
    ensures { IfOk result (λ n. n ≡ total (counted_of counted doc.now) (upwards doc.now x)) }
{
    let _rows = doc.rows();
    let mut sum = 0;
    let mut up = x;
    while up != 0 {
        let count = count_of(doc, counted, up)?;
        sum = add(sum, count)?;
        up = doc.above(up);
    }
    Ok(sum)
}

/// The greatest sum of the counts of a row and the rows above it, over the rows from `start` to before `until`.
fn greatest_sum(doc: &Doc<'_>, counted: Counted, start: u32, until: u32) -> Result<usize, NoMemory>
    requires behind_root { 0 < start }
    requires ordered { start < until }
    requires within { until ≤ length doc.now }
    ensures { IfOk result (λ n. HasRoom doc.now (counted_of counted doc.now) start until n) }
{
    let _rows = doc.rows();
    let mut opened = doc.above(start);
    let above = sum_above(doc, counted, opened)?;
    let mut sum = above;
    let mut most = above;
    for next in start..until {
        leave_ended(doc, counted, &mut opened, &mut sum, next)?;
        let count = count_of(doc, counted, next)?;
        sum = add(sum, count)?;
        opened = next;
        most = sum.max(most);
    }
    Ok(most)
}

/// How many octets the joining takes in walks by a method over the rows from `start` to before `until`. Canonical XML 1.1
/// alone joins values.
fn octets_for(
    doc: &Doc<'_>,
    method: Method<'_, '_>,
    start: u32,
    until: u32,
) -> Result<usize, NoMemory>
    requires behind_root { 0 < start }
    requires ordered { start < until }
    requires within { until ≤ length doc.now }
    ensures { IfOk result (λ n. is_eleven (rule_of method.entry) ≡ true → HasRoom doc.now (octets_of doc.now) start until n) }
{
    if is_eleven(method) {
        greatest_sum(doc, Counted::Values, start, until)
    } else {
        Ok(0)
    }
}

/// Room for bases of this many octets, of which each takes four at least.
fn room_for_bases(alloc: Global, octets: usize) -> Result<Bases, NoMemory>
    ensures fit { IfOk result (λ b. PreparedFit octets b) }
    ensures none { IfOk result (λ b. b.bases ≡ []) }
{
    let count = octets.div_ceil(4);
    Bases::with_room(alloc, count, octets)
}

/// Memory in which values of `xml:base` are joined, where that takes this many octets.
fn buffers(alloc: Global, room: usize) -> Result<Joining, NoMemory>
    ensures fit { IfOk result (λ j. BasesFit room j) }
    ensures nearest { IfOk result (λ j. j.nearest ≡ None) }
{
    let run = Joined::with_room(alloc, room)?;
    let own = Joined::with_room(alloc, room)?;
    let spare = Vec::with_capacity(alloc, room)?;
    Ok(Joining {
        nearest: None,
        run,
        own,
        spare,
    })
}

/// Room to keep the nearest of so many `xml:` attributes for parts of their stack: twice as many rows, since that is the most that
/// is kept.
fn room_for_nearest(alloc: Global, entries: usize) -> Result<Nearest, NoMemory>
    ensures { IfOk result (λ n. n.used ≡ 0) }
{
    let count = add(entries, entries)?;
    let rows = vec![in alloc; 0u32; count]?;
    let none = Part {
        count: 0,
        from: 0,
        until: 0,
    };
    let parts = vec![in alloc; none; entries / FEW]?;
    Ok(Nearest {
        rows,
        parts,
        used: 0,
    })
}

/// Stacks for this many entries, and buffers for this many octets.
fn take_stacks(alloc: Global, entries: usize, octets: usize) -> Result<Stacks, NoMemory>
    ensures empty { IfOk result (λ s. IsEmpty s) }
    ensures room { IfOk result (λ s. IsTaken entries octets s) }
{
    let slots = Vec::with_capacity(alloc, entries)?;
    let xml = Vec::with_capacity(alloc, entries)?;
    let nearest = room_for_nearest(alloc, entries)?;
    let runs = Vec::with_capacity(alloc, entries)?;
    let prepared = room_for_bases(alloc, octets)?;
    let marks = Vec::with_capacity(alloc, entries)?;
    let joining = buffers(alloc, octets)?;
    Ok(Stacks {
        slots,
        xml,
        nearest,
        runs,
        prepared,
        marks,
        joining,
    })
}

/// Memory in which this many attributes are put in order.
fn take_ordered(alloc: Global, entries: usize) -> Result<Ordered, NoMemory>
    ensures { IfOk result (λ o. IsTakenFor entries o) }
{
    let attributes = Vec::with_capacity(alloc, entries)?;
    let spare = Vec::with_capacity(alloc, entries)?;
    Ok(Ordered { attributes, spare })
}

/// The memory of walks.
#[derive(Drop)]
struct Memory {
    stacks: Stacks,
    ordered: Ordered,
}

/// Memory for this many entries, and buffers for this many octets.
fn take_memory(alloc: Global, entries: usize, octets: usize) -> Result<Memory, NoMemory>
    ensures empty { IfOk result (λ m. IsEmpty m.stacks) }
    ensures stacks { IfOk result (λ m. IsTaken entries octets m.stacks) }
    ensures ordered { IfOk result (λ m. IsTakenFor entries m.ordered) }
{
    let stacks = take_stacks(alloc, entries, octets)?;
    let ordered = take_ordered(alloc, entries)?;
    Ok(Memory { stacks, ordered })
}

/// The memory for walks by a method over the rows from `start` to before `until` and those above them.
fn memory_for(
    alloc: Global,
    doc: &Doc<'_>,
    method: Method<'_, '_>,
    start: u32,
    until: u32,
) -> Result<Memory, NoMemory>
    requires behind_root { 0 < start }
    requires ordered { start < until }
    requires within { until ≤ length doc.now }
    ensures empty { IfOk result (λ m. IsEmpty m.stacks) }
    ensures room { IfOk result (λ m. RoomIn doc.now (rule_of method.entry) start until m.stacks) }
    ensures ordered_room { IfOk result (λ m. OrderedIn doc.now start until m.ordered) }
{
    let entries = greatest_sum(doc, Counted::Entries, start, until)?;
    let octets = octets_for(doc, method, start, until)?;
    take_memory(alloc, entries, octets)
}

/// The memory for walks over all rows by any method, of which Canonical XML 1.1 takes most.
fn memory_for_all(alloc: Global, doc: &Doc<'_>) -> Result<Memory, NoMemory>
    ensures empty { IfOk result (λ m. IsEmpty m.stacks) }
    ensures room { IfOk result (λ m. RoomIn doc.now eleven 1 (length doc.now) m.stacks) }
    ensures ordered_room { IfOk result (λ m. OrderedIn doc.now 1 (length doc.now) m.ordered) }
{
    let rows = doc.rows();
    if rows > 1 {
        memory_for(alloc, doc, Method::Eleven, 1, rows)
    } else {
        take_memory(alloc, 0, 0)
    }
}

/// Writes the canonical form of a set, with comments or without, and takes the memory for its range of rows and the rows
/// above them alone. Where memory isn't given, nothing was written.
pub fn write_once<S: OctetSink>(
    alloc: Global,
    set: SetView<'_>,
    method: Method<'_, '_>,
    comments: bool,
    sink: &mut S,
) -> Result<Put, NoMemory>
    ensures puts { IfOk result (λ put. Puts S.stands_for S.refusals S.makes sink.old sink.new
        (canon (rule_of method.entry) comments (rows_of set.entry) (in_view set.entry)) put) }
    ensures untouched { OnErr result (sink.new ≡ sink.old) }
{
    let doc = set.doc();
    match walked_range(set) {
        None => Ok(write_nothing(doc, set, method, comments, sink)),
        Some(range) => {
            let mut memory = memory_for(alloc, doc, method, range.start, range.until)?;
            Ok(write_walked(
                doc,
                set,
                method,
                &mut memory.stacks,
                &mut memory.ordered,
                comments,
                range,
                sink,
            ))
        }
    }
}

impl<'d> Renderer<'d> {
    /// Takes the memory for the walks over a document: room for the entries of an element and of all elements above it,
    /// where these are most, and for the values of `xml:base` that they have.
    pub fn prepare(alloc: Global, doc: &'d Doc<'d>) -> Result<Renderer<'d>, NoMemory>
        ensures { IfOk result (λ r. r ≡ doc.now) }
    {
        let Memory { stacks, ordered } = memory_for_all(alloc, doc)?;
        Ok(Renderer {
            doc,
            stacks,
            ordered,
        })
    }

    /// Writes the canonical form of a set over the document, with comments or without.
    ///
    /// Either answer leaves the renderer as prepared. `Refused` comes where the sink refused a piece, and leaves a prefix of
    /// the form in it. No memory is taken.
    pub fn write<S: OctetSink>(
        &mut self,
        set: SetView<'_>,
        method: Method<'_, '_>,
        comments: bool,
        sink: &mut S,
    ) -> Put
        requires { rows_of set ≡ self.old }
        ensures puts { Puts S.stands_for S.refusals S.makes sink.old sink.new
            (canon (rule_of method.entry) comments self.old (in_view set.entry)) result }
        ensures as_prepared { self.new ≡ self.old }
    {
        let put = write_rows(
            set,
            method,
            &mut self.stacks,
            &mut self.ordered,
            comments,
            sink,
        );
        self.stacks.slots.clear();
        self.stacks.xml.clear();
        self.stacks.nearest.used = 0;
        self.stacks.runs.clear();
        self.stacks.prepared.truncate(0);
        self.stacks.joining.nearest = None;
        put
    }
}
