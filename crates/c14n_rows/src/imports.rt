//! The attributes of an element in order, with the import of `xml:` attributes (Canonical XML 1.0 §2.4, and 1.1 §2.4).
//!
//! What is imported stands on the stack of `xml:` attributes, the nearest element's last. It is put in order by merging, of two of
//! one name the nearer one, so that n attributes take n log n comparisons, whatever their names are.
ghost use Rattle.std.specs.Prelude.{◌≡◌, ◌<◌, ◌≤◌, ◌+◌, ◌-◌, ◌++◌, ◌&&◌, [], ◌∷◌, true, length, take, drop, reverse, IfSome, option_to_list, vec_capacity};
ghost use Rattle.std.specs.List.{All, filter, list_any, range_with_len};
ghost use Rattle.xml_doc.specs.Fields.{attribute_rows, OwnRowsStand};
ghost use Rattle.node_sets.specs.View.{in_view};
ghost use Rattle.c14n_text.specs.Rows.{parent_of};
ghost use Rattle.c14n_text.specs.Attributes.{is_xml, xml_attributes, same_name, is_inheritable, imported, attribute_cmp, in_order};
ghost use Rattle.c14n_text.specs.Bases.{base_place, is_own};
ghost use Rattle.c14n_text.specs.Code.Choice.{is_behind};
ghost use Rattle.c14n_rows.specs.Rules.{rule_of};
ghost use Rattle.c14n_rows.specs.Code.Joined.{BaseThere, base_of};
ghost use Rattle.c14n_rows.specs.Code.Stacks.{xml_at, KeepsOrdered};
ghost use Rattle.c14n_rows.specs.Code.Order.{IsBehindFrom, may_import};
ghost use Rattle.c14n_rows.specs.Code.Nearest.{NearestAt};

use crate::attributes::{is_own, is_xml};
use crate::bases::Base;
use crate::namespaces::Method;
use crate::nearest::{Nearest, push_nearest};
use crate::stacks::push_row;
use node_sets::SetView;
use std::cmp::Ordering;
use xml_doc::{Doc, OwnRows};

/// Memory in which the attributes of one element are put in order.
#[derive(Drop)]
pub(crate) struct Ordered {
    /// The attributes.
    pub attributes: Vec<u32>,
    /// Where two runs of them are merged.
    pub spare: Vec<u32>,
}

/// Whether an attribute row is of the namespace of `xml` and has the local name of row `a`.
fn is_xml_named(doc: &Doc<'_>, a: u32, b: u32) -> bool
    requires a { a < length doc.now }
    requires b { b < length doc.now }
    ensures { result ≡ (is_xml doc.now b && same_name doc.now a b) }
{
    is_xml(doc, b) && doc.local_name(b) == doc.local_name(a)
}

/// Whether `xml:` attributes of this local name are imported as they stand.
fn is_inheritable(method: Method<'_, '_>, name: &str) -> bool
    ensures { result ≡ is_inheritable (rule_of method.entry) name.now }
{
    match method {
        Method::Canonical => true,
        Method::Eleven => name == "lang" || name == "space",
        Method::Exclusive(_) => false,
    }
}

/// The order of attributes: by namespace name, then by local name.
fn attribute_cmp(doc: &Doc<'_>, a: u32, b: u32) -> Ordering
    requires a { a < length doc.now }
    requires b { b < length doc.now }
    ensures { result ≡ attribute_cmp doc.now a b }
{
    doc.uri(a)
        .cmp(doc.uri(b))
        .then(doc.local_name(a).cmp(doc.local_name(b)))
}

/// Whether a row goes behind the last one.
fn is_behind(doc: &Doc<'_>, last: Option<u32>, a: u32) -> bool
    requires last { IfSome last (λ b. b < length doc.now) }
    requires a { a < length doc.now }
    ensures { result ≡ is_behind doc.now last a }
{
    match last {
        Some(b) => matches!(attribute_cmp(doc, b, a), Ordering::Less),
        None => true,
    }
}

/// The first attribute row of element `x` that goes behind `last`, or `until`: they stand in order from `from` to before `until`, so
/// that it is found by halving.
fn first_behind(doc: &Doc<'_>, x: u32, last: Option<u32>, from: u32, until: u32) -> u32
    requires last { IfSome last (λ b. b < length doc.now) }
    requires ordered { from ≤ until }
    requires within { until ≤ length doc.now }
    requires rows { attribute_rows doc.now x ≡ range_with_len from (until - from) }
    ensures { IsBehindFrom doc.now last from until result }
{
    let _rows = doc.rows();
    let mut low = from;
    let mut high = until;
    while low < high {
        let middle = low + (high - low) / 2;
        if is_behind(doc, last, middle) {
            high = middle;
        } else {
            low = middle + 1;
        }
    }
    low
}

/// Whether element `x` has an `xml:` attribute of the local name of row `a`, which is one itself. It could only be the last that
/// doesn't go behind that row.
fn has_xml(doc: &Doc<'_>, own: OwnRows, x: u32, a: u32) -> bool
    requires own { OwnRowsStand doc.now x own.first_attribute own.first_child }
    requires a { a < length doc.now }
    requires is_xml { is_xml doc.now a ≡ true }
    ensures { result ≡ list_any (same_name doc.now a) (xml_attributes doc.now x) }
{
    let _rows = doc.rows();
    let behind = first_behind(doc, x, Some(a), own.first_attribute, own.first_child);
    if behind > own.first_attribute {
        is_xml_named(doc, a, behind - 1)
    } else {
        false
    }
}

/// Whether the `xml:` attribute `a` of an element above is imported to element `x` where it is the nearest of its name.
fn may_import(doc: &Doc<'_>, method: Method<'_, '_>, own: OwnRows, x: u32, a: u32) -> bool
    requires own { OwnRowsStand doc.now x own.first_attribute own.first_child }
    requires a { a < length doc.now }
    requires is_xml { is_xml doc.now a ≡ true }
    ensures { result ≡ may_import doc.now (rule_of method.entry) x a }
{
    is_inheritable(method, doc.local_name(a)) && !has_xml(doc, own, x, a)
}

/// Appends two runs that stand in order as one. Of two attributes of one name the first run's is kept.
fn merge_into(doc: &Doc<'_>, first: &[u32], second: &[u32], merged: &mut Vec<u32>)
    requires first_fits { All (λ a. a < length doc.now) first.now }
    requires second_fits { All (λ a. a < length doc.now) second.now }
    requires first_stands { in_order doc.now first.now ≡ first.now }
    requires second_stands { in_order doc.now second.now ≡ second.now }
    requires room { length merged.old.items + length first.now + length second.now ≤ vec_capacity merged.old }
    ensures items { merged.new.items ≡ merged.old.items ++ in_order doc.now (first.now ++ second.now) }
    ensures capacity { vec_capacity merged.old ≤ vec_capacity merged.new }
{
    let mut i = 0;
    let mut j = 0;
    while i < first.len() && j < second.len() {
        let a = first[i];
        let b = second[j];
        match attribute_cmp(doc, a, b) {
            Ordering::Less => {
                push_row(merged, a);
                i += 1;
            }
            Ordering::Equal => j += 1,
            Ordering::Greater => {
                push_row(merged, b);
                j += 1;
            }
        }
    }
    append(merged, &first[i..]);
    append(merged, &second[j..]);
}

/// Appends rows to a list, which has room for them.
fn append(list: &mut Vec<u32>, more: &[u32])
    requires { length list.old.items + length more.now ≤ vec_capacity list.old }
    ensures items { list.new.items ≡ list.old.items ++ more.now }
    ensures capacity { vec_capacity list.old ≤ vec_capacity list.new }
{
    list.extend_from_slice(more).unwrap();
}

/// Puts the attributes from place `start` on in order, where those to before place `middle` stand in order, and those from it on.
pub(crate) fn merge(doc: &Doc<'_>, ordered: &mut Ordered, start: usize, middle: usize)
    requires fit { All (λ a. a < length doc.now) ordered.old.attributes.items }
    requires start { start ≤ middle }
    requires middle { middle ≤ length ordered.old.attributes.items }
    requires first { in_order doc.now (take (middle - start) (drop start ordered.old.attributes.items))
        ≡ take (middle - start) (drop start ordered.old.attributes.items) }
    requires second { in_order doc.now (drop middle ordered.old.attributes.items) ≡ drop middle ordered.old.attributes.items }
    requires room { length ordered.old.attributes.items ≤ vec_capacity ordered.old.attributes }
    requires spare { length ordered.old.attributes.items ≤ vec_capacity ordered.old.spare }
    ensures attributes { ordered.new.attributes.items
        ≡ take start ordered.old.attributes.items ++ in_order doc.now (drop start ordered.old.attributes.items) }
    ensures fit { All (λ a. a < length doc.now) ordered.new.attributes.items }
    ensures few { length ordered.new.attributes.items ≤ length ordered.old.attributes.items }
    ensures kept { KeepsOrdered ordered.old ordered.new }
{
    ordered.spare.clear();
    merge_into(
        doc,
        &ordered.attributes[start..middle],
        &ordered.attributes[middle..],
        &mut ordered.spare,
    );
    ordered.attributes.truncate(start);
    append(&mut ordered.attributes, &ordered.spare);
}

/// Appends an `xml:` attribute where it is imported to element `x`.
pub(crate) fn push_import(
    doc: &Doc<'_>,
    method: Method<'_, '_>,
    own: OwnRows,
    x: u32,
    a: u32,
    attributes: &mut Vec<u32>,
)
    requires own { OwnRowsStand doc.now x own.first_attribute own.first_child }
    requires a { a < length doc.now }
    requires is_xml { is_xml doc.now a ≡ true }
    requires room { length attributes.old.items < vec_capacity attributes.old }
    ensures items { attributes.new.items ≡ attributes.old.items ++ filter (may_import doc.now (rule_of method.entry) x) (a ∷ []) }
    ensures capacity { vec_capacity attributes.old ≤ vec_capacity attributes.new }
{
    if may_import(doc, method, own, x, a) {
        push_row(attributes, a);
    }
}

/// Appends in order those that may be imported to element `x` of these `xml:` attributes, of which the nearest stand last: by halves.
pub(crate) fn push_imports(
    doc: &Doc<'_>,
    method: Method<'_, '_>,
    own: OwnRows,
    x: u32,
    xml: &[u32],
    ordered: &mut Ordered,
)
    requires own { OwnRowsStand doc.now x own.first_attribute own.first_child }
    requires xml_fit { All (λ a. a < length doc.now) xml.now }
    requires xml_are { All (λ a. is_xml doc.now a ≡ true) xml.now }
    requires fit { All (λ a. a < length doc.now) ordered.old.attributes.items }
    requires room { length ordered.old.attributes.items + length xml.now ≤ vec_capacity ordered.old.attributes }
    requires spare { length ordered.old.attributes.items + length xml.now ≤ vec_capacity ordered.old.spare }
    ensures attributes { ordered.new.attributes.items ≡ ordered.old.attributes.items
        ++ in_order doc.now (filter (may_import doc.now (rule_of method.entry) x) (reverse xml.now)) }
    ensures fit { All (λ a. a < length doc.now) ordered.new.attributes.items }
    ensures few { length ordered.new.attributes.items ≤ length ordered.old.attributes.items + length xml.now }
    ensures attributes_kept { vec_capacity ordered.old.attributes ≤ vec_capacity ordered.new.attributes }
    ensures spare_kept { vec_capacity ordered.old.spare ≤ vec_capacity ordered.new.spare }
{
    if xml.is_empty() {
        return;
    }
    if xml.len() == 1 {
        push_import(doc, method, own, x, xml[0], &mut ordered.attributes);
        return;
    }
    let half = xml.len() / 2;
    let start = ordered.attributes.len();
    push_imports(doc, method, own, x, &xml[half..], ordered);
    let middle = ordered.attributes.len();
    push_imports(doc, method, own, x, &xml[..half], ordered);
    merge(doc, ordered, start, middle);
}

/// Appends those of the attribute rows from `from` to before `until` that an element writes as its own.
fn push_own(
    doc: &Doc<'_>,
    set: SetView<'_>,
    base: Option<Base<'_>>,
    from: u32,
    until: u32,
    attributes: &mut Vec<u32>,
)
    requires within { until ≤ length doc.now }
    requires fit { All (λ a. a < length doc.now) attributes.old.items }
    requires room { length attributes.old.items + (until - from) ≤ vec_capacity attributes.old }
    ensures items { attributes.new.items ≡ attributes.old.items
        ++ filter (is_own doc.now (in_view set.entry) (base_of base.entry)) (range_with_len from (until - from)) }
    ensures fit { All (λ a. a < length doc.now) attributes.new.items }
    ensures capacity { vec_capacity attributes.old ≤ vec_capacity attributes.new }
{
    for a in from..until {
        if is_own(doc, set, base, a) {
            push_row(attributes, a);
        }
    }
}

/// The row in whose place a joined `xml:base` stands that isn't empty.
fn place_of(doc: &Doc<'_>, base: Option<Base<'_>>) -> Option<u32>
    requires { BaseThere doc.now base }
    ensures value { base_place (base_of base.entry) ≡ option_to_list result }
    ensures there { IfSome result (λ b. b < length doc.now) }
{
    match base {
        Some(joined) => {
            if joined.value.is_empty() {
                None
            } else {
                Some(joined.place)
            }
        }
        None => None,
    }
}

/// Puts the row of a joined `xml:base` that isn't empty in its place among attributes that stand in order.
fn push_base(doc: &Doc<'_>, base: Option<Base<'_>>, ordered: &mut Ordered)
    requires base { BaseThere doc.now base }
    requires fit { All (λ a. a < length doc.now) ordered.old.attributes.items }
    requires stand { in_order doc.now ordered.old.attributes.items ≡ ordered.old.attributes.items }
    requires room { length ordered.old.attributes.items + length (base_place (base_of base)) ≤ vec_capacity ordered.old.attributes }
    requires spare { length ordered.old.attributes.items + length (base_place (base_of base)) ≤ vec_capacity ordered.old.spare }
    ensures attributes { ordered.new.attributes.items
        ≡ in_order doc.now (ordered.old.attributes.items ++ base_place (base_of base.entry)) }
    ensures fit { All (λ a. a < length doc.now) ordered.new.attributes.items }
    ensures kept { KeepsOrdered ordered.old ordered.new }
{
    if let Some(place) = place_of(doc, base) {
        let end = ordered.attributes.len();
        push_row(&mut ordered.attributes, place);
        merge(doc, ordered, 0, end);
    }
}

/// Puts in order the attributes that element `x` writes where attributes are imported to it: its own, the imported ones, and a joined
/// `xml:base`.
pub(crate) fn put_together(
    doc: &Doc<'_>,
    set: SetView<'_>,
    method: Method<'_, '_>,
    xml: &[u32],
    nearest: &Nearest,
    base: Option<Base<'_>>,
    x: u32,
    ordered: &mut Ordered,
)
    requires here { x < length doc.now }
    requires xml_are { xml.now ≡ xml_at doc.now (parent_of doc.now x) }
    requires xml_fit { All (λ b. b < length doc.now) xml.now }
    requires nearest_are { NearestAt doc.now (rule_of method) xml.now nearest.now }
    requires base { BaseThere doc.now base }
    requires room { length (attribute_rows doc.now x) + length xml.now + length (base_place (base_of base))
        ≤ vec_capacity ordered.old.attributes }
    requires spare { length (attribute_rows doc.now x) + length xml.now + length (base_place (base_of base))
        ≤ vec_capacity ordered.old.spare }
    ensures attributes { ordered.new.attributes.items
        ≡ in_order doc.now (filter (is_own doc.now (in_view set.entry) (base_of base.entry)) (attribute_rows doc.now x)
        ++ imported doc.now (rule_of method.entry) x ++ base_place (base_of base.entry)) }
    ensures fit { All (λ a. a < length doc.now) ordered.new.attributes.items }
    ensures kept { KeepsOrdered ordered.old ordered.new }
{
    let _rows = doc.rows();
    let own = doc.own_rows(x);
    ordered.attributes.clear();
    push_own(
        doc,
        set,
        base,
        own.first_attribute,
        own.first_child,
        &mut ordered.attributes,
    );
    let middle = ordered.attributes.len();
    push_nearest(doc, method, own, x, nearest, xml, ordered);
    merge(doc, ordered, 0, middle);
    push_base(doc, base, ordered);
}
