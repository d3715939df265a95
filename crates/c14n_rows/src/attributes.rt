//! The attribute octets of an element (Canonical XML 1.0 §2.3), with the import of `xml:` attributes (§2.4).
ghost use Rattle.std.specs.Prelude.{◌≡◌, ◌<◌, ◌≤◌, ◌+◌, ◌-◌, ◌++◌, length, cond, true, false, [], vec_capacity};
ghost use Rattle.std.specs.List.{All, filter, flat_map, range_with_len};
ghost use Rattle.sig_base.specs.Puts.{Puts};
ghost use Rattle.xml_doc.specs.Kinds.{is_element};
ghost use Rattle.xml_doc.specs.Fields.{attribute_rows};
ghost use Rattle.node_sets.specs.View.{in_view};
ghost use Rattle.c14n_rows.specs.Rules.{rule_of};
ghost use Rattle.c14n_rows.specs.Stacks.{OrderedAt};
ghost use Rattle.c14n_text.specs.Rows.{parent_of};
ghost use Rattle.c14n_text.specs.Attributes.{is_xml, imported, in_order, is_inclusive, imports_attributes};
ghost use Rattle.c14n_text.specs.Bases.{base_place, is_own, joined_base, row_attribute, attributes_octets, written_attributes};
ghost use Rattle.c14n_rows.specs.Code.Joined.{BaseThere, base_of};
ghost use Rattle.c14n_rows.specs.Code.Nearest.{NearestAt};
ghost use Rattle.c14n_rows.specs.Code.Stacks.{xml_at, KeepsOrdered, StacksAt};

use crate::bases::{Base, is_base};
use crate::imports::{Ordered, put_together};
use crate::namespaces::Method;
use crate::nearest::Nearest;
use crate::stacks::Stacks;
use c14n_text::{put_attribute, put_attribute_octets};
use node_sets::SetView;
use sig_base::{OctetSink, Put, XML_NAME};
use xml_doc::{Doc, Kind};

/// Whether an attribute row is of the namespace of `xml`.
pub(crate) fn is_xml(doc: &Doc<'_>, a: u32) -> bool
    requires { a < length doc.now }
    ensures { result ≡ is_xml doc.now a }
{
    doc.uri(a) == XML_NAME
}

/// Whether an element writes its attribute as one of its own.
pub(crate) fn is_own(doc: &Doc<'_>, set: SetView<'_>, base: Option<Base<'_>>, a: u32) -> bool
    requires { a < length doc.now }
    ensures { result ≡ is_own doc.now (in_view set.entry) (base_of base.entry) a }
{
    set.contains(a) && !(base.is_some() && is_base(doc, a))
}

/// Writes an attribute row, with the joined value where it stands for a joined `xml:base`.
fn put_row<S: OctetSink>(doc: &Doc<'_>, base: Option<Base<'_>>, a: u32, sink: &mut S) -> Put
    requires { a < length doc.now }
    ensures { Puts S.stands_for S.refusals S.makes sink.old sink.new (row_attribute doc.now (base_of base.entry) a) result }
{
    let prefix = doc.prefix_text(a);
    let local = doc.local_name(a);
    match base {
        Some(joined) if is_base(doc, a) => put_attribute_octets(prefix, local, joined.value, sink),
        _ => put_attribute(prefix, local, doc.value(a), sink),
    }
}

/// Writes these attribute rows.
fn put_rows<S: OctetSink>(doc: &Doc<'_>, base: Option<Base<'_>>, rows: &[u32], sink: &mut S) -> Put
    requires { All (λ a. a < length doc.now) rows.now }
    ensures { Puts S.stands_for S.refusals S.makes sink.old sink.new (flat_map (row_attribute doc.now (base_of base.entry)) rows.now) result }
{
    for a in rows {
        if let Put::Refused = put_row(doc, base, *a, sink) {
            return Put::Refused;
        }
    }
    Put::Done
}

/// Writes in order the attributes of an element that are its own, those that are imported to it, and a joined `xml:base`.
fn put_in_order<S: OctetSink>(
    doc: &Doc<'_>,
    set: SetView<'_>,
    method: Method<'_, '_>,
    xml: &[u32],
    nearest: &Nearest,
    base: Option<Base<'_>>,
    x: u32,
    ordered: &mut Ordered,
    sink: &mut S,
) -> Put
    requires here { x < length doc.now }
    requires xml_are { xml.now ≡ xml_at doc.now (parent_of doc.now x) }
    requires xml_fit { All (λ b. b < length doc.now) xml.now }
    requires nearest_are { NearestAt doc.now (rule_of method) xml.now nearest.now }
    requires base { BaseThere doc.now base }
    requires room { length (attribute_rows doc.now x) + length xml.now + length (base_place (base_of base))
        ≤ vec_capacity ordered.old.attributes }
    requires spare { length (attribute_rows doc.now x) + length xml.now + length (base_place (base_of base))
        ≤ vec_capacity ordered.old.spare }
    ensures puts { Puts S.stands_for S.refusals S.makes sink.old sink.new
        (flat_map (row_attribute doc.now (base_of base.entry))
        (in_order doc.now (filter (is_own doc.now (in_view set.entry) (base_of base.entry)) (attribute_rows doc.now x)
        ++ imported doc.now (rule_of method.entry) x ++ base_place (base_of base.entry)))) result }
    ensures kept { KeepsOrdered ordered.old ordered.new }
{
    put_together(doc, set, method, xml, nearest, base, x, ordered);
    put_rows(doc, base, &ordered.attributes, sink)
}

/// Writes an attribute row where it is in the set.
fn put_row_in_set<S: OctetSink>(
    doc: &Doc<'_>,
    set: SetView<'_>,
    base: Option<Base<'_>>,
    a: u32,
    sink: &mut S,
) -> Put
    requires { a < length doc.now }
    ensures { Puts S.stands_for S.refusals S.makes sink.old sink.new
        (cond (in_view set.entry a) (row_attribute doc.now (base_of base.entry) a) []) result }
{
    if set.contains(a) {
        put_row(doc, base, a, sink)
    } else {
        Put::Done
    }
}

/// Writes those of these attribute rows that are in the set.
fn put_rows_in_set<S: OctetSink>(
    doc: &Doc<'_>,
    set: SetView<'_>,
    base: Option<Base<'_>>,
    from: u32,
    until: u32,
    sink: &mut S,
) -> Put
    requires { until ≤ length doc.now }
    ensures { Puts S.stands_for S.refusals S.makes sink.old sink.new
        (flat_map (row_attribute doc.now (base_of base.entry)) (filter (in_view set.entry) (range_with_len from (until - from)))) result }
{
    for a in from..until {
        if let Put::Refused = put_row_in_set(doc, set, base, a, sink) {
            return Put::Refused;
        }
    }
    Put::Done
}

/// Whether the rule is that of Canonical XML.
fn is_inclusive(method: Method<'_, '_>) -> bool
    ensures { result ≡ is_inclusive (rule_of method.entry) }
{
    match method {
        Method::Canonical | Method::Eleven => true,
        Method::Exclusive(_) => false,
    }
}

/// Whether a kind of row is that of elements.
pub(crate) fn is_element(kind: Kind) -> bool
    ensures { result ≡ is_element kind }
{
    matches!(kind, Kind::Element)
}

/// The parent of a row; the root's is the root.
fn parent(doc: &Doc<'_>, x: u32) -> u32
    requires { x < length doc.now }
    ensures value { result ≡ parent_of doc.now x }
    ensures there { result < length doc.now }
{
    let _rows = doc.rows();
    doc.above(x)
}

/// Whether attributes are imported to an element from above.
pub(crate) fn imports_attributes(
    doc: &Doc<'_>,
    set: SetView<'_>,
    method: Method<'_, '_>,
    x: u32,
) -> bool
    requires here { x < length doc.now }
    ensures { result ≡ imports_attributes doc.now (in_view set.entry) (rule_of method.entry) x }
{
    let up = parent(doc, x);
    is_inclusive(method) && set.contains(x) && is_element(doc.kind(up)) && !set.contains(up)
}

/// Whether an element writes other attributes than its own in the set, so that they are to be put in order.
fn writes_others(
    doc: &Doc<'_>,
    set: SetView<'_>,
    method: Method<'_, '_>,
    xml: &[u32],
    base: Option<Base<'_>>,
    x: u32,
) -> bool
    requires here { x < length doc.now }
    requires xml_are { xml.now ≡ xml_at doc.now (parent_of doc.now x) }
    ensures others { result ≡ true → imports_attributes doc.now (in_view set.entry) (rule_of method.entry) x ≡ true }
    ensures own { result ≡ false → written_attributes doc.now (in_view set.entry) (rule_of method.entry) (base_of base.entry) x
        ≡ filter (in_view set.entry) (attribute_rows doc.now x) }
{
    let _rows = doc.rows();
    if !imports_attributes(doc, set, method, x) {
        return false;
    }
    if base.is_some() {
        return true;
    }
    !xml.is_empty()
}

/// Writes the attribute octets of an element; `base` is its joined `xml:base`.
pub(crate) fn put_attributes<S: OctetSink>(
    doc: &Doc<'_>,
    set: SetView<'_>,
    method: Method<'_, '_>,
    stacks: &Stacks,
    ordered: &mut Ordered,
    base: Option<Base<'_>>,
    x: u32,
    sink: &mut S,
) -> Put
    requires here { x < length doc.now }
    requires stacks { StacksAt doc.now (in_view set) (rule_of method) (parent_of doc.now x) stacks.now }
    requires ordered { OrderedAt doc.now x ordered.old }
    requires there { BaseThere doc.now base }
    requires base { base_of base ≡ joined_base doc.now (in_view set) (rule_of method) x }
    ensures puts { Puts S.stands_for S.refusals S.makes sink.old sink.new
        (attributes_octets doc.now (in_view set.entry) (rule_of method.entry) x) result }
    ensures kept { KeepsOrdered ordered.old ordered.new }
{
    let _rows = doc.rows();
    if writes_others(doc, set, method, &stacks.xml, base, x) {
        put_in_order(
            doc,
            set,
            method,
            &stacks.xml,
            &stacks.nearest,
            base,
            x,
            ordered,
            sink,
        )
    } else {
        let own = doc.own_rows(x);
        put_rows_in_set(doc, set, base, own.first_attribute, own.first_child, sink)
    }
}
