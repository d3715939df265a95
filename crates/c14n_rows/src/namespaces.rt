//! The namespace octets of an element (Canonical XML 1.0 §2.3; Exclusive XML Canonicalization 1.0 §3).
ghost use Rattle.std.specs.Prelude.{◌≡◌, ◌<◌, ◌≤◌, ◌+◌, ◌-◌, true, [], length, map, encode_utf8_all, IfSome};
ghost use Rattle.std.specs.List.{list_any, flat_map, range_with_len};
ghost use Rattle.std.specs.Str.{bytes_eq};
ghost use Rattle.sig_base.specs.Puts.{Puts};
ghost use Rattle.xml_doc.specs.Fields.{is_namespace_of, namespace_rows};
ghost use Rattle.xml_doc.specs.Shape.{row_at};
ghost use Rattle.node_sets.specs.View.{in_view};
ghost use Rattle.c14n_rows.specs.Rules.{rule_of};
ghost use Rattle.c14n_rows.specs.Code.Stacks.{FrameAt, StacksAt};
ghost use Rattle.c14n_rows.specs.Code.Utilized.{AreMarked};
ghost use Rattle.c14n_text.specs.Rows.{parent_of};
ghost use Rattle.c14n_text.specs.Namespaces.{follows_inclusive_rule, renders, nearest, has_binding, is_default, has_default, is_written, undeclares, declaration, row_declaration, undeclaration, namespace_octets};

use crate::prefixes::Listed;
use crate::stacks::{Frame, Stacks, frame_above, rendered_above};
use crate::utilized::{utilizes_default, visibly_utilizes};
use c14n_text::Piece::{Plain, Value};
use c14n_text::put_all;
use node_sets::SetView;
use sig_base::{OctetSink, Put};
use xml_doc::Doc;

/// The rule of a canonical form.
#[derive(Clone, Copy)]
pub enum Method<'l, 'p> {
    /// Canonical XML 1.0.
    Canonical,
    /// Canonical XML 1.1.
    Eleven,
    /// Exclusive XML Canonicalization 1.0, with its PrefixList.
    Exclusive(&'l Listed<'p>),
}

/// Whether a prefix follows the rule of Canonical XML.
pub(crate) fn follows_inclusive_rule(method: Method<'_, '_>, prefix: &str) -> bool
    ensures { result ≡ follows_inclusive_rule (rule_of method.entry) prefix.now }
{
    match method {
        Method::Canonical | Method::Eleven => true,
        Method::Exclusive(listed) => {
            if prefix.is_empty() {
                listed.has("#default")
            } else {
                listed.has(prefix)
            }
        }
    }
}

/// Whether an element is in the set and counts for the prefix of its namespace row `y`: where this doesn't follow the
/// inclusive rule, by visibly utilizing it.
pub(crate) fn renders(
    doc: &Doc<'_>,
    set: SetView<'_>,
    method: Method<'_, '_>,
    marks: &[bool],
    e: u32,
    y: u32,
) -> bool
    requires here { e < length doc.now }
    requires row { y < length doc.now }
    requires namespace { is_namespace_of doc.now e y ≡ true }
    requires marked { AreMarked doc.now (in_view set) (rule_of method) e marks.now }
    ensures { result ≡ renders doc.now (in_view set.entry) (rule_of method.entry) (row_at doc.now y).local_name e }
{
    set.contains(e)
        && (follows_inclusive_rule(method, doc.local_name(y))
            || visibly_utilizes(doc, set, marks, e, y))
}

/// The same for the default.
pub(crate) fn renders_default(
    doc: &Doc<'_>,
    set: SetView<'_>,
    method: Method<'_, '_>,
    e: u32,
) -> bool
    requires { e < length doc.now }
    ensures { result ≡ renders doc.now (in_view set.entry) (rule_of method.entry) [] e }
{
    set.contains(e) && (follows_inclusive_rule(method, "") || utilizes_default(doc, set, e))
}

/// Whether a namespace row is in the set and is that of the default.
pub(crate) fn is_default(doc: &Doc<'_>, set: SetView<'_>, z: u32) -> bool
    requires { z < length doc.now }
    ensures { result ≡ is_default doc.now (in_view set.entry) z }
{
    set.contains(z) && doc.local_name(z).is_empty()
}

/// Whether one of the namespace rows from `from` to before `until` is.
fn any_default(doc: &Doc<'_>, set: SetView<'_>, from: u32, until: u32) -> bool
    requires { until ≤ length doc.now }
    ensures { result ≡ list_any (is_default doc.now (in_view set.entry)) (range_with_len from (until - from)) }
{
    for z in from..until {
        if is_default(doc, set, z) {
            return true;
        }
    }
    false
}

/// Whether an element has a default namespace row in the set.
fn has_default(doc: &Doc<'_>, set: SetView<'_>, element: Option<u32>) -> bool
    requires { IfSome element (λ e. e < length doc.now) }
    ensures { result ≡ has_default doc.now (in_view set.entry) element }
{
    match element {
        Some(e) => {
            let own = doc.own_rows(e);
            any_default(doc, set, e + 1, own.first_attribute)
        }
        None => false,
    }
}

/// Whether the nearest element above that counts for a prefix binds it to this name, in the set.
fn is_shown(
    doc: &Doc<'_>,
    set: SetView<'_>,
    method: Method<'_, '_>,
    above: Frame<'_>,
    x: u32,
    prefix: &str,
    name: &str,
) -> bool
    requires element { x < length doc.now }
    requires frame { FrameAt doc.now (in_view set) (rule_of method) (parent_of doc.now x) above }
    ensures { result ≡ has_binding doc.now (in_view set.entry) prefix.now name.now
        (nearest doc.now (in_view set.entry) (rule_of method.entry) prefix.now x) }
{
    let _rows = doc.rows();
    match rendered_above(doc, set, method, above, x, prefix) {
        Some(z) => doc.value(z) == name,
        None => false,
    }
}

/// Whether the nearest element above that counts for the default has a default namespace row in the set.
fn is_default_shown(
    doc: &Doc<'_>,
    set: SetView<'_>,
    method: Method<'_, '_>,
    above: Frame<'_>,
    x: u32,
) -> bool
    requires element { x < length doc.now }
    requires frame { FrameAt doc.now (in_view set) (rule_of method) (parent_of doc.now x) above }
    ensures { result ≡ has_default doc.now (in_view set.entry) (nearest doc.now (in_view set.entry) (rule_of method.entry) [] x) }
{
    above.default.is_some()
}

/// Whether a namespace row of an element is written.
fn is_written(
    doc: &Doc<'_>,
    set: SetView<'_>,
    method: Method<'_, '_>,
    above: Frame<'_>,
    marks: &[bool],
    x: u32,
    y: u32,
) -> bool
    requires element { x < length doc.now }
    requires row { y < length doc.now }
    requires namespace { is_namespace_of doc.now x y ≡ true }
    requires marked { AreMarked doc.now (in_view set) (rule_of method) x marks.now }
    requires frame { FrameAt doc.now (in_view set) (rule_of method) (parent_of doc.now x) above }
    ensures { result ≡ is_written doc.now (in_view set.entry) (rule_of method.entry) x y }
{
    let prefix = doc.local_name(y);
    set.contains(y)
        && prefix != "xml"
        && (follows_inclusive_rule(method, prefix)
            || (set.contains(x) && visibly_utilizes(doc, set, marks, x, y)))
        && !is_shown(doc, set, method, above, x, prefix, doc.value(y))
}

/// Whether an element writes `xmlns=""`.
fn undeclares(
    doc: &Doc<'_>,
    set: SetView<'_>,
    method: Method<'_, '_>,
    above: Frame<'_>,
    x: u32,
) -> bool
    requires element { x < length doc.now }
    requires frame { FrameAt doc.now (in_view set) (rule_of method) (parent_of doc.now x) above }
    ensures { result ≡ undeclares doc.now (in_view set.entry) (rule_of method.entry) x }
{
    renders_default(doc, set, method, x)
        && !has_default(doc, set, Some(x))
        && is_default_shown(doc, set, method, above, x)
}

/// Writes a namespace declaration.
fn put_declaration<'a, S: OctetSink>(prefix: &'a str, name: &'a str, sink: &mut S) -> Put
    ensures { Puts S.stands_for S.refusals S.makes sink.old sink.new (declaration prefix.now name.now) result }
{
    if prefix.is_empty() {
        put_all(&[Plain(" xmlns=\""), Value(name), Plain("\"")], sink)
    } else {
        put_all(
            &[
                Plain(" xmlns:"),
                Plain(prefix),
                Plain("=\""),
                Value(name),
                Plain("\""),
            ],
            sink,
        )
    }
}

/// Writes a namespace row of an element where it is written.
fn put_row<S: OctetSink>(
    doc: &Doc<'_>,
    set: SetView<'_>,
    method: Method<'_, '_>,
    above: Frame<'_>,
    marks: &[bool],
    x: u32,
    y: u32,
    sink: &mut S,
) -> Put
    requires element { x < length doc.now }
    requires row { y < length doc.now }
    requires namespace { is_namespace_of doc.now x y ≡ true }
    requires marked { AreMarked doc.now (in_view set) (rule_of method) x marks.now }
    requires frame { FrameAt doc.now (in_view set) (rule_of method) (parent_of doc.now x) above }
    ensures { Puts S.stands_for S.refusals S.makes sink.old sink.new
        (row_declaration doc.now (in_view set.entry) (rule_of method.entry) x y) result }
{
    if is_written(doc, set, method, above, marks, x, y) {
        put_declaration(doc.local_name(y), doc.value(y), sink)
    } else {
        Put::Done
    }
}

/// Writes `xmlns=""` where the element does.
fn put_undeclaration<S: OctetSink>(
    doc: &Doc<'_>,
    set: SetView<'_>,
    method: Method<'_, '_>,
    above: Frame<'_>,
    x: u32,
    sink: &mut S,
) -> Put
    requires element { x < length doc.now }
    requires frame { FrameAt doc.now (in_view set) (rule_of method) (parent_of doc.now x) above }
    ensures { Puts S.stands_for S.refusals S.makes sink.old sink.new (undeclaration doc.now (in_view set.entry) (rule_of method.entry) x)
        result }
{
    if undeclares(doc, set, method, above, x) {
        put_all(&[Plain(" xmlns=\"\"")], sink)
    } else {
        Put::Done
    }
}

/// Writes those of the namespace rows of an element that are written.
fn put_rows<S: OctetSink>(
    doc: &Doc<'_>,
    set: SetView<'_>,
    method: Method<'_, '_>,
    above: Frame<'_>,
    marks: &[bool],
    x: u32,
    sink: &mut S,
) -> Put
    requires element { x < length doc.now }
    requires marked { AreMarked doc.now (in_view set) (rule_of method) x marks.now }
    requires frame { FrameAt doc.now (in_view set) (rule_of method) (parent_of doc.now x) above }
    ensures { Puts S.stands_for S.refusals S.makes sink.old sink.new
        (flat_map (row_declaration doc.now (in_view set.entry) (rule_of method.entry) x) (namespace_rows doc.now x)) result }
{
    let _rows = doc.rows();
    let own = doc.own_rows(x);
    for y in x + 1..own.first_attribute {
        if let Put::Refused = put_row(doc, set, method, above, marks, x, y, sink) {
            return Put::Refused;
        }
    }
    Put::Done
}

/// Writes the namespace octets of an element.
pub(crate) fn put_namespaces<S: OctetSink>(
    doc: &Doc<'_>,
    set: SetView<'_>,
    method: Method<'_, '_>,
    stacks: &Stacks,
    x: u32,
    sink: &mut S,
) -> Put
    requires element { x < length doc.now }
    requires stacks { StacksAt doc.now (in_view set) (rule_of method) (parent_of doc.now x) stacks.now }
    requires marked { AreMarked doc.now (in_view set) (rule_of method) x stacks.now.marks.items }
    ensures { Puts S.stands_for S.refusals S.makes sink.old sink.new
        (namespace_octets doc.now (in_view set.entry) (rule_of method.entry) x) result }
{
    let above = frame_above(doc, set, method, &stacks.slots, x);
    if let Put::Refused = put_undeclaration(doc, set, method, above, x, sink) {
        return Put::Refused;
    }
    put_rows(doc, set, method, above, &stacks.marks, x, sink)
}
