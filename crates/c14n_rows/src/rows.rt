//! The octets of one row, before its children and behind them (Canonical XML 1.0 §2.3).
ghost use Rattle.std.specs.Prelude.{◌≡◌, ◌<◌, ◌++◌, [], length, codes};
ghost use Rattle.sig_base.specs.Puts.{Puts};
ghost use Rattle.xml_doc.specs.Shape.{row_at};
ghost use Rattle.node_sets.specs.View.{in_view};
ghost use Rattle.c14n_rows.specs.Rules.{rule_of};
ghost use Rattle.c14n_rows.specs.Stacks.{OrderedAt};
ghost use Rattle.c14n_rows.specs.Code.Stacks.{KeepsOrdered, StacksAt};
ghost use Rattle.c14n_rows.specs.Code.Utilized.{AreMarked};
ghost use Rattle.c14n_text.specs.Rows.{parent_of};
ghost use Rattle.c14n_text.specs.Escapes.{pi_octets, qname};
ghost use Rattle.c14n_text.specs.Namespaces.{namespace_octets};
ghost use Rattle.c14n_text.specs.Bases.{attributes_octets, joined_base};
ghost use Rattle.c14n_rows.specs.Code.Joined.{BaseThere, base_of};
ghost use Rattle.c14n_text.specs.Canon.{document_element, is_before_element, with_line_feed, comment_octets, start_tag, end_tag, opening, closing};

use crate::attributes::{is_element, put_attributes};
use crate::bases::Base;
use crate::imports::Ordered;
use crate::namespaces::{Method, put_namespaces};
use crate::stacks::Stacks;
use c14n_text::Piece::Plain;
use c14n_text::{put_all, put_pi, put_text};
use node_sets::SetView;
use sig_base::{OctetSink, Put};
use xml_doc::{Doc, Kind};

/// Whether a row stands before the document element.
fn is_before_element(x: u32, element: Option<u32>) -> bool
    ensures { result ≡ is_before_element x element }
{
    match element {
        Some(e) => x < e,
        None => false,
    }
}

/// Writes a comment; `element` is the document element.
fn put_comment<S: OctetSink>(doc: &Doc<'_>, element: Option<u32>, x: u32, sink: &mut S) -> Put
    requires here { x < length doc.now }
    requires element { element ≡ document_element doc.now }
    ensures { Puts S.stands_for S.refusals S.makes sink.old sink.new (with_line_feed doc.now x (comment_octets (row_at doc.now x).value))
        result }
{
    let text = doc.value(x);
    if doc.above(x) != 0 {
        put_all(&[Plain("<!--"), Plain(text), Plain("-->")], sink)
    } else if is_before_element(x, element) {
        put_all(&[Plain("<!--"), Plain(text), Plain("-->\n")], sink)
    } else {
        put_all(&[Plain("\n<!--"), Plain(text), Plain("-->")], sink)
    }
}

/// Writes a line feed.
fn put_line_feed<S: OctetSink>(sink: &mut S) -> Put
    ensures { Puts S.stands_for S.refusals S.makes sink.old sink.new (codes "\n") result }
{
    put_all(&[Plain("\n")], sink)
}

/// Writes an instruction by itself.
fn put_instruction_alone<S: OctetSink>(doc: &Doc<'_>, x: u32, sink: &mut S) -> Put
    requires { x < length doc.now }
    ensures { Puts S.stands_for S.refusals S.makes sink.old sink.new (pi_octets (row_at doc.now x).local_name (row_at doc.now x).value)
        result }
{
    put_pi(doc.local_name(x), doc.value(x), sink)
}

/// Writes an instruction and a line feed behind it.
fn put_instruction_first<S: OctetSink>(doc: &Doc<'_>, x: u32, sink: &mut S) -> Put
    requires { x < length doc.now }
    ensures { Puts S.stands_for S.refusals S.makes sink.old sink.new
        (pi_octets (row_at doc.now x).local_name (row_at doc.now x).value ++ codes "\n") result }
{
    if let Put::Refused = put_instruction_alone(doc, x, sink) {
        return Put::Refused;
    }
    put_line_feed(sink)
}

/// Writes an instruction and a line feed before it.
fn put_instruction_last<S: OctetSink>(doc: &Doc<'_>, x: u32, sink: &mut S) -> Put
    requires { x < length doc.now }
    ensures { Puts S.stands_for S.refusals S.makes sink.old sink.new
        (codes "\n" ++ pi_octets (row_at doc.now x).local_name (row_at doc.now x).value) result }
{
    if let Put::Refused = put_line_feed(sink) {
        return Put::Refused;
    }
    put_instruction_alone(doc, x, sink)
}

/// Writes an instruction; `element` is the document element.
fn put_instruction<S: OctetSink>(doc: &Doc<'_>, element: Option<u32>, x: u32, sink: &mut S) -> Put
    requires here { x < length doc.now }
    requires element { element ≡ document_element doc.now }
    ensures { Puts S.stands_for S.refusals S.makes sink.old sink.new
        (with_line_feed doc.now x (pi_octets (row_at doc.now x).local_name (row_at doc.now x).value)) result }
{
    if doc.above(x) != 0 {
        put_instruction_alone(doc, x, sink)
    } else if is_before_element(x, element) {
        put_instruction_first(doc, x, sink)
    } else {
        put_instruction_last(doc, x, sink)
    }
}

/// Writes a name between two texts.
fn put_name<'a, S: OctetSink>(
    before: &'a str,
    prefix: &'a str,
    local: &'a str,
    after: &'a str,
    sink: &mut S,
) -> Put
    ensures { Puts S.stands_for S.refusals S.makes sink.old sink.new (before.now ++ qname prefix.now local.now ++ after.now) result }
{
    if prefix.is_empty() {
        put_all(&[Plain(before), Plain(local), Plain(after)], sink)
    } else {
        put_all(
            &[
                Plain(before),
                Plain(prefix),
                Plain(":"),
                Plain(local),
                Plain(after),
            ],
            sink,
        )
    }
}

/// Writes the beginning of a start tag.
fn put_tag_name<S: OctetSink>(doc: &Doc<'_>, x: u32, sink: &mut S) -> Put
    requires { x < length doc.now }
    ensures { Puts S.stands_for S.refusals S.makes sink.old sink.new
        (codes "<" ++ qname (row_at doc.now x).prefix_text (row_at doc.now x).local_name ++ []) result }
{
    put_name("<", doc.prefix_text(x), doc.local_name(x), "", sink)
}

/// Writes an end tag.
fn put_end_tag<S: OctetSink>(doc: &Doc<'_>, x: u32, sink: &mut S) -> Put
    requires { x < length doc.now }
    ensures { Puts S.stands_for S.refusals S.makes sink.old sink.new (end_tag doc.now x) result }
{
    put_name("</", doc.prefix_text(x), doc.local_name(x), ">", sink)
}

/// Writes the namespace octets and the attribute octets of an element.
fn put_fields<S: OctetSink>(
    doc: &Doc<'_>,
    set: SetView<'_>,
    method: Method<'_, '_>,
    stacks: &Stacks,
    ordered: &mut Ordered,
    base: Option<Base<'_>>,
    x: u32,
    sink: &mut S,
) -> Put
    requires here { x < length doc.now }
    requires stacks { StacksAt doc.now (in_view set) (rule_of method) (parent_of doc.now x) stacks.now }
    requires marked { AreMarked doc.now (in_view set) (rule_of method) x stacks.now.marks.items }
    requires ordered { OrderedAt doc.now x ordered.old }
    requires there { BaseThere doc.now base }
    requires base { base_of base ≡ joined_base doc.now (in_view set) (rule_of method) x }
    ensures puts { Puts S.stands_for S.refusals S.makes sink.old sink.new
        (namespace_octets doc.now (in_view set.entry) (rule_of method.entry) x
        ++ attributes_octets doc.now (in_view set.entry) (rule_of method.entry) x) result }
    ensures kept { KeepsOrdered ordered.old ordered.new }
{
    if let Put::Refused = put_namespaces(doc, set, method, stacks, x, sink) {
        return Put::Refused;
    }
    put_attributes(doc, set, method, stacks, ordered, base, x, sink)
}

/// Writes the start tag of an element.
fn put_start_tag<S: OctetSink>(
    doc: &Doc<'_>,
    set: SetView<'_>,
    method: Method<'_, '_>,
    stacks: &Stacks,
    ordered: &mut Ordered,
    base: Option<Base<'_>>,
    x: u32,
    sink: &mut S,
) -> Put
    requires here { x < length doc.now }
    requires stacks { StacksAt doc.now (in_view set) (rule_of method) (parent_of doc.now x) stacks.now }
    requires marked { AreMarked doc.now (in_view set) (rule_of method) x stacks.now.marks.items }
    requires ordered { OrderedAt doc.now x ordered.old }
    requires there { BaseThere doc.now base }
    requires base { base_of base ≡ joined_base doc.now (in_view set) (rule_of method) x }
    ensures puts { Puts S.stands_for S.refusals S.makes sink.old sink.new (start_tag doc.now (in_view set.entry) (rule_of method.entry) x)
        result }
    ensures kept { KeepsOrdered ordered.old ordered.new }
{
    if let Put::Refused = put_tag_name(doc, x, sink) {
        return Put::Refused;
    }
    if let Put::Refused = put_fields(doc, set, method, stacks, ordered, base, x, sink) {
        return Put::Refused;
    }
    put_all(&[Plain(">")], sink)
}

/// Writes what stands before a row's children; `element` is the document element, and `base` the row's joined `xml:base`.
pub(crate) fn put_opening<S: OctetSink>(
    doc: &Doc<'_>,
    set: SetView<'_>,
    method: Method<'_, '_>,
    stacks: &Stacks,
    ordered: &mut Ordered,
    base: Option<Base<'_>>,
    comments: bool,
    element: Option<u32>,
    x: u32,
    sink: &mut S,
) -> Put
    requires here { x < length doc.now }
    requires element { element ≡ document_element doc.now }
    requires stacks { StacksAt doc.now (in_view set) (rule_of method) (parent_of doc.now x) stacks.now }
    requires marked { AreMarked doc.now (in_view set) (rule_of method) x stacks.now.marks.items }
    requires ordered { OrderedAt doc.now x ordered.old }
    requires there { BaseThere doc.now base }
    requires base { base_of base ≡ joined_base doc.now (in_view set) (rule_of method) x }
    ensures puts { Puts S.stands_for S.refusals S.makes sink.old sink.new
        (opening doc.now (in_view set.entry) (rule_of method.entry) comments x) result }
    ensures kept { KeepsOrdered ordered.old ordered.new }
{
    let is_in = set.contains(x);
    match doc.kind(x) {
        Kind::Root | Kind::Namespace | Kind::Attribute => Put::Done,
        Kind::Element => {
            if is_in {
                put_start_tag(doc, set, method, stacks, ordered, base, x, sink)
            } else {
                put_fields(doc, set, method, stacks, ordered, base, x, sink)
            }
        }
        Kind::Text => {
            if is_in {
                put_text(doc.value(x), sink)
            } else {
                Put::Done
            }
        }
        Kind::Comment => {
            if comments && is_in {
                put_comment(doc, element, x, sink)
            } else {
                Put::Done
            }
        }
        Kind::Instruction => {
            if is_in {
                put_instruction(doc, element, x, sink)
            } else {
                Put::Done
            }
        }
    }
}

/// Writes what stands behind a row's children.
pub(crate) fn put_closing<S: OctetSink>(
    doc: &Doc<'_>,
    set: SetView<'_>,
    x: u32,
    sink: &mut S,
) -> Put
    requires { x < length doc.now }
    ensures { Puts S.stands_for S.refusals S.makes sink.old sink.new (closing doc.now (in_view set.entry) x) result }
{
    match doc.kind(x) {
        Kind::Element => {
            if set.contains(x) {
                put_end_tag(doc, x, sink)
            } else {
                Put::Done
            }
        }
        _ => Put::Done,
    }
}
