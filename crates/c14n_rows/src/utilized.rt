//! The prefixes that an element's attributes utilize (Exclusive XML Canonicalization 1.0 §1.1).
//!
//! One pass over the attribute rows marks the namespace rows of these prefixes. So an element of many declarations and many
//! attributes isn't gone through anew for each declaration.
ghost use Rattle.std.specs.Prelude.{◌≡◌, ◌<◌, ◌≤◌, ◌+◌, ◌-◌, ◌++◌, ◌∷◌, [], ℕ, List, true, false, length, replicate, vec_capacity};
ghost use Rattle.std.specs.List.{range_with_len};
ghost use Rattle.xml_doc.specs.Fields.{namespace_rows, attribute_rows, is_namespace_of};
ghost use Rattle.xml_doc.specs.Shape.{row_at};
ghost use Rattle.node_sets.specs.View.{in_view};
ghost use Rattle.c14n_text.specs.Namespaces.{visibly_utilizes};
ghost use Rattle.c14n_rows.specs.Rules.{rule_of};
ghost use Rattle.c14n_rows.specs.Stacks.{count_of, total, upwards};
ghost use Rattle.c14n_rows.specs.Code.Utilized.{AreMarked, marks_of};

use crate::names::row_named;
use crate::namespaces::Method;
use node_sets::SetView;
use xml_doc::Doc;

/// Marks the namespace row of element `e` that has the prefix of attribute row `a`, where this is in the set and has one.
fn mark_attribute(
    doc: &Doc<'_>,
    set: SetView<'_>,
    marks: &mut Vec<bool>,
    e: u32,
    until: u32,
    a: u32,
)
    requires behind { e < until }
    requires within { until ≤ length doc.now }
    requires rows { namespace_rows doc.now e ≡ range_with_len (e + 1) (until - (e + 1)) }
    requires attribute { a < length doc.now }
    requires marks { length marks.old.items ≡ until - (e + 1) }
    ensures marked { (before : List ℕ) → marks.old.items ≡ marks_of doc.now (in_view set.entry) e before
        → marks.new.items ≡ marks_of doc.now (in_view set.entry) e (before ++ a ∷ []) }
    ensures capacity { vec_capacity marks.old ≤ vec_capacity marks.new }
{
    let _rows = doc.rows();
    let prefix = doc.prefix_text(a);
    if !set.contains(a) || prefix.is_empty() {
        return;
    }
    if let Some(z) = row_named(doc, e, until, prefix) {
        marks[(z - e) as usize - 1] = true;
    }
}

/// Leaves this many marks, none of which is set. There is room for them.
fn unmark(marks: &mut Vec<bool>, count: usize)
    requires { count ≤ vec_capacity marks.old }
    ensures items { marks.new.items ≡ replicate count false }
    ensures capacity { vec_capacity marks.old ≤ vec_capacity marks.new }
{
    marks.clear();
    marks.resize(count, false).unwrap();
}

/// Marks the namespace rows of element `e` whose prefixes its attribute rows in the set have.
fn mark_attributes(doc: &Doc<'_>, set: SetView<'_>, marks: &mut Vec<bool>, e: u32)
    requires here { e < length doc.now }
    requires room { length (namespace_rows doc.now e) ≤ vec_capacity marks.old }
    ensures marked { marks.new.items ≡ marks_of doc.now (in_view set.entry) e (attribute_rows doc.now e) }
    ensures capacity { vec_capacity marks.old ≤ vec_capacity marks.new }
{
    let _rows = doc.rows();
    let own = doc.own_rows(e);
    unmark(marks, (own.first_attribute - e) as usize - 1);
    for a in own.first_attribute..own.first_child {
        mark_attribute(doc, set, marks, e, own.first_attribute, a);
    }
}

/// The same where the method asks for marks.
pub(crate) fn mark_utilized(
    doc: &Doc<'_>,
    set: SetView<'_>,
    method: Method<'_, '_>,
    marks: &mut Vec<bool>,
    e: u32,
)
    requires here { e < length doc.now }
    requires room { total (count_of doc.now) (upwards doc.now e) ≤ vec_capacity marks.old }
    ensures marked { AreMarked doc.now (in_view set.entry) (rule_of method.entry) e marks.new.items }
    ensures capacity { vec_capacity marks.old ≤ vec_capacity marks.new }
{
    let _rows = doc.rows();
    if let Method::Exclusive(_) = method {
        mark_attributes(doc, set, marks, e);
    }
}

/// Whether an element visibly utilizes the prefix of its namespace row `y`, by the marks of its rows.
pub(crate) fn visibly_utilizes(
    doc: &Doc<'_>,
    set: SetView<'_>,
    marks: &[bool],
    e: u32,
    y: u32,
) -> bool
    requires here { e < length doc.now }
    requires row { y < length doc.now }
    requires namespace { is_namespace_of doc.now e y ≡ true }
    requires marked { marks.now ≡ marks_of doc.now (in_view set) e (attribute_rows doc.now e) }
    ensures { result ≡ visibly_utilizes doc.now (in_view set.entry) e (row_at doc.now y).local_name }
{
    let _rows = doc.rows();
    doc.prefix_text(e) == doc.local_name(y) || marks[(y - e) as usize - 1]
}

/// The same of the default: an attribute without a prefix has no namespace, and so doesn't utilize it.
pub(crate) fn utilizes_default(doc: &Doc<'_>, set: SetView<'_>, e: u32) -> bool
    requires { e < length doc.now }
    ensures { result ≡ visibly_utilizes doc.now (in_view set.entry) e [] }
{
    doc.prefix_text(e).is_empty()
}
