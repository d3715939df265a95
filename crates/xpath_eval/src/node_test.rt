//! Node tests.
ghost use Rattle.std.specs.Prelude.{◌≡◌, ◌<◌, length, take, IfOk};
ghost use Rattle.xml_doc.specs.Shape.{row_at};
ghost use Rattle.xpath_eval.specs.Code.Context.{AreRows};
ghost use Rattle.xpath_eval.specs.NodeTests.{axis_of, has_target, is_principal, passes, tested};

use sig_base::{NoMemory, Text};
use sqlite_items::Items;
use std::alloc::Global;
use xml_doc::{Axis, Doc, Kind};
use xpath_words::{AxisName, NodeTest};

/// The axis of that name (XPath 1.0 §2.2).
fn axis_of(name: AxisName) -> Axis
    ensures { result ≡ axis_of name }
{
    match name {
        AxisName::Child => Axis::Child,
        AxisName::Descendant => Axis::Descendant,
        AxisName::Parent => Axis::Parent,
        AxisName::Ancestor => Axis::Ancestor,
        AxisName::FollowingSibling => Axis::FollowingSibling,
        AxisName::PrecedingSibling => Axis::PrecedingSibling,
        AxisName::Following => Axis::Following,
        AxisName::Preceding => Axis::Preceding,
        AxisName::Attribute => Axis::Attribute,
        AxisName::Namespace => Axis::Namespace,
        AxisName::SelfNode => Axis::SelfNode,
        AxisName::DescendantOrSelf => Axis::DescendantOrSelf,
        AxisName::AncestorOrSelf => Axis::AncestorOrSelf,
    }
}

/// Whether a node of that kind has the principal node type of the axis (XPath 1.0 §2.3).
fn is_principal(axis: Axis, kind: Kind) -> bool
    ensures { result ≡ is_principal axis kind }
{
    match axis {
        Axis::Attribute => kind == Kind::Attribute,
        Axis::Namespace => kind == Kind::Namespace,
        _ => kind == Kind::Element,
    }
}

/// Whether the target of a processing instruction is the one that is given, if one is.
fn has_target(doc: &Doc<'_>, target: &Option<Text>, y: u32) -> bool
    requires { y < length doc.now }
    ensures { result ≡ has_target target.now (row_at doc.now y) }
{
    match target {
        None => true,
        Some(target) => doc.local_name(y) == target.as_str(),
    }
}

/// Whether row `y` passes the test (XPath 1.0 §2.3).
fn passes(doc: &Doc<'_>, axis: Axis, test: &NodeTest, y: u32) -> bool
    requires { y < length doc.now }
    ensures { result ≡ passes axis test.now (row_at doc.now y) }
{
    let kind = doc.kind(y);
    match test {
        NodeTest::Any => is_principal(axis, kind),
        NodeTest::AnyIn(uri) => is_principal(axis, kind) && doc.uri(y) == uri.as_str(),
        NodeTest::Named { uri, local } => {
            is_principal(axis, kind)
                && doc.uri(y) == uri.as_str()
                && doc.local_name(y) == local.as_str()
        }
        NodeTest::Comment => kind == Kind::Comment,
        NodeTest::Words => kind == Kind::Text,
        NodeTest::Node => true,
        NodeTest::Instruction(target) => { kind == Kind::Instruction && has_target(doc, target, y) }
    }
}

/// The first rows on an axis of row `x` that pass the test, in the order of the axis, and at most so many of them.
pub(crate) fn tested(
    alloc: Global,
    doc: &Doc<'_>,
    name: AxisName,
    test: &NodeTest,
    x: u32,
    most: u32,
) -> Result<Items<u32>, NoMemory>
    requires { x < length doc.now }
    ensures value { IfOk result (λ ys. ys ≡ take most (tested doc.now name test.now x)) }
    ensures rows { IfOk result (AreRows doc.now) }
{
    let axis = axis_of(name);
    let mut ys = Items::new(alloc);
    let mut walk = doc.axis(axis, x);
    let mut left = most;
    while left > 0 {
        let Some(y) = walk.next() else {
            return Ok(ys);
        };
        if passes(doc, axis, test, y) {
            ys.push(y)?;
            left -= 1;
        }
    }
    Ok(ys)
}
