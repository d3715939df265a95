//! The axes of XPath, as tests of two rows.
ghost use Rattle.std.specs.Prelude.{◌≡◌, ◌<◌, length};
ghost use Rattle.xml_doc.specs.Axes.{are_siblings, is_ancestor, is_child, is_descendant, is_reverse, on_axis};

use crate::doc::Doc;

/// Where a step looks from a node (XPath 1.0 §2.2).
#[derive(Clone, Copy, Debug, PartialEq, Eq)]
pub enum Axis {
    /// The children.
    Child,
    /// The children, their children and so on.
    Descendant,
    /// The parent. An attribute's or a namespace node's is its element.
    Parent,
    /// The parent, its parent and so on.
    Ancestor,
    /// The siblings behind the node. An attribute or a namespace node has none.
    FollowingSibling,
    /// The siblings before the node. An attribute or a namespace node has none.
    PrecedingSibling,
    /// All behind the node in document order, but its descendants, attributes and namespace nodes.
    Following,
    /// All before the node in document order, but its ancestors, attributes and namespace nodes.
    Preceding,
    /// The attributes of an element.
    Attribute,
    /// The namespace nodes of an element.
    Namespace,
    /// The node itself: the axis `self`.
    SelfNode,
    /// The node and its descendants.
    DescendantOrSelf,
    /// The node and its ancestors.
    AncestorOrSelf,
}

impl Axis {
    /// Whether it runs against document order (XPath 1.0 §2.4).
    pub fn is_reverse(self) -> bool
        ensures { result ≡ is_reverse self }
    {
        matches!(
            self,
            Axis::Ancestor | Axis::PrecedingSibling | Axis::Preceding | Axis::AncestorOrSelf
        )
    }
}

impl<'a> Doc<'a> {
    /// Whether `y` stands on that axis of `x`.
    pub(crate) fn on_axis(&self, axis: Axis, x: u32, y: u32) -> bool
        requires x { x < length self.now }
        requires y { y < length self.now }
        ensures { result ≡ on_axis axis self.now x y }
    {
        match axis {
            Axis::Child => self.is_child(x, y),
            Axis::Descendant => self.is_descendant(x, y),
            Axis::Parent => 0 < x && self.above(x) == y,
            Axis::Ancestor => self.is_ancestor(x, y),
            Axis::FollowingSibling => x < y && self.are_siblings(x, y),
            Axis::PrecedingSibling => y < x && self.are_siblings(x, y),
            Axis::Following => self.last(x) < y && !self.is_field(y),
            Axis::Preceding => self.last(y) < x && !self.is_field(y),
            Axis::Attribute => self.is_attribute_of(x, y),
            Axis::Namespace => self.is_namespace_of(x, y),
            Axis::SelfNode => x == y,
            Axis::DescendantOrSelf => x == y || self.is_descendant(x, y),
            Axis::AncestorOrSelf => x == y || self.is_ancestor(x, y),
        }
    }

    /// Whether `y` is a child of `x`.
    fn is_child(&self, x: u32, y: u32) -> bool
        requires { y < length self.now }
        ensures { result ≡ is_child self.now x y }
    {
        0 < y && self.above(y) == x && !self.is_field(y)
    }

    /// Whether `y` is an ancestor of `x`.
    fn is_ancestor(&self, x: u32, y: u32) -> bool
        requires { y < length self.now }
        ensures { result ≡ is_ancestor self.now x y }
    {
        y < x && x <= self.last(y)
    }

    /// Whether `y` is a descendant of `x`.
    fn is_descendant(&self, x: u32, y: u32) -> bool
        requires x { x < length self.now }
        requires y { y < length self.now }
        ensures { result ≡ is_descendant self.now x y }
    {
        self.is_ancestor(y, x) && !self.is_field(y)
    }

    /// Whether both are children of one parent.
    fn are_siblings(&self, x: u32, y: u32) -> bool
        requires x { x < length self.now }
        requires y { y < length self.now }
        ensures { result ≡ are_siblings self.now x y }
    {
        let parent = self.above(x);
        self.is_child(parent, x) && self.is_child(parent, y)
    }
}
