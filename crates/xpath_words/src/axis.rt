//! The axes, by name.
ghost use Rattle.std.specs.Prelude.{◌≡◌};
ghost use Rattle.xpath_words.specs.Named.{axis_named};

/// An axis (XPath 1.0 §2.2).
#[derive(Clone, Copy, Debug, PartialEq, Eq, Drop)]
pub enum AxisName {
    /// `child`.
    Child,
    /// `descendant`.
    Descendant,
    /// `parent`.
    Parent,
    /// `ancestor`.
    Ancestor,
    /// `following-sibling`.
    FollowingSibling,
    /// `preceding-sibling`.
    PrecedingSibling,
    /// `following`.
    Following,
    /// `preceding`.
    Preceding,
    /// `attribute`.
    Attribute,
    /// `namespace`.
    Namespace,
    /// `self`.
    SelfNode,
    /// `descendant-or-self`.
    DescendantOrSelf,
    /// `ancestor-or-self`.
    AncestorOrSelf,
}

impl AxisName {
    /// The axis of this name. `None` comes exactly where none has it.
    pub(crate) fn named(name: &str) -> Option<AxisName>
        ensures { result ≡ axis_named name.now }
    {
        match name {
            "child" => Some(AxisName::Child),
            "descendant" => Some(AxisName::Descendant),
            "parent" => Some(AxisName::Parent),
            "ancestor" => Some(AxisName::Ancestor),
            "following-sibling" => Some(AxisName::FollowingSibling),
            "preceding-sibling" => Some(AxisName::PrecedingSibling),
            "following" => Some(AxisName::Following),
            "preceding" => Some(AxisName::Preceding),
            "attribute" => Some(AxisName::Attribute),
            "namespace" => Some(AxisName::Namespace),
            "self" => Some(AxisName::SelfNode),
            "descendant-or-self" => Some(AxisName::DescendantOrSelf),
            "ancestor-or-self" => Some(AxisName::AncestorOrSelf),
            _ => None,
        }
    }
}
