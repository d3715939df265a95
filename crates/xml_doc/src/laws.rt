//! Laws of the definitions.
ghost use Rattle.std.specs.Prelude.{List};
ghost use Rattle.xml_doc.specs.AxisLaws.{AncestorsAreParents, FiveAxesPartition};
ghost use Rattle.xml_doc.specs.Rows.{RowOf};
ghost use Rattle.xml_doc.specs.Shape.{IsWellShaped};

/// The ancestors of a node are its parent, the parent's parent and so on (XPath 1.0 §2.2).
pub fn ancestors_are_parents()
    ensures { (rows : List RowOf) → IsWellShaped rows → AncestorsAreParents rows }
{}

/// The ancestor, descendant, following, preceding and self axes partition a document, attribute and namespace nodes
/// aside (XPath 1.0 §2.2).
pub fn five_axes_partition()
    ensures { (rows : List RowOf) → IsWellShaped rows → FiveAxesPartition rows }
{}
