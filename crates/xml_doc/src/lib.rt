//! A document as a flat list of rows in document order, whose texts stand in an arena.
//!
//! A row is a node of XPath's data model (XPath 1.0 §5), and its number is its place in document order. The root
//! comes first. Behind an element stand its namespace nodes, then its attribute nodes, then its children. Nothing is
//! linked by pointers: a row names its parent and the last row of its subtree, so that a subtree is a range.
//!
//! [`RowList`] collects rows, and [`Doc`] keeps those that are the rows of a document. That they are so is one
//! definition, `IsWellShaped` of `specs/Shape.antt`, which every `Doc` keeps. [`Doc::axis`] walks along an axis of XPath.
#![tactic(auto)]

mod axis;
mod doc;
mod ids;
mod kept;
mod laws;
mod row;
#[cfg(test)]
mod tests;
mod top;
mod values;
mod walk;

pub use axis::Axis;
pub use doc::{Doc, OwnRows};
pub use ids::IdAnswer;
pub use laws::{ancestors_are_parents, five_axes_partition};
pub use row::{Kind, Row, RowList};
pub use walk::AxisWalk;
