//! Node sets over one document.
//!
//! A node set is some of the rows of a document (XPath 1.0 §3.3): [`NodeSet`] keeps a bit for each row, and joins two
//! sets word by word. Only its makers take memory. [`SetView`] is a set that is lent, and can be copied.
//!
//! ```text
//! use node_sets::NodeSet;
//! use xml_doc::Doc;
//!
//! fn dangling<'d>(doc: Doc<'d>, alloc: Global) -> Result<NodeSet<'d>, NoMemory> {
//!     NodeSet::all(alloc, &doc)      // refused: the set would outlive its document
//! }
//! ```
#![tactic(auto)]

mod bits;
mod set;
mod span;
#[cfg(test)]
mod tests;

pub use set::{NodeSet, SetView};
pub use span::Span;
