//! Where a canonical form looks: at the rows in front of the last of its set, and at none behind.
//!
//! It holds for Canonical XML 1.0 and 1.1 and for Exclusive XML Canonicalization: what is imported from elements above, and
//! the values of `xml:base` that are joined, stand in front of the rows of the set. So a document that changes only behind
//! an element has the same canonical form of what stands in front.
#![tactic(auto)]

mod laws;

pub use crate::laws::{forms_are_local, subtree_forms_are_local};
