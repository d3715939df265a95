//! The filter transform of XML-Signature XPath Filter 2.0.
//!
//! [`apply`] is the one call. The expressions of all filters are evaluated first, and the subtrees of what they select come in by
//! one walk over the rows of each; then the sets are combined word by word.
#![tactic(auto)]

mod filters;
mod selections;
mod transform;

pub use transform::{FilterRefusal, apply};
