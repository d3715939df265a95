//! What octets that were signed say: the canonical form of a SignedInfo element is read again, and says what the element says.
//!
//! So a signature over these octets is one over the fields of SignedInfo, wherever the element stands (XML Signature 1.1 §3.2, §4.3
//! and §4.4).
#![tactic(auto)]

mod laws;

pub use crate::laws::{elements_say_the_same, signed_octets_fix_the_fields};
