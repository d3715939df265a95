//! Signing with HMAC: a template is filled in (XML Signature 1.1 §3.1), and what is signed then validates.
//!
//! A template is a document with a Signature whose digests and signature value don't count. The digests of its views are
//! written over its DigestValues, and the HMAC of its canonical SignedInfo over its SignatureValue. No other octet changes.
#![tactic(auto)]

mod comparing;
mod filling;
mod inserting;
mod laws;
mod reading;
mod refusal;
mod sealing;
mod signing;
mod template;
#[cfg(test)]
mod tests;
mod views;

pub use crate::inserting::insert_template;
pub use crate::laws::{
    filling_again_changes_nothing, what_is_filled_in_is_spelled, what_is_signed_holds,
    what_is_signed_is_valid,
};
pub use crate::refusal::SignRefusal;
pub use crate::signing::fill;
pub use crate::template::{TemplateOptions, TemplateRefusal};
