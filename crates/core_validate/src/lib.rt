//! Core validation (XML Signature 1.1 §3.2): whether the HMAC over the canonical SignedInfo is the signature value, and
//! whether the digest of each Reference's view is its DigestValue.
//!
//! The signature is validated first, over the one SignedInfo from which all methods, lengths and digests are read. Nothing is
//! asked of the folder before that.
#![tactic(auto)]

#[cfg(test)]
mod canonical_tests;
pub mod laws;
mod progress;
mod signature;
#[cfg(test)]
mod tests;
mod validation;
mod view;

pub use transforms::{RefRefusal, Report, ValidateRefusal};
pub use validation::validate;
