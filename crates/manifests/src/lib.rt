//! The entries of Manifests (XML Signature 1.1 §5.1). Core validation digests a Manifest as it does any object, and doesn't look
//! at the References in it; here each of them is looked at, and a line tells whether the digest of its view is its DigestValue.
//!
//! First the Manifests are found, and what is read of them is kept; then their entries are checked in order. Only that asks the
//! folder.
#![tactic(auto)]

mod check;
mod elements;
mod findings;
pub mod laws;
mod lines;
#[cfg(test)]
mod tests;

pub use check::check_manifests;
pub use lines::{ManifestKind, ManifestLine, ManifestLines, ManifestStop};
