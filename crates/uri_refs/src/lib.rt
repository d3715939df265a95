//! What the URI of a Reference refers to (XML Signature 1.1 §4.4.3.1 and §4.4.3.2): this document, an element of it, or a file
//! of a folder.
//!
//! A URI that is empty or begins with `#` is a same-document reference. Any other is joined to a base (RFC 3986 §5) by the
//! URL Standard. A catalog may give the URL's file; without it the file is the one of the URL's path below the base.
#![tactic(auto)]

mod base;
mod catalog;
mod cuts;
pub mod laws;
mod names;
mod pointers;
mod refusal;
mod target;
#[cfg(test)]
mod tests;

pub use base::{Base, BaseFault};
pub use catalog::{Catalog, CatalogFault};
pub use refusal::UriRefusal;
pub use target::{Place, Target, target_of};
