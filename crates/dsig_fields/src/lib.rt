//! The fields of a signature, by the grammar of its elements (XML Signature 1.1 §4).
//!
//! An element is read in document order: its attributes, then its children, one behind the other. The definitions in
//! `specs/Fields.antt` read like the grammar, a line for each child; the first refusal that is met is the answer.
#![tactic(auto)]

mod attributes;
mod children;
mod element;
mod fields;
mod holds;
mod info;
mod key;
mod key_info;
pub mod laws;
mod lengths;
mod manifest;
mod methods;
mod names;
mod read;
mod references;
mod refusal;
mod repeated;
mod signatures;
mod simple;
#[cfg(test)]
mod tests;
mod transforms;

pub use fields::{Fields, Filter, FilterList, Info, Reference, ReferenceList, Step, StepList};
pub use holds::{is_long_enough, value_bits};
pub use info::read_info;
pub use key::{KeyChoice, Question, choose_key};
pub use manifest::read_manifest;
pub use names::ElementName;
pub use read::read_fields;
pub use refusal::FieldRefusal;
pub use signatures::nth_signature;
