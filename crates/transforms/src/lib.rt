//! The view of a Reference (XML Signature 1.1 §4.4.3.2): its target, changed by its Transforms, as the octets whose digest is
//! compared.
#![tactic(auto)]

mod chain;
mod decode;
mod expressions;
mod fetch;
mod forms;
mod nodes;
mod outcome;
mod reference;
mod refusal;
mod start;
#[cfg(test)]
mod tests;
mod texts;

pub use expressions::prefixes_in_scope;
pub use outcome::{Report, ValidateRefusal};
pub use reference::run_reference;
pub use refusal::RefRefusal;
