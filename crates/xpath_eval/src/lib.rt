//! What an expression of XPath 1.0 comes to, at a node of a document.
#![tactic(auto)]

mod arithmetic;
mod comparison;
mod enough;
mod evaluation;
mod found;
mod function;
mod gathering;
mod ids;
mod languages;
mod laws;
mod node_test;
mod nodes;
mod operator;
mod reads;
mod refusal;
mod scene;
mod sums;
mod value;
mod waiting;
mod wording;

pub use laws::{document_order, independent_of_context};
pub use refusal::EvalRefusal;
pub use value::{Value, eval, filter_each};
