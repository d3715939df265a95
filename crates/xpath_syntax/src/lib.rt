//! The expressions of XPath 1.0 (§2 and §3), read from their texts.
//!
//! [`parse`] is the one call. It reads the tokens of `xpath_words` once, from left to right, with the parts that wait for an
//! expression on a stack, so a text that nests deep takes memory and no calls.
#![tactic(auto)]

mod begin;
mod behind;
mod expr;
mod forgetting;
mod frame;
mod laws;
mod leftmost;
mod mode;
mod nesting;
mod outcome;
mod parser;
mod parts;
mod refusal;
#[cfg(test)]
mod tests;

pub use expr::{Expr, ExprList, PathStart, PathStep, PathSteps};
pub use laws::{
    counted_arguments, lawful_expression, lawful_inside, lawful_unrefused, one_expression,
    one_meaning,
};
pub use outcome::parse;
pub use refusal::SyntaxRefusal;
pub use xpath_words::{AxisName, BinaryOp, Function, NodeTest, Prefixes};
