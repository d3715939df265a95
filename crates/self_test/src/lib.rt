//! A self-test: a document is made from a number, signed under a key that is known, and validated.
#![tactic(auto)]

mod document;
mod question;
mod refusal;
mod testing;
#[cfg(test)]
mod tests;

pub use refusal::TestRefusal;
pub use testing::self_test;
