//! The tokens of an XPath expression (XPath 1.0 §3.7), each with its meaning in the place where it stands.
//!
//! A text is cut into its longest tokens; the token before tells whether `*` and a name are operators; a name before `(` is
//! a node type or a function, a name before `::` an axis. What the grammar takes as one, such as `text()` or `child::`,
//! becomes one [`Terminal`].
//!
//! The `$` of a variable is a token of its own here, so that white space may stand behind it; the name that follows is a
//! plain one, even where it is `or`. `prefix:*` is one token, in which no white space stands.
#![tactic(auto)]

mod axis;
mod class;
mod cursor;
mod fault;
mod function;
mod group;
mod laws;
mod meaning;
mod operator;
mod prefixes;
mod reading;
mod terminal;
mod test;
#[cfg(test)]
mod tests;
mod tokens;
mod word;

pub use axis::AxisName;
pub use fault::TokensFault;
pub use function::Function;
pub use laws::longest_tokens;
pub use operator::BinaryOp;
pub use prefixes::Prefixes;
pub use terminal::{Offence, Terminal, Token};
pub use test::NodeTest;
pub use tokens::tokens_of;
