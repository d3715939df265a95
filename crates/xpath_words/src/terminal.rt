//! The symbols of the grammar of expressions.

use crate::axis::AxisName;
use crate::function::Function;
use crate::operator::BinaryOp;
use crate::test::NodeTest;
use sig_base::Text;
use xpath_value::Number;

/// A terminal symbol of the grammar (XPath 1.0 §3.7), of one token or of several that belong together.
#[derive(Drop)]
pub enum Terminal {
    /// `(`, where it groups.
    Open,
    /// `)`.
    Close,
    /// `[`.
    OpenBracket,
    /// `]`.
    CloseBracket,
    /// `,`.
    Comma,
    /// `/`.
    Slash,
    /// `//`.
    DoubleSlash,
    /// `.`.
    Dot,
    /// `..`.
    DoubleDot,
    /// `-`, between two operands or before one.
    Minus,
    /// Any other operator between two operands.
    Operator(BinaryOp),
    /// An axis with its `::`, or `@`.
    Axis(AxisName),
    /// A node test, with its parentheses where it has them.
    Test(NodeTest),
    /// A function's name with the `(` behind it.
    Call(Function),
    /// A text between quotation marks.
    Literal(Text),
    /// A number.
    Number(Number),
}

/// What is wrong with a token that has its place in the grammar.
#[derive(Clone, Copy, Debug, PartialEq, Eq, Drop)]
pub enum Offence {
    /// A number with other digits than zeros behind its point.
    Fraction,
    /// A number of more than 2^53 - 1.
    NumberRange,
    /// The operator `div`, whose results aren't whole.
    Div,
    /// A variable, of which none is bound.
    Variable,
    /// A function that isn't known, or whose name has a prefix.
    UnknownFunction,
    /// A prefix that stands for no namespace name.
    UnboundPrefix,
}

/// A terminal, and what is wrong with it. Where something is wrong, the terminal stands in the place of what the grammar has
/// there: an operator of the same rank for `div`, a text for a variable, NaN for a number that can't be held, some function
/// for one that isn't known, the empty name for a prefix that isn't bound.
#[derive(Drop)]
pub struct Token {
    /// The terminal.
    pub terminal: Terminal,
    /// What is wrong with it.
    pub offence: Option<Offence>,
}
