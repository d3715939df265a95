//! The operators that stand between two operands.

/// An operator with two operands (XPath 1.0 §3.3 to §3.5). `div` isn't among them, since numbers are whole numbers here.
#[derive(Clone, Copy, Debug, PartialEq, Eq, Drop)]
pub enum BinaryOp {
    /// `or`.
    Or,
    /// `and`.
    And,
    /// `=`.
    Equal,
    /// `!=`.
    NotEqual,
    /// `<`.
    Less,
    /// `<=`.
    LessEqual,
    /// `>`.
    Greater,
    /// `>=`.
    GreaterEqual,
    /// `+`.
    Add,
    /// `-` between two operands.
    Subtract,
    /// `*` between two operands.
    Multiply,
    /// `mod`.
    Mod,
    /// `|`.
    Union,
}
