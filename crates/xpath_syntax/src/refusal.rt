//! Why a text is no expression.
ghost use Rattle.std.specs.Prelude.{◌≡◌};
ghost use Rattle.xpath_syntax.specs.declared.refusal.SyntaxRefusal.TheVariants.{Memory};
ghost use Rattle.xpath_syntax.specs.Offences.{refusal_of};

use std::alloc::{AllocError, AllocFailed};
use thiserror::Error;
use xpath_words::Offence;

/// Why a text has no expression. Of the first three the first one that holds is the answer; else the leftmost offending
/// token decides, by one of the next seven.
#[derive(Clone, Copy, Debug, PartialEq, Eq, Error)]
pub enum SyntaxRefusal {
    /// The text has more than 4,096 octets.
    #[error("the expression is longer than 4096 octets")]
    TooLong,
    /// The text isn't in the grammar (XPath 1.0 §2 and §3).
    #[error("the text is not an XPath expression")]
    NotXPath,
    /// It nests deeper than 64: each `(`, `[` and unary `-` is one level until its part ends.
    #[error("the expression nests deeper than 64")]
    TooDeep,
    /// A number with other digits than zeros behind its point.
    #[error("the expression has a number that is not whole")]
    Fraction,
    /// A number of more than 2^53 - 1.
    #[error("the expression has a number above 2^53 - 1")]
    NumberRange,
    /// The operator `div`.
    #[error("the expression has a division")]
    Div,
    /// A variable.
    #[error("the expression has a variable")]
    Variable,
    /// A function that isn't known.
    #[error("the expression calls an unknown function")]
    UnknownFunction,
    /// A function with a number of arguments that it doesn't permit (XPath 1.0 §4).
    #[error("the expression calls a function with a wrong number of arguments")]
    Arity,
    /// A prefix that isn't bound.
    #[error("the expression has a prefix that is not bound")]
    UnboundPrefix,
    /// Memory ran out.
    #[error("out of memory")]
    Memory,
}

impl SyntaxRefusal {
    /// The refusal of a token that is offensive in itself.
    pub(crate) fn of_offence(offence: Offence) -> SyntaxRefusal
        ensures { result ≡ refusal_of offence }
    {
        match offence {
            Offence::Fraction => SyntaxRefusal::Fraction,
            Offence::NumberRange => SyntaxRefusal::NumberRange,
            Offence::Div => SyntaxRefusal::Div,
            Offence::Variable => SyntaxRefusal::Variable,
            Offence::UnknownFunction => SyntaxRefusal::UnknownFunction,
            Offence::UnboundPrefix => SyntaxRefusal::UnboundPrefix,
        }
    }
}

impl From<AllocError> for SyntaxRefusal {
    ghost from_gives = { λ _ e. e ≡ Memory };

    fn from(_: AllocError) -> SyntaxRefusal {
        SyntaxRefusal::Memory
    }
}

impl<T: Drop> From<AllocFailed<T>> for SyntaxRefusal {
    ghost from_gives = { λ _ e. e ≡ Memory };

    fn from(_: AllocFailed<T>) -> SyntaxRefusal {
        SyntaxRefusal::Memory
    }
}
