//! The tokens as they are meant, each by the meaning of the one before.
ghost use Rattle.std.specs.Prelude.{◌≡◌, false};
ghost use Rattle.xpath_words.specs.Characters.{is_empty};
ghost use Rattle.xpath_words.specs.Meaning.{ends_operand, meaning_of, meanings, operator_named, operator_of};
ghost use Rattle.xpath_words.specs.Given.{Collects};
ghost use Rattle.xpath_words.specs.Code.Given.{Gives};

use crate::fault::TokensFault;
use crate::word::{Sign, Word};
use sig_base::Text;
use std::alloc::Global;

/// An operator that is written as a name (XPath 1.0 §3.4 and §3.5).
#[derive(Clone, Copy, Debug, PartialEq, Eq, Drop)]
pub enum OperatorName {
    /// `or`.
    Or,
    /// `and`.
    And,
    /// `mod`.
    Mod,
    /// `div`.
    Div,
}

/// A token as it is meant in its place (XPath 1.0 §3.7).
#[derive(Drop)]
pub enum Meant {
    /// Signs other than `*`.
    Sign(Sign),
    /// `*` between two operands.
    Multiply,
    /// `*` as a node test.
    Any,
    /// A name that is an operator.
    Operator(OperatorName),
    /// Any other name: of a test, a node type, an axis, a function or a variable.
    Name {
        /// The prefix, empty where there is none.
        prefix: Text,
        /// The local name.
        local: Text,
    },
    /// `prefix:*`.
    AnyIn(Text),
    /// The text of a literal.
    Literal(Text),
    /// The digits of a number, with its point where it has one.
    Number(Text),
}

impl OperatorName {
    /// The operator of this name.
    fn named(name: &str) -> Option<OperatorName>
        ensures { result ≡ operator_named name.now }
    {
        match name {
            "or" => Some(OperatorName::Or),
            "and" => Some(OperatorName::And),
            "mod" => Some(OperatorName::Mod),
            "div" => Some(OperatorName::Div),
            _ => None,
        }
    }
}

impl Meant {
    /// Whether an operand may end with the token, so that an operator stands behind it.
    fn ends_operand(&self) -> bool
        ensures { result ≡ ends_operand self.now }
    {
        match self {
            Meant::Sign(sign) => sign.closes(),
            Meant::Multiply | Meant::Operator(_) => false,
            Meant::Any | Meant::Name { .. } | Meant::AnyIn(_) => true,
            Meant::Literal(_) | Meant::Number(_) => true,
        }
    }
}

/// Whether there is no character.
pub fn is_empty(text: &Text) -> bool
    ensures { result ≡ is_empty text.now }
{
    text.get(0).is_none()
}

/// A name behind an operand, which must be an operator without a prefix.
fn operator_of(prefix: &Text, local: &Text) -> Result<Meant, TokensFault>
    ensures { Gives result (operator_of prefix.now local.now) }
{
    if !is_empty(prefix) {
        return Err(TokensFault::NotXPath);
    }
    match OperatorName::named(local.as_str()) {
        Some(operator) => Ok(Meant::Operator(operator)),
        None => Err(TokensFault::NotXPath),
    }
}

/// What a token means, behind an operand or not.
fn meaning_of(is_behind: bool, word: Word) -> Result<Meant, TokensFault>
    ensures { Gives result (meaning_of is_behind word) }
{
    match word {
        Word::Sign(sign) => Ok(if !sign.is_star() {
            Meant::Sign(sign)
        } else if is_behind {
            Meant::Multiply
        } else {
            Meant::Any
        }),
        Word::Literal(text) => Ok(Meant::Literal(text)),
        Word::Number(text) => Ok(Meant::Number(text)),
        Word::Name { prefix, local } => {
            if is_behind {
                operator_of(&prefix, &local)
            } else {
                Ok(Meant::Name { prefix, local })
            }
        }
        Word::AnyIn(prefix) => Ok(Meant::AnyIn(prefix)),
    }
}

/// What tokens mean, each by the meaning of the one before (XPath 1.0 §3.7).
#[tactic(auto, unfolding(crate::specs::Meaning::meanings))]
pub fn meanings(alloc: Global, words: Vec<Word>) -> Result<Vec<Meant>, TokensFault>
    ensures { Collects result (meanings false words.items) }
{
    let mut all = Vec::new(alloc);
    let mut is_behind = false;
    for word in words {
        let meant = meaning_of(is_behind, word)?;
        is_behind = meant.ends_operand();
        all.push(meant)?;
    }
    Ok(all)
}
