//! What a text comes to.
ghost use Rattle.std.specs.Prelude.{◌≡◌, IfOk, IsErrOf};
ghost use Rattle.xpath_syntax.specs.declared.refusal.SyntaxRefusal.TheVariants.{NotXPath};
ghost use Rattle.xpath_syntax.specs.Outcome.{Answers, IsMeant, Spelled, SpellsNone, parse_outcome, tokens_outcome};

use crate::expr::Expr;
use crate::leftmost::first_offence;
use crate::parser::read_all;
use crate::refusal::SyntaxRefusal;
use std::alloc::Global;
use xpath_words::{Prefixes, Token, TokensFault, tokens_of};

/// The most octets of a text.
const GREATEST: usize = 4096;

/// What tokens come to: `NotXPath`, `TooDeep`, or the leftmost offence, whichever comes first; else the expression.
#[tactic(auto, using(crate::proofs::Outcomes::refuses, crate::proofs::Outcomes::decided_none, crate::proofs::Outcomes::decided_deep, crate::proofs::Outcomes::decided_shallow))]
fn outcome_of_tokens(alloc: Global, tokens: Vec<Token>) -> Result<Expr, SyntaxRefusal>
    ensures { Answers result (tokens_outcome (Some tokens.items)) }
{
    let first = first_offence(&tokens);
    match read_all(alloc, tokens)? {
        Some(expr) => match first {
            Some(refusal) => Err(refusal),
            None => Ok(expr),
        },
        None => Err(SyntaxRefusal::TooDeep),
    }
}

/// What a text comes to.
#[tactic(auto, unfolding(crate::specs::Outcome::parse_outcome))]
fn outcome_of(alloc: Global, text: &str, prefixes: &Prefixes<'_>) -> Result<Expr, SyntaxRefusal>
    ensures { Answers result (parse_outcome text.now prefixes.now) }
{
    if text.len() > GREATEST {
        return Err(SyntaxRefusal::TooLong);
    }
    match tokens_of(alloc, text, prefixes) {
        Ok(tokens) => outcome_of_tokens(alloc, tokens),
        Err(TokensFault::NotXPath) => Err(SyntaxRefusal::NotXPath),
        Err(TokensFault::Memory) => Err(SyntaxRefusal::Memory),
    }
}

/// The expression of a text (XPath 1.0 §2 and §3). Prefixes stand for the namespace names that `prefixes` gives them.
///
/// The first refusal that holds is the answer: [`SyntaxRefusal::TooLong`] above 4,096 octets; [`SyntaxRefusal::NotXPath`]
/// where the text has no tokens or they spell no expression; [`SyntaxRefusal::TooDeep`] where it nests deeper than 64; then
/// what the leftmost offending token is refused by. [`SyntaxRefusal::Memory`] may come whatever the text is.
#[tactic(auto, using(crate::proofs::Outcomes::answers_meant, crate::proofs::Outcomes::answers_spelled, crate::proofs::Outcomes::answers_none))]
pub fn parse(alloc: Global, text: &str, prefixes: &Prefixes<'_>) -> Result<Expr, SyntaxRefusal>
    ensures exact { Answers result (parse_outcome text.now prefixes.now) }
    // The answer is the first refusal that holds, and else the expression that the grammar gives.
    ensures meant { IsMeant text.now prefixes.now result }
    // The text's terminals spell the expression, and it is lawful.
    ensures spelled { IfOk result (λ x. Spelled text.now prefixes.now x) }
    // `NotXPath` comes only where the text has no terminals that spell an expression.
    ensures not_xpath { IsErrOf result NotXPath → SpellsNone text.now prefixes.now }
{
    outcome_of(alloc, text, prefixes)
}
