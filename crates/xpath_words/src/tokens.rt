//! The tokens of a text.
ghost use Rattle.std.specs.Str.{chars};
ghost use Rattle.xpath_words.specs.Tokens.{tokens_of, Reads};

use crate::fault::TokensFault;
use crate::group::grouped;
use crate::meaning::meanings;
use crate::prefixes::Prefixes;
use crate::reading::words_of;
use crate::terminal::Token;
use std::alloc::Global;

/// The tokens of an expression's text, each with its meaning in its place (XPath 1.0 §3.7). Prefixes stand for the
/// namespace names that `prefixes` gives them.
///
/// `NotXPath` comes exactly where the text has no cut into longest tokens, or a token has no meaning in its place.
#[tactic(auto, unfolding(crate::specs::Tokens::tokens_of))]
pub fn tokens_of(
    alloc: Global,
    text: &str,
    prefixes: &Prefixes<'_>,
) -> Result<Vec<Token>, TokensFault>
    ensures { Reads result (tokens_of (chars text.now) prefixes.now) }
{
    let words = words_of(alloc, text)?;
    let meant = meanings(alloc, words)?;
    grouped(alloc, &meant, prefixes)
}
