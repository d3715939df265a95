//! The leftmost offending token.
ghost use Rattle.std.specs.Prelude.{◌≡◌, ◌≤◌, ◌+◌, drop, length};
ghost use Rattle.xpath_words.specs.Functions.{permits};
ghost use Rattle.xpath_syntax.specs.Counts.{arguments, begins_part, commas, ends_part};
ghost use Rattle.xpath_syntax.specs.Offences.{first_offence, offence_of, permitted, terminals};

use crate::refusal::SyntaxRefusal;
use xpath_words::{Function, Terminal, Token};

/// Whether a function may be called with so many arguments (XPath 1.0 §4, XML Signature 1.1 §6.6.3).
fn permits(function: Function, count: usize) -> bool
    ensures { result ≡ permits function count }
{
    match function {
        Function::Last | Function::Position => count == 0,
        Function::True | Function::False | Function::Here => count == 0,
        Function::LocalName | Function::NamespaceUri | Function::Name => count <= 1,
        Function::String | Function::StringLength | Function::NormalizeSpace => count <= 1,
        Function::Number => count <= 1,
        Function::Count | Function::Id | Function::Lang => count == 1,
        Function::Boolean | Function::Not => count == 1,
        Function::Sum | Function::Floor | Function::Ceiling | Function::Round => count == 1,
        Function::StartsWith | Function::Contains => count == 2,
        Function::SubstringBefore | Function::SubstringAfter => count == 2,
        Function::Concat => 2 <= count,
        Function::Substring => 2 <= count && count <= 3,
        Function::Translate => count == 3,
    }
}

/// Whether the terminal begins a part in parentheses or brackets.
fn begins_part(terminal: &Terminal) -> bool
    ensures { result ≡ begins_part terminal.now }
{
    matches!(
        terminal,
        Terminal::Call(_) | Terminal::Open | Terminal::OpenBracket
    )
}

/// Whether the terminal ends a part in parentheses or brackets.
fn ends_part(terminal: &Terminal) -> bool
    ensures { result ≡ ends_part terminal.now }
{
    matches!(terminal, Terminal::Close | Terminal::CloseBracket)
}

/// The commas of the part that these tokens begin in.
#[tactic(auto, unfolding(crate::specs::Counts::commas))]
fn count_commas(tokens: &[Token]) -> usize
    ensures count { result ≡ commas 0 (terminals tokens.now) }
    ensures few { result ≤ length tokens.now }
{
    let mut depth: usize = 0;
    let mut count: usize = 0;
    for token in tokens {
        let terminal = &token.terminal;
        if ends_part(terminal) {
            if depth == 0 {
                return count;
            }
            depth -= 1;
        } else if begins_part(terminal) {
            depth += 1;
        } else if depth == 0 && matches!(terminal, Terminal::Comma) {
            count += 1;
        }
    }
    count
}

/// How many arguments stand behind a call's parenthesis.
#[tactic(auto, unfolding(crate::specs::Counts::arguments))]
fn count_arguments(tokens: &[Token]) -> usize
    ensures { result ≡ arguments (terminals tokens.now) }
{
    match tokens.first() {
        Some(token) => {
            if ends_part(&token.terminal) {
                return 0;
            }
        }
        None => {}
    }
    count_commas(tokens) + 1
}

/// Whether a terminal, if it is a call, has a permitted number of arguments behind it.
fn is_permitted(terminal: &Terminal, behind: &[Token]) -> bool
    ensures { result ≡ permitted terminal.now (terminals behind.now) }
{
    match terminal {
        Terminal::Call(function) => permits(*function, count_arguments(behind)),
        _ => true,
    }
}

/// What is wrong with a token, by the tokens behind it.
fn offence_of(token: &Token, behind: &[Token]) -> Option<SyntaxRefusal>
    ensures { result ≡ offence_of token.now.offence token.now.terminal (terminals behind.now) }
{
    match token.offence {
        Some(offence) => Some(SyntaxRefusal::of_offence(offence)),
        None => {
            if is_permitted(&token.terminal, behind) {
                None
            } else {
                Some(SyntaxRefusal::Arity)
            }
        }
    }
}

/// The offence of the leftmost token that has one.
#[tactic(auto, unfolding(crate::specs::Offences::first_offence))]
pub fn first_offence(tokens: &[Token]) -> Option<SyntaxRefusal>
    ensures { result ≡ first_offence tokens.now }
{
    for i in 0..tokens.len() {
        let found = offence_of(&tokens[i], &tokens[i + 1..]);
        if found.is_some() {
            return found;
        }
    }
    None
}
