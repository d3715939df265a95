//! The longest token at the front of a text, again and again.
ghost use Rattle.std.specs.Prelude.{◌≡◌, Some};
ghost use Rattle.std.specs.Str.{chars};
ghost use Rattle.xpath_words.specs.Classes.{test_of};
ghost use Rattle.xpath_words.specs.Reading.{follows, fraction_of, literal_of, long_before, long_sign, name_of};
ghost use Rattle.xpath_words.specs.Reading.{number_of, short_sign, sign_of, word_of, words_of};
ghost use Rattle.xpath_words.specs.Given.{Collects};
ghost use Rattle.xpath_words.specs.Code.Given.{Takes};

use crate::class::Class;
use crate::cursor::{Cursor, run, take_run};
use crate::fault::TokensFault;
use crate::word::{Sign, Word};
use sig_base::Text;
use std::alloc::Global;

/// The sign of two characters.
#[tactic(auto, unfolding(crate::specs::Reading::long_sign))]
fn long_sign(first: char, second: char) -> Option<Sign>
    ensures { result ≡ long_sign first second }
{
    match (first, second) {
        ('.', '.') => Some(Sign::DoubleDot),
        (':', ':') => Some(Sign::DoubleColon),
        ('/', '/') => Some(Sign::DoubleSlash),
        ('!', '=') => Some(Sign::NotEqual),
        ('<', '=') => Some(Sign::LessEqual),
        ('>', '=') => Some(Sign::GreaterEqual),
        _ => None,
    }
}

/// The sign of one character.
#[tactic(auto, unfolding(crate::specs::Reading::short_sign))]
fn short_sign(c: char) -> Option<Sign>
    ensures { result ≡ short_sign c }
{
    match c {
        '(' => Some(Sign::Open),
        ')' => Some(Sign::Close),
        '[' => Some(Sign::OpenBracket),
        ']' => Some(Sign::CloseBracket),
        '.' => Some(Sign::Dot),
        '@' => Some(Sign::At),
        ',' => Some(Sign::Comma),
        '/' => Some(Sign::Slash),
        '|' => Some(Sign::Bar),
        '+' => Some(Sign::Plus),
        '-' => Some(Sign::Minus),
        '=' => Some(Sign::Equal),
        '<' => Some(Sign::Less),
        '>' => Some(Sign::Greater),
        '*' => Some(Sign::Star),
        '$' => Some(Sign::Dollar),
        _ => None,
    }
}

/// The sign of a character and the next one, if there is one.
fn long_before(first: char, second: Option<char>) -> Option<Sign>
    ensures { result ≡ long_before first second }
{
    match second {
        Some(second) => long_sign(first, second),
        None => None,
    }
}

/// A sign of two characters, or else of one.
#[tactic(auto, unfolding(crate::specs::Reading::sign_of))]
fn sign(cursor: &mut Cursor<'_>) -> Result<Word, TokensFault>
    ensures { Takes result cursor.new (sign_of cursor.old) }
{
    let Some(first) = cursor.next() else {
        return Err(TokensFault::NotXPath);
    };
    if let Some(sign) = long_before(first, cursor.peek()) {
        cursor.next();
        return Ok(Word::Sign(sign));
    }
    match short_sign(first) {
        Some(sign) => Ok(Word::Sign(sign)),
        None => Err(TokensFault::NotXPath),
    }
}

/// A literal, which ends at the mark with which it begins.
#[tactic(auto, unfolding(crate::specs::Reading::literal_of))]
fn literal(alloc: Global, cursor: &mut Cursor<'_>) -> Result<Word, TokensFault>
    ensures { Takes result cursor.new (literal_of cursor.old) }
{
    let Some(mark) = cursor.next() else {
        return Err(TokensFault::NotXPath);
    };
    let text = run(alloc, cursor, Class::Other(mark))?;
    if cursor.is_empty() {
        return Err(TokensFault::NotXPath);
    }
    cursor.next();
    Ok(Word::Literal(text))
}

/// Digits, and a point with or without digits behind it where a point follows.
#[tactic(auto, unfolding(crate::specs::Reading::number_of))]
fn number(alloc: Global, cursor: &mut Cursor<'_>) -> Result<Word, TokensFault>
    ensures { Takes result cursor.new (Some (number_of cursor.old)) }
{
    let mut text = run(alloc, cursor, Class::Digit)?;
    if cursor.begins(Class::Point) {
        cursor.next();
        text.push('.')?;
        take_run(cursor, Class::Digit, &mut text)?;
    }
    Ok(Word::Number(text))
}

/// A point, and the digits behind it.
#[tactic(auto, unfolding(crate::specs::Reading::fraction_of))]
fn fraction(alloc: Global, cursor: &mut Cursor<'_>) -> Result<Word, TokensFault>
    ensures { Takes result cursor.new (Some (fraction_of cursor.old)) }
{
    cursor.next();
    let mut text = Text::new(alloc);
    text.push('.')?;
    take_run(cursor, Class::Digit, &mut text)?;
    Ok(Word::Number(text))
}

/// Whether the colon comes next, and behind it a character of this class.
fn follows(cursor: &Cursor<'_>, class: Class) -> bool
    ensures { result ≡ follows (test_of class) cursor.now }
{
    cursor.begins(Class::Colon) && cursor.goes_on(class)
}

/// A QName or `prefix:*`.
#[tactic(auto, unfolding(crate::specs::Reading::name_of))]
fn name(alloc: Global, cursor: &mut Cursor<'_>) -> Result<Word, TokensFault>
    ensures { Takes result cursor.new (Some (name_of cursor.old)) }
{
    let name = run(alloc, cursor, Class::Name)?;
    if follows(cursor, Class::Star) {
        cursor.next();
        cursor.next();
        return Ok(Word::AnyIn(name));
    }
    if follows(cursor, Class::NameStart) {
        cursor.next();
        let local = run(alloc, cursor, Class::Name)?;
        return Ok(Word::Name {
            prefix: name,
            local,
        });
    }
    Ok(Word::Name {
        prefix: Text::new(alloc),
        local: name,
    })
}

/// The longest token at the front (XPath 1.0 §3.7).
#[tactic(auto, unfolding(crate::specs::Reading::word_of))]
fn word(alloc: Global, cursor: &mut Cursor<'_>) -> Result<Word, TokensFault>
    ensures { Takes result cursor.new (word_of cursor.old) }
{
    if cursor.begins(Class::NameStart) {
        return name(alloc, cursor);
    }
    if cursor.begins(Class::Digit) {
        return number(alloc, cursor);
    }
    if cursor.begins(Class::Quote) {
        return literal(alloc, cursor);
    }
    if cursor.begins(Class::Point) && cursor.goes_on(Class::Digit) {
        return fraction(alloc, cursor);
    }
    sign(cursor)
}

/// The tokens of a text, the longest one each time, with white space anywhere between (XPath 1.0 §3.7).
pub fn words_of(alloc: Global, text: &str) -> Result<Vec<Word>, TokensFault>
    ensures { Collects result (words_of (chars text.now)) }
{
    let mut cursor = Cursor::new(text);
    let mut words = Vec::new(alloc);
    while !cursor.is_empty() {
        if cursor.begins(Class::Space) {
            cursor.next();
        } else {
            let word = word(alloc, &mut cursor)?;
            words.push(word)?;
        }
    }
    Ok(words)
}
