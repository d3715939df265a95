//! The text functions of XPath 1.0 (§4.2).
//!
//! A call that makes a text may answer `NoMemory`, and only for want of memory.
ghost use Rattle.std.specs.Prelude.{◌≡◌, ◌++◌, is_some, length, IfOk, OnOk};
ghost use Rattle.std.specs.Str.{chars};
ghost use Rattle.xpath_value.specs.Texts.{begins_with, first_occurrence, is_kept, normalized, replacement, substring_after_of, substring_before_of, substring_of, translated};

use crate::number::Number;
use crate::scan::{is_space, strip_space};
use sig_base::{NoMemory, Text};
use std::alloc::Global;

/// Appends a text. After `NoMemory` some of it may have been appended.
pub fn append(out: &mut Text, text: &str) -> Result<(), NoMemory>
    ensures { OnOk result (out.new ≡ out.old ++ chars text.now) }
{
    for c in text.chars() {
        out.push(c)?;
    }
    Ok(())
}

/// The two texts, one behind the other (XPath 1.0 §4.2, `concat`).
pub fn concat(alloc: Global, first: &str, second: &str) -> Result<Text, NoMemory>
    ensures { IfOk result (λ t. t ≡ chars first.now ++ chars second.now) }
{
    let mut joined = Text::from_str(alloc, first)?;
    append(&mut joined, second)?;
    Ok(joined)
}

/// The number of characters (XPath 1.0 §4.2, `string-length`). It takes no memory.
pub fn string_length(text: &str) -> u64
    ensures { result ≡ length (chars text.now) }
{
    text.chars().count() as u64
}

/// Whether the place isn't before the first one and is below the first one and the count together.
fn is_kept(from: Number, count: Option<Number>, place: u64) -> bool
    ensures { result ≡ is_kept from count place }
{
    match from {
        Number::Nan => false,
        Number::Whole(first) => {
            let first = i128::from(first);
            let place = i128::from(place);
            match count {
                None => first <= place,
                Some(Number::Nan) => false,
                Some(Number::Whole(count)) => first <= place && place < first + i128::from(count),
            }
        }
    }
}

/// The characters at the places from `from` on, as many as `count` says or all, where the place of the first character is 1
/// (XPath 1.0 §4.2, `substring`).
///
/// Those are kept whose place isn't below `from` and is below `from` and `count` together. None is kept where one of
/// them is NaN.
pub fn substring(
    alloc: Global,
    text: &str,
    from: Number,
    count: Option<Number>,
) -> Result<Text, NoMemory>
    ensures { IfOk result (λ t. t ≡ substring_of (chars text.now) from count) }
{
    let mut kept = Text::new(alloc);
    let mut place = 0;
    for c in text.chars() {
        place += 1;
        if is_kept(from, count, place) {
            kept.push(c)?;
        }
    }
    Ok(kept)
}

/// Whether the text begins with the mark (XPath 1.0 §4.2, `starts-with`). It takes no memory.
pub fn starts_with(text: &str, mark: &str) -> bool
    ensures { result ≡ begins_with (chars mark.now) (chars text.now) }
{
    text.starts_with(mark)
}

/// Whether the mark occurs in the text (XPath 1.0 §4.2, `contains`). It takes no memory.
pub fn contains(text: &str, mark: &str) -> bool
    ensures { result ≡ is_some (first_occurrence (chars mark.now) (chars text.now)) }
{
    match text.split_once(mark) {
        Some((_before, _after)) => true,
        None => false,
    }
}

/// The text before the first occurrence of the mark, empty where there is none (XPath 1.0 §4.2, `substring-before`).
pub fn substring_before(alloc: Global, text: &str, mark: &str) -> Result<Text, NoMemory>
    ensures { IfOk result (λ t. t ≡ substring_before_of (chars text.now) (chars mark.now)) }
{
    match text.split_once(mark) {
        Some((before, _)) => Text::from_str(alloc, before),
        None => Ok(Text::new(alloc)),
    }
}

/// The text behind the first occurrence of the mark, empty where there is none (XPath 1.0 §4.2, `substring-after`).
pub fn substring_after(alloc: Global, text: &str, mark: &str) -> Result<Text, NoMemory>
    ensures { IfOk result (λ t. t ≡ substring_after_of (chars text.now) (chars mark.now)) }
{
    match text.split_once(mark) {
        Some((_, after)) => Text::from_str(alloc, after),
        None => Ok(Text::new(alloc)),
    }
}

/// The text without white space at its ends, and each run of white space within it as one space (XPath 1.0 §4.2,
/// `normalize-space`). White space is space, tab, carriage return and line feed.
pub fn normalize_space(alloc: Global, text: &str) -> Result<Text, NoMemory>
    ensures { IfOk result (λ t. t ≡ normalized (chars text.now)) }
{
    let mut out = Text::new(alloc);
    let mut is_behind_space = false;
    for c in strip_space(text).chars() {
        if !is_space(c) {
            out.push(c)?;
        } else if !is_behind_space {
            out.push(' ')?;
        }
        is_behind_space = is_space(c);
    }
    Ok(out)
}

/// What becomes of a character: its replacement, itself, or nothing.
fn replacement(characters: &str, others: &str, c: char) -> Option<char>
    ensures { result ≡ replacement (chars characters.now) (chars others.now) c }
{
    match characters.chars().position(|d| d == c) {
        Some(place) => others.chars().nth(place),
        None => Some(c),
    }
}

/// The text with each character of `characters` replaced by that at the same place of `others`, or left out where `others`
/// is too short. Of a character that stands there twice the first place counts (XPath 1.0 §4.2, `translate`).
pub fn translate(
    alloc: Global,
    text: &str,
    characters: &str,
    others: &str,
) -> Result<Text, NoMemory>
    ensures { IfOk result (λ t. t ≡ translated (chars characters.now) (chars others.now) (chars text.now)) }
{
    let mut out = Text::new(alloc);
    for c in text.chars() {
        match replacement(characters, others, c) {
            Some(d) => out.push(d)?,
            None => {}
        }
    }
    Ok(out)
}
