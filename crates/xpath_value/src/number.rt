//! Numbers, and their conversions from and to texts.
ghost use Rattle.std.specs.Prelude.{◌≡◌, ◌≤◌, IfOk, true};
ghost use Rattle.std.specs.List.{list_all};
ghost use Rattle.xpath_value.specs.Characters.{is_digit};
ghost use Rattle.std.specs.Str.{chars};
ghost use Rattle.xpath_value.specs.Numbers.{IsWithin, are_parts, fraction_part, greatest, number_behind_sign, number_of, signed, text_of, whole_part};
ghost use Rattle.xpath_value.specs.Code.Numbers.{IsValue};

use crate::scan::{are_digits, are_zeros, is_empty, strip_space};
use sig_base::{NoMemory, Text, split_first};
use std::alloc::Global;

/// The greatest number, 2^53 - 1. The least is its negation.
const GREATEST: u64 = 9_007_199_254_740_991;

/// A number of an expression (XPath 1.0 §3.5), restricted to whole numbers.
#[derive(Clone, Copy, Debug, PartialEq, Eq, Drop)]
pub enum Number {
    /// A whole number. Those that texts spell lie within -(2^53 - 1) to 2^53 - 1.
    Whole(i64),
    /// What isn't a number.
    Nan,
}

/// Why a text that spells a number has no `Number`.
#[derive(Clone, Copy, Debug, PartialEq, Eq, Drop)]
pub enum NumberFault {
    /// A digit behind the point isn't zero.
    Fraction,
    /// It is whole, and below -(2^53 - 1) or above 2^53 - 1.
    NumberRange,
}

/// What stands before the first point, and what stands behind it, which is nothing where there is no point.
fn split_at_point(text: &str) -> (&str, &str)
    ensures whole { chars result.0.now ≡ whole_part (chars text.now) }
    ensures fraction { chars result.1.now ≡ fraction_part (chars text.now) }
{
    match text.split_once('.') {
        Some((whole, fraction)) => (whole, fraction),
        None => (text, ""),
    }
}

/// The value of digits, empty ones being 0; `NumberRange` where it is above 2^53 - 1.
fn value_of_digits(digits: &str) -> Result<u64, NumberFault>
    requires { list_all is_digit (chars digits.now) ≡ true }
    ensures { IsValue (chars digits.now) result }
{
    if is_empty(digits) {
        return Ok(0);
    }
    match digits.parse::<u64>() {
        Ok(value) => {
            if value <= GREATEST {
                Ok(value)
            } else {
                Err(NumberFault::NumberRange)
            }
        }
        Err(_) => Err(NumberFault::NumberRange),
    }
}

/// Whether a number may have these parts before and behind its point: digits, and not both empty (XPath 1.0 §3.7).
fn are_parts(whole: &str, fraction: &str) -> bool
    ensures { result ≡ are_parts (chars whole.now) (chars fraction.now) }
{
    are_digits(whole) && are_digits(fraction) && !(is_empty(whole) && is_empty(fraction))
}

/// The integer of that size, with a minus sign or without.
fn signed(is_negative: bool, size: u64) -> i64
    requires { size ≤ greatest }
    ensures { result ≡ signed is_negative size }
{
    if is_negative {
        -(size as i64)
    } else {
        size as i64
    }
}

/// The number that a text without its sign spells.
#[tactic(auto, unfolding(crate::specs::Numbers::number_behind_sign))]
fn number_behind_sign(is_negative: bool, text: &str) -> Result<Number, NumberFault>
    ensures { result ≡ number_behind_sign is_negative (chars text.now) }
{
    let (whole, fraction) = split_at_point(text);
    if !are_parts(whole, fraction) {
        return Ok(Number::Nan);
    }
    if !are_zeros(fraction) {
        return Err(NumberFault::Fraction);
    }
    match value_of_digits(whole) {
        Ok(value) => Ok(Number::Whole(signed(is_negative, value))),
        Err(fault) => Err(fault),
    }
}

/// The number that a text spells, as the function `number` converts it (XPath 1.0 §4.4): white space, a minus sign or none,
/// digits with or without a point, white space. Every other text is NaN.
///
/// A digit other than zero behind the point is [`NumberFault::Fraction`], also where the number is out of range. A whole
/// number below -(2^53 - 1) or above 2^53 - 1 is [`NumberFault::NumberRange`]. It takes no memory.
#[tactic(auto, using(crate::proofs::Digits::within), unfolding(crate::specs::Numbers::number_of))]
pub fn number_of_text(text: &str) -> Result<Number, NumberFault>
    ensures exact { result ≡ number_of (chars text.now) }
    ensures within { IfOk result IsWithin }
{
    let body = strip_space(text);
    match split_first(body) {
        Some((c, rest)) => {
            if c == '-' {
                number_behind_sign(true, rest)
            } else {
                number_behind_sign(false, body)
            }
        }
        None => number_behind_sign(false, body),
    }
}

/// The text of a number, as the function `string` converts it (XPath 1.0 §4.2): decimal, or `NaN`.
pub fn text_of_number(alloc: Global, n: Number) -> Result<Text, NoMemory>
    ensures { IfOk result (λ t. t ≡ text_of n) }
{
    match n {
        Number::Whole(value) => {
            let digits = format!(in alloc; "{value}")?;
            Text::from_str(alloc, digits.as_str())
        }
        Number::Nan => Text::from_str(alloc, "NaN"),
    }
}
