//! The content of HMACOutputLength.

ghost use Rattle.std.specs.Prelude.{◌≡◌, ◌*◌, ◌&&◌, true, min, reverse, option_map, IfSome};
ghost use Rattle.std.specs.List.{list_all};
ghost use Rattle.digests_hmac.specs.Hash.{digest_size, hash_of};
ghost use Rattle.dsig_fields.specs.Lengths as spec;

use digests_hmac::output_bits;
use sig_base::{MacMethod, is_space};

/// More bits than any HMAC has. A number stops growing here, so that a text of any length is read.
const TOO_MANY_BITS: u32 = 513;

/// The bits that the content of HMACOutputLength gives: a decimal number without a sign, with white space at its ends (XML
/// Signature 1.1 §4.4.2). `None` comes exactly where it is no such number, no multiple of 8, or more than the HMAC has.
#[tactic(auto, unfolding(crate::specs::Lengths::length_in))]
pub(crate) fn length_in(mac: MacMethod, text: &str) -> Option<u32>
    ensures value { result ≡ spec.length_in mac text.now }
    ensures kept { IfSome result (λ n. spec.may_keep mac n ≡ true) }
{
    let bits = decimal_in(trimmed(text.as_bytes()))?;
    if may_keep(mac, bits) {
        Some(bits)
    } else {
        None
    }
}

/// Whether so many bits may be kept of an HMAC.
fn may_keep(mac: MacMethod, bits: u32) -> bool
    ensures { result ≡ spec.may_keep mac bits }
{
    bits % 8 == 0 && bits <= output_bits(mac)
}

/// The number that a text of one or more decimal digits spells, or 513 where it is more.
fn decimal_in(text: &[u8]) -> Option<u32>
    ensures { result ≡ option_map (λ n. min n 513) (spec.decimal_in text.now) }
{
    if text.is_empty() || !are_digits(text) {
        return None;
    }
    Some(number_in(text))
}

/// Whether each octet is a decimal digit.
fn are_digits(text: &[u8]) -> bool
    ensures { result ≡ list_all spec.is_digit text.now }
{
    text.iter().all(|octet| *octet >= b'0' && *octet <= b'9')
}

/// The number that decimal digits spell, or 513 where it is more.
fn number_in(digits: &[u8]) -> u32
    requires { list_all spec.is_digit digits.now ≡ true }
    ensures { result ≡ min (spec.number_behind 0 digits.now) 513 }
{
    let mut number = 0;
    for digit in digits {
        number = (10 * number + u32::from(*digit - b'0')).min(TOO_MANY_BITS);
    }
    number
}

/// The text without the white space at both ends.
fn trimmed(text: &[u8]) -> &[u8]
    ensures { result.now ≡ spec.trimmed text.now }
{
    before_space(behind_space(text))
}

/// The text from its first octet that is no white space on.
fn behind_space(text: &[u8]) -> &[u8]
    ensures { result.now ≡ spec.behind_space text.now }
{
    let mut rest = text;
    while let Some((first, behind)) = rest.split_first() {
        if !is_space(*first) {
            return rest;
        }
        rest = behind;
    }
    rest
}

/// The text up to its last octet that is no white space.
fn before_space(text: &[u8]) -> &[u8]
    ensures { result.now ≡ reverse (spec.behind_space (reverse text.now)) }
{
    let mut rest = text;
    while let Some((last, before)) = rest.split_last() {
        if !is_space(*last) {
            return rest;
        }
        rest = before;
    }
    rest
}
