//! Key files: lines of a key in hexadecimal digits, one space and the key's name.

ghost use Rattle.std.specs.Prelude.{◌≡◌, ◌<◌, IfOk};
ghost use Rattle.std.specs.List.{list_all};
ghost use Rattle.digests_hmac.specs.KeyLines as spec;

use sig_base::have_no_controls;
use std::alloc::{AllocError, Global};

/// The value of a hexadecimal digit of either case.
fn digit_value(octet: u8) -> Option<u8>
    ensures { result ≡ spec.digit_value octet }
{
    match octet {
        b'0'..=b'9' => Some(octet - b'0'),
        b'A'..=b'F' => Some(octet - b'A' + 10),
        b'a'..=b'f' => Some(octet - b'a' + 10),
        _ => None,
    }
}

/// The value of a digit, and 0 of what is none.
fn value_of(octet: u8) -> u8
    ensures value { result ≡ spec.value_of octet }
    ensures small { result < 16 }
{
    digit_value(octet).unwrap_or(0)
}

/// Whether each octet is a hexadecimal digit.
fn are_digits(octets: &[u8]) -> bool
    ensures { result ≡ list_all spec.is_digit octets.now }
{
    octets.iter().all(|octet| digit_value(*octet).is_some())
}

/// Whether these are the digits of a key: an even number of them, 2 to 8,192.
pub(crate) fn is_key_digits(digits: &[u8]) -> bool
    ensures { result ≡ spec.is_key_digits digits.now }
{
    2 <= digits.len() && digits.len() <= 8192 && digits.len() % 2 == 0 && are_digits(digits)
}

/// Whether this is the name of a key: 1 to 256 octets with no control character below the space.
pub(crate) fn is_key_name(name: &[u8]) -> bool
    ensures { result ≡ spec.is_key_name name.now }
{
    1 <= name.len() && name.len() <= 256 && have_no_controls(name)
}

/// The octets that pairs of digits spell, the high digit first.
pub(crate) fn octets_of_digits(alloc: Global, digits: &[u8]) -> Result<Vec<u8>, AllocError>
    ensures { IfOk result (λ v. v.items ≡ spec.octets_of_digits digits.now) }
{
    let mut octets = Vec::with_capacity(alloc, digits.len() / 2)?;
    for i in 0..digits.len() / 2 {
        octets.push(16 * value_of(digits[2 * i]) + value_of(digits[2 * i + 1]))?;
    }
    Ok(octets)
}
