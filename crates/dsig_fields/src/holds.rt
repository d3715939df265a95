//! How many bits a signature value has, and whether they are enough.

ghost use Rattle.std.specs.Prelude.{◌≡◌};
ghost use Rattle.dsig_fields.specs.Holds as spec;

use digests_hmac::output_bits;
use sig_base::MacMethod;

/// The fewest bits that an HMACOutputLength may name (XML Signature 1.1 §4.4.2). Half of the shortest output is as many.
const FEWEST_BITS: u32 = 80;

/// The bits of the HMAC that the signature value has: those of the HMACOutputLength, else all (XML Signature 1.1 §4.4.2).
pub fn value_bits(mac: MacMethod, bits: Option<u32>) -> u32
    ensures { result ≡ spec.value_bits mac bits }
{
    match bits {
        Some(bits) => bits,
        None => output_bits(mac),
    }
}

/// Whether so many bits of an HMAC are enough: 80, and half of it (XML Signature 1.1 §4.4.2).
pub fn is_long_enough(mac: MacMethod, bits: u32) -> bool
    ensures { result ≡ spec.is_long_enough mac bits }
{
    FEWEST_BITS <= bits && output_bits(mac) / 2 <= bits
}
