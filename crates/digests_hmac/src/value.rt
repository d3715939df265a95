//! What a digest or an HMAC is: a list of octets.

ghost use Rattle.std.specs.Prelude.{◌≡◌, length};

use std::marker::Model;

/// The octets, at each length that a method gives.
#[derive(Drop)]
pub(crate) enum Bits {
    Bits160([u8; 20]),
    Bits224([u8; 28]),
    Bits256([u8; 32]),
    Bits384([u8; 48]),
    Bits512([u8; 64]),
}

/// A digest or an HMAC: a list of 20 to 64 octets.
#[derive(Drop)]
pub struct Digest {
    bits: Bits,
}

impl Model for Digest {
    ghost use Rattle.std.specs.Prelude.{List, ℕ, length};
    ghost use Rattle.digests_hmac.specs.Octets.{IsDigestSize, octets_of};

    ghost Value = { List ℕ };

    ghost view = { λ d. octets_of d.bits };

    ghost invariant = { λ d. IsDigestSize (length (octets_of d.bits)) };
}

impl Digest {
    ghost use Rattle.digests_hmac.specs.Octets.{IsDigestSize, octets_of};

    pub(crate) fn of_bits(bits: Bits) -> Digest
        ensures { result ≡ octets_of bits }
    {
        Digest { bits }
    }

    /// The octets, 20 to 64 of them.
    pub fn bytes(&self) -> &[u8]
        ensures value { result.now ≡ self.now }
        ensures size { IsDigestSize (length self.now) }
    {
        match &self.bits {
            Bits::Bits160(octets) => octets.as_slice(),
            Bits::Bits224(octets) => octets.as_slice(),
            Bits::Bits256(octets) => octets.as_slice(),
            Bits::Bits384(octets) => octets.as_slice(),
            Bits::Bits512(octets) => octets.as_slice(),
        }
    }
}
