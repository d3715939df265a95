//! Digests by each method (FIPS 180-4), at once and in pieces.

ghost use Rattle.std.specs.Prelude.{◌≡◌, ℕ, List, [], ◌++◌, length};
ghost use Rattle.digests_hmac.specs.Hash.{digest_size, hash};
ghost use Rattle.digests_hmac.specs.Hashers.{method_of, HoldsMessage};
ghost use Rattle.digests_hmac.specs.Sinks.{HasDigested, digest_by};

use crate::value::{Bits, Digest};
use sha1::Sha1;
use sha2::{Digest as _, Sha224, Sha256, Sha384, Sha512};
use sig_base::{DigestMethod, OctetSink, Put};

/// A hasher of one of the methods.
#[derive(Drop)]
pub(crate) enum Hasher {
    OfSha1(Sha1),
    OfSha224(Sha224),
    OfSha256(Sha256),
    OfSha384(Sha384),
    OfSha512(Sha512),
}

impl Hasher {
    /// A hasher that has taken nothing.
    pub(crate) fn new(method: DigestMethod) -> Hasher
        ensures holds { HoldsMessage result [] }
        ensures method { method_of result ≡ method }
    {
        match method {
            DigestMethod::Sha1 => Hasher::OfSha1(Sha1::new()),
            DigestMethod::Sha224 => Hasher::OfSha224(Sha224::new()),
            DigestMethod::Sha256 => Hasher::OfSha256(Sha256::new()),
            DigestMethod::Sha384 => Hasher::OfSha384(Sha384::new()),
            DigestMethod::Sha512 => Hasher::OfSha512(Sha512::new()),
        }
    }

    /// The method.
    pub(crate) fn method(&self) -> DigestMethod
        ensures { result ≡ method_of self.now }
    {
        match self {
            Hasher::OfSha1(_) => DigestMethod::Sha1,
            Hasher::OfSha224(_) => DigestMethod::Sha224,
            Hasher::OfSha256(_) => DigestMethod::Sha256,
            Hasher::OfSha384(_) => DigestMethod::Sha384,
            Hasher::OfSha512(_) => DigestMethod::Sha512,
        }
    }

    /// Takes a piece of the message.
    pub(crate) fn update(&mut self, piece: &[u8])
        ensures holds { (m : List ℕ) → HoldsMessage self.old m → HoldsMessage self.new (m ++ piece.now) }
        ensures method { method_of self.new ≡ method_of self.old }
    {
        match self {
            Hasher::OfSha1(state) => state.update(piece),
            Hasher::OfSha224(state) => state.update(piece),
            Hasher::OfSha256(state) => state.update(piece),
            Hasher::OfSha384(state) => state.update(piece),
            Hasher::OfSha512(state) => state.update(piece),
        }
    }

    /// The digest of the message.
    pub(crate) fn finish(self) -> Digest
        ensures value { (m : List ℕ) → HoldsMessage self m → result ≡ hash (method_of self) m }
        ensures size { length result ≡ digest_size (method_of self) }
    {
        Digest::of_bits(match self {
            Hasher::OfSha1(state) => Bits::Bits160(state.finalize()),
            Hasher::OfSha224(state) => Bits::Bits224(state.finalize()),
            Hasher::OfSha256(state) => Bits::Bits256(state.finalize()),
            Hasher::OfSha384(state) => Bits::Bits384(state.finalize()),
            Hasher::OfSha512(state) => Bits::Bits512(state.finalize()),
        })
    }
}

/// The digest of the octets.
pub fn digest(method: DigestMethod, bytes: &[u8]) -> Digest
    ensures value { result ≡ hash method bytes.now }
    ensures size { length result ≡ digest_size method }
{
    let mut hasher = Hasher::new(method);
    hasher.update(bytes);
    hasher.finish()
}

/// A sink that never refuses, and that ends in the digest of what was put into it.
#[derive(Drop)]
pub struct DigestSink {
    hasher: Hasher,
}

impl DigestSink {
    /// A sink that has taken nothing.
    pub fn new(method: DigestMethod) -> DigestSink
        ensures empty { HasDigested result [] }
        ensures makes { (octets : List ℕ) → digest_by result octets ≡ hash method octets }
    {
        DigestSink {
            hasher: Hasher::new(method),
        }
    }

    /// The digest of the octets that the sink has taken.
    pub fn finish(self) -> Digest
        ensures { (octets : List ℕ) → HasDigested self octets → result ≡ digest_by self octets }
    {
        self.hasher.finish()
    }
}

impl OctetSink for DigestSink {
    ghost stands_for = { HasDigested };

    ghost refusals = { λ _. 0 };

    ghost makes = { digest_by };

    fn put(&mut self, piece: &[u8]) -> Put {
        self.hasher.update(piece);
        Put::Done
    }
}
