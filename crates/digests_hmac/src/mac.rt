//! HMAC (RFC 2104) by each method, at once and in pieces.

ghost use Rattle.std.specs.Prelude.{◌≡◌, ◌↔◌, ◌≤◌, ◌-◌, ◌*◌, ◌%◌, IsTrue, ℕ, List, [], ◌++◌, take, length, replicate};
ghost use Rattle.digests_hmac.specs.Hash.{digest_size, hash_of, hmac_of, kept, xored, zero_filled};
ghost use Rattle.digests_hmac.specs.Hash as spec;
ghost use Rattle.digests_hmac.specs.Hashers.{method_of, HoldsMessage};
ghost use Rattle.digests_hmac.specs.Sinks.{HasAuthenticated, mac_by};

use crate::hasher::Hasher;
use crate::value::Digest;
use sig_base::{DigestMethod, MacMethod, OctetSink, Put};

/// The octets of the longest block that a method has.
const LONGEST_BLOCK: usize = 128;

/// The octet with which the key's block is XORed for the inner hash.
const INNER_PAD: u8 = 0x36;

/// The octet with which the key's block is XORed for the outer hash.
const OUTER_PAD: u8 = 0x5c;

/// The digest method that an HMAC is built on.
fn digest_method(method: MacMethod) -> DigestMethod
    ensures { result ≡ hash_of method }
{
    match method {
        MacMethod::HmacSha1 => DigestMethod::Sha1,
        MacMethod::HmacSha224 => DigestMethod::Sha224,
        MacMethod::HmacSha256 => DigestMethod::Sha256,
        MacMethod::HmacSha384 => DigestMethod::Sha384,
        MacMethod::HmacSha512 => DigestMethod::Sha512,
    }
}

/// The bits of an HMAC that isn't truncated (RFC 2104 §2).
pub fn output_bits(method: MacMethod) -> u32
    ensures { result ≡ 8 * digest_size (hash_of method) }
{
    match method {
        MacMethod::HmacSha1 => 160,
        MacMethod::HmacSha224 => 224,
        MacMethod::HmacSha256 => 256,
        MacMethod::HmacSha384 => 384,
        MacMethod::HmacSha512 => 512,
    }
}

/// The octets of a block.
fn block_size(method: DigestMethod) -> usize
    ensures size { result ≡ spec.block_size method }
    ensures longest { result ≤ 128 }
    ensures shortest { 64 ≤ result }
{
    match method {
        DigestMethod::Sha1 | DigestMethod::Sha224 | DigestMethod::Sha256 => 64,
        DigestMethod::Sha384 | DigestMethod::Sha512 => 128,
    }
}

/// The octets with zeros behind them to the longest block.
fn zero_filled(octets: &[u8]) -> [u8; LONGEST_BLOCK]
    requires { length octets.now ≤ 128 }
    ensures { result ≡ zero_filled 128 octets.now }
{
    let mut filled = [0u8; LONGEST_BLOCK];
    filled[..octets.len()].copy_from_slice(octets);
    filled
}

/// The key as a block, with zeros behind it to the longest block.
fn key_block(method: DigestMethod, key: &[u8]) -> [u8; LONGEST_BLOCK]
    ensures { take (spec.block_size method) result ≡ spec.key_block method key.now }
{
    if block_size(method) < key.len() {
        let hashed = crate::digest(method, key);
        return zero_filled(hashed.bytes());
    }
    zero_filled(key)
}

/// The block, each octet of it XORed with the pad.
fn xored_block(block: &[u8; LONGEST_BLOCK], pad: u8) -> [u8; LONGEST_BLOCK]
    ensures { result ≡ xored pad block.now }
{
    let mut changed = [0u8; LONGEST_BLOCK];
    for i in 0..LONGEST_BLOCK {
        changed[i] = block[i] ^ pad;
    }
    changed
}

/// A hasher that has taken the key's block, each octet of it XORed with the pad.
fn xored_hasher(method: DigestMethod, block: &[u8; LONGEST_BLOCK], pad: u8) -> Hasher
    ensures holds { HoldsMessage result (xored pad (take (spec.block_size method) block.now)) }
    ensures method { method_of result ≡ method }
{
    let changed = xored_block(block, pad);
    let mut hasher = Hasher::new(method);
    hasher.update(&changed[..block_size(method)]);
    hasher
}

/// A sink that never refuses, and that ends in the HMAC of what was put into it.
#[derive(Drop)]
pub struct MacSink {
    /// The key as a block, with zeros behind it to the longest block.
    block: [u8; LONGEST_BLOCK],
    /// The inner hash; the outer one is begun at the end.
    inner: Hasher,
}

impl MacSink {
    /// A sink that has taken nothing. The key may have any length.
    #[tactic(auto, unfolding(crate::specs::Hash::hmac_of))]
    pub fn new(method: MacMethod, key: &[u8]) -> MacSink
        ensures empty { HasAuthenticated result [] }
        ensures makes { (octets : List ℕ) → mac_by result octets ≡ hmac_of method key.now octets }
    {
        let method = digest_method(method);
        let block = key_block(method, key);
        let inner = xored_hasher(method, &block, INNER_PAD);
        MacSink { block, inner }
    }

    /// The HMAC of the octets that the sink has taken.
    pub fn finish(self) -> Digest
        ensures { (octets : List ℕ) → HasAuthenticated self octets → result ≡ mac_by self octets }
    {
        let mut outer = xored_hasher(self.inner.method(), &self.block, OUTER_PAD);
        let inner = self.inner.finish();
        outer.update(inner.bytes());
        outer.finish()
    }
}

impl OctetSink for MacSink {
    ghost stands_for = { HasAuthenticated };

    ghost refusals = { λ _. 0 };

    ghost makes = { mac_by };

    fn put(&mut self, piece: &[u8]) -> Put {
        self.inner.update(piece);
        Put::Done
    }
}

/// The HMAC of a message under a key of any length.
pub fn hmac(method: MacMethod, key: &[u8], message: &[u8]) -> Digest
    ensures value { result ≡ hmac_of method key.now message.now }
    ensures size { length result ≡ digest_size (hash_of method) }
{
    let mut sink = MacSink::new(method, key);
    sink.inner.update(message);
    sink.finish()
}

/// Whether a value is the full HMAC kept to its first bits, no fewer and no more of them.
pub fn hmac_matches(full: &Digest, bits: u32, value: &[u8]) -> bool
    requires whole { bits % 8 ≡ 0 }
    requires fits { bits ≤ 8 * length full.now }
    ensures { IsTrue result ↔ (value.now ≡ kept full.now bits) }
{
    value == &full.bytes()[..(bits / 8) as usize]
}
