//! Numbers below a size, packed into words.
ghost use Rattle.std.specs.Prelude.{◌≡◌, ◌<◌, ◌≤◌, ◌==◌, ◌||◌, ◌&&◌, ℕ, Bool, true, false, not, nat_lt, nat_le, length, slice_index, bit_or, bit_and, bit_xor, IfOk};
ghost use Rattle.node_sets.specs.Members.{has};

use sig_base::NoMemory;
use std::alloc::Global;
use std::marker::Model;

/// Which of the numbers below a size are members: number `i` is bit `i % 64` of word `i / 64`.
#[derive(Drop)]
pub(crate) struct Bits {
    words: Vec<u64>,
    size: u32,
}

impl Model for Bits {
    ghost use Rattle.std.specs.Prelude.{◌≡◌, ◌+◌, ◌/◌, List, Bool, length};
    ghost use Rattle.node_sets.specs.Words.{bits_of};

    ghost Value = { List Bool };

    ghost view = { λ b. bits_of b.words.items b.size };

    ghost invariant = { λ b. length b.words.items ≡ b.size / 64 + 1 };
}

impl Bits {
    /// With no member.
    pub fn new(alloc: Global, size: u32) -> Result<Bits, NoMemory>
        ensures none { IfOk result (λ b. (k : ℕ) → has b k ≡ false) }
        ensures size { IfOk result (λ b. length b ≡ size) }
    {
        let words = vec![in alloc; 0u64; size as usize / 64 + 1]?;
        Ok(Bits { words, size })
    }

    /// Whether the number is a member.
    pub fn contains(&self, i: u32) -> bool
        ensures { result ≡ has self.now i }
    {
        i < self.size && self.words[i as usize / 64] >> (i % 64) & 1 == 1
    }

    /// Makes the number a member.
    pub fn insert(&mut self, i: u32)
        requires { i < length self.old }
        ensures members { (k : ℕ) → has self.new k ≡ (k == i || has self.old k) }
        ensures size { length self.new ≡ length self.old }
    {
        self.words[i as usize / 64] |= 1 << (i % 64);
    }

    /// Makes the number no member.
    pub fn remove(&mut self, i: u32)
        requires { i < length self.old }
        ensures members { (k : ℕ) → has self.new k ≡ (not (k == i) && has self.old k) }
        ensures size { length self.new ≡ length self.old }
    {
        self.words[i as usize / 64] &= !(1 << (i % 64));
    }

    /// Makes the numbers from `from` to before `until` members.
    pub fn insert_range(&mut self, from: u32, until: u32)
        requires ordered { from ≤ until }
        requires within { until ≤ length self.old }
        ensures members { (k : ℕ) → has self.new k ≡ ((nat_le from k && nat_lt k until) || has self.old k) }
        ensures size { length self.new ≡ length self.old }
    {
        for i in from..until {
            self.insert(i);
        }
    }

    /// Makes the numbers from `from` to before `until` no members.
    pub fn remove_range(&mut self, from: u32, until: u32)
        requires ordered { from ≤ until }
        requires within { until ≤ length self.old }
        ensures members { (k : ℕ) → has self.new k ≡ (has self.old k && not (nat_le from k && nat_lt k until)) }
        ensures size { length self.new ≡ length self.old }
    {
        for i in from..until {
            self.remove(i);
        }
    }

    /// Makes the members of another set members.
    pub fn union_with(&mut self, other: &Bits)
        requires { length self.old ≡ length other.now }
        ensures members { (k : ℕ) → has self.new k ≡ (has self.old k || has other.now k) }
        ensures size { length self.new ≡ length self.old }
    {
        or_words(&mut self.words, &other.words);
    }

    /// Keeps the members that another set has.
    pub fn intersect_with(&mut self, other: &Bits)
        requires { length self.old ≡ length other.now }
        ensures members { (k : ℕ) → has self.new k ≡ (has self.old k && has other.now k) }
        ensures size { length self.new ≡ length self.old }
    {
        and_words(&mut self.words, &other.words);
    }

    /// Keeps the members that another set lacks.
    pub fn subtract(&mut self, other: &Bits)
        requires { length self.old ≡ length other.now }
        ensures members { (k : ℕ) → has self.new k ≡ (has self.old k && not (has other.now k)) }
        ensures size { length self.new ≡ length self.old }
    {
        clear_words(&mut self.words, &other.words);
    }
}

/// Sets each bit of a word that is set in the other.
fn or_words(words: &mut [u64], others: &[u64])
    requires { length words.old ≡ length others.now }
    ensures { (k : ℕ) → slice_index words.new k ≡ bit_or (slice_index words.old k) (slice_index others.now k) }
{
    for k in 0..words.len() {
        words[k] |= others[k];
    }
}

/// Clears each bit of a word that is clear in the other.
fn and_words(words: &mut [u64], others: &[u64])
    requires { length words.old ≡ length others.now }
    ensures { (k : ℕ) → slice_index words.new k ≡ bit_and (slice_index words.old k) (slice_index others.now k) }
{
    for k in 0..words.len() {
        words[k] &= others[k];
    }
}

/// Clears each bit of a word that is set in the other.
fn clear_words(words: &mut [u64], others: &[u64])
    requires { length words.old ≡ length others.now }
    ensures { (k : ℕ) → slice_index words.new k ≡ bit_xor (slice_index words.old k)
        (bit_and (slice_index words.old k) (slice_index others.now k)) }
{
    for k in 0..words.len() {
        words[k] ^= words[k] & others[k];
    }
}
