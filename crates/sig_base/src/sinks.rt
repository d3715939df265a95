//! Sinks in memory.
ghost use Rattle.std.specs.Prelude.{◌≡◌, ℕ, ◌-◌, ◌^◌, List, [], ◌∷◌, length, min};

use crate::lists::Octets;
use crate::sink::{OctetSink, Put};
use std::alloc::Global;
use std::marker::Model;

/// Keeps the octets. It stands for the list that it holds alone, and refuses for want of memory alone.
#[derive(Drop)]
pub struct VecSink {
    octets: Vec<u8>,
    refused: u64,
}

impl Model for VecSink {
    ghost use Rattle.std.specs.Prelude.{List, ℕ};

    ghost Value = { List ℕ × ℕ };

    ghost view = { λ s. (s.octets.items, s.refused) };
}

impl VecSink {
    /// A sink that stands for the empty list.
    pub fn new(alloc: Global) -> VecSink
        ensures { result ≡ ([], 0) }
    {
        VecSink {
            octets: Vec::new(alloc),
            refused: 0,
        }
    }

    /// The octets that were put.
    pub fn finish(self) -> Octets
        ensures { result ≡ self.0 }
    {
        Octets::from_vec(self.octets)
    }
}

impl OctetSink for VecSink {
    ghost stands_for = { λ s m. m ≡ s.0 };

    ghost refusals = { λ s. s.1 };

    ghost makes = { λ _ m. m };

    fn put(&mut self, piece: &[u8]) -> Put {
        match self.octets.extend_from_slice(piece) {
            Ok(()) => Put::Done,
            Err(_) => {
                self.refused = self.refused.saturating_add(1);
                Put::Refused
            }
        }
    }
}

/// Counts the octets. It stands for every list of that length, and never refuses.
#[derive(Drop)]
pub struct LenSink {
    count: u64,
}

impl Model for LenSink {
    ghost use Rattle.std.specs.Prelude.{ℕ};

    ghost Value = { ℕ };

    ghost view = { λ s. s.count };
}

impl LenSink {
    /// A sink that stands for the empty list.
    pub fn new() -> LenSink
        ensures { result ≡ 0 }
    {
        LenSink { count: 0 }
    }

    /// How many octets were put. The count stays at 2^64 - 1 once it is reached.
    pub fn count(&self) -> u64
        ensures { result ≡ self.now }
    {
        self.count
    }
}

impl OctetSink for LenSink {
    ghost stands_for = { λ s m. s ≡ min (length m) (2 ^ 64 - 1) };

    ghost refusals = { λ _. 0 };

    // a count, as the only member of a list
    ghost makes = { λ _ m. min (length m) (2 ^ 64 - 1) ∷ [] };

    fn put(&mut self, piece: &[u8]) -> Put {
        self.count = self.count.saturating_add(piece.len() as u64);
        Put::Done
    }
}
