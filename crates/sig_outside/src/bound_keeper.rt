//! A keeper in memory with a bound.
ghost use Rattle.std.specs.Prelude.{◌≡◌, ◌↔◌, ◌+◌, ◌<◌, [], length, Some};
ghost use Rattle.sig_outside.specs.Counted.{one_more};
ghost use Rattle.sig_outside.specs.Bounds.{octets_of};

use crate::mem_keeper::MemKeeper;
use crate::{Kept, ViewKeeper};
use std::alloc::Global;
use std::marker::Model;

/// A keeper in memory, which tells its pairs and holds views up to so many octets together.
#[derive(Drop)]
pub struct BoundKeeper {
    keeper: MemKeeper,
    cap: u64,
    held: u64,
}

impl Model for BoundKeeper {
    ghost use Rattle.sig_outside.specs.Bounds.{BoundState};
    ghost use Rattle.sig_outside.specs.BoundViews.{bound_state, IsWithinCap};

    ghost Value = { BoundState };

    ghost view = { bound_state };

    ghost invariant = { IsWithinCap };
}

impl BoundKeeper {
    /// A keeper that holds nothing, and may hold views of so many octets together.
    pub fn new(alloc: Global, cap: u64) -> BoundKeeper
        ensures { result ≡ record { pairs = []; cap = cap; faults = 0 } }
    {
        BoundKeeper {
            keeper: MemKeeper::new(alloc),
            cap,
            held: 0,
        }
    }
}

impl ViewKeeper for BoundKeeper {
    ghost use Rattle.sig_outside.specs.Keeps.{Keeps, KeepCounts};

    ghost pairs = { λ s. Some s.pairs };

    ghost faults = { λ s. s.faults };

    /// Fails exactly where the views that it holds and this one have more octets than the cap, before any memory is taken.
    fn take(&mut self, name: &str, bytes: &[u8]) -> Kept
        ensures pairs { Keeps (name.now, bytes.now) result (Some self.old.pairs) (Some self.new.pairs) }
        ensures cause { KeepCounts result self.old.faults self.new.faults }
        ensures bounded { (result ≡ Kept.Failed) ↔ (self.old.cap < octets_of self.old.pairs + length bytes.now) }
        ensures raised { result ≡ Kept.Failed → self.new.faults ≡ one_more self.old.faults }
        ensures same { self.new.cap ≡ self.old.cap }
    {
        let count = bytes.len() as u64;
        if count > self.cap - self.held {
            return self.keeper.refuse();
        }
        let kept = self.keeper.take(name, bytes);
        if let Kept::Done = kept {
            self.held += count;
        }
        kept
    }

    fn faults_now(&self) -> u64 {
        self.keeper.faults_now()
    }

    fn entry(&self, k: usize) -> Option<(&str, &[u8])> {
        self.keeper.entry(k)
    }
}
