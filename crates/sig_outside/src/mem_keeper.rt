//! A keeper in memory.
ghost use Rattle.std.specs.Prelude.{◌≡◌, ◌↔◌, ◌++◌, [], ◌∷◌, Some, Contains, OnOk, OnErr};
ghost use Rattle.sig_outside.specs.Counted.{one_more};
ghost use Rattle.sig_outside.specs.Keeps.{KeepCounts};

use crate::named::{Named, copy_named, is_listed};
use crate::{Kept, ViewKeeper};
use sig_base::NoMemory;
use std::alloc::Global;
use std::marker::Model;

/// A keeper in memory, which tells its pairs.
#[derive(Drop)]
pub struct MemKeeper {
    alloc: Global,
    entries: Vec<Named>,
    failing: Vec<u64>,
    calls: u64,
    faults: u64,
}

impl Model for MemKeeper {
    ghost use Rattle.sig_outside.specs.MemStates.{KeeperState};
    ghost use Rattle.sig_outside.specs.MemViews.{keeper_state};

    ghost Value = { KeeperState };

    ghost view = { keeper_state };
}

impl MemKeeper {
    /// A keeper that holds nothing.
    pub fn new(alloc: Global) -> MemKeeper
        ensures { result ≡ record { pairs = []; failing = []; calls = 0; faults = 0 } }
    {
        MemKeeper {
            alloc,
            entries: Vec::new(alloc),
            failing: Vec::new(alloc),
            calls: 0,
            faults: 0,
        }
    }

    /// Makes call number `k` of `take`, counted from 0, fail.
    pub fn fail_call(&mut self, k: u64) -> Result<(), NoMemory>
        ensures ok { OnOk result (self.new ≡ record self.old { failing = self.old.failing ++ k ∷ [] }) }
        ensures err { OnErr result (self.new ≡ self.old) }
    {
        self.failing.push(k)?;
        Ok(())
    }

    /// Answers that a view can't be kept, and counts that.
    pub(crate) fn refuse(&mut self) -> Kept
        ensures answer { result ≡ Kept.Failed }
        ensures counted { self.new ≡ record self.old { faults = one_more self.old.faults } }
        ensures cause { KeepCounts Kept.Failed self.old.faults self.new.faults }
    {
        self.faults = self.faults.saturating_add(1);
        Kept::Failed
    }
}

impl ViewKeeper for MemKeeper {
    ghost use Rattle.sig_outside.specs.Keeps.{Keeps};

    ghost pairs = { λ s. Some s.pairs };

    ghost faults = { λ s. s.faults };

    /// Fails exactly at the calls that are to fail.
    fn take(&mut self, name: &str, bytes: &[u8]) -> Kept
        ensures pairs { Keeps (name.now, bytes.now) result (Some self.old.pairs) (Some self.new.pairs) }
        ensures cause { KeepCounts result self.old.faults self.new.faults }
        ensures listed { (result ≡ Kept.Failed) ↔ Contains self.old.failing self.old.calls }
        ensures raised { result ≡ Kept.Failed → self.new.faults ≡ one_more self.old.faults }
        ensures counted { self.new.calls ≡ one_more self.old.calls }
        ensures same { self.new.failing ≡ self.old.failing }
    {
        let call = self.calls;
        self.calls = call.saturating_add(1);
        if is_listed(&self.failing, call) {
            return self.refuse();
        }
        let Ok(entry) = copy_named(self.alloc, name, bytes) else {
            return Kept::NoMemory;
        };
        match self.entries.push(entry) {
            Ok(()) => Kept::Done,
            Err(_) => Kept::NoMemory,
        }
    }

    fn faults_now(&self) -> u64 {
        self.faults
    }

    fn entry(&self, k: usize) -> Option<(&str, &[u8])> {
        match self.entries.get(k) {
            Some(entry) => Some((entry.name.as_str(), entry.bytes.as_slice())),
            None => None,
        }
    }
}
