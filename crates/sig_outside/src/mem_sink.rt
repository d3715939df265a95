//! A sink in memory.
ghost use Rattle.std.specs.Prelude.{◌≡◌, ◌↔◌, ◌⊎◌, ◌++◌, ◌+◌, ◌<◌, [], ◌∷◌, length, Some, Contains, IfOk, OnOk, OnErr};
ghost use Rattle.sig_outside.specs.Counted.{one_more};

use crate::named::is_listed;
use crate::{Sink, Wrote};
use sig_base::NoMemory;
use std::alloc::Global;
use std::marker::Model;

/// A sink in memory, which tells what was written. It takes its memory at the start.
#[derive(Drop)]
pub struct MemSink {
    bytes: Vec<u8>,
    room: usize,
    failing: Vec<u64>,
    calls: u64,
    faults: u64,
}

impl Model for MemSink {
    ghost use Rattle.sig_outside.specs.MemStates.{SinkState};
    ghost use Rattle.sig_outside.specs.MemViews.{sink_state, HasRoom};

    ghost Value = { SinkState };

    ghost view = { sink_state };

    ghost invariant = { HasRoom };
}

impl MemSink {
    /// A sink that has written nothing and has room for that many octets.
    pub fn with_room(alloc: Global, room: usize) -> Result<MemSink, NoMemory>
        ensures { IfOk result (λ s. s ≡ record { written = []; room = room; failing = []; calls = 0; faults = 0 }) }
    {
        let bytes = Vec::with_capacity(alloc, room)?;
        Ok(MemSink {
            bytes,
            room,
            failing: Vec::new(alloc),
            calls: 0,
            faults: 0,
        })
    }

    /// Makes call number `k` of `write_all`, counted from 0, fail.
    pub fn fail_call(&mut self, k: u64) -> Result<(), NoMemory>
        ensures ok { OnOk result (self.new ≡ record self.old { failing = self.old.failing ++ k ∷ [] }) }
        ensures err { OnErr result (self.new ≡ self.old) }
    {
        self.failing.push(k)?;
        Ok(())
    }

    /// What was written.
    pub fn bytes(&self) -> &[u8]
        ensures { result.now ≡ self.now.written }
    {
        &self.bytes
    }
}

impl Sink for MemSink {
    ghost use Rattle.sig_outside.specs.Writes.{Writes, WriteCounts};

    ghost written = { λ s. Some s.written };

    ghost faults = { λ s. s.faults };

    /// Fails exactly at the calls that are to fail, and where the piece is longer than the room
    /// that is left. It writes no octet then. It takes no memory.
    fn write_all(&mut self, piece: &[u8]) -> Wrote
        ensures written { Writes piece.now result (Some self.old.written) (Some self.new.written) }
        ensures cause { WriteCounts result self.old.faults self.new.faults }
        ensures listed { (result ≡ Wrote.Failed) ↔ (Contains self.old.failing self.old.calls ⊎
            (self.old.room < length self.old.written + length piece.now)) }
        ensures no_octet { result ≡ Wrote.Failed → self.new.written ≡ self.old.written }
        ensures raised { result ≡ Wrote.Failed → self.new.faults ≡ one_more self.old.faults }
        ensures counted { self.new.calls ≡ one_more self.old.calls }
        ensures same { (self.new.failing ≡ self.old.failing) × (self.new.room ≡ self.old.room) }
    {
        let call = self.calls;
        self.calls = call.saturating_add(1);
        let fits = piece.len() <= self.room - self.bytes.len();
        if is_listed(&self.failing, call) || !fits {
            self.faults = self.faults.saturating_add(1);
            return Wrote::Failed;
        }
        match self.bytes.extend_from_slice(piece) {
            Ok(()) => Wrote::Done,
            Err(_) => unreachable!(),
        }
    }
}
