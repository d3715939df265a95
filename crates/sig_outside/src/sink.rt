//! A stream of octets that is written.
ghost use Rattle.std.specs.Prelude.{◌≡◌, List, ℕ, Option};

/// What a sink answers to a piece.
#[derive(Clone, Copy, Debug, PartialEq, Eq)]
pub enum Wrote {
    /// The piece was written whole.
    Done,
    /// A prefix of the piece was written, and the count of faults rose.
    Failed,
}

/// A stream of octets that is written.
pub trait Sink {
    ghost use Rattle.sig_outside.specs.Writes.{Writes, WriteCounts};

    /// What was written so far, where the sink tells it.
    ghost written: { Self → Option (List ℕ) };

    /// How often the sink has failed.
    ghost faults: { Self → ℕ };

    /// Writes the whole piece, or fails behind a prefix of it.
    fn write_all(&mut self, piece: &[u8]) -> Wrote
        ensures written { Writes piece.now result (written self.old) (written self.new) }
        ensures cause { WriteCounts result (faults self.old) (faults self.new) };
}
