//! A standard stream, as a sink.
ghost use Rattle.std.specs.Prelude.{◌≡◌, None};
ghost use Rattle.sig_outside.specs.Writes.{Writes};

use crate::{Sink, Wrote};
use std::io::Write;
use std::marker::Model;

/// Which of the two output streams is written.
#[derive(Clone, Copy, Debug, PartialEq, Eq)]
pub enum Stream {
    /// Standard output.
    Out,
    /// Standard error.
    Err,
}

/// A standard stream.
#[derive(Drop)]
pub struct StreamSink {
    runtime: HostRuntime,
    stream: Stream,
    faults: u64,
}

impl Model for StreamSink {
    ghost use Rattle.std.specs.Prelude.{ℕ};

    ghost Value = { ℕ };

    ghost view = { λ s. s.faults };
}

impl StreamSink {
    /// A sink on that stream that has not failed yet.
    pub fn new(runtime: HostRuntime, stream: Stream) -> StreamSink
        ensures { result ≡ 0 }
    {
        StreamSink {
            runtime,
            stream,
            faults: 0,
        }
    }
}

/// Writes the whole piece. A write that takes nothing is an error.
pub(crate) fn write_whole<W: Write>(stream: &mut W, piece: &[u8]) -> Wrote
    ensures { Writes piece.now result (W.contents stream.old) (W.contents stream.new) }
{
    let mut rest = piece;
    while !rest.is_empty() {
        let Ok(count) = stream.write(rest) else {
            return Wrote::Failed;
        };
        if count == 0 {
            return Wrote::Failed;
        }
        rest = &rest[count..];
    }
    Wrote::Done
}

impl Sink for StreamSink {
    ghost written = { λ s. None };

    ghost faults = { λ s. s };

    fn write_all(&mut self, piece: &[u8]) -> Wrote {
        let wrote = match self.stream {
            Stream::Out => write_whole(&mut self.runtime.stdout(), piece),
            Stream::Err => write_whole(&mut self.runtime.stderr(), piece),
        };
        if wrote == Wrote::Failed {
            self.faults = self.faults.saturating_add(1);
        }
        wrote
    }
}
