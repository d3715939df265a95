//! Sinks of octets, and what they answer.
ghost use Rattle.std.specs.Prelude.{ℕ, List};
ghost use Rattle.std.specs.List.{flat_map};
ghost use Rattle.std.specs.Borrow.{Bor};
ghost use Rattle.sig_base.specs.Puts.{Puts, PutsPiece};

/// What a sink answers to a piece.
#[derive(Clone, Copy, Debug, PartialEq, Eq)]
pub enum Put {
    /// The piece was taken whole.
    Done,
    /// Nothing of the piece was taken.
    Refused,
}

/// A place that takes octets, piece by piece.
pub trait OctetSink {
    /// Which lists of octets the sink stands for.
    ghost stands_for: { Self → List ℕ → Type 0 };

    /// How often the sink has refused.
    ghost refusals: { Self → ℕ };

    /// What the sink, once it is finished, makes of a list that it stands for. No piece changes it.
    ghost makes: { Self → List ℕ → List ℕ };

    /// Appends a piece, or refuses it whole.
    fn put(&mut self, piece: &[u8]) -> Put
        ensures { PutsPiece stands_for refusals makes self.old self.new piece.now result };
}

/// Puts the pieces, one after the other. A refusal leaves a prefix of them in the sink.
pub fn put_pieces<S: OctetSink>(pieces: &[&[u8]], sink: &mut S) -> Put
    ensures { Puts S.stands_for S.refusals S.makes sink.old sink.new (flat_map (λ (p : Bor (List ℕ)). p.now) pieces.now) result }
{
    for piece in pieces {
        if let Put::Refused = sink.put(piece) {
            return Put::Refused;
        }
    }
    Put::Done
}
