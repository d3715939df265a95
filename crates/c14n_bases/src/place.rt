//! Where a value begins in a buffer, and what is known of it.
ghost use Rattle.std.specs.Prelude.{◌≡◌, ◌≤◌, ◌*◌, ◌++◌, ℕ, List, false, codes, drop, is_some, length};
ghost use Rattle.c14n_bases.specs.Join.{begins, below, cut, join};
ghost use Rattle.c14n_bases.specs.Code.Climbs.{climbs};
ghost use Rattle.c14n_bases.specs.Code.Placed.{Stands, Starts, value_at};
ghost use Rattle.c14n_bases.specs.declared.kind.Kind.TheVariants.{Relative};

use crate::cut::has_scheme;
use crate::kind::{Kind, known_kind};

/// Where a value begins.
#[derive(Clone, Copy)]
pub(crate) struct Start {
    /// The place of what is written of it.
    pub from: usize,
    /// So many `../` before that are counted and not written.
    pub upwards: usize,
    /// Whether a scheme begins what is written. It is kept, so that a long segment is not looked at each time.
    pub is_scheme: bool,
}

/// Where a value begins, and what is known of it.
#[derive(Clone, Copy)]
pub(crate) struct Place {
    pub start: Start,
    pub kind: Option<Kind>,
}

/// The start of a value that is written as a whole.
pub(crate) fn start_of(buffer: &[u8], from: usize) -> Start
    requires { from ≤ length buffer.now }
    ensures from { result.from ≡ from }
    ensures upwards { result.upwards ≡ 0 }
    ensures starts { Starts result buffer.now }
{
    Start {
        from,
        upwards: 0,
        is_scheme: has_scheme(&buffer[from..]),
    }
}

/// A start near another one, which is looked at no more where they are the same.
pub(crate) fn start_near(buffer: &[u8], from: usize, upwards: usize, known: Start) -> Start
    requires within { from ≤ length buffer.now }
    requires room { 3 * upwards ≤ from }
    requires known { Starts known buffer.now }
    ensures from { result.from ≡ from }
    ensures upwards { result.upwards ≡ upwards }
    ensures starts { Starts result buffer.now }
{
    let is_scheme = if from == known.from {
        known.is_scheme
    } else {
        has_scheme(&buffer[from..])
    };
    Start {
        from,
        upwards,
        is_scheme,
    }
}

/// With how many `../` a text begins.
pub(crate) fn count_upwards(text: &[u8]) -> usize
    ensures climbs { text.now ≡ climbs result ++ drop (3 * result) text.now }
    ensures all { begins (codes "../") (drop (3 * result) text.now) ≡ false }
    ensures within { 3 * result ≤ length text.now }
{
    let mut upwards = 0;
    while text[3 * upwards..].starts_with(b"../") {
        upwards += 1;
    }
    upwards
}

/// Counts the `../` that a relative value begins with.
pub(crate) fn counted(buffer: &[u8], start: Start, kind: Kind) -> Start
    requires { Starts start buffer.now }
    ensures value { value_at result buffer.now ≡ value_at start buffer.now }
    ensures starts { Starts result buffer.now }
    ensures all { kind ≡ Relative → begins (codes "../") (drop result.from buffer.now) ≡ false }
    ensures only { (kind ≡ Relative → ⊥) → result.upwards ≡ start.upwards }
{
    if let Kind::Relative = kind {
        let more = count_upwards(&buffer[start.from..]);
        start_near(buffer, start.from + 3 * more, start.upwards + more, start)
    } else {
        start
    }
}

/// The place of a joined value, whose parts have a scheme or not.
pub(crate) fn known_place(buffer: &[u8], start: Start, with_scheme: bool) -> Place
    requires { Starts start buffer.now }
    ensures start { result.start ≡ start }
    ensures stands { (base own : List ℕ) → value_at start buffer.now ≡ join base own
        → with_scheme ≡ is_some (below (cut base) (cut own)).scheme → Stands result buffer.now }
{
    let kind = if start.upwards > 0 {
        Some(Kind::Relative)
    } else {
        known_kind(&buffer[start.from..], start.is_scheme, with_scheme)
    };
    Place { start, kind }
}
