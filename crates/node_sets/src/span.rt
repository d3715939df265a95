//! A range of row numbers.
ghost use Rattle.std.specs.Prelude.{◌≡◌, min, max};

/// The row numbers from `from` to before `until`; none where `from` isn't below `until`.
#[derive(Clone, Copy, Debug, PartialEq, Eq)]
pub struct Span {
    /// The first number.
    pub from: u32,
    /// The number behind the last.
    pub until: u32,
}

impl Span {
    /// The least range that has both.
    pub(crate) fn join(self, other: Span) -> Span
        ensures from { result.from ≡ min self.from other.from }
        ensures until { result.until ≡ max self.until other.until }
    {
        Span {
            from: self.from.min(other.from),
            until: self.until.max(other.until),
        }
    }

    /// The numbers of both.
    pub(crate) fn meet(self, other: Span) -> Span
        ensures from { result.from ≡ max self.from other.from }
        ensures until { result.until ≡ min self.until other.until }
    {
        Span {
            from: self.from.max(other.from),
            until: self.until.min(other.until),
        }
    }
}
