//! A keeper of views, each handed over under a name.
ghost use Rattle.std.specs.Option.{ForSome};
ghost use Rattle.std.specs.Prelude.{◌≡◌, List, ℕ, Option, option_map, slice_get};

/// What a keeper answers to a view.
#[derive(Clone, Copy, Debug, PartialEq, Eq)]
pub enum Kept {
    /// The view was kept.
    Done,
    /// The view could not be kept, and the count of faults rose.
    Failed,
    /// Memory was wanting.
    NoMemory,
}

/// A keeper of views, each handed over under a name.
pub trait ViewKeeper: Drop {
    ghost use Rattle.sig_outside.specs.Keeps.{Keeps, KeepCounts};

    /// The names and views that were kept so far, the first one first, where the keeper tells them.
    ghost pairs: { Self → Option (List (List ℕ × List ℕ)) };

    /// How often the keeper has failed.
    ghost faults: { Self → ℕ };

    /// Keeps the view under that name. Any answer but `Done` leaves the pairs as they were.
    fn take(&mut self, name: &str, bytes: &[u8]) -> Kept
        ensures pairs { Keeps (name.now, bytes.now) result (pairs self.old) (pairs self.new) }
        ensures cause { KeepCounts result (faults self.old) (faults self.new) };

    /// How often the keeper has failed.
    fn faults_now(&self) -> u64
        ensures { result ≡ faults self.now };

    /// The name and the view of pair number `k`, counted from 0, or `None` past the end, where the
    /// keeper tells its pairs.
    fn entry(&self, k: usize) -> Option<(&str, &[u8])>
        ensures { ForSome (pairs self.now) (λ told. option_map (λ e. (e.0.now, e.1.now)) result ≡ slice_get told k) };
}

impl ViewKeeper for Box<dyn ViewKeeper> {
    ghost pairs = { λ b. (ViewKeeper-box b).pairs b.value };

    ghost faults = { λ b. (ViewKeeper-box b).faults b.value };

    fn take(&mut self, name: &str, bytes: &[u8]) -> Kept {
        (**self).take(name, bytes)
    }

    fn faults_now(&self) -> u64 {
        (**self).faults_now()
    }

    fn entry(&self, k: usize) -> Option<(&str, &[u8])> {
        (**self).entry(k)
    }
}
