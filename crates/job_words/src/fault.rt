//! Why words give no job.
ghost use Rattle.std.specs.Prelude.{◌≡◌};
ghost use Rattle.job_words.specs.declared.fault.WordsFault.TheVariants.{Memory};

use sig_base::NoMemory;
use std::alloc::{AllocError, AllocFailed};

/// Why words give no job.
#[derive(Clone, Copy, Debug, PartialEq, Eq)]
pub enum WordsFault {
    /// The words break a rule.
    Usage,
    /// Memory that was asked for was not given.
    Memory,
}

impl From<NoMemory> for WordsFault {
    ghost from_gives = { λ _ e. e ≡ Memory };

    fn from(_: NoMemory) -> Self {
        WordsFault::Memory
    }
}

impl From<AllocError> for WordsFault {
    ghost from_gives = { λ _ e. e ≡ Memory };

    fn from(_: AllocError) -> Self {
        WordsFault::Memory
    }
}

impl<T: Drop> From<AllocFailed<T>> for WordsFault {
    ghost from_gives = { λ _ e. e ≡ Memory };

    fn from(_: AllocFailed<T>) -> Self {
        WordsFault::Memory
    }
}
