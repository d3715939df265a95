//! Why a text has no tokens.
ghost use Rattle.std.specs.Prelude.{◌≡◌};
ghost use Rattle.xpath_words.specs.declared.fault.TokensFault.TheVariants.{Memory};

use sig_base::NoMemory;
use std::alloc::{AllocError, AllocFailed};

/// Why a text has no tokens.
#[derive(Clone, Copy, Debug, PartialEq, Eq, Drop)]
pub enum TokensFault {
    /// The text has no cut into tokens, or a token has no meaning in its place.
    NotXPath,
    /// Memory was wanting.
    Memory,
}

impl From<NoMemory> for TokensFault {
    ghost from_gives = { λ _ e. e ≡ Memory };

    fn from(_error: NoMemory) -> TokensFault {
        TokensFault::Memory
    }
}

impl From<AllocError> for TokensFault {
    ghost from_gives = { λ _ e. e ≡ Memory };

    fn from(_error: AllocError) -> TokensFault {
        TokensFault::Memory
    }
}

impl<T: Drop> From<AllocFailed<T>> for TokensFault {
    ghost from_gives = { λ _ e. e ≡ Memory };

    fn from(_error: AllocFailed<T>) -> TokensFault {
        TokensFault::Memory
    }
}
