//! Why a Reference has no view.

use sig_base::NoMemory;
use std::alloc::AllocFailed;
use uri_refs::UriRefusal;
use xml_read::ReadRefusal;
use xpath_eval::EvalRefusal;
use xpath_syntax::SyntaxRefusal;

/// Why a Reference has no view. The target comes first, then the steps in order, each counted from 1: the Transforms, and behind
/// the last of them the step that writes the view. The first that is refused decides. No cause is want of memory.
#[derive(Clone, Copy, Debug, PartialEq, Eq, Drop)]
pub enum RefRefusal {
    /// The URI refers to nothing.
    Uri(UriRefusal),
    /// No element bears the ID.
    NoSuchId,
    /// Several elements bear the ID; these are the rows of the first two.
    AmbiguousId(u32, u32),
    /// The folder doesn't have the file.
    Absent,
    /// The file is longer than 4,194,304 octets.
    TooLong,
    /// The octets that a step wants as a document can't be read.
    Read {
        /// The number of the step.
        step: u32,
        /// Why not.
        cause: ReadRefusal,
    },
    /// An expression of a step can't be read.
    Syntax {
        /// The number of the step.
        step: u32,
        /// The number of the expression within it, from 1.
        part: u32,
        /// Why not.
        cause: SyntaxRefusal,
    },
    /// An expression of a step can't be evaluated.
    Eval {
        /// The number of the step.
        step: u32,
        /// The number of the expression within it, from 1.
        part: u32,
        /// Why not.
        cause: EvalRefusal,
    },
    /// What this step is to decode isn't base64.
    NotBase64(u32),
    /// This step is to take out the Signature that contains the Reference, and there is none, or the nodes are of another
    /// document than the one in which it stands, as that was read.
    EnvelopedElsewhere(u32),
    /// What this step writes is longer than 33,554,432 octets.
    OctetsTooLong(u32),
    /// The folder failed.
    FetchFailed,
    /// The sink refused a piece.
    SinkRefused,
    /// Memory that was asked for was not given.
    Memory,
}

impl From<NoMemory> for RefRefusal {
    ghost use Rattle.std.specs.Prelude.{◌≡◌};
    ghost use Rattle.transforms.specs.declared.refusal.RefRefusal.TheVariants.{Memory};

    ghost from_gives = { λ _ refusal. refusal ≡ Memory };

    fn from(_: NoMemory) -> RefRefusal {
        RefRefusal::Memory
    }
}

impl<T: Drop> From<AllocFailed<T>> for RefRefusal {
    ghost use Rattle.std.specs.Prelude.{◌≡◌};
    ghost use Rattle.transforms.specs.declared.refusal.RefRefusal.TheVariants.{Memory};

    ghost from_gives = { λ _ refusal. refusal ≡ Memory };

    fn from(_: AllocFailed<T>) -> RefRefusal {
        RefRefusal::Memory
    }
}
