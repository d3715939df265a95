//! Why a template isn't signed.

ghost use Rattle.std.specs.Prelude.{◌≡◌};
ghost use Rattle.signer.specs.Code.Refusals as code;

use dsig_fields::{FieldRefusal, KeyChoice};
use sig_base::NoMemory;
use std::alloc::AllocError;
use transforms::RefRefusal;
use xml_read::ReadRefusal;

/// Why a template isn't signed. The first that holds, in this order, is the answer.
#[derive(Clone, Copy, Debug, PartialEq, Eq, Drop)]
pub enum SignRefusal {
    /// The template can't be read.
    Read(ReadRefusal),
    /// It has no Signature of that number.
    NoSignature,
    /// The fields of the Signature can't be read.
    Fields(FieldRefusal),
    /// No key is named, and the table hasn't exactly one.
    NoKey,
    /// No key has the name.
    UnknownKey,
    /// The HMACOutputLength is this number of bits, below 80 or below half of the HMAC (XML Signature 1.1 §4.4.2).
    ShortTruncation(u32),
    /// The DigestValue or SignatureValue with this row, the first of them in document order, has a child that is no text.
    NotText(u32),
    /// The Reference of this number, counted from 1, has no view.
    Reference(u32, RefRefusal),
    /// The document with its digests filled in can't be read, or the one with its signature value filled in too.
    Filled(ReadRefusal),
    /// The canonical SignedInfo is longer than 33,554,432 octets.
    OctetsTooLong,
    /// The Reference of this number, counted from 1, has another view once the document is filled in, or none: it covers
    /// what is filled in.
    CoversItself(u32),
    /// The folder failed.
    FetchFailed,
    /// Memory that was asked for was not given.
    Memory,
}

impl From<NoMemory> for SignRefusal {
    ghost use Rattle.std.specs.Prelude.{◌≡◌};
    ghost use Rattle.signer.specs.declared.refusal.SignRefusal.TheVariants.{Memory};

    ghost from_gives = { λ _ refusal. refusal ≡ Memory };

    fn from(_: NoMemory) -> SignRefusal {
        SignRefusal::Memory
    }
}

impl From<AllocError> for SignRefusal {
    ghost use Rattle.std.specs.Prelude.{◌≡◌};
    ghost use Rattle.signer.specs.declared.refusal.SignRefusal.TheVariants.{Memory};

    ghost from_gives = { λ _ refusal. refusal ≡ Memory };

    fn from(_: AllocError) -> SignRefusal {
        SignRefusal::Memory
    }
}

impl From<FieldRefusal> for SignRefusal {
    ghost use Rattle.std.specs.Prelude.{◌≡◌};
    ghost use Rattle.signer.specs.Code.Refusals.{field_cause};

    ghost from_gives = { λ cause refusal. refusal ≡ field_cause cause };

    fn from(cause: FieldRefusal) -> SignRefusal {
        match cause {
            FieldRefusal::Memory => SignRefusal::Memory,
            _ => SignRefusal::Fields(cause),
        }
    }
}

impl From<KeyChoice> for SignRefusal {
    ghost use Rattle.std.specs.Prelude.{◌≡◌};
    ghost use Rattle.signer.specs.Outcome.{choice_refusal};

    ghost from_gives = { λ choice refusal. refusal ≡ choice_refusal choice };

    fn from(choice: KeyChoice) -> SignRefusal {
        match choice {
            KeyChoice::NoKey => SignRefusal::NoKey,
            KeyChoice::UnknownKey => SignRefusal::UnknownKey,
        }
    }
}

/// Why a template that can't be read isn't signed.
pub(crate) fn read_cause(cause: ReadRefusal) -> SignRefusal
    ensures { result ≡ code.read_cause cause }
{
    match cause {
        ReadRefusal::Memory => SignRefusal::Memory,
        _ => SignRefusal::Read(cause),
    }
}

/// Why one that can't be read once it is filled in isn't signed.
pub(crate) fn filled_cause(cause: ReadRefusal) -> SignRefusal
    ensures { result ≡ code.filled_cause cause }
{
    match cause {
        ReadRefusal::Memory => SignRefusal::Memory,
        _ => SignRefusal::Filled(cause),
    }
}

/// Why one whose Reference of this number has no view isn't signed.
pub(crate) fn reference_cause(number: u32, cause: RefRefusal) -> SignRefusal
    ensures { result ≡ code.reference_cause number cause }
{
    match cause {
        RefRefusal::FetchFailed => SignRefusal::FetchFailed,
        RefRefusal::SinkRefused | RefRefusal::Memory => SignRefusal::Memory,
        _ => SignRefusal::Reference(number, cause),
    }
}
