//! What a validation comes to.

use crate::refusal::RefRefusal;
use dsig_fields::{FieldRefusal, KeyChoice};
use sig_base::{NoMemory, Numbers, Views};

/// What core validation comes to (XML Signature 1.1 §3.2).
#[derive(Drop)]
pub enum Report {
    /// Signature validation and reference validation hold. These are the lengths of the views whose digests were compared,
    /// and the views themselves where they are kept.
    Valid(Views),
    /// Signature validation fails: the signature value isn't the HMAC over the canonical SignedInfo.
    SignatureDiffers,
    /// Signature validation fails: the HMACOutputLength is this number of bits, below 80 or below half of the HMAC (§4.4.2).
    ShortTruncation(u32),
    /// Reference validation fails: the numbers, from 1, of all References whose digest isn't the DigestValue.
    DigestsDiffer(Numbers),
}

/// Why a validation comes to no report. The first one that holds, in this order, is the answer.
#[derive(Clone, Copy, Debug, PartialEq, Eq, Drop)]
pub enum ValidateRefusal {
    /// The document has no Signature of that number.
    NoSignature,
    /// The fields of the signature can't be read.
    Fields(FieldRefusal),
    /// No key is named, and the table hasn't exactly one.
    NoKey,
    /// No key has the name.
    UnknownKey,
    /// The canonical SignedInfo is longer than 33,554,432 octets.
    OctetsTooLong,
    /// The Reference of this number, counted from 1, has no view.
    Reference(u32, RefRefusal),
    /// The folder failed.
    FetchFailed,
    /// Memory that was asked for was not given.
    Memory,
}

impl From<NoMemory> for ValidateRefusal {
    ghost use Rattle.std.specs.Prelude.{◌≡◌};
    ghost use Rattle.transforms.specs.declared.outcome.ValidateRefusal.TheVariants.{Memory};

    ghost from_gives = { λ _ refusal. refusal ≡ Memory };

    fn from(_: NoMemory) -> ValidateRefusal {
        ValidateRefusal::Memory
    }
}

impl From<FieldRefusal> for ValidateRefusal {
    ghost use Rattle.std.specs.Prelude.{◌≡◌};
    ghost use Rattle.transforms.specs.Outcome.{field_cause};

    ghost from_gives = { λ cause refusal. refusal ≡ field_cause cause };

    fn from(cause: FieldRefusal) -> ValidateRefusal {
        match cause {
            FieldRefusal::Memory => ValidateRefusal::Memory,
            _ => ValidateRefusal::Fields(cause),
        }
    }
}

impl From<KeyChoice> for ValidateRefusal {
    ghost use Rattle.std.specs.Prelude.{◌≡◌};
    ghost use Rattle.transforms.specs.Outcome.{choice_refusal};

    ghost from_gives = { λ choice refusal. refusal ≡ choice_refusal choice };

    fn from(choice: KeyChoice) -> ValidateRefusal {
        match choice {
            KeyChoice::NoKey => ValidateRefusal::NoKey,
            KeyChoice::UnknownKey => ValidateRefusal::UnknownKey,
        }
    }
}
