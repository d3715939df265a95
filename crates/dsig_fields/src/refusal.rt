//! Why the fields of a signature can't be read.

use crate::names::ElementName;
use sig_base::NoMemory;
use std::alloc::{AllocError, AllocFailed};

/// Why the fields of a signature can't be read. An element is read in document order, its attributes before its children,
/// and the first refusal that is met is the answer. Most name the row of the element where it was met.
#[derive(Clone, Copy, Debug, PartialEq, Eq, Drop)]
pub enum FieldRefusal {
    /// An element that has to stand there doesn't: another element stands in its place, or the end of its parent.
    Missing(ElementName),
    /// This child may not stand where it does, and nothing is missing.
    Extra(u32),
    /// The element has no Algorithm.
    NoAlgorithm(u32),
    /// The element's Algorithm isn't the identifier of a method for its place.
    UnknownMethod(u32),
    /// The Transform names XSLT, which is left out.
    Xslt(u32),
    /// The SignatureMethod names a method with public keys, which are left out.
    PublicKey(u32),
    /// The HMACOutputLength isn't a decimal number, or not one of whole octets, or more than the HMAC has.
    BadLength(u32),
    /// The content isn't base64.
    BadBase64(u32),
    /// The XPath of a filter doesn't say whether it intersects, subtracts or unites.
    BadFilter(u32),
    /// The Reference has no URI.
    NoUri(u32),
    /// There are more than 256 References.
    TooManyReferences,
    /// This is the 17th Transform of a Reference.
    TooManyTransforms(u32),
    /// This is the 17th filter of a Transform.
    TooManyFilters(u32),
    /// Memory that was asked for was not given.
    Memory,
}

impl From<NoMemory> for FieldRefusal {
    ghost use Rattle.std.specs.Prelude.{◌≡◌};
    ghost use Rattle.dsig_fields.specs.declared.refusal.FieldRefusal.TheVariants.{Memory};

    ghost from_gives = { λ _ refusal. refusal ≡ Memory };

    fn from(_: NoMemory) -> FieldRefusal {
        FieldRefusal::Memory
    }
}

impl From<AllocError> for FieldRefusal {
    ghost use Rattle.std.specs.Prelude.{◌≡◌};
    ghost use Rattle.dsig_fields.specs.declared.refusal.FieldRefusal.TheVariants.{Memory};

    ghost from_gives = { λ _ refusal. refusal ≡ Memory };

    fn from(_: AllocError) -> FieldRefusal {
        FieldRefusal::Memory
    }
}

impl<T: Drop> From<AllocFailed<T>> for FieldRefusal {
    ghost use Rattle.std.specs.Prelude.{◌≡◌};
    ghost use Rattle.dsig_fields.specs.declared.refusal.FieldRefusal.TheVariants.{Memory};

    ghost from_gives = { λ _ refusal. refusal ≡ Memory };

    fn from(_: AllocFailed<T>) -> FieldRefusal {
        FieldRefusal::Memory
    }
}
