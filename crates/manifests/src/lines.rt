//! What is told of Manifests, a line for each entry.

use dsig_fields::FieldRefusal;
use sig_base::{Members, NoMemory};
use transforms::RefRefusal;

/// What a line tells. The first three are of an entry, the others of a Manifest, which then has that line alone.
#[derive(Clone, Copy, Debug, PartialEq, Eq, Drop)]
pub enum ManifestKind {
    /// The digest of the entry's view is its DigestValue.
    Same,
    /// The digest of the entry's view isn't its DigestValue.
    Differs,
    /// The entry has no view.
    Refused(RefRefusal),
    /// The Reference has a Transform that doesn't canonicalize, so what is signed need not be the Manifest.
    ManifestTransforms,
    /// The Reference doesn't refer to a Manifest element of this document, or not to one alone.
    NotManifest,
    /// The References of the Manifest can't be read.
    Fields(FieldRefusal),
    /// With these entries there would be more than 1,024.
    TooMany,
}

/// A line: which entry of which Manifest, and what is told of it.
#[derive(Clone, Copy, Debug, PartialEq, Eq, Drop)]
pub struct ManifestLine {
    /// The number of the Reference that refers to the Manifest, counted from 1.
    pub reference: u32,
    /// The number of the entry, counted from 1; 0 where the line is of the Manifest.
    pub entry: u32,
    /// What is told.
    pub kind: ManifestKind,
}

/// The lines of all Manifests, in the order of the References to them, and of their entries.
pub type ManifestLines = Members<ManifestLine>;

/// Why there are no lines.
#[derive(Clone, Copy, Debug, PartialEq, Eq, Drop)]
pub enum ManifestStop {
    /// The folder failed.
    FetchFailed,
    /// Memory that was asked for was not given.
    Memory,
}

impl From<NoMemory> for ManifestStop {
    ghost use Rattle.std.specs.Prelude.{◌≡◌};
    ghost use Rattle.manifests.specs.declared.lines.ManifestStop.TheVariants.{Memory};

    ghost from_gives = { λ _ stop. stop ≡ Memory };

    fn from(_: NoMemory) -> ManifestStop {
        ManifestStop::Memory
    }
}
