//! How a run ends: its status, its refusals, and what it came to before anything is printed.
ghost use Rattle.std.specs.Prelude.{◌≡◌};
ghost use Rattle.xmldsig.specs.Status.{exit_code};

use core_validate::{Report, ValidateRefusal};
use digests_hmac::KeyFault;
use manifests::ManifestLines;
use sig_base::Octets;
use signer::SignRefusal;
use uri_refs::CatalogFault;
use xml_read::ReadRefusal;
use xpath_eval::EvalRefusal;
use xpath_syntax::SyntaxRefusal;

/// How a run ended.
#[derive(Clone, Copy, Debug, PartialEq, Eq)]
pub enum Status {
    /// The command did its work.
    Done,
    /// Signature validation and reference validation hold.
    Valid,
    /// One of the two fails.
    Invalid,
    /// There is no answer: the document, the keys or a reference was refused.
    Refused,
    /// The words name no job.
    Usage,
    /// The folder failed.
    ReadFault,
    /// Standard output or standard error failed.
    WriteFault,
    /// A keeper of views failed.
    ViewFault,
    /// Memory that was asked for was not given.
    Memory,
}

impl Status {
    /// The exit status of the program, 0 to 7.
    pub fn code(&self) -> u8
        ensures { result ≡ exit_code self.now }
    {
        match self {
            Status::Done | Status::Valid => 0,
            Status::Invalid => 1,
            Status::Refused => 2,
            Status::Usage => 3,
            Status::ReadFault => 4,
            Status::WriteFault => 5,
            Status::ViewFault => 6,
            Status::Memory => 7,
        }
    }
}

/// Why a job has no answer.
#[derive(Clone, Copy, Debug, PartialEq, Eq)]
pub enum Refusal {
    /// The folder has no document of that name.
    NoDocument,
    /// The folder has no key file of that name.
    NoKeys,
    /// The key file is above its limit, 16,777,216 bytes.
    KeysTooLarge,
    /// The key file spells no table of keys.
    Keys(KeyFault),
    /// The folder has no catalog of that name.
    NoCatalog,
    /// The catalog is above its limit, 1,048,576 bytes.
    CatalogTooLarge,
    /// The file spells no catalog.
    Catalog(CatalogFault),
    /// The bytes are no document.
    Read(ReadRefusal),
    /// The signature is refused.
    Validate(ValidateRefusal),
    /// The template is not signed.
    Sign(SignRefusal),
    /// The expression can't be read.
    Syntax(SyntaxRefusal),
    /// The expression can't be evaluated.
    Eval(EvalRefusal),
    /// No element bears the ID.
    NoSuchId,
    /// Several elements bear the ID; these are the rows of the first two.
    AmbiguousId(u32, u32),
    /// The canonical form is longer than 33,554,432 octets.
    OctetsTooLong,
}

/// What a validation came to.
#[derive(Drop)]
pub(crate) struct Validated {
    /// The report.
    pub report: Report,
    /// The lines of Manifests, where they are asked for and the report is valid. They change no verdict.
    pub lines: ManifestLines,
}

/// What a run came to, before anything is printed.
#[derive(Drop)]
pub(crate) enum Ending {
    /// The words name no job.
    Usage,
    /// The folder failed.
    ReadFault,
    /// Memory that was asked for was not given.
    Memory,
    /// That keeper failed at that view, both counted from 1.
    ViewFault { view: u64, keeper: u64 },
    /// The job is refused, which this line says.
    Refused { refusal: Refusal, line: Octets },
    /// The validation gave a report, of which this is the text.
    Reported { told: Validated, text: Octets },
    /// The command gave these octets.
    Written { octets: Octets },
}
