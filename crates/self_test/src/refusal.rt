//! Why a self-test has no line.
ghost use Rattle.std.specs.Prelude.{◌≡◌};
ghost use Rattle.self_test.specs.Code.Causes as code;

use core_validate::ValidateRefusal;
use sig_base::NoMemory;
use signer::SignRefusal;
use xml_read::ReadRefusal;

/// Why a self-test has no line. The first that holds, in this order, is the answer.
#[derive(Clone, Copy, Debug, PartialEq, Eq, Drop)]
pub enum TestRefusal {
    /// The document isn't signed.
    Sign(SignRefusal),
    /// The signed document can't be read.
    Read(ReadRefusal),
    /// The signed document isn't validated.
    Validate(ValidateRefusal),
    /// Memory that was asked for was not given.
    Memory,
}

impl From<NoMemory> for TestRefusal {
    ghost use Rattle.std.specs.Prelude.{◌≡◌};
    ghost use Rattle.self_test.specs.declared.refusal.TestRefusal.TheVariants.{Memory};

    ghost from_gives = { λ _ refusal. refusal ≡ Memory };

    fn from(_: NoMemory) -> TestRefusal {
        TestRefusal::Memory
    }
}

impl TestRefusal {
    /// Why a template that isn't signed ends a self-test.
    pub(crate) fn by_signing(cause: SignRefusal) -> TestRefusal
        ensures { result ≡ code.sign_cause cause }
    {
        match cause {
            SignRefusal::FetchFailed | SignRefusal::Memory => TestRefusal::Memory,
            _ => TestRefusal::Sign(cause),
        }
    }

    /// Why a document that can't be read ends a self-test.
    pub(crate) fn by_reader(cause: ReadRefusal) -> TestRefusal
        ensures { result ≡ code.read_cause cause }
    {
        match cause {
            ReadRefusal::Memory => TestRefusal::Memory,
            _ => TestRefusal::Read(cause),
        }
    }

    /// Why a document that isn't validated ends a self-test.
    pub(crate) fn by_validation(cause: ValidateRefusal) -> TestRefusal
        ensures { result ≡ code.validate_cause cause }
    {
        match cause {
            ValidateRefusal::FetchFailed | ValidateRefusal::Memory => TestRefusal::Memory,
            _ => TestRefusal::Validate(cause),
        }
    }
}
