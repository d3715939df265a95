//! Why a job stops before it has an answer.
ghost use Rattle.std.specs.Prelude.{◌≡◌};
ghost use Rattle.xmldsig.specs.Sign.{sign_cause};
ghost use Rattle.xmldsig.specs.Stops as spec;

use crate::ending::Refusal;
use core_validate::ValidateRefusal;
use digests_hmac::KeyFault;
use manifests::ManifestStop;
use self_test::TestRefusal;
use sig_base::NoMemory;
use signer::{SignRefusal, TemplateRefusal};
use uri_refs::CatalogFault;
use xml_read::ReadRefusal;
use xpath_eval::EvalRefusal;
use xpath_syntax::SyntaxRefusal;

/// Why a template isn't signed: one that can't be read is a document that can't be read.
fn signing_refusal(cause: SignRefusal) -> Refusal
    ensures { result ≡ sign_cause cause }
{
    match cause {
        SignRefusal::Read(cause) => Refusal::Read(cause),
        _ => Refusal::Sign(cause),
    }
}

/// Why there is no answer.
#[derive(Clone, Copy, Debug, PartialEq, Eq)]
pub(crate) enum Stop {
    /// The job is refused.
    Refused(Refusal),
    /// The folder failed.
    ReadFault,
    /// Memory that was asked for was not given.
    Memory,
}

impl From<NoMemory> for Stop {
    ghost use Rattle.std.specs.Prelude.{◌≡◌};
    ghost use Rattle.xmldsig.specs.declared.stop.Stop.TheVariants.{Memory};

    ghost from_gives = { λ _ stop. stop ≡ Memory };

    fn from(_: NoMemory) -> Stop {
        Stop::Memory
    }
}

impl Stop {
    /// Why a key file stops a job.
    pub(crate) fn by_keys(fault: KeyFault) -> Stop
        ensures { result ≡ spec.keys_stop fault }
    {
        match fault {
            KeyFault::Memory => Stop::Memory,
            _ => Stop::Refused(Refusal::Keys(fault)),
        }
    }

    /// Why a catalog stops a job.
    pub(crate) fn by_catalog(fault: CatalogFault) -> Stop
        ensures { result ≡ spec.catalog_stop fault }
    {
        match fault {
            CatalogFault::Memory => Stop::Memory,
            _ => Stop::Refused(Refusal::Catalog(fault)),
        }
    }

    /// Why the bytes of a document stop a job.
    pub(crate) fn by_reader(cause: ReadRefusal) -> Stop
        ensures { result ≡ spec.read_stop cause }
    {
        match cause {
            ReadRefusal::Memory => Stop::Memory,
            _ => Stop::Refused(Refusal::Read(cause)),
        }
    }

    /// Why an expression that can't be read stops a job.
    pub(crate) fn by_syntax(cause: SyntaxRefusal) -> Stop
        ensures { result ≡ spec.syntax_stop cause }
    {
        match cause {
            SyntaxRefusal::Memory => Stop::Memory,
            _ => Stop::Refused(Refusal::Syntax(cause)),
        }
    }

    /// Why an expression that can't be evaluated stops a job.
    pub(crate) fn by_evaluation(cause: EvalRefusal) -> Stop
        ensures { result ≡ spec.eval_stop cause }
    {
        match cause {
            EvalRefusal::Memory => Stop::Memory,
            _ => Stop::Refused(Refusal::Eval(cause)),
        }
    }

    /// Why a signature stops a job.
    pub(crate) fn by_signature(cause: ValidateRefusal) -> Stop
        ensures { result ≡ spec.validate_stop cause }
    {
        match cause {
            ValidateRefusal::FetchFailed => Stop::ReadFault,
            ValidateRefusal::Memory => Stop::Memory,
            _ => Stop::Refused(Refusal::Validate(cause)),
        }
    }

    /// Why Manifests without lines stop a job.
    pub(crate) fn by_manifests(stop: ManifestStop) -> Stop
        ensures { result ≡ spec.manifest_stop stop }
    {
        match stop {
            ManifestStop::FetchFailed => Stop::ReadFault,
            ManifestStop::Memory => Stop::Memory,
        }
    }

    /// Why a template that isn't signed stops a job.
    pub(crate) fn by_signing(cause: SignRefusal) -> Stop
        ensures { result ≡ spec.sign_stop cause }
    {
        match cause {
            SignRefusal::FetchFailed => Stop::ReadFault,
            SignRefusal::Memory => Stop::Memory,
            _ => Stop::Refused(signing_refusal(cause)),
        }
    }

    /// Why a document that gets no template stops a job.
    pub(crate) fn by_template(cause: TemplateRefusal) -> Stop
        ensures { result ≡ spec.template_stop cause }
    {
        match cause {
            TemplateRefusal::Memory => Stop::Memory,
            TemplateRefusal::Read(cause) => Stop::Refused(Refusal::Read(cause)),
        }
    }
    /// Why a self-test that has no line stops a job.
    pub(crate) fn by_self_test(cause: TestRefusal) -> Stop
        ensures { result ≡ spec.test_stop cause }
    {
        match cause {
            TestRefusal::Sign(cause) => Stop::Refused(signing_refusal(cause)),
            TestRefusal::Read(cause) => Stop::Refused(Refusal::Read(cause)),
            TestRefusal::Validate(cause) => Stop::Refused(Refusal::Validate(cause)),
            TestRefusal::Memory => Stop::Memory,
        }
    }
}
