//! What a template is to say, and why it isn't put into a document.

ghost use Rattle.std.specs.Prelude.{◌≡◌};
ghost use Rattle.signer.specs.Code.Refusals as code;

use sig_base::{DigestMethod, MacMethod, NoMemory, Text};
use xml_read::ReadRefusal;

/// What the template of a signature says.
#[derive(Drop)]
pub struct TemplateOptions {
    /// Its SignatureMethod.
    pub mac: MacMethod,
    /// The DigestMethod of its Reference.
    pub digest: DigestMethod,
    /// The name of the key, which its KeyName says.
    pub key_name: Option<Text>,
}

/// Why a template isn't put into a document.
#[derive(Clone, Copy, Debug, PartialEq, Eq, Drop)]
pub enum TemplateRefusal {
    /// The document can't be read.
    Read(ReadRefusal),
    /// Memory that was asked for was not given.
    Memory,
}

impl From<NoMemory> for TemplateRefusal {
    ghost use Rattle.std.specs.Prelude.{◌≡◌};
    ghost use Rattle.signer.specs.declared.template.TemplateRefusal.TheVariants.{Memory};

    ghost from_gives = { λ _ refusal. refusal ≡ Memory };

    fn from(_: NoMemory) -> TemplateRefusal {
        TemplateRefusal::Memory
    }
}

/// Why a template isn't put into a document that can't be read.
pub(crate) fn read_cause(cause: ReadRefusal) -> TemplateRefusal
    ensures { result ≡ code.template_cause cause }
{
    match cause {
        ReadRefusal::Memory => TemplateRefusal::Memory,
        _ => TemplateRefusal::Read(cause),
    }
}
