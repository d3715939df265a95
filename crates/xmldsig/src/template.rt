//! From the words of `template` to the document with a template in it.
ghost use Rattle.std.specs.Prelude.{◌≡◌, ◌≢◌, ◌∷◌, [], Err, encode_utf8_all};
ghost use Rattle.std.specs.Option.{ForSome};
ghost use Rattle.xmldsig.specs.Code.Stops.{Answers, AsksAll, StopCounts};
ghost use Rattle.xmldsig.specs.Template as spec;

use crate::files::fetch_document;
use crate::stop::Stop;
use sig_base::{Octets, Text};
use sig_outside::Folder;
use signer::{TemplateOptions, insert_template};
use std::alloc::Global;

/// Puts the template into a document.
fn with_template(alloc: Global, bytes: &[u8], options: &TemplateOptions) -> Result<Octets, Stop>
    ensures outcome { Answers result (spec.document_outcome options.now bytes.now) }
    ensures no_fault { result ≢ Err Stop.ReadFault }
{
    match insert_template(alloc, bytes, options) {
        Ok(octets) => Ok(octets),
        Err(cause) => Err(Stop::by_template(cause)),
    }
}

/// Fetches a document, and puts the template into it.
pub(crate) fn make_template<F: Folder>(
    alloc: Global,
    doc: &Text,
    options: &TemplateOptions,
    folder: &mut F,
) -> Result<Octets, Stop>
    ensures outcome { ForSome (F.held folder.old) (λ files. Answers result (spec.template_outcome doc.now options.now files)) }
    ensures asked { ForSome (F.held folder.old) (λ files. AsksAll result (encode_utf8_all doc.now ∷ []) (F.asked folder.old)
        (F.asked folder.new)) }
    ensures cause { StopCounts result (F.faults folder.old) (F.faults folder.new) }
{
    let file = fetch_document(alloc, folder, doc)?;
    with_template(alloc, file.bytes(), options)
}
