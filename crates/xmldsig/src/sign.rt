//! From the words of `sign` to the template filled in.
ghost use Rattle.std.specs.Prelude.{◌≡◌};
ghost use Rattle.std.specs.Option.{ForSome};
ghost use Rattle.dsig_fields.specs.Keys.{question_of};
ghost use Rattle.signer.specs.Asked.{names_asked};
ghost use Rattle.xmldsig.specs.Code.Stops.{Answers, AsksAll, StopCounts};
ghost use Rattle.xmldsig.specs.Sign as spec;

use crate::files::{fetch_catalog, fetch_document, fetch_keys};
use crate::stop::Stop;
use crate::validation::lend;
use digests_hmac::KeyTable;
use dsig_fields::Question;
use job_words::Asked;
use sig_base::Octets;
use sig_outside::Folder;
use signer::fill;
use std::alloc::Global;
use uri_refs::Place;

/// Fills in a template of a document.
fn sign_document<F: Folder>(
    alloc: Global,
    bytes: &[u8],
    question: &Question<'_>,
    folder: &mut F,
) -> Result<Octets, Stop>
    ensures outcome { ForSome (F.held folder.old)
        (λ files. Answers result (spec.document_outcome bytes.now (question_of question.now) files)) }
    ensures asked { ForSome (F.held folder.old) (λ files. AsksAll result (names_asked bytes.now (question_of question.now) files)
        (F.asked folder.old) (F.asked folder.new)) }
    ensures cause { StopCounts result (F.faults folder.old) (F.faults folder.new) }
{
    match fill(alloc, bytes, question, folder) {
        Ok(octets) => Ok(octets),
        Err(cause) => Err(Stop::by_signing(cause)),
    }
}

/// Signs behind the document and the keys: fetches the catalog, and fills in the template.
fn sign_behind_keys<F: Folder>(
    alloc: Global,
    bytes: &[u8],
    keys: &KeyTable,
    asked: Asked,
    folder: &mut F,
) -> Result<Octets, Stop>
    ensures outcome { ForSome (F.held folder.old)
        (λ files. Answers result (spec.outcome_behind_keys asked bytes.now keys.now files)) }
    ensures asked { ForSome (F.held folder.old) (λ files. AsksAll result (spec.names_behind_keys asked bytes.now keys.now files)
        (F.asked folder.old) (F.asked folder.new)) }
    ensures cause { StopCounts result (F.faults folder.old) (F.faults folder.new) }
{
    let catalog = fetch_catalog(alloc, folder, &asked.catalog)?;
    let place = Place {
        base: asked.base,
        catalog,
    };
    let question = Question {
        index: asked.index,
        key_name: lend(&asked.key),
        keys,
        place: &place,
        keep_views: false,
    };
    sign_document(alloc, bytes, &question, folder)
}

/// Signs behind the document: fetches the keys, and so on.
fn sign_behind_document<F: Folder>(
    alloc: Global,
    bytes: &[u8],
    asked: Asked,
    folder: &mut F,
) -> Result<Octets, Stop>
    ensures outcome { ForSome (F.held folder.old) (λ files. Answers result (spec.outcome_behind_document asked bytes.now files)) }
    ensures asked { ForSome (F.held folder.old) (λ files. AsksAll result (spec.names_behind_document asked bytes.now files)
        (F.asked folder.old) (F.asked folder.new)) }
    ensures cause { StopCounts result (F.faults folder.old) (F.faults folder.new) }
{
    let keys = fetch_keys(alloc, folder, &asked.keys)?;
    sign_behind_keys(alloc, bytes, &keys, asked, folder)
}

/// Fetches what a validation needs too, the document first, then the key file, then the catalog, and fills in the template.
pub(crate) fn make_signed<F: Folder>(
    alloc: Global,
    asked: Asked,
    folder: &mut F,
) -> Result<Octets, Stop>
    ensures outcome { ForSome (F.held folder.old) (λ files. Answers result (spec.signing_outcome asked files)) }
    ensures asked { ForSome (F.held folder.old) (λ files. AsksAll result (spec.signing_names asked files)
        (F.asked folder.old) (F.asked folder.new)) }
    ensures cause { StopCounts result (F.faults folder.old) (F.faults folder.new) }
{
    let file = fetch_document(alloc, folder, &asked.doc)?;
    sign_behind_document(alloc, file.bytes(), asked, folder)
}
