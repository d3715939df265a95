//! From the words of a validation to its report and the lines of Manifests beside it.
ghost use Rattle.std.specs.Prelude.{◌≡◌, IfOk, encode_utf8_all, option_map};
ghost use Rattle.std.specs.Option.{ForSome};
ghost use Rattle.core_validate.specs.Answers.{HasFewViews};
ghost use Rattle.dsig_fields.specs.Keys.{question_of};
ghost use Rattle.transforms.specs.Asked.{names_asked};
ghost use Rattle.xmldsig.specs.Code.Stops.{Answers, AsksAll, StopCounts};
ghost use Rattle.xmldsig.specs.Validation as spec;

use crate::ending::Validated;
use crate::files::{fetch_catalog, fetch_document, fetch_keys};
use crate::manifest_check::lines_beside;
use crate::stop::Stop;
use bumpalo::Bump;
use core_validate::{Report, validate};
use digests_hmac::KeyTable;
use dsig_fields::Question;
use job_words::Asked;
use sig_base::Text;
use sig_outside::Folder;
use std::alloc::Global;
use uri_refs::Place;
use xml_doc::Doc;
use xml_read::read_document;

/// Validates a signature of a document.
fn validate_rows<F: Folder>(
    alloc: Global,
    doc: &Doc<'_>,
    question: &Question<'_>,
    folder: &mut F,
) -> Result<Report, Stop>
    ensures outcome { ForSome (F.held folder.old) (λ files. Answers result (spec.rows_report doc.now (question_of question.now) files)) }
    ensures held { F.held folder.new ≡ F.held folder.old }
    ensures asked { ForSome (F.held folder.old) (λ files. AsksAll result (names_asked doc.now (question_of question.now) files)
        (F.asked folder.old) (F.asked folder.new)) }
    ensures few { IfOk result HasFewViews }
    ensures cause { StopCounts result (F.faults folder.old) (F.faults folder.new) }
{
    match validate(alloc, doc, question, folder) {
        Ok(report) => Ok(report),
        Err(cause) => Err(Stop::by_signature(cause)),
    }
}

/// Validates a signature of a document, and looks at the Manifests to which it refers where `manifests` asks for that.
fn report_rows<F: Folder>(
    alloc: Global,
    doc: &Doc<'_>,
    question: &Question<'_>,
    manifests: bool,
    folder: &mut F,
) -> Result<Validated, Stop>
    ensures outcome { ForSome (F.held folder.old)
        (λ files. Answers result (spec.rows_outcome manifests doc.now (question_of question.now) files)) }
    ensures asked { ForSome (F.held folder.old) (λ files. AsksAll result (spec.rows_names manifests doc.now (question_of question.now) files)
        (F.asked folder.old) (F.asked folder.new)) }
    ensures few { IfOk result (λ told. HasFewViews told.report) }
    ensures cause { StopCounts result (F.faults folder.old) (F.faults folder.new) }
{
    let report = validate_rows(alloc, doc, question, folder)?;
    let lines = lines_beside(alloc, doc, question, manifests, &report, folder)?;
    Ok(Validated { report, lines })
}

/// Reads a document, and validates a signature of it.
fn validate_document<F: Folder>(
    alloc: Global,
    bytes: &[u8],
    question: &Question<'_>,
    manifests: bool,
    folder: &mut F,
) -> Result<Validated, Stop>
    ensures outcome { ForSome (F.held folder.old)
        (λ files. Answers result (spec.document_outcome manifests bytes.now (question_of question.now) files)) }
    ensures asked { ForSome (F.held folder.old)
        (λ files. AsksAll result (spec.document_names manifests bytes.now (question_of question.now) files)
        (F.asked folder.old) (F.asked folder.new)) }
    ensures few { IfOk result (λ told. HasFewViews told.report) }
    ensures cause { StopCounts result (F.faults folder.old) (F.faults folder.new) }
{
    let bump = Bump::new(alloc);
    match read_document(alloc, &bump, bytes) {
        Ok(doc) => report_rows(alloc, &doc, question, manifests, folder),
        Err(cause) => Err(Stop::by_reader(cause)),
    }
}

/// The octets of the name of a key, where one is given.
pub(crate) fn lend(name: &Option<Text>) -> Option<&str>
    ensures { option_map (λ octets. octets.now) result ≡ option_map encode_utf8_all name.now }
{
    match name {
        Some(name) => Some(name.as_str()),
        None => None,
    }
}

/// Validates behind the document and the keys: fetches the catalog, reads the document, and answers.
fn validate_behind_keys<F: Folder>(
    alloc: Global,
    bytes: &[u8],
    keys: &KeyTable,
    asked: Asked,
    keep_views: bool,
    manifests: bool,
    folder: &mut F,
) -> Result<Validated, Stop>
    ensures outcome { ForSome (F.held folder.old)
        (λ files. Answers result (spec.outcome_behind_keys asked keep_views manifests bytes.now keys.now files)) }
    ensures asked { ForSome (F.held folder.old)
        (λ files. AsksAll result (spec.names_behind_keys asked keep_views manifests bytes.now keys.now files)
        (F.asked folder.old) (F.asked folder.new)) }
    ensures few { IfOk result (λ told. HasFewViews told.report) }
    ensures cause { StopCounts result (F.faults folder.old) (F.faults folder.new) }
{
    let catalog = fetch_catalog(alloc, folder, &asked.catalog)?;
    let place = Place {
        base: asked.base,
        catalog,
    };
    let question = Question {
        index: asked.index,
        key_name: lend(&asked.key),
        keys,
        place: &place,
        keep_views,
    };
    validate_document(alloc, bytes, &question, manifests, folder)
}

/// Validates behind the document: fetches the keys, and so on.
fn validate_behind_document<F: Folder>(
    alloc: Global,
    bytes: &[u8],
    asked: Asked,
    keep_views: bool,
    manifests: bool,
    folder: &mut F,
) -> Result<Validated, Stop>
    ensures outcome { ForSome (F.held folder.old)
        (λ files. Answers result (spec.outcome_behind_document asked keep_views manifests bytes.now files)) }
    ensures asked { ForSome (F.held folder.old)
        (λ files. AsksAll result (spec.names_behind_document asked keep_views manifests bytes.now files)
        (F.asked folder.old) (F.asked folder.new)) }
    ensures few { IfOk result (λ told. HasFewViews told.report) }
    ensures cause { StopCounts result (F.faults folder.old) (F.faults folder.new) }
{
    let keys = fetch_keys(alloc, folder, &asked.keys)?;
    validate_behind_keys(alloc, bytes, &keys, asked, keep_views, manifests, folder)
}

/// Fetches what a validation needs, the document first, then the key file, then the catalog, and validates.
pub(crate) fn find_report<F: Folder>(
    alloc: Global,
    asked: Asked,
    keep_views: bool,
    manifests: bool,
    folder: &mut F,
) -> Result<Validated, Stop>
    ensures outcome { ForSome (F.held folder.old) (λ files. Answers result (spec.validation_outcome asked keep_views manifests files)) }
    ensures asked { ForSome (F.held folder.old) (λ files. AsksAll result (spec.validation_names asked keep_views manifests files)
        (F.asked folder.old) (F.asked folder.new)) }
    ensures few { IfOk result (λ told. HasFewViews told.report) }
    ensures cause { StopCounts result (F.faults folder.old) (F.faults folder.new) }
{
    let file = fetch_document(alloc, folder, &asked.doc)?;
    validate_behind_document(alloc, file.bytes(), asked, keep_views, manifests, folder)
}
