//! The lines of Manifests beside a report.
ghost use Rattle.std.specs.Prelude.{◌≡◌, IfOk, IfSome, Ok};
ghost use Rattle.std.specs.Option.{ForSome};
ghost use Rattle.dsig_fields.specs.Fits.{FieldsFit};
ghost use Rattle.dsig_fields.specs.Keys.{question_of};
ghost use Rattle.manifests.specs.Manifests.{manifest_lines, names_asked};
ghost use Rattle.xmldsig.specs.Code.Stops.{Answers, AsksAll, StopCounts};
ghost use Rattle.xmldsig.specs.Manifests as spec;

use crate::stop::Stop;
use core_validate::Report;
use dsig_fields::{FieldRefusal, Fields, Question, nth_signature, read_fields};
use manifests::{ManifestLines, check_manifests};
use sig_base::{Members, NoMemory};
use sig_outside::Folder;
use std::alloc::Global;
use uri_refs::Place;
use xml_doc::Doc;

/// The fields of the signature of this number, if it is there and they can be read. Those of one with a report can.
fn fields_at(alloc: Global, doc: &Doc<'_>, index: u32) -> Result<Option<Fields>, NoMemory>
    ensures fields { IfOk result (λ fields. fields ≡ spec.fields_at doc.now index) }
    ensures fit { IfOk result (λ fields. IfSome fields (FieldsFit doc.now)) }
{
    let Some(signature) = nth_signature(doc, index) else {
        return Ok(None);
    };
    match read_fields(alloc, doc, signature) {
        Ok(fields) => Ok(Some(fields)),
        Err(FieldRefusal::Memory) => Err(NoMemory),
        Err(_) => Ok(None),
    }
}

/// The lines of the Manifests to which these fields refer.
fn lines_by<F: Folder>(
    alloc: Global,
    doc: &Doc<'_>,
    fields: &Fields,
    place: &Place,
    folder: &mut F,
) -> Result<ManifestLines, Stop>
    requires { FieldsFit doc.now fields.now }
    ensures lines { ForSome (F.held folder.old) (λ files. Answers result (Ok (manifest_lines doc.now fields.now place.now files))) }
    ensures asked { ForSome (F.held folder.old) (λ files. AsksAll result (names_asked doc.now fields.now place.now)
        (F.asked folder.old) (F.asked folder.new)) }
    ensures cause { StopCounts result (F.faults folder.old) (F.faults folder.new) }
{
    match check_manifests(alloc, doc, fields, place, folder) {
        Ok(lines) => Ok(lines),
        Err(stop) => Err(Stop::by_manifests(stop)),
    }
}

/// The lines of the Manifests to which the signature of the question refers.
fn lines_of<F: Folder>(
    alloc: Global,
    doc: &Doc<'_>,
    question: &Question<'_>,
    folder: &mut F,
) -> Result<ManifestLines, Stop>
    ensures lines { ForSome (F.held folder.old)
        (λ files. Answers result (Ok (spec.lines_of doc.now (question_of question.now) files))) }
    ensures asked { ForSome (F.held folder.old) (λ files. AsksAll result (spec.names_of doc.now (question_of question.now))
        (F.asked folder.old) (F.asked folder.new)) }
    ensures cause { StopCounts result (F.faults folder.old) (F.faults folder.new) }
{
    match fields_at(alloc, doc, question.index)? {
        Some(fields) => lines_by(alloc, doc, &fields, question.place, folder),
        None => Ok(Members::new(alloc)),
    }
}

/// Whether the lines are told beside this report: where they are asked for, and it is valid.
fn are_told(manifests: bool, report: &Report) -> bool
    ensures { result ≡ spec.are_told manifests report.now }
{
    match report {
        Report::Valid(_) => manifests,
        Report::SignatureDiffers | Report::ShortTruncation(_) => false,
        Report::DigestsDiffer(_) => false,
    }
}

/// The lines that are told beside a report of the signature of the question.
pub(crate) fn lines_beside<F: Folder>(
    alloc: Global,
    doc: &Doc<'_>,
    question: &Question<'_>,
    manifests: bool,
    report: &Report,
    folder: &mut F,
) -> Result<ManifestLines, Stop>
    ensures lines { ForSome (F.held folder.old)
        (λ files. Answers result (Ok (spec.lines_beside manifests doc.now (question_of question.now) files report.now))) }
    ensures asked { ForSome (F.held folder.old)
        (λ files. AsksAll result (spec.names_beside manifests doc.now (question_of question.now) report.now)
        (F.asked folder.old) (F.asked folder.new)) }
    ensures cause { StopCounts result (F.faults folder.old) (F.faults folder.new) }
{
    if are_told(manifests, report) {
        lines_of(alloc, doc, question, folder)
    } else {
        Ok(Members::new(alloc))
    }
}
