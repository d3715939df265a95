//! Core validation: the signature first, then its References.

ghost use Rattle.std.specs.Prelude.{◌≡◌, ℕ, List, IfOk};
ghost use Rattle.std.specs.Option.{ForSome};
ghost use Rattle.sig_base.specs.Outcomes as outcomes;
ghost use Rattle.sig_outside.specs.Told.{Held};
ghost use Rattle.xml_read.specs.Spelled.{Spells};
ghost use Rattle.dsig_fields.specs.Keys.{question_of};
ghost use Rattle.transforms.specs.Asked.{names_asked};
ghost use Rattle.transforms.specs.Outcome.{outcome};
ghost use Rattle.core_validate.specs.Answers.{AsksAll, FaultCounts, Gives, HasFewViews, HasOwnCause, Stops, TellsAll};
ghost use Rattle.core_validate.specs.Reached.{Reached};
ghost use Rattle.core_validate.specs.Verdict.{IsValidated};
ghost use Rattle.core_validate.specs.Code.Signature as code;

use crate::progress::validate_references;
use crate::signature::signature_failure;
use dsig_fields::{Fields, Question, choose_key, nth_signature, read_fields};
use sig_outside::Folder;
use std::alloc::Global;
use transforms::{Report, ValidateRefusal};
use xml_doc::Doc;

/// What validation of the signature alone comes to.
#[derive(Drop)]
enum SignatureCheck {
    /// It holds.
    Holds {
        /// The row of the Signature element.
        signature: u32,
        /// What was read of it.
        fields: Fields,
    },
    /// It fails, and this is the report.
    Fails(Report),
}

/// Validates the signature of the question's number, under the key that the question or the signature names.
fn check_signature(
    alloc: Global,
    doc: &Doc<'_>,
    question: &Question<'_>,
) -> Result<SignatureCheck, ValidateRefusal>
    ensures check { outcomes.Gives Stops (λ c. c) result (code.signature_check doc.now (question_of question.now)) }
    ensures fit { IfOk result (code.CheckFits doc.now) }
{
    let Some(signature) = nth_signature(doc, question.index) else {
        return Err(ValidateRefusal::NoSignature);
    };
    let fields = read_fields(alloc, doc, signature)?;
    let key = choose_key(&fields, question)?;
    match signature_failure(alloc, doc, &fields, key.bytes())? {
        Some(failure) => Ok(SignatureCheck::Fails(failure)),
        None => Ok(SignatureCheck::Holds { signature, fields }),
    }
}

/// Validates a signature of the document (XML Signature 1.1 §3.2): the one of the question's number, under the key that the
/// question or the signature names.
///
/// The first refusal in the order of [`ValidateRefusal`] is the answer. The report is made of the one SignedInfo that was
/// authenticated, and its views are the octets whose digests were compared. The folder is asked for the files of the
/// References, each once and in order, and only where the signature holds.
///
/// Of a document that octets spell, the report is determined by the octets that were signed, the SignatureValue, the key and the
/// views: nothing else of the document counts.
pub fn validate<F: Folder>(
    alloc: Global,
    doc: &Doc<'_>,
    question: &Question<'_>,
    folder: &mut F,
) -> Result<Report, ValidateRefusal>
    ensures outcome { (files : Held) → TellsAll doc.now (question_of question.now) (F.held folder.old) files
        → Gives (λ r. r) result (outcome doc.now (question_of question.now) files) }
    ensures agreed { (octets : List ℕ) (files : Held) → Spells octets doc.now
        → TellsAll doc.now (question_of question.now) (F.held folder.old) files
        → IfOk result (IsValidated doc.now (question_of question.now) files) }
    ensures reached { Reached doc.now (question_of question.now) result }
    ensures few { IfOk result HasFewViews }
    ensures causes { HasOwnCause result }
    ensures held { F.held folder.new ≡ F.held folder.old }
    ensures asked { ForSome (F.held folder.old) (λ files. AsksAll result (names_asked doc.now (question_of question.now) files)
        (F.asked folder.old) (F.asked folder.new)) }
    ensures faults { FaultCounts result (F.faults folder.old) (F.faults folder.new) }
{
    match check_signature(alloc, doc, question)? {
        SignatureCheck::Fails(failure) => Ok(failure),
        SignatureCheck::Holds { signature, fields } => validate_references(
            alloc,
            doc,
            signature,
            &fields.references,
            question.place,
            question.keep_views,
            folder,
        ),
    }
}
