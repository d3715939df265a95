//! A document is signed, and what is signed is validated.
ghost use Rattle.std.specs.Prelude.{◌≡◌, ◌≤◌, IfOk, string_bytes, sum};
ghost use Rattle.sig_outside.specs.Told.{no_files};
ghost use Rattle.transforms.specs.Outcome.{total_limit};
ghost use Rattle.dsig_fields.specs.Keys.{question_of};
ghost use Rattle.signer.specs.Laws.{IsValid};
ghost use Rattle.self_test.specs.Code.Causes as code;
ghost use Rattle.self_test.specs.Outcome as spec;
ghost use Rattle.self_test.specs.Question as asked;

use crate::document::{document, reference_count};
use crate::question::{ask, keys, place};
use crate::refusal::TestRefusal;
use bumpalo::Bump;
use core_validate::{Report, validate};
use dsig_fields::Question;
use sig_base::{NoMemory, Numbers, Octets};
use sig_outside::MemFolder;
use signer::fill;
use std::alloc::Global;
use xml_doc::Doc;
use xml_read::read_document;

/// Signs a template over an empty folder.
fn signed(alloc: Global, template: &[u8], question: &Question<'_>) -> Result<Octets, TestRefusal>
    requires { question_of question.now ≡ asked.question }
    ensures outcome { spec.Gives (λ octets. octets) result (spec.signed template.now) }
    ensures valid { IfOk result (IsValid template.now asked.question no_files) }
{
    let mut folder = MemFolder::new(alloc);
    match fill(alloc, template, question, &mut folder) {
        Ok(octets) => Ok(octets),
        Err(cause) => Err(TestRefusal::by_signing(cause)),
    }
}

/// Validates a document over an empty folder.
fn rows_validated(
    alloc: Global,
    doc: &Doc<'_>,
    question: &Question<'_>,
) -> Result<Report, TestRefusal>
    requires { question_of question.now ≡ asked.question }
    ensures outcome { spec.Gives (λ report. report) result (spec.rows_validated doc.now) }
    ensures few { IfOk result code.HasFewOctets }
{
    let mut folder = MemFolder::new(alloc);
    match validate(alloc, doc, question, &mut folder) {
        Ok(report) => Ok(report),
        Err(cause) => Err(TestRefusal::by_validation(cause)),
    }
}

/// Reads a document, and validates it.
fn validated(alloc: Global, made: &[u8], question: &Question<'_>) -> Result<Report, TestRefusal>
    requires { question_of question.now ≡ asked.question }
    ensures outcome { spec.Gives (λ report. report) result (spec.validated made.now) }
    ensures few { IfOk result code.HasFewOctets }
{
    let bump = Bump::new(alloc);
    match read_document(alloc, &bump, made) {
        Ok(doc) => rows_validated(alloc, &doc, question),
        Err(cause) => Err(TestRefusal::by_reader(cause)),
    }
}

/// The sum of the lengths of views.
fn total(lengths: &Numbers) -> u64
    requires { sum lengths.now ≤ total_limit }
    ensures { result ≡ sum lengths.now }
{
    let mut total = 0;
    for length in lengths.as_slice() {
        total += *length;
    }
    total
}

/// The line of a document that is valid.
fn line(alloc: Global, paragraphs: u32, octets: u64, bytes: u64) -> Result<String, NoMemory>
    ensures { IfOk result (λ line. string_bytes line ≡ spec.line paragraphs octets bytes) }
{
    let references = reference_count(paragraphs);
    Ok(format!(in alloc;
        "selftest {} references {} octets {} bytes {} valid\n",
        paragraphs, references, octets, bytes
    )?)
}

/// The line of a document with this report. What is signed is always valid.
fn line_of(alloc: Global, paragraphs: u32, made: &[u8], report: &Report) -> Result<Octets, NoMemory>
    requires { code.HasFewOctets report.now }
    ensures { IfOk result (λ line. line ≡ spec.line_of paragraphs made.now report.now) }
{
    let text = match report {
        Report::Valid(views) => {
            let octets = total(&views.lengths);
            line(alloc, paragraphs, octets, made.len() as u64)?
        }
        Report::SignatureDiffers | Report::ShortTruncation(_) | Report::DigestsDiffer(_) => {
            String::new(alloc)
        }
    };
    Ok(Octets::from_vec(text.into_bytes()))
}

/// Validates what is signed, and tells what it came to.
fn told(
    alloc: Global,
    paragraphs: u32,
    made: &[u8],
    question: &Question<'_>,
) -> Result<Octets, TestRefusal>
    requires { question_of question.now ≡ asked.question }
    ensures { spec.Gives (λ line. line) result (spec.told paragraphs made.now) }
{
    let report = validated(alloc, made, question)?;
    Ok(line_of(alloc, paragraphs, made, &report)?)
}

/// Makes the document of so many paragraphs, signs it, validates what is signed, and answers a line that says so: with the number of
/// paragraphs, that of References, the octets of their views, and the bytes of the signed document.
///
/// The first refusal in the order of [`TestRefusal`] is the answer. A line comes only of what is valid.
pub fn self_test(alloc: Global, paragraphs: u32) -> Result<Octets, TestRefusal>
    ensures outcome { spec.Gives (λ line. line) result (spec.test_outcome paragraphs) }
    ensures valid { IfOk result (spec.IsLine paragraphs) }
{
    let keys = keys(alloc)?;
    let place = place(alloc)?;
    let question = ask(&keys, &place);
    let template = document(alloc, paragraphs)?;
    let made = signed(alloc, template.as_bytes(), &question)?;
    told(alloc, paragraphs, made.bytes(), &question)
}
