//! A template is filled in.
ghost use Rattle.std.specs.Prelude.{◌≡◌, Ok, IfOk};
ghost use Rattle.std.specs.Option.{ForSome};
ghost use Rattle.sig_base.specs.Outcomes as outcomes;
ghost use Rattle.sig_outside.specs.Told.{Held};
ghost use Rattle.xml_read.specs.ReadOutcome.{read_outcome};
ghost use Rattle.dsig_fields.specs.Keys.{question_of};
ghost use Rattle.signer.specs.Answers.{AsksAll, FaultCounts, Gives, HasOwnCause, TellsTemplate};
ghost use Rattle.signer.specs.Asked.{names_asked};
ghost use Rattle.signer.specs.Code.Reading.{IsTemplate, seen_template};
ghost use Rattle.signer.specs.Code.Refusals.{Stops};
ghost use Rattle.signer.specs.Code.Sealing.{seal_of};
ghost use Rattle.signer.specs.Code.Signing as code;
ghost use Rattle.signer.specs.Code.Views.{TellsEach};
ghost use Rattle.signer.specs.Laws.{IsValid};
ghost use Rattle.signer.specs.Outcome.{outcome, outcome_of_rows};
ghost use Rattle.signer.specs.Signed.{unsigned};

use crate::comparing::compare_octets;
use crate::filling::filled;
use crate::reading::{Template, read_template};
use crate::refusal::{SignRefusal, read_cause};
use crate::sealing::{Seal, seal_octets};
use crate::views::views_of;
use bumpalo::Bump;
use dsig_fields::Question;
use sig_base::{Octets, OctetsList};
use sig_outside::Folder;
use std::alloc::Global;
use uri_refs::Place;
use xml_doc::Doc;
use xml_read::read_document;

/// The signature value of a template with these views. The document that is made for it is let go.
fn seal(
    alloc: Global,
    bytes: &[u8],
    doc: &Doc<'_>,
    template: &Template<'_>,
    views: &OctetsList,
) -> Result<Seal, SignRefusal>
    requires template { IsTemplate bytes.now doc.now (seen_template template.now) }
    ensures { outcomes.Gives Stops (λ seal. seal) result
        (seal_of (unsigned bytes.now doc.now template.now.fields views.now) template.now.fields template.now.key.now) }
{
    let one = filled(alloc, bytes, doc, &template.fields, views, &[])?;
    seal_octets(alloc, one.bytes(), &template.fields, template.key)
}

/// Fills a signature value in behind these views, and compares the views.
fn fill_value<F: Folder>(
    alloc: Global,
    bytes: &[u8],
    doc: &Doc<'_>,
    template: &Template<'_>,
    views: &OctetsList,
    seal: &Seal,
    place: &Place,
    folder: &mut F,
) -> Result<Octets, SignRefusal>
    requires template { IsTemplate bytes.now doc.now (seen_template template.now) }
    requires seal { seal_of (unsigned bytes.now doc.now template.now.fields views.now) template.now.fields template.now.key.now ≡ Ok seal.now }
    ensures outcome { (files : Held) → TellsEach place.now template.now.fields.references (F.held folder.old) files
        → Gives (λ octets. octets) result (code.outcome_of_seal bytes.now doc.now (seen_template template.now) place.now files views.now seal.now) }
    ensures causes { HasOwnCause result }
    ensures held { F.held folder.new ≡ F.held folder.old }
    ensures asked { ForSome (F.held folder.old) (λ files. AsksAll result
        (code.names_of_seal bytes.now doc.now (seen_template template.now) place.now files views.now seal.now) (F.asked folder.old)
        (F.asked folder.new)) }
    ensures faults { FaultCounts result (F.faults folder.old) (F.faults folder.new) }
{
    let Ok(made) = filled(
        alloc,
        bytes,
        doc,
        &template.fields,
        views,
        seal.value.bytes(),
    ) else {
        return Err(SignRefusal::Memory);
    };
    match compare_octets(
        alloc,
        made.bytes(),
        seal.fits,
        template.signature,
        views,
        place,
        folder,
    ) {
        Ok(()) => Ok(made),
        Err(cause) => Err(cause),
    }
}

/// Fills in a template with these views.
fn fill_views<F: Folder>(
    alloc: Global,
    bytes: &[u8],
    doc: &Doc<'_>,
    template: &Template<'_>,
    views: &OctetsList,
    place: &Place,
    folder: &mut F,
) -> Result<Octets, SignRefusal>
    requires template { IsTemplate bytes.now doc.now (seen_template template.now) }
    ensures outcome { (files : Held) → TellsEach place.now template.now.fields.references (F.held folder.old) files
        → Gives (λ octets. octets) result (code.outcome_behind bytes.now doc.now (seen_template template.now) place.now files views.now) }
    ensures causes { HasOwnCause result }
    ensures held { F.held folder.new ≡ F.held folder.old }
    ensures asked { ForSome (F.held folder.old) (λ files. AsksAll result
        (code.names_behind_views bytes.now doc.now (seen_template template.now) place.now files views.now) (F.asked folder.old)
        (F.asked folder.new)) }
    ensures faults { FaultCounts result (F.faults folder.old) (F.faults folder.new) }
{
    match seal(alloc, bytes, doc, template, views) {
        Ok(seal) => fill_value(alloc, bytes, doc, template, views, &seal, place, folder),
        Err(cause) => Err(cause),
    }
}

/// Fills in a template.
fn fill_template<F: Folder>(
    alloc: Global,
    bytes: &[u8],
    doc: &Doc<'_>,
    template: &Template<'_>,
    place: &Place,
    folder: &mut F,
) -> Result<Octets, SignRefusal>
    requires template { IsTemplate bytes.now doc.now (seen_template template.now) }
    ensures outcome { (files : Held) → TellsEach place.now template.now.fields.references (F.held folder.old) files
        → Gives (λ octets. octets) result (code.template_outcome bytes.now doc.now (seen_template template.now) place.now files) }
    ensures causes { HasOwnCause result }
    ensures held { F.held folder.new ≡ F.held folder.old }
    ensures asked { ForSome (F.held folder.old) (λ files. AsksAll result
        (code.names_of_template bytes.now doc.now (seen_template template.now) place.now files) (F.asked folder.old) (F.asked folder.new)) }
    ensures faults { FaultCounts result (F.faults folder.old) (F.faults folder.new) }
{
    let references = &template.fields.references;
    match views_of(alloc, doc, template.signature, references, place, folder) {
        Ok(views) => fill_views(alloc, bytes, doc, template, &views, place, folder),
        Err(cause) => Err(cause),
    }
}

/// Signs the template of a document that is read.
fn fill_document<F: Folder>(
    alloc: Global,
    bytes: &[u8],
    doc: &Doc<'_>,
    question: &Question<'_>,
    folder: &mut F,
) -> Result<Octets, SignRefusal>
    requires read { read_outcome bytes.now ≡ Ok doc.now }
    ensures outcome { (files : Held) → code.TellsRows doc.now (question_of question.now) (F.held folder.old) files
        → Gives (λ octets. octets) result (outcome_of_rows bytes.now doc.now (question_of question.now) files) }
    ensures causes { HasOwnCause result }
    ensures held { F.held folder.new ≡ F.held folder.old }
    ensures asked { ForSome (F.held folder.old) (λ files. AsksAll result
        (code.names_of_rows bytes.now doc.now (question_of question.now) files) (F.asked folder.old) (F.asked folder.new)) }
    ensures faults { FaultCounts result (F.faults folder.old) (F.faults folder.new) }
{
    match read_template(alloc, doc, question) {
        Ok(template) => fill_template(alloc, bytes, doc, &template, question.place, folder),
        Err(cause) => Err(cause),
    }
}

/// Signs a template (XML Signature 1.1 §3.1): the one of the question's number, under the key that the question or the template
/// names. The digests of its views are written over its DigestValues, and the HMAC of the canonical SignedInfo of that document
/// over its SignatureValue; all other octets stay, but that an empty-element tag is opened.
///
/// The first refusal in the order of [`SignRefusal`] is the answer. What is signed is valid, with the views of the template. The
/// folder is asked for the files of the References in order, and again where the views of the signed document are compared.
pub fn fill<F: Folder>(
    alloc: Global,
    bytes: &[u8],
    question: &Question<'_>,
    folder: &mut F,
) -> Result<Octets, SignRefusal>
    ensures outcome { (files : Held) → TellsTemplate bytes.now (question_of question.now) (F.held folder.old) files
        → Gives (λ octets. octets) result (outcome bytes.now (question_of question.now) files) }
    ensures valid { (files : Held) → TellsTemplate bytes.now (question_of question.now) (F.held folder.old) files
        → IfOk result (IsValid bytes.now (question_of question.now) files) }
    ensures causes { HasOwnCause result }
    ensures held { F.held folder.new ≡ F.held folder.old }
    ensures asked { ForSome (F.held folder.old) (λ files. AsksAll result (names_asked bytes.now (question_of question.now) files)
        (F.asked folder.old) (F.asked folder.new)) }
    ensures faults { FaultCounts result (F.faults folder.old) (F.faults folder.new) }
{
    let bump = Bump::new(alloc);
    match read_document(alloc, &bump, bytes) {
        Ok(doc) => fill_document(alloc, bytes, &doc, question, folder),
        Err(cause) => Err(read_cause(cause)),
    }
}
