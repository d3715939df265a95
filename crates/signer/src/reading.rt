//! What is read of a template before the folder is asked for anything: the Signature, its fields and its key, and whether it can be
//! filled in.

ghost use Rattle.std.specs.Prelude.{◌≡◌, ◌<◌, not, length, map, IfOk, true};
ghost use Rattle.std.specs.List.{find};
ghost use Rattle.sig_base.specs.Outcomes.{Gives};
ghost use Rattle.xml_doc.specs.Kinds.{is_text};
ghost use Rattle.xml_doc.specs.Shape.{row_at};
ghost use Rattle.dsig_fields.specs.Fits.{FieldsFit};
ghost use Rattle.dsig_fields.specs.Keys.{question_of};
ghost use Rattle.dsig_fields.specs.declared.fields.Reference.{Reference};
ghost use Rattle.signer.specs.Code.Reading as code;
ghost use Rattle.signer.specs.Code.Refusals.{Stops};
ghost use Rattle.signer.specs.Outcome as spec;

use crate::refusal::SignRefusal;
use dsig_fields::{
    Fields, Question, choose_key, is_long_enough, nth_signature, read_fields, value_bits,
};
use std::alloc::Global;
use xml_doc::{Axis, Doc, Kind};

/// What is read of a template.
#[derive(Drop)]
pub(crate) struct Template<'q> {
    /// The row of the Signature element.
    pub(crate) signature: u32,
    /// What was read of it.
    pub(crate) fields: Fields,
    /// The octets of the key.
    pub(crate) key: &'q [u8],
}

/// Whether a row is a text.
fn is_text_at(doc: &Doc<'_>, y: u32) -> bool
    requires { y < length doc.now }
    ensures { result ≡ is_text (row_at doc.now y).kind }
{
    matches!(doc.kind(y), Kind::Text)
}

/// Whether each child of an element is a text.
fn has_texts(doc: &Doc<'_>, x: u32) -> bool
    requires { x < length doc.now }
    ensures { result ≡ spec.has_texts doc.now x }
{
    let mut walk = doc.axis(Axis::Child, x);
    while let Some(y) = walk.next() {
        if !is_text_at(doc, y) {
            return false;
        }
    }
    true
}

/// The first DigestValue that has another child than texts.
fn digest_without_text(doc: &Doc<'_>, fields: &Fields) -> Option<u32>
    requires { FieldsFit doc.now fields.now }
    ensures { result ≡ find (λ x. not (spec.has_texts doc.now x)) (map (λ (r : Reference). r.digest_row) fields.now.references) }
{
    let mut k = 0;
    while let Some(reference) = fields.references.get(k) {
        if !has_texts(doc, reference.digest_row) {
            return Some(reference.digest_row);
        }
        k += 1;
    }
    None
}

/// The first element that is to be filled in and has another child than texts.
fn not_text(doc: &Doc<'_>, fields: &Fields) -> Option<u32>
    requires { FieldsFit doc.now fields.now }
    ensures { result ≡ spec.not_text doc.now fields.now }
{
    match digest_without_text(doc, fields) {
        Some(row) => Some(row),
        None => {
            if has_texts(doc, fields.value_row) {
                None
            } else {
                Some(fields.value_row)
            }
        }
    }
}

/// Whether a template with these fields can be signed: its HMAC has enough bits, and texts alone stand where something is
/// filled in.
#[tactic(auto, unfolding(crate::specs::Code::Reading::can_be_signed))]
fn can_be_signed(doc: &Doc<'_>, fields: &Fields) -> Result<(), SignRefusal>
    requires { FieldsFit doc.now fields.now }
    ensures { Gives Stops (λ done. done) result (code.can_be_signed doc.now fields.now) }
{
    let bits = value_bits(fields.mac, fields.bits);
    if !is_long_enough(fields.mac, bits) {
        return Err(SignRefusal::ShortTruncation(bits));
    }
    match not_text(doc, fields) {
        Some(row) => Err(SignRefusal::NotText(row)),
        None => Ok(()),
    }
}

/// Reads the template of the question's number, under the key that the question or the template names.
pub(crate) fn read_template<'q>(
    alloc: Global,
    doc: &Doc<'_>,
    question: &Question<'q>,
) -> Result<Template<'q>, SignRefusal>
    ensures template { Gives Stops code.seen_template result (code.template_of doc.now (question_of question.now)) }
    ensures fit { IfOk result (code.Fits doc.now) }
{
    let Some(signature) = nth_signature(doc, question.index) else {
        return Err(SignRefusal::NoSignature);
    };
    let fields = read_fields(alloc, doc, signature)?;
    let key = choose_key(&fields, question)?;
    can_be_signed(doc, &fields)?;
    Ok(Template {
        signature,
        fields,
        key: key.bytes(),
    })
}
