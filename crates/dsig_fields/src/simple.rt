//! Simple content: an element whose children are text.

ghost use Rattle.std.specs.Prelude.{◌≡◌, ◌<◌, ℕ, List, length, IfOk};
ghost use Rattle.std.specs.Borrow.{Bor};
ghost use Rattle.std.specs.String.{string_bytes};
ghost use Rattle.xml_doc.specs.Shape.{row_at};
ghost use Rattle.dsig_base64.specs.Loose.{octets_in};
ghost use Rattle.dsig_fields.specs.Reading.{Gives};
ghost use Rattle.dsig_fields.specs.Simple as spec;

use crate::refusal::FieldRefusal;
use dsig_base64::decode_loose;
use sig_base::{NoMemory, Octets};
use std::alloc::Global;
use xml_doc::{Axis, Doc, Kind};

/// The joined text children of an element. Comments are passed over; another child is refused.
pub(crate) fn simple_text(alloc: Global, doc: &Doc<'_>, x: u32) -> Result<String, FieldRefusal>
    requires { x < length doc.now }
    ensures { Gives string_bytes result (spec.simple_text doc.now x) }
{
    let mut text = String::new(alloc);
    let mut walk = doc.axis(Axis::Child, x);
    while let Some(y) = walk.next() {
        text.push_str(added_by(doc, y)?)?;
    }
    Ok(text)
}

/// What a child adds to simple content.
fn added_by<'a>(doc: &Doc<'a>, y: u32) -> Result<&'a str, FieldRefusal>
    requires { y < length doc.now }
    ensures { Gives (λ (text : Bor (List ℕ)). text.now) result (spec.added_by y (row_at doc.now y).kind (row_at doc.now y).value) }
{
    match doc.kind(y) {
        Kind::Text => Ok(doc.value(y)),
        Kind::Comment => Ok(""),
        _ => Err(FieldRefusal::Extra(y)),
    }
}

/// The octets that the simple content of an element spells in base64 (XML Signature 1.1 §4.3 and §4.4.3.6).
#[tactic(auto, unfolding(crate::specs::Simple::simple_octets))]
pub(crate) fn simple_octets(alloc: Global, doc: &Doc<'_>, x: u32) -> Result<Octets, FieldRefusal>
    requires { x < length doc.now }
    ensures { Gives (λ o. o) result (spec.simple_octets doc.now x) }
{
    let text = simple_text(alloc, doc, x)?;
    match spelled(alloc, text.as_bytes())? {
        Some(octets) => Ok(octets),
        None => Err(FieldRefusal::BadBase64(x)),
    }
}

/// The octets that a text spells in base64; `None` where it isn't base64.
fn spelled(alloc: Global, text: &[u8]) -> Result<Option<Octets>, NoMemory>
    ensures { IfOk result (λ octets. octets ≡ octets_in text.now) }
{
    let mut octets = vec![in alloc; 0u8; 2 * text.len()]?;
    match decode_loose(text, &mut octets) {
        Ok(count) => {
            octets.truncate(count);
            Ok(Some(Octets::from_vec(octets)))
        }
        Err(_) => Ok(None),
    }
}
