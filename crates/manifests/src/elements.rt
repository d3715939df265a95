//! The elements to which References to Manifests lead, and those around them.

ghost use Rattle.std.specs.Prelude.{◌≡◌, ◌<◌, length, IfOk, IfSome, encode_utf8_all};
ghost use Rattle.xml_doc.specs.Ids.{answer_of, bearers};
ghost use Rattle.transforms.specs.Views.{target_in};
ghost use Rattle.manifests.specs.Elements as spec;

use dsig_fields::{ElementName, Reference};
use sig_base::{NoMemory, Text};
use std::alloc::Global;
use uri_refs::{Place, Target, UriRefusal, target_of};
use xml_doc::{Axis, Doc, IdAnswer, Kind};

/// Whether the row is an element of this local name in the namespace of signatures.
fn is_of_signatures(doc: &Doc<'_>, y: u32, name: &str) -> bool
    ensures { result ≡ spec.is_of_signatures doc.now name.now y }
{
    y < doc.rows()
        && doc.kind(y) == Kind::Element
        && doc.uri(y) == ElementName::Signature.namespace()
        && doc.local_name(y) == name
}

/// The Manifest element that bears the ID, if just one element does and it is one.
fn manifest_with(doc: &Doc<'_>, id: &Text) -> Option<u32>
    ensures row { result ≡ spec.manifest_in doc.now (answer_of (bearers doc.now (encode_utf8_all id.now))) }
    ensures within { IfSome result (λ x. x < length doc.now) }
{
    match doc.element_by_id(id.as_str()) {
        IdAnswer::One(x) if is_of_signatures(doc, x, "Manifest") => Some(x),
        _ => None,
    }
}

/// The Manifest element of this document to which a Reference leads, if it leads to one alone.
pub(crate) fn manifest_row(
    alloc: Global,
    doc: &Doc<'_>,
    reference: &Reference,
    place: &Place,
) -> Result<Option<u32>, NoMemory>
    ensures row { IfOk result (λ r. r ≡ spec.manifest_row doc.now (target_in place.now reference.now)) }
    ensures within { IfOk result (λ r. IfSome r (λ x. x < length doc.now)) }
{
    match target_of(alloc, reference.uri.as_str(), place) {
        Ok(Target::Element { id, comments: _ }) => Ok(manifest_with(doc, &id)),
        Ok(_) => Ok(None),
        Err(UriRefusal::Memory) => Err(NoMemory),
        Err(_) => Ok(None),
    }
}

/// The nearest Signature in which a row stands.
pub(crate) fn signature_above(doc: &Doc<'_>, x: u32) -> Option<u32>
    requires { x < length doc.now }
    ensures row { result ≡ spec.signature_above doc.now x }
    ensures within { IfSome result (λ g. g < length doc.now) }
{
    let mut walk = doc.axis(Axis::Ancestor, x);
    while let Some(y) = walk.next() {
        if is_of_signatures(doc, y, "Signature") {
            return Some(y);
        }
    }
    None
}
