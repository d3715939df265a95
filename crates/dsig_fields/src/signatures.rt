//! The Signature elements of a document.

ghost use Rattle.std.specs.Prelude.{◌≡◌, ◌<◌, length, IfSome};
ghost use Rattle.dsig_fields.specs.Signatures as spec;

use crate::element::is_named;
use crate::names::ElementName;
use xml_doc::Doc;

/// The row of the n-th Signature element in document order, counted from 1. `None` comes exactly where `n` is 0 or the
/// document has fewer (XML Signature 1.1 §4.1).
pub fn nth_signature(doc: &Doc<'_>, n: u32) -> Option<u32>
    ensures row { result ≡ spec.nth_signature doc.now n }
    ensures within { IfSome result (λ x. x < length doc.now) }
{
    if n == 0 {
        return None;
    }
    let mut wanted = n;
    for y in 0..doc.rows() {
        if is_named(doc, y, ElementName::Signature) {
            if wanted == 1 {
                return Some(y);
            }
            wanted -= 1;
        }
    }
    None
}
