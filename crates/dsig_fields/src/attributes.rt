//! The attributes of an element.

ghost use Rattle.std.specs.Prelude.{◌≡◌, ◌<◌, ℕ, List, length, option_map};
ghost use Rattle.std.specs.Borrow.{Bor};
ghost use Rattle.dsig_fields.specs.Fields.{algorithm};
ghost use Rattle.dsig_fields.specs.Reading as spec;

use crate::refusal::FieldRefusal;
use xml_doc::Doc;

/// The value of the attribute of this local name that is in no namespace.
pub(crate) fn attribute<'a>(doc: &Doc<'a>, x: u32, name: &str) -> Option<&'a str>
    requires { x < length doc.now }
    ensures { option_map (λ (v : Bor (List ℕ)). v.now) result ≡ spec.attribute doc.now x name.now }
{
    let own = doc.own_rows(x);
    for y in own.first_attribute..own.first_child {
        if is_attribute_named(doc, y, name) {
            return Some(doc.value(y));
        }
    }
    None
}

/// Whether an attribute row is in no namespace, and has this local name.
fn is_attribute_named(doc: &Doc<'_>, y: u32, name: &str) -> bool
    requires { y < length doc.now }
    ensures { result ≡ spec.is_attribute_named doc.now name.now y }
{
    doc.uri(y).is_empty() && doc.local_name(y) == name
}

/// The Algorithm of an element.
pub(crate) fn algorithm<'a>(doc: &Doc<'a>, x: u32) -> Result<&'a str, FieldRefusal>
    requires { x < length doc.now }
    ensures { spec.Gives (λ (v : Bor (List ℕ)). v.now) result (algorithm doc.now x) }
{
    attribute(doc, x, "Algorithm").ok_or(FieldRefusal::NoAlgorithm(x))
}
