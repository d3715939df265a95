//! Elements by name.

ghost use Rattle.std.specs.Prelude.{◌≡◌, ◌<◌, length};
ghost use Rattle.dsig_fields.specs.Reading as spec;

use crate::names::ElementName;
use xml_doc::{Doc, Kind};

/// Whether the row is an element of this name.
pub(crate) fn is_named(doc: &Doc<'_>, y: u32, name: ElementName) -> bool
    requires { y < length doc.now }
    ensures { result ≡ spec.is_named doc.now name y }
{
    doc.kind(y) == Kind::Element
        && doc.uri(y) == name.namespace()
        && doc.local_name(y) == name.local_name()
}
