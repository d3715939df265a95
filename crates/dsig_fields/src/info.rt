//! The fields of a SignedInfo element, wherever it stands.

ghost use Rattle.std.specs.Prelude.{◌<◌, length, IfOk};
ghost use Rattle.dsig_fields.specs.Fields as spec;
ghost use Rattle.dsig_fields.specs.Fits.{InfoFits};
ghost use Rattle.dsig_fields.specs.Reading.{Gives};

use crate::fields::Info;
use crate::references::info_fields;
use crate::refusal::FieldRefusal;
use std::alloc::Global;
use xml_doc::Doc;

/// Reads what a SignedInfo element says (XML Signature 1.1 §4.4), wherever the element stands and whatever its name is. The
/// first refusal that is met in document order is the answer.
pub fn read_info(alloc: Global, doc: &Doc<'_>, signed_info: u32) -> Result<Info, FieldRefusal>
    requires { signed_info < length doc.now }
    ensures info { Gives (λ i. i) result (spec.info_fields doc.now signed_info) }
    ensures fit { IfOk result (λ i. InfoFits doc.now i) }
{
    info_fields(alloc, doc, signed_info)
}
