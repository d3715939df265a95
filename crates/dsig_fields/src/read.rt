//! The fields of a Signature element.

ghost use Rattle.std.specs.Prelude.{◌<◌, length, IfOk};
ghost use Rattle.dsig_fields.specs.Fields as spec;
ghost use Rattle.dsig_fields.specs.Fits.{FieldsFit};
ghost use Rattle.dsig_fields.specs.Reading.{Gives};

use crate::children::Children;
use crate::fields::Fields;
use crate::key_info::key_info_if;
use crate::names::ElementName;
use crate::references::info_fields;
use crate::refusal::FieldRefusal;
use crate::simple::simple_octets;
use std::alloc::Global;
use xml_doc::Doc;

/// Reads the fields of a Signature element (XML Signature 1.1 §4). The first refusal that is met in document order is the
/// answer.
#[tactic(auto, unfolding(crate::specs::Fields::fields_of))]
pub fn read_fields(alloc: Global, doc: &Doc<'_>, signature: u32) -> Result<Fields, FieldRefusal>
    requires { signature < length doc.now }
    ensures fields { Gives (λ f. f) result (spec.fields_of doc.now signature) }
    ensures fit { IfOk result (λ f. FieldsFit doc.now f) }
{
    let _count = doc.rows();
    let mut children = Children::of(doc, signature);
    let signed_info = children.required(doc, ElementName::SignedInfo)?;
    let info = info_fields(alloc, doc, signed_info)?;
    let value_row = children.required(doc, ElementName::SignatureValue)?;
    let value = simple_octets(alloc, doc, value_row)?;
    let key_info_row = children.optional(doc, ElementName::KeyInfo)?;
    let key_name = key_info_if(alloc, doc, key_info_row)?;
    children.behind_all(doc, ElementName::Object)?;
    children.at_end(doc)?;
    Ok(Fields {
        signature,
        signed_info,
        value_row,
        canon: info.canon,
        prefixes: info.prefixes,
        mac: info.mac,
        bits: info.bits,
        references: info.references,
        value,
        key_name,
    })
}
