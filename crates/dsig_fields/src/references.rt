//! References, and the SignedInfo that holds them.

ghost use Rattle.std.specs.Prelude.{◌≡◌, ◌<◌, ℕ, List, length, codes};
ghost use Rattle.std.specs.Borrow.{Bor};
ghost use Rattle.dsig_fields.specs.Fields as spec;
ghost use Rattle.dsig_fields.specs.Reading.{Gives, attribute as attribute_of, or_refusal};

use crate::attributes::attribute;
use crate::children::Children;
use crate::fields::{Info, Reference};
use crate::methods::{canonicalization_method, digest_method, signature_method};
use crate::names::ElementName;
use crate::refusal::FieldRefusal;
use crate::repeated::{Repeated, one_or_more};
use crate::simple::simple_octets;
use crate::transforms::transforms_if;
use sig_base::Text;
use std::alloc::Global;
use xml_doc::Doc;

/// The URI of a Reference.
fn uri<'a>(doc: &Doc<'a>, x: u32) -> Result<&'a str, FieldRefusal>
    requires { x < length doc.now }
    ensures { Gives (λ (v : Bor (List ℕ)). v.now) result (or_refusal (FieldRefusal.NoUri x) (attribute_of doc.now x (codes "URI"))) }
{
    attribute(doc, x, "URI").ok_or(FieldRefusal::NoUri(x))
}

/// Whether the Type of a Reference says that it refers to a Manifest (XML Signature 1.1 §5.1).
fn names_manifest(doc: &Doc<'_>, x: u32) -> bool
    requires { x < length doc.now }
    ensures { result ≡ spec.names_manifest (attribute_of doc.now x (codes "Type")) }
{
    match attribute(doc, x, "Type") {
        Some(text) => text == "http://www.w3.org/2000/09/xmldsig#Manifest",
        None => false,
    }
}

/// Reference (XML Signature 1.1 §4.4.3).
#[tactic(auto, unfolding(crate::specs::Fields::reference))]
fn reference(alloc: Global, doc: &Doc<'_>, x: u32) -> Result<Reference, FieldRefusal>
    requires { x < length doc.now }
    ensures { Gives (λ r. r) result (spec.reference doc.now x) }
{
    let uri = Text::from_str(alloc, uri(doc, x)?)?;
    let mut children = Children::of(doc, x);
    let transforms_row = children.optional(doc, ElementName::Transforms)?;
    let steps = transforms_if(alloc, doc, transforms_row)?;
    let method_row = children.required(doc, ElementName::DigestMethod)?;
    let digest = digest_method(doc, method_row)?;
    let digest_row = children.required(doc, ElementName::DigestValue)?;
    let expected = simple_octets(alloc, doc, digest_row)?;
    children.at_end(doc)?;
    let manifest = names_manifest(doc, x);
    Ok(Reference {
        row: x,
        uri,
        manifest,
        steps,
        digest,
        digest_row,
        expected,
    })
}

impl Repeated for Reference {
    ghost use Rattle.dsig_fields.specs.Fields.{reference};
    ghost use Rattle.dsig_fields.specs.declared.names.ElementName.TheVariants.{Reference};
    ghost use Rattle.dsig_fields.specs.declared.refusal.FieldRefusal.TheVariants.{TooManyReferences};

    ghost NAME = { Reference };

    ghost LIMIT = { 256 };

    ghost excess = { λ _. TooManyReferences };

    ghost outcome = { reference };

    const NAME: ElementName = ElementName::Reference;

    const LIMIT: usize = 256;

    fn too_many(_x: u32) -> FieldRefusal {
        FieldRefusal::TooManyReferences
    }

    fn read(alloc: Global, doc: &Doc<'_>, x: u32) -> Result<Reference, FieldRefusal> {
        reference(alloc, doc, x)
    }
}

/// SignedInfo (XML Signature 1.1 §4.4).
#[tactic(auto, unfolding(crate::specs::Fields::info_fields))]
pub(crate) fn info_fields(alloc: Global, doc: &Doc<'_>, x: u32) -> Result<Info, FieldRefusal>
    requires { x < length doc.now }
    ensures { Gives (λ i. i) result (spec.info_fields doc.now x) }
{
    let mut children = Children::of(doc, x);
    let canon_row = children.required(doc, ElementName::CanonicalizationMethod)?;
    let canonicalization = canonicalization_method(alloc, doc, canon_row)?;
    let mac_row = children.required(doc, ElementName::SignatureMethod)?;
    let authentication = signature_method(alloc, doc, mac_row)?;
    let references = one_or_more(alloc, doc, &mut children)?;
    children.at_end(doc)?;
    Ok(Info {
        canon: canonicalization.method,
        prefixes: canonicalization.prefixes,
        mac: authentication.mac,
        bits: authentication.bits,
        references,
    })
}
