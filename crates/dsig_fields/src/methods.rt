//! The elements that name a method.

ghost use Rattle.std.specs.Prelude.{◌≡◌, ◌<◌, length, IfOk, IfSome};
ghost use Rattle.dsig_fields.specs.Fields as spec;
ghost use Rattle.dsig_fields.specs.Reading.{Gives};

use crate::attributes::{algorithm, attribute};
use crate::children::Children;
use crate::fields::{Authentication, Canonicalization};
use crate::lengths::length_in;
use crate::names::ElementName;
use crate::refusal::FieldRefusal;
use crate::simple::simple_text;
use sig_base::{
    CanonMethod, DigestMethod, MacMethod, Members, NoMemory, PrefixList, canon_method_of,
    digest_method_of, mac_method_of, names_in,
};
use std::alloc::Global;
use xml_doc::Doc;

/// The names of an InclusiveNamespaces element, if there is one (Exclusive XML Canonicalization 1.0 §3).
fn prefix_list(alloc: Global, doc: &Doc<'_>, list: Option<u32>) -> Result<PrefixList, NoMemory>
    requires { IfSome list (λ x. x < length doc.now) }
    ensures { IfOk result (λ prefixes. prefixes ≡ spec.prefix_list doc.now list) }
{
    let Some(x) = list else {
        return Ok(Members::new(alloc));
    };
    match attribute(doc, x, "PrefixList") {
        Some(text) => names_in(alloc, text),
        None => Ok(Members::new(alloc)),
    }
}

/// The PrefixList of an element that names this canonicalization method (Exclusive XML Canonicalization 1.0 §4).
#[tactic(auto, unfolding(crate::specs::Fields::inner_prefixes))]
pub(crate) fn inner_prefixes(
    alloc: Global,
    doc: &Doc<'_>,
    method: CanonMethod,
    x: u32,
) -> Result<PrefixList, FieldRefusal>
    requires { x < length doc.now }
    ensures { Gives (λ p. p) result (spec.inner_prefixes doc.now method x) }
{
    let mut children = Children::of(doc, x);
    let list = children.optional_if(doc, ElementName::InclusiveNamespaces, method.is_exclusive())?;
    children.at_end(doc)?;
    Ok(prefix_list(alloc, doc, list)?)
}

/// CanonicalizationMethod (XML Signature 1.1 §4.4.1).
#[tactic(auto, unfolding(crate::specs::Fields::canonicalization_method))]
pub(crate) fn canonicalization_method(
    alloc: Global,
    doc: &Doc<'_>,
    x: u32,
) -> Result<Canonicalization, FieldRefusal>
    requires { x < length doc.now }
    ensures { Gives (λ c. c) result (spec.canonicalization_method doc.now x) }
{
    let uri = algorithm(doc, x)?;
    let method = canon_method_of(uri).ok_or(FieldRefusal::UnknownMethod(x))?;
    let prefixes = inner_prefixes(alloc, doc, method, x)?;
    Ok(Canonicalization { method, prefixes })
}

/// Why an identifier is none of an HMAC method (XML Signature 1.1 §6.4, RFC 6931 §2.3).
fn mac_refusal(x: u32, uri: &str) -> FieldRefusal
    ensures { result ≡ spec.mac_refusal x uri.now }
{
    match uri {
        "http://www.w3.org/2000/09/xmldsig#dsa-sha1"
        | "http://www.w3.org/2000/09/xmldsig#rsa-sha1"
        | "http://www.w3.org/2001/04/xmldsig-more#rsa-sha256"
        | "http://www.w3.org/2001/04/xmldsig-more#rsa-sha384"
        | "http://www.w3.org/2001/04/xmldsig-more#rsa-sha512"
        | "http://www.w3.org/2001/04/xmldsig-more#ecdsa-sha256"
        | "http://www.w3.org/2001/04/xmldsig-more#ecdsa-sha384"
        | "http://www.w3.org/2001/04/xmldsig-more#ecdsa-sha512" => FieldRefusal::PublicKey(x),
        _ => FieldRefusal::UnknownMethod(x),
    }
}

/// HMACOutputLength in bits, if there is one.
fn output_length(
    alloc: Global,
    doc: &Doc<'_>,
    mac: MacMethod,
    row: Option<u32>,
) -> Result<Option<u32>, FieldRefusal>
    requires { IfSome row (λ x. x < length doc.now) }
    ensures { Gives (λ b. b) result (spec.output_length doc.now mac row) }
{
    let Some(x) = row else {
        return Ok(None);
    };
    let text = simple_text(alloc, doc, x)?;
    let bits = length_in(mac, text.as_str()).ok_or(FieldRefusal::BadLength(x))?;
    Ok(Some(bits))
}

/// SignatureMethod (XML Signature 1.1 §4.4.2).
#[tactic(auto, unfolding(crate::specs::Fields::signature_method))]
pub(crate) fn signature_method(
    alloc: Global,
    doc: &Doc<'_>,
    x: u32,
) -> Result<Authentication, FieldRefusal>
    requires { x < length doc.now }
    ensures { Gives (λ a. a) result (spec.signature_method doc.now x) }
{
    let uri = algorithm(doc, x)?;
    let mac = mac_method_of(uri).ok_or(mac_refusal(x, uri))?;
    let mut children = Children::of(doc, x);
    let row = children.optional(doc, ElementName::HmacOutputLength)?;
    let bits = output_length(alloc, doc, mac, row)?;
    children.at_end(doc)?;
    Ok(Authentication { mac, bits })
}

/// DigestMethod (XML Signature 1.1 §4.4.3.5).
#[tactic(auto, unfolding(crate::specs::Fields::digest_method))]
pub(crate) fn digest_method(doc: &Doc<'_>, x: u32) -> Result<DigestMethod, FieldRefusal>
    requires { x < length doc.now }
    ensures { Gives (λ m. m) result (spec.digest_method doc.now x) }
{
    let uri = algorithm(doc, x)?;
    let method = digest_method_of(uri).ok_or(FieldRefusal::UnknownMethod(x))?;
    Children::of(doc, x).at_end(doc)?;
    Ok(method)
}
