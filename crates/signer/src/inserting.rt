//! A template is put into a document.
ghost use Rattle.std.specs.Prelude.{◌≡◌, ◌<◌, ◌≤◌, [], ◌∷◌, Ok, length, IfOk};
ghost use Rattle.xml_doc.specs.Shape.{row_at};
ghost use Rattle.c14n_text.specs.Escapes.{text_octets};
ghost use Rattle.xml_doc.specs.Rows.{row_of};
ghost use Rattle.xml_doc.specs.Top.{document_element};
ghost use Rattle.xml_read.specs.ReadOutcome.{read_outcome};
ghost use Rattle.row_spans.specs.RowSpans.{written};
ghost use Rattle.row_spans.specs.Seen.{seen_span};
ghost use Rattle.sig_base.specs.Methods as methods;
ghost use Rattle.signer.specs.Answers.{Inserts};
ghost use Rattle.signer.specs.Template as spec;
ghost use Rattle.signer.specs.Template.{template_outcome};

use crate::filling::{content_span, joined};
use crate::template::{TemplateOptions, TemplateRefusal, read_cause};
use bumpalo::Bump;
use c14n_text::put_text;
use row_spans::Span;
use sig_base::{DigestMethod, MacMethod, NoMemory, Octets, Put, Text, VecSink};
use std::alloc::{AllocError, Global};
use xml_doc::{Doc, Row};
use xml_read::read_document;

/// The namespace name of signatures.
const SIGNATURE_NAMESPACE: &str = "http://www.w3.org/2000/09/xmldsig#";

/// The identifier of the enveloped signature transform.
const ENVELOPED: &str = "http://www.w3.org/2000/09/xmldsig#enveloped-signature";

/// The identifier of Exclusive XML Canonicalization without comments.
const EXCLUSIVE: &str = "http://www.w3.org/2001/10/xml-exc-c14n#";

/// The identifier of a method of message authentication.
fn mac_identifier(mac: MacMethod) -> &'static str
    ensures { result.now ≡ methods.mac_identifier mac }
{
    match mac {
        MacMethod::HmacSha1 => "http://www.w3.org/2000/09/xmldsig#hmac-sha1",
        MacMethod::HmacSha224 => "http://www.w3.org/2001/04/xmldsig-more#hmac-sha224",
        MacMethod::HmacSha256 => "http://www.w3.org/2001/04/xmldsig-more#hmac-sha256",
        MacMethod::HmacSha384 => "http://www.w3.org/2001/04/xmldsig-more#hmac-sha384",
        MacMethod::HmacSha512 => "http://www.w3.org/2001/04/xmldsig-more#hmac-sha512",
    }
}

/// The identifier of a digest method.
fn digest_identifier(digest: DigestMethod) -> &'static str
    ensures { result.now ≡ methods.digest_identifier digest }
{
    match digest {
        DigestMethod::Sha1 => "http://www.w3.org/2000/09/xmldsig#sha1",
        DigestMethod::Sha224 => "http://www.w3.org/2001/04/xmldsig-more#sha224",
        DigestMethod::Sha256 => "http://www.w3.org/2001/04/xmlenc#sha256",
        DigestMethod::Sha384 => "http://www.w3.org/2001/04/xmldsig-more#sha384",
        DigestMethod::Sha512 => "http://www.w3.org/2001/04/xmlenc#sha512",
    }
}

/// An empty-element tag with an Algorithm.
fn algorithm_element(alloc: Global, name: &str, identifier: &str) -> Result<Vec<u8>, AllocError>
    ensures { IfOk result (λ text. text.items ≡ spec.algorithm_element name.now identifier.now) }
{
    joined(
        alloc,
        &[
            b"<ds:".as_slice(),
            name.as_bytes(),
            b" Algorithm=\"".as_slice(),
            identifier.as_bytes(),
            b"\"/>".as_slice(),
        ],
    )
}

/// The two Transforms.
fn transforms_text(alloc: Global) -> Result<Vec<u8>, AllocError>
    ensures { IfOk result (λ text. text.items ≡ spec.transforms_text) }
{
    let enveloped = algorithm_element(alloc, "Transform", ENVELOPED)?;
    let exclusive = algorithm_element(alloc, "Transform", EXCLUSIVE)?;
    joined(
        alloc,
        &[
            b"<ds:Transforms>".as_slice(),
            enveloped.as_slice(),
            exclusive.as_slice(),
            b"</ds:Transforms>".as_slice(),
        ],
    )
}

/// The Reference.
fn reference_text(alloc: Global, options: &TemplateOptions) -> Result<Vec<u8>, AllocError>
    ensures { IfOk result (λ text. text.items ≡ spec.reference_text options.now) }
{
    let transforms = transforms_text(alloc)?;
    let method = algorithm_element(alloc, "DigestMethod", digest_identifier(options.digest))?;
    joined(
        alloc,
        &[
            b"<ds:Reference URI=\"\">".as_slice(),
            transforms.as_slice(),
            method.as_slice(),
            b"<ds:DigestValue/></ds:Reference>".as_slice(),
        ],
    )
}

/// SignedInfo.
fn signed_info_text(alloc: Global, options: &TemplateOptions) -> Result<Vec<u8>, AllocError>
    ensures { IfOk result (λ text. text.items ≡ spec.signed_info_text options.now) }
{
    let canon = algorithm_element(alloc, "CanonicalizationMethod", EXCLUSIVE)?;
    let mac = algorithm_element(alloc, "SignatureMethod", mac_identifier(options.mac))?;
    let reference = reference_text(alloc, options)?;
    joined(
        alloc,
        &[
            b"<ds:SignedInfo>".as_slice(),
            canon.as_slice(),
            mac.as_slice(),
            reference.as_slice(),
            b"</ds:SignedInfo>".as_slice(),
        ],
    )
}

/// A text as character data.
fn escaped_text(alloc: Global, text: &str) -> Result<Octets, NoMemory>
    ensures { IfOk result (λ octets. octets ≡ text_octets text.now) }
{
    let mut sink = VecSink::new(alloc);
    match put_text(text, &mut sink) {
        Put::Done => Ok(sink.finish()),
        Put::Refused => Err(NoMemory),
    }
}

/// KeyInfo with the name of the key, if one is given.
fn key_info_text(alloc: Global, key_name: &Option<Text>) -> Result<Vec<u8>, NoMemory>
    ensures { IfOk result (λ text. text.items ≡ spec.key_info_text key_name.now) }
{
    let Some(name) = key_name else {
        return Ok(Vec::new(alloc));
    };
    let name = escaped_text(alloc, name.as_str())?;
    let text = joined(
        alloc,
        &[
            b"<ds:KeyInfo><ds:KeyName>".as_slice(),
            name.bytes(),
            b"</ds:KeyName></ds:KeyInfo>".as_slice(),
        ],
    )?;
    Ok(text)
}

/// The template.
fn template_text(alloc: Global, options: &TemplateOptions) -> Result<Vec<u8>, NoMemory>
    ensures { IfOk result (λ text. text.items ≡ spec.template_text options.now) }
{
    let info = signed_info_text(alloc, options)?;
    let key = key_info_text(alloc, &options.key_name)?;
    let text = joined(
        alloc,
        &[
            b"<ds:Signature xmlns:ds=\"".as_slice(),
            SIGNATURE_NAMESPACE.as_bytes(),
            b"\">".as_slice(),
            info.as_slice(),
            b"<ds:SignatureValue/>".as_slice(),
            key.as_slice(),
            b"</ds:Signature>".as_slice(),
        ],
    )?;
    Ok(text)
}

/// The span behind the content of an element, and a text there; an empty-element tag is opened.
fn insertion(alloc: Global, row: &Row<'_>, text: Vec<u8>) -> Result<Span, AllocError>
    ensures { IfOk result (λ span. seen_span span ≡ spec.insertion (row_of row.now) text.items) }
{
    if row.empty_tag {
        return content_span(alloc, row, text);
    }
    let at = row.body_until as usize;
    Ok(Span {
        from: at,
        until: at,
        new: text,
    })
}

/// The octets with what is to stand at a span.
fn with_span(alloc: Global, octets: &[u8], span: &Span) -> Result<Vec<u8>, AllocError>
    requires from { span.now.from ≤ length octets.now }
    requires until { span.now.until ≤ length octets.now }
    ensures { IfOk result (λ made. made.items ≡ written octets.now (seen_span span.now ∷ [])) }
{
    joined(
        alloc,
        &[
            &octets[..span.from],
            span.new.as_slice(),
            &octets[span.until..],
        ],
    )
}

/// Puts a text behind the content of an element.
fn insert_at(
    alloc: Global,
    bytes: &[u8],
    doc: &Doc<'_>,
    element: u32,
    text: Vec<u8>,
) -> Result<Vec<u8>, AllocError>
    requires read { read_outcome bytes.now ≡ Ok doc.now }
    requires element { element < length doc.now }
    ensures { IfOk result (λ made. made.items ≡ written bytes.now (spec.insertion (row_at doc.now element) text.items ∷ [])) }
{
    let row = doc.row(element).unwrap();
    let span = insertion(alloc, &row, text)?;
    with_span(alloc, bytes, &span)
}

/// Puts the template into a document that is read.
fn insert_into(
    alloc: Global,
    bytes: &[u8],
    doc: &Doc<'_>,
    options: &TemplateOptions,
) -> Result<Octets, NoMemory>
    requires { read_outcome bytes.now ≡ Ok doc.now }
    ensures { IfOk result (λ octets. octets
        ≡ written bytes.now (spec.insertions doc.now (spec.template_text options.now) (document_element doc.now))) }
{
    let Some(element) = doc.document_element() else {
        return Ok(Octets::from_vec(bytes.to_vec(alloc)?));
    };
    let text = template_text(alloc, options)?;
    let made = insert_at(alloc, bytes, doc, element, text)?;
    Ok(Octets::from_vec(made))
}

/// Puts the template of an enveloped signature in front of the end tag of the document element; an empty-element tag is opened.
/// All other octets stay.
///
/// `Read` comes where the document can't be read.
pub fn insert_template(
    alloc: Global,
    bytes: &[u8],
    options: &TemplateOptions,
) -> Result<Octets, TemplateRefusal>
    ensures { Inserts (λ octets. octets) result (template_outcome bytes.now options.now) }
{
    let bump = Bump::new(alloc);
    match read_document(alloc, &bump, bytes) {
        Ok(doc) => Ok(insert_into(alloc, bytes, &doc, options)?),
        Err(cause) => Err(read_cause(cause)),
    }
}
