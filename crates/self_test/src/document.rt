//! The document of a self-test.
ghost use Rattle.std.specs.Prelude.{◌≡◌, ◌++◌, IfOk, OnOk, string_bytes};
ghost use Rattle.self_test.specs.Document as spec;

use sig_base::NoMemory;
use std::alloc::Global;

/// How many References a document has at most.
const MOST_REFERENCES: u32 = 64;

/// What stands behind the paragraphs and before the References.
const SIGNATURE_START: &str =
    "<Signature xmlns=\"http://www.w3.org/2000/09/xmldsig#\"><SignedInfo><CanonicalizationMethod Algorithm=\"http://www.w3.org/2001/10/xml-exc-c14n#\"/><SignatureMethod Algorithm=\"http://www.w3.org/2001/04/xmldsig-more#hmac-sha256\"/>";

/// What stands behind the References.
const SIGNATURE_END: &str = "</SignedInfo><SignatureValue/></Signature></doc>";

/// A paragraph.
fn paragraph(alloc: Global, number: u32) -> Result<String, NoMemory>
    ensures { IfOk result (λ text. string_bytes text ≡ spec.paragraph number) }
{
    Ok(format!(in alloc; "<p Id=\"p{}\">Paragraph {}.</p>", number, number)?)
}

/// A Reference to the paragraph of that number.
fn reference(alloc: Global, number: u32) -> Result<String, NoMemory>
    ensures { IfOk result (λ text. string_bytes text ≡ spec.reference number) }
{
    Ok(format!(in alloc;
        "<Reference URI=\"#p{}\"><DigestMethod Algorithm=\"http://www.w3.org/2001/04/xmlenc#sha256\"/><DigestValue/></Reference>",
        number
    )?)
}

/// How many References there are.
pub(crate) fn reference_count(paragraphs: u32) -> u32
    ensures { result ≡ spec.reference_count paragraphs }
{
    paragraphs.min(MOST_REFERENCES)
}

/// Writes so many paragraphs.
fn push_paragraphs(alloc: Global, count: u32, text: &mut String) -> Result<(), NoMemory>
    ensures { OnOk result (string_bytes text.new ≡ string_bytes text.old ++ spec.for_each spec.paragraph count) }
{
    for place in 0..count {
        text.push_str(&paragraph(alloc, place + 1)?)?;
    }
    Ok(())
}

/// Writes so many References.
fn push_references(alloc: Global, count: u32, text: &mut String) -> Result<(), NoMemory>
    ensures { OnOk result (string_bytes text.new ≡ string_bytes text.old ++ spec.for_each spec.reference count) }
{
    for place in 0..count {
        text.push_str(&reference(alloc, place + 1)?)?;
    }
    Ok(())
}

/// The document with so many paragraphs.
pub(crate) fn document(alloc: Global, paragraphs: u32) -> Result<String, NoMemory>
    ensures { IfOk result (λ text. string_bytes text ≡ spec.document paragraphs) }
{
    let mut text = String::from_str(alloc, "<doc>")?;
    push_paragraphs(alloc, paragraphs, &mut text)?;
    text.push_str(SIGNATURE_START)?;
    push_references(alloc, reference_count(paragraphs), &mut text)?;
    text.push_str(SIGNATURE_END)?;
    Ok(text)
}
