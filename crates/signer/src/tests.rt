//! Templates that are put into documents, filled in and validated.

use crate::{SignRefusal, TemplateOptions, fill, insert_template};
use bumpalo::Bump;
use core_validate::{Report, validate};
use digests_hmac::KeyTable;
use dsig_fields::Question;
use sig_base::{DigestMethod, MacMethod, NoMemory, Octets, Text};
use sig_outside::MemFolder;
use std::alloc::Global;
use std::process::Abort;
use std::test::Fail;
use uri_refs::{Base, Catalog, Place};
use xml_read::read_document;

/// The Transforms of a template.
const TRANSFORMS: &str = "<ds:Transforms>\
<ds:Transform Algorithm=\"http://www.w3.org/2000/09/xmldsig#enveloped-signature\"/>\
<ds:Transform Algorithm=\"http://www.w3.org/2001/10/xml-exc-c14n#\"/></ds:Transforms>";

fn place(rt: &impl Abort, alloc: Global) -> Place {
    let (Ok(base), Ok(catalog)) = (
        Base::read(alloc, "https://folder.invalid/"),
        Catalog::read(alloc, b""),
    ) else {
        panic!(rt);
    };
    Place { base, catalog }
}

fn keys(rt: &impl Abort, alloc: Global) -> KeyTable {
    let Ok(keys) = KeyTable::read(alloc, b"4a656665 a&b\n00 other\n") else {
        panic!(rt);
    };
    keys
}

/// The first signature of a document.
fn question<'q>(keys: &'q KeyTable, place: &'q Place) -> Question<'q> {
    Question {
        index: 1,
        key_name: None,
        keys,
        place,
        keep_views: true,
    }
}

/// A document with a template that names the first key.
fn template(rt: &impl Abort, alloc: Global, document: &str) -> Result<Octets, NoMemory> {
    let options = TemplateOptions {
        mac: MacMethod::HmacSha256,
        digest: DigestMethod::Sha256,
        key_name: Some(Text::from_str(alloc, "a&b")?),
    };
    match insert_template(alloc, document.as_bytes(), &options) {
        Ok(octets) => Ok(octets),
        Err(_) => panic!(rt),
    }
}

fn filled(rt: &impl Abort, alloc: Global, octets: &[u8]) -> Result<Octets, SignRefusal> {
    let place = place(rt, alloc);
    let keys = keys(rt, alloc);
    let mut folder = MemFolder::new(alloc);
    fill(alloc, octets, &question(&keys, &place), &mut folder)
}

/// Asserts that the signature of a document is valid with this one view.
fn expect_valid(rt: &impl Abort, alloc: Global, octets: &[u8], view: &str) {
    let place = place(rt, alloc);
    let keys = keys(rt, alloc);
    let mut folder = MemFolder::new(alloc);
    let bump = Bump::new(alloc);
    let Ok(doc) = read_document(alloc, &bump, octets) else {
        panic!(rt);
    };
    let Ok(Report::Valid(views)) = validate(alloc, &doc, &question(&keys, &place), &mut folder)
    else {
        panic!(rt);
    };
    assert!(rt; views.octets.len() == 1);
    match views.octets.get(0) {
        Some(octets) => assert!(rt; octets.bytes() == view.as_bytes()),
        None => panic!(rt),
    }
}

/// Documents that get a template, are signed, and are valid; signing again changes nothing.
#[test]
fn documents_are_signed(rt: HostRuntime) -> Result<(), Fail> {
    let alloc = rt.alloc();
    for (document, view) in [
        ("<doc>hi</doc>", "<doc>hi</doc>"),
        (
            "<?xml version=\"1.0\" encoding=\"UTF-8\"?>\n<Order xmlns=\"urn:o\" Id=\"k\"/>\n<!--c-->",
            "<Order xmlns=\"urn:o\" Id=\"k\"></Order>",
        ),
        (
            "<p:a xmlns:p=\"urn:p\">\r\n</p:a>",
            "<p:a xmlns:p=\"urn:p\">\n</p:a>",
        ),
    ] {
        let template = template(&rt, alloc, document)?;
        let Ok(made) = filled(&rt, alloc, template.bytes()) else {
            panic!(&rt; "{}", document);
        };
        expect_valid(&rt, alloc, made.bytes(), view);
        let Ok(again) = filled(&rt, alloc, made.bytes()) else {
            panic!(&rt; "{}", document);
        };
        assert!(rt; again.bytes() == made.bytes());
    }
    Ok(())
}

/// The octets with another text in place of the first one of these.
fn with(
    rt: &impl Abort,
    alloc: Global,
    octets: &[u8],
    old: &str,
    new: &str,
) -> Result<String, NoMemory> {
    let Ok(text) = str::from_utf8(octets) else {
        panic!(rt);
    };
    let Some((front, back)) = text.split_once(old) else {
        panic!(rt; "{}", old);
    };
    Ok(format!(in alloc; "{}{}{}", front, new, back)?)
}

/// Templates that aren't signed.
#[test]
fn templates_are_refused(rt: HostRuntime) -> Result<(), Fail> {
    let alloc = rt.alloc();
    let template = template(&rt, alloc, "<doc>hi</doc>")?;
    for (old, new, words) in [
        (TRANSFORMS, "", "CoversItself(1)"),
        (
            "<ds:DigestValue/>",
            "<ds:DigestValue><!--c--></ds:DigestValue>",
            "NotText(37)",
        ),
        (
            "<ds:SignatureValue/>",
            "<ds:SignatureValue>A<!--c-->A==</ds:SignatureValue>",
            "NotText(40)",
        ),
        ("<ds:KeyName>a&amp;b</ds:KeyName>", "", "NoKey"),
        ("a&amp;b", "c", "UnknownKey"),
        (
            "#hmac-sha256\"/>",
            "#hmac-sha256\"><ds:HMACOutputLength>120</ds:HMACOutputLength></ds:SignatureMethod>",
            "ShortTruncation(120)",
        ),
        ("URI=\"\"", "URI=\"a.txt\"", "Reference(1, Absent)"),
        ("</doc>", "</dog>", "Read(NotWellFormed)"),
        ("ds:Signature ", "ds:Signature x=\"1\" ", "signed"),
    ] {
        let document = with(&rt, alloc, template.bytes(), old, new)?;
        let found = match filled(&rt, alloc, document.as_bytes()) {
            Ok(_) => format!(in alloc; "signed")?,
            Err(refusal) => format!(in alloc; "{:?}", refusal)?,
        };
        assert_eq!(rt; found.as_str(), words);
    }
    Ok(())
}

/// A Reference to a file, which is asked for when its digest is filled in, and again when its view is compared.
#[test]
fn files_are_asked_for_twice(rt: HostRuntime) -> Result<(), Fail> {
    let alloc = rt.alloc();
    let template = template(&rt, alloc, "<doc/>")?;
    let octets = with(&rt, alloc, template.bytes(), TRANSFORMS, "")?;
    let document = with(&rt, alloc, octets.as_bytes(), "URI=\"\"", "URI=\"a.txt\"")?;
    let place = place(&rt, alloc);
    let keys = keys(&rt, alloc);
    let mut folder = MemFolder::new(alloc);
    folder.add("a.txt", b"text")?;
    let question = question(&keys, &place);
    assert!(rt; fill(alloc, document.as_bytes(), &question, &mut folder).is_ok());
    let mut names = String::new(alloc);
    for k in 0..4 {
        if let Some(name) = folder.asked_name(k) {
            names.push_str(name)?;
        }
    }
    assert_eq!(rt; names.as_str(), "a.txta.txt");
    Ok(())
}
