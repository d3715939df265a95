//! Manifests of documents that are read. The digests come from another implementation of SHA-256.

use crate::{ManifestKind, ManifestLines, ManifestStop, check_manifests};
use bumpalo::Bump;
use dsig_fields::{nth_signature, read_fields};
use sig_base::NoMemory;
use sig_outside::MemFolder;
use std::alloc::Global;
use std::process::Abort;
use std::test::Fail;
use uri_refs::{Base, Catalog, Place};
use xml_read::read_document;

const C10: &str = "<Transform Algorithm=\"http://www.w3.org/TR/2001/REC-xml-c14n-20010315\"/>";

const BASE64: &str = "<Transform Algorithm=\"http://www.w3.org/2000/09/xmldsig#base64\"/>";

const ENVELOPED: &str =
    "<Transform Algorithm=\"http://www.w3.org/2000/09/xmldsig#enveloped-signature\"/>";

/// The digest of the element with the ID `a`.
const OF_A: &str = "eQn3NZI8cEt4OHtJA3/+8a3GfwNc4OFazn4x1t5qmY0=";

/// The digest of the document without its Signature.
const OF_REST: &str = "HTkV6cdooeNDuMWgC5L5FgAOxdPsqLmg7+0Dy1RJH0s=";

/// The digest of the file `a.txt`.
const OF_FILE: &str = "2crg29vweLICDiq+X810vB7bqDw19riobWOO2bjT0fk=";

/// A Reference of these attributes, with one Transform, or none, and this DigestValue.
fn reference(alloc: Global, attributes: &str, step: &str, value: &str) -> Result<String, NoMemory> {
    let steps = if step.is_empty() {
        String::new(alloc)
    } else {
        format!(in alloc; "<Transforms>{}</Transforms>", step)?
    };
    Ok(format!(in alloc;
        "<Reference {}>{}<DigestMethod Algorithm=\"http://www.w3.org/2001/04/xmlenc#sha256\"/><DigestValue>{}</DigestValue></Reference>",
        attributes, steps, value
    )?)
}

/// An entry of a Manifest: its URI, its Transform and its DigestValue.
type Entry = (&'static str, &'static str, &'static str);

/// A Manifest of that ID, with these entries, so many times over.
fn manifest(alloc: Global, id: &str, entries: &[Entry], times: u32) -> Result<String, NoMemory> {
    let mut text = format!(in alloc; "<Manifest Id=\"{}\">", id)?;
    for _ in 0..times {
        for (uri, step, value) in entries {
            let attributes = format!(in alloc; "URI=\"{}\"", uri)?;
            text.push_str(&reference(alloc, attributes.as_str(), step, value)?)?;
        }
    }
    text.push_str("</Manifest>")?;
    Ok(text)
}

/// A document whose signature has a Reference to the element `a`, then one to a Manifest for each URI and Transform, and this
/// Object.
fn document(alloc: Global, manifests: &[(&str, &str)], object: &str) -> Result<String, NoMemory> {
    let mut references = reference(alloc, "URI=\"#a\"", "", OF_A)?;
    for (uri, step) in manifests {
        let attributes = format!(in alloc;
            "URI=\"{}\" Type=\"http://www.w3.org/2000/09/xmldsig#Manifest\"",
            uri
        )?;
        references.push_str(&reference(alloc, attributes.as_str(), step, "")?)?;
    }
    Ok(format!(in alloc;
        "<r><a Id=\"a\">x</a><b Id=\"b\"/><c Id=\"b\"/><Signature xmlns=\"http://www.w3.org/2000/09/xmldsig#\"><SignedInfo><CanonicalizationMethod Algorithm=\"http://www.w3.org/TR/2001/REC-xml-c14n-20010315\"/><SignatureMethod Algorithm=\"http://www.w3.org/2001/04/xmldsig-more#hmac-sha256\"/>{}</SignedInfo><SignatureValue/><Object Id=\"o\">{}</Object></Signature></r>",
        references, object
    )?)
}

fn place(rt: &impl Abort, alloc: Global) -> Place {
    let (Ok(base), Ok(catalog)) = (
        Base::read(alloc, "https://folder.invalid/"),
        Catalog::read(alloc, b""),
    ) else {
        panic!(rt);
    };
    Place { base, catalog }
}

/// Checks the Manifests of the document's signature.
fn checked(
    rt: &impl Abort,
    alloc: Global,
    document: &str,
    folder: &mut MemFolder,
) -> Result<ManifestLines, ManifestStop> {
    let bump = Bump::new(alloc);
    let Ok(doc) = read_document(alloc, &bump, document.as_bytes()) else {
        panic!(rt);
    };
    let Some(signature) = nth_signature(&doc, 1) else {
        panic!(rt);
    };
    let Ok(fields) = read_fields(alloc, &doc, signature) else {
        panic!(rt);
    };
    check_manifests(alloc, &doc, &fields, &place(rt, alloc), folder)
}

/// The lines of a document in words.
fn told(rt: &impl Abort, alloc: Global, document: &str) -> Result<String, NoMemory> {
    let mut folder = MemFolder::new(alloc);
    folder.add("a.txt", b"QUJD")?;
    let Ok(lines) = checked(rt, alloc, document, &mut folder) else {
        panic!(rt);
    };
    let mut text = String::new(alloc);
    for k in 0..lines.len() {
        if let Some(line) = lines.get(k) {
            text.push_str(&format!(in alloc;
                "{}.{} {:?}\n",
                line.reference, line.entry, line.kind
            )?)?;
        }
    }
    Ok(text)
}

#[test]
fn entries(rt: HostRuntime) -> Result<(), Fail> {
    let alloc = rt.alloc();
    let manifest = manifest(
        alloc,
        "m",
        &[
            ("#a", "", OF_A),
            ("#a", C10, OF_FILE),
            ("", ENVELOPED, OF_REST),
            ("a.txt", "", OF_FILE),
            ("#n", "", OF_A),
        ],
        1,
    )?;
    let document = document(alloc, &[("#m", "")], manifest.as_str())?;
    assert_eq!(rt;
        told(&rt, alloc, document.as_str())?.as_str(),
        "2.1 Same\n2.2 Differs\n2.3 Same\n2.4 Same\n2.5 Refused(NoSuchId)\n"
    );
    Ok(())
}

#[test]
fn single_lines(rt: HostRuntime) -> Result<(), Fail> {
    let alloc = rt.alloc();
    let empty = manifest(alloc, "e", &[], 1)?;
    let good = manifest(alloc, "m", &[("#a", "", OF_A)], 1)?;
    let object = format!(in alloc; "{}{}", empty, good)?;
    let document = document(
        alloc,
        &[
            ("#m", BASE64),
            ("#m", ENVELOPED),
            ("#o", ""),
            ("#e", C10),
            ("#b", ""),
            ("#n", ""),
            ("", ""),
            ("a.txt", ""),
            ("../a.txt#b", ""),
            ("#xpointer(id('m'))", C10),
        ],
        object.as_str(),
    )?;
    assert_eq!(rt;
        told(&rt, alloc, document.as_str())?.as_str(),
        "2.0 ManifestTransforms\n3.0 ManifestTransforms\n4.0 NotManifest\n5.0 Fields(Missing(Reference))\n6.0 NotManifest\n7.0 NotManifest\n8.0 NotManifest\n9.0 NotManifest\n10.0 NotManifest\n11.1 Same\n"
    );
    Ok(())
}

/// Whether the line of that place, from 0, tells this.
fn is_line(
    lines: &ManifestLines,
    k: usize,
    reference: u32,
    entry: u32,
    kind: ManifestKind,
) -> bool {
    lines.get(k).is_some_and(|line| {
        line.reference == reference && line.entry == entry && line.kind == kind
    })
}

/// Of 1,023 entries the last ones, two that are too many, and one more.
#[test]
fn limit(rt: HostRuntime) -> Result<(), Fail> {
    let alloc = rt.alloc();
    let mut object = String::new(alloc);
    for (id, times) in [("m256", 256), ("m255", 255), ("m2", 2), ("m1", 1)] {
        object.push_str(&manifest(alloc, id, &[("#a", "", OF_A)], times)?)?;
    }
    let document = document(
        alloc,
        &[
            ("#m256", ""),
            ("#m256", ""),
            ("#m256", ""),
            ("#m255", ""),
            ("#m2", ""),
            ("#m1", ""),
            ("#m1", ""),
        ],
        object.as_str(),
    )?;
    let mut folder = MemFolder::new(alloc);
    let Ok(lines) = checked(&rt, alloc, document.as_str(), &mut folder) else {
        panic!(rt);
    };
    assert_eq!(rt; lines.len(), 1026);
    assert!(rt; is_line(&lines, 0, 2, 1, ManifestKind::Same));
    assert!(rt; is_line(&lines, 1022, 5, 255, ManifestKind::Same));
    assert!(rt; is_line(&lines, 1023, 6, 0, ManifestKind::TooMany));
    assert!(rt; is_line(&lines, 1024, 7, 1, ManifestKind::Same));
    assert!(rt; is_line(&lines, 1025, 8, 0, ManifestKind::TooMany));
    Ok(())
}

/// A folder that fails at its first call.
#[test]
fn failure(rt: HostRuntime) -> Result<(), Fail> {
    let alloc = rt.alloc();
    let manifest = manifest(alloc, "m", &[("#a", "", OF_A), ("a.txt", "", OF_FILE)], 1)?;
    let document = document(alloc, &[("#m", "")], manifest.as_str())?;
    let mut folder = MemFolder::new(alloc);
    folder.add("a.txt", b"QUJD")?;
    folder.fail_call(0)?;
    assert!(rt;
        matches!(
            checked(&rt, alloc, document.as_str(), &mut folder),
            Err(ManifestStop::FetchFailed)
        )
    );
    Ok(())
}
