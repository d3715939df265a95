//! The grammar of a signature's elements: each refusal, with the row of its element.

use crate::tests::{expect_refusal, with_document};
use sig_base::NoMemory;
use std::alloc::Global;
use std::test::Fail;

const HEAD: &str = "<Signature xmlns=\"http://www.w3.org/2000/09/xmldsig#\"><SignedInfo>";

const CANON: &str =
    "<CanonicalizationMethod Algorithm=\"http://www.w3.org/TR/2001/REC-xml-c14n-20010315\"/>";

const METHOD: &str =
    "<SignatureMethod Algorithm=\"http://www.w3.org/2001/04/xmldsig-more#hmac-sha256\"/>";

const DIGEST: &str = "<DigestMethod Algorithm=\"http://www.w3.org/2001/04/xmlenc#sha256\"/>";

const REFERENCE: &str =
    "<Reference URI=\"#a\"><DigestMethod Algorithm=\"http://www.w3.org/2001/04/xmlenc#sha256\"/><DigestValue>AA==</DigestValue></Reference>";

const VALUE: &str = "<DigestValue>AA==</DigestValue></Reference>";

const TAIL: &str = "</SignedInfo><SignatureValue>AA==</SignatureValue></Signature>";

/// The texts, one behind the other.
fn joined(alloc: Global, pieces: &[&str]) -> Result<String, NoMemory> {
    let mut text = String::new(alloc);
    for piece in pieces {
        text.push_str(piece)?;
    }
    Ok(text)
}

#[test]
fn signed_infos(rt: HostRuntime) -> Result<(), Fail> {
    let alloc = rt.alloc();
    for (canon, method, err) in [
        ("", METHOD, "refused Missing CanonicalizationMethod\n"),
        ("x", METHOD, "refused Extra 7\n"),
        (
            "<CanonicalizationMethod a:Algorithm=\"b\" xmlns:a=\"urn:a\"/>",
            METHOD,
            "refused NoAlgorithm 7\n",
        ),
        (
            "<CanonicalizationMethod Algorithm=\"http://www.w3.org/TR/2001/REC-xml-c14n-20010315\"><InclusiveNamespaces xmlns=\"http://www.w3.org/2001/10/xml-exc-c14n#\"/></CanonicalizationMethod>",
            METHOD,
            "refused Extra 11\n",
        ),
        (
            CANON,
            "<SignatureMethod Algorithm=\"http://www.w3.org/2001/04/xmldsig-more#rsa-sha256\"/>",
            "refused PublicKey 11\n",
        ),
        (
            CANON,
            "<SignatureMethod Algorithm=\"http://www.w3.org/2001/04/xmldsig-more#hmac-sha256\"><HMACOutputLength>84</HMACOutputLength></SignatureMethod>",
            "refused BadLength 15\n",
        ),
        (
            CANON,
            "<SignatureMethod Algorithm=\"http://www.w3.org/2001/04/xmldsig-more#hmac-sha256\"><HMACOutputLength>264</HMACOutputLength></SignatureMethod>",
            "refused BadLength 15\n",
        ),
    ] {
        let text = joined(alloc, &[HEAD, canon, method, REFERENCE, TAIL])?;
        expect_refusal(&rt, alloc, with_document(&text), err)?;
    }
    Ok(())
}

#[test]
fn references(rt: HostRuntime) -> Result<(), Fail> {
    let alloc = rt.alloc();
    for (reference, value, err) in [
        ("", "", "refused Missing Reference\n"),
        ("<Reference>", VALUE, "refused NoUri 15\n"),
        (
            "<Reference URI=\"#a\"><DigestMethod Algorithm=\"http://www.w3.org/2001/04/xmldsig-more#md5\"/>",
            VALUE,
            "refused UnknownMethod 19\n",
        ),
        (REFERENCE, "<KeyInfo/>", "refused Extra 27\n"),
    ] {
        let text = joined(alloc, &[HEAD, CANON, METHOD, reference, value, TAIL])?;
        expect_refusal(&rt, alloc, with_document(&text), err)?;
    }
    Ok(())
}

#[test]
fn contents_of_references(rt: HostRuntime) -> Result<(), Fail> {
    let alloc = rt.alloc();
    for (before, behind, err) in [
        (
            "",
            "<DigestValue>AA==</DigestValue><DigestValue>AA==</DigestValue>",
            "refused Extra 27\n",
        ),
        (
            "",
            "<Transforms/><DigestValue>AA==</DigestValue>",
            "refused Missing DigestValue\n",
        ),
        (
            "",
            "<DigestValue>QR==</DigestValue>",
            "refused BadBase64 23\n",
        ),
        (
            "<Transforms><Transform Algorithm=\"http://www.w3.org/TR/1999/REC-xslt-19991116\"/></Transforms>",
            "",
            "refused Xslt 22\n",
        ),
        (
            "<Transforms><Transform Algorithm=\"http://www.w3.org/2002/06/xmldsig-filter2\"><XPath xmlns=\"http://www.w3.org/2002/06/xmldsig-filter2\" Filter=\"all\">/</XPath></Transform></Transforms>",
            "",
            "refused BadFilter 26\n",
        ),
    ] {
        let text = joined(
            alloc,
            &[
                HEAD,
                CANON,
                METHOD,
                "<Reference URI=\"#a\">",
                before,
                DIGEST,
                behind,
                "</Reference>",
                TAIL,
            ],
        )?;
        expect_refusal(&rt, alloc, with_document(&text), err)?;
    }
    Ok(())
}

#[test]
fn signatures(rt: HostRuntime) -> Result<(), Fail> {
    let alloc = rt.alloc();
    for (rest, err) in [
        ("<SignedInfo/>", "refused Missing SignatureValue\n"),
        (
            "<SignatureValue>AA<a/>==</SignatureValue>",
            "refused Extra 31\n",
        ),
        (
            "<SignatureValue>AA==</SignatureValue><KeyInfo/><KeyInfo/>",
            "refused Extra 34\n",
        ),
        (
            "<SignatureValue>AA==</SignatureValue><KeyInfo>k</KeyInfo>",
            "refused Extra 34\n",
        ),
    ] {
        let text = joined(
            alloc,
            &[
                HEAD,
                CANON,
                METHOD,
                REFERENCE,
                "</SignedInfo>",
                rest,
                "</Signature>",
            ],
        )?;
        expect_refusal(&rt, alloc, with_document(&text), err)?;
    }
    Ok(())
}

/// So many times the same text.
fn repeated(alloc: Global, text: &str, count: u32) -> Result<String, NoMemory> {
    let mut all = String::new(alloc);
    for _ in 0..count {
        all.push_str(text)?;
    }
    Ok(all)
}

#[test]
fn limits(rt: HostRuntime) -> Result<(), Fail> {
    let alloc = rt.alloc();
    let references = repeated(alloc, REFERENCE, 257)?;
    let text = joined(alloc, &[HEAD, CANON, METHOD, &references, TAIL])?;
    expect_refusal(
        &rt,
        alloc,
        with_document(&text),
        "refused TooManyReferences\n",
    )?;
    let steps = repeated(
        alloc,
        "<Transform Algorithm=\"http://www.w3.org/2000/09/xmldsig#base64\"/>",
        17,
    )?;
    let text = joined(
        alloc,
        &[
            HEAD,
            CANON,
            METHOD,
            "<Reference URI=\"#a\"><Transforms>",
            &steps,
            "</Transforms></Reference>",
            TAIL,
        ],
    )?;
    expect_refusal(
        &rt,
        alloc,
        with_document(&text),
        "refused TooManyTransforms 86\n",
    )?;
    let filters = repeated(
        alloc,
        "<XPath xmlns=\"http://www.w3.org/2002/06/xmldsig-filter2\" Filter=\"union\"/>",
        17,
    )?;
    let text = joined(
        alloc,
        &[
            HEAD,
            CANON,
            METHOD,
            "<Reference URI=\"#a\"><Transforms><Transform Algorithm=\"http://www.w3.org/2002/06/xmldsig-filter2\">",
            &filters,
            "</Transform></Transforms></Reference>",
            TAIL,
        ],
    )?;
    expect_refusal(
        &rt,
        alloc,
        with_document(&text),
        "refused TooManyFilters 90\n",
    )?;
    Ok(())
}
