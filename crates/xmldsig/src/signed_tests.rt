//! Signatures that another implementation made or confirmed.

use crate::tests::{Given, expect_refusal, expect_report, with_document};
use sig_base::NoMemory;
use std::alloc::Global;
use std::test::Fail;

const SHA1: &str = "http://www.w3.org/2000/09/xmldsig#hmac-sha1";

const SHA224: &str = "http://www.w3.org/2001/04/xmldsig-more#hmac-sha224";

pub(crate) const SHA256: &str = "http://www.w3.org/2001/04/xmldsig-more#hmac-sha256";

const SHA384: &str = "http://www.w3.org/2001/04/xmldsig-more#hmac-sha384";

const SHA512: &str = "http://www.w3.org/2001/04/xmldsig-more#hmac-sha512";

const DIGEST_1: &str = "http://www.w3.org/2000/09/xmldsig#sha1";

const DIGEST_224: &str = "http://www.w3.org/2001/04/xmldsig-more#sha224";

pub(crate) const DIGEST: &str = "http://www.w3.org/2001/04/xmlenc#sha256";

const DIGEST_384: &str = "http://www.w3.org/2001/04/xmldsig-more#sha384";

const DIGEST_512: &str = "http://www.w3.org/2001/04/xmlenc#sha512";

pub(crate) const C10: &str = "http://www.w3.org/TR/2001/REC-xml-c14n-20010315";

const COMMENTS: &str = "http://www.w3.org/TR/2001/REC-xml-c14n-20010315#WithComments";

const EXCLUSIVE: &str = "http://www.w3.org/2001/10/xml-exc-c14n#";

pub(crate) const OBJECT: &str = "<Object Id=\"obj\">Hello</Object>";

pub(crate) const HELLO: &str = "KPGpYHC4zFc1Lx40u3xQYEP5QdfHx+102bWKBRRWYzE=";

pub(crate) const TWO: &str = "2QulphdLXJlGvsUNxklMRlHAAkVxfR6ZAOHfYeDrJ4A=";

/// The texts, one behind the other.
pub(crate) fn joined(alloc: Global, pieces: &[&str]) -> Result<String, NoMemory> {
    let mut text = String::new(alloc);
    for piece in pieces {
        text.push_str(piece)?;
    }
    Ok(text)
}

/// A Reference.
pub(crate) fn reference(
    alloc: Global,
    uri: &str,
    method: &str,
    value: &str,
) -> Result<String, NoMemory> {
    joined(
        alloc,
        &[
            "<Reference URI=\"",
            uri,
            "\"><DigestMethod Algorithm=\"",
            method,
            "\"></DigestMethod><DigestValue>",
            value,
            "</DigestValue></Reference>",
        ],
    )
}

/// A Signature: the canonicalization method, the signature method and its content, the References, the value, and what
/// stands behind it.
pub(crate) fn signature(
    alloc: Global,
    canonicalization: &str,
    method: &str,
    length: &str,
    references: &str,
    value: &str,
    rest: &str,
) -> Result<String, NoMemory> {
    joined(
        alloc,
        &[
            "<Signature xmlns=\"http://www.w3.org/2000/09/xmldsig#\"><SignedInfo><CanonicalizationMethod Algorithm=\"",
            canonicalization,
            "\"></CanonicalizationMethod><SignatureMethod Algorithm=\"",
            method,
            "\">",
            length,
            "</SignatureMethod>",
            references,
            "</SignedInfo><SignatureValue>",
            value,
            "</SignatureValue>",
            rest,
            "</Signature>",
        ],
    )
}

/// The same with one Reference to an Object of this content.
fn enveloping(
    alloc: Global,
    canonicalization: &str,
    digest: &str,
    value: &str,
    content: &str,
) -> Result<String, NoMemory> {
    let references = reference(alloc, "#obj", DIGEST, digest)?;
    let object = joined(alloc, &["<Object Id=\"obj\">", content, "</Object>"])?;
    signature(
        alloc,
        canonicalization,
        SHA256,
        "",
        &references,
        value,
        &object,
    )
}

#[test]
fn methods(rt: HostRuntime) -> Result<(), Fail> {
    let alloc = rt.alloc();
    for (method, digest, digest_value, value) in [
        (
            SHA1,
            DIGEST_512,
            "BHMt+J8oEv8qoaxTjkRYy8KnDgug4cE1zF1nzXmLIo9IQZAtHFOzUnk5X8L+p1A7WQMjIPY/IBX0har0/a+xvg==",
            "ObrXIU5pGk4VMs0TDhq7xLIZoA4=",
        ),
        (
            SHA224,
            DIGEST_384,
            "3x4o/s9hlv1g/eOmHIZDsdA8HogD9D16y9n82RC4gWuCT9vc06E3Rroh3dms1UBl",
            "3TuzV/DmNBjO+wLMgdq0eqOn8ACo5QwogdtaXw==",
        ),
        (
            SHA256,
            DIGEST,
            HELLO,
            "00GnRGdIVNGKRGKgqCbmGfLNkHv09Rp5nkK/V9znGkM=",
        ),
        (
            SHA384,
            DIGEST_224,
            "t9x9/nm2vOsroKfduj/bEmGZmoT7cnbYs7Sobw==",
            "mVNvZwjfRA9416diVsZDw24CmoGu45cYtU8auPRjRky+ipMZlK8Qy3ggWE58fjdE",
        ),
        (
            SHA512,
            DIGEST_1,
            "tuAUsthzy6/h/5QHt9sgl8Zz89E=",
            "EA2KzD4LAD87jFFz06kN7MCBRjjPANimKe5uo4/A+KUYIF8XP3MSG0e6n+bikuj/L2uPlBZMZq2sFPR8O4Qd3A==",
        ),
    ] {
        let references = reference(alloc, "#obj", digest, digest_value)?;
        let text = signature(alloc, C10, method, "", &references, value, OBJECT)?;
        expect_report(
            &rt,
            alloc,
            with_document(&text),
            "valid\nreference 1 octets 74\n",
        )?;
    }
    Ok(())
}

#[test]
fn lengths(rt: HostRuntime) -> Result<(), Fail> {
    let alloc = rt.alloc();
    let references = reference(alloc, "#obj", DIGEST, HELLO)?;
    for (method, length, value, out) in [
        (
            SHA256,
            "<HMACOutputLength>128</HMACOutputLength>",
            "A5XhO/G8NREEMekO2dVkVg==",
            "valid\nreference 1 octets 74\n",
        ),
        (
            SHA256,
            "<HMACOutputLength>120</HMACOutputLength>",
            "17ZB4+A6VE3NiMpl1Odx",
            "invalid truncation 120\n",
        ),
        (
            SHA1,
            "<HMACOutputLength>80</HMACOutputLength>",
            "L6MbmJ1+kMLBUw==",
            "valid\nreference 1 octets 74\n",
        ),
        (
            SHA512,
            "<HMACOutputLength>256</HMACOutputLength>",
            "5LaiVueUDjrpA9ad6cS3GlKoxW7Lsc1/7GXvN+axhbM=",
            "valid\nreference 1 octets 74\n",
        ),
        (
            SHA512,
            "<HMACOutputLength>248</HMACOutputLength>",
            "mzCcfFvq4sBLXW6vQs1XWgkzEDUqDk+NQyx+pUUOnw==",
            "invalid truncation 248\n",
        ),
        (
            SHA512,
            "<HMACOutputLength>0</HMACOutputLength>",
            "",
            "invalid truncation 0\n",
        ),
    ] {
        let text = signature(alloc, C10, method, length, &references, value, OBJECT)?;
        expect_report(&rt, alloc, with_document(&text), out)?;
    }
    Ok(())
}

#[test]
fn contents(rt: HostRuntime) -> Result<(), Fail> {
    let alloc = rt.alloc();
    for (canonicalization, digest, value, content, out) in [
        (
            C10,
            "Qzr1s7yCzc2HPdbE/5Mdk3NCMa9fBdfkbCdcJ9qkx1w=",
            "mSfv1V302H84u98jtillbiPNKaCTSSRfx6S96jLxfDI=",
            "<p:a xmlns:p=\"urn:p\" b=\"&#x9;\"/>",
            "valid\nreference 1 octets 106\n",
        ),
        (
            EXCLUSIVE,
            "IaKR3Zu9ZI3hDodLUZs+4bxCMfRmE7a7YA/kr/Rt81s=",
            "IURG8QM7E5K3LLJ01Bb3X+EiK+sqZpPoKPHVkhhHUS4=",
            "<!--c-->Hello<?p q?>",
            "valid\nreference 1 octets 81\n",
        ),
        (
            COMMENTS,
            HELLO,
            "qkPFrxMSnpTL3KZQ40hA8KAtcQJLFB59qulPzX7DwYc=",
            "Hello",
            "valid\nreference 1 octets 74\n",
        ),
        (
            COMMENTS,
            "KPGp<!--c-->YHC4zFc1Lx40u3xQYEP5QdfHx+102bWKBRRWYzE=",
            "qkPFrxMSnpTL3KZQ40hA8KAtcQJLFB59qulPzX7DwYc=",
            "Hello",
            "invalid signature\n",
        ),
    ] {
        let text = enveloping(alloc, canonicalization, digest, value, content)?;
        expect_report(&rt, alloc, with_document(&text), out)?;
    }
    Ok(())
}

#[test]
fn two_references(rt: HostRuntime) -> Result<(), Fail> {
    let alloc = rt.alloc();
    for (first, second, value, out) in [
        (
            HELLO,
            TWO,
            "6DRoVyEJ5ashFnKl0ZsxsyQmqK1UXe9jDduV2+mR768=",
            "valid\nreference 1 octets 74\nreference 2 octets 72\n",
        ),
        (
            TWO,
            TWO,
            "E1B66OlwoXI+Jqzf0zAXrRKMu7tmVtx/jexcml9SlM8=",
            "invalid digests 1\n",
        ),
        (
            TWO,
            HELLO,
            "34qaM4dLfy11lrJtwuM44m3iNrMKK2YaBVke13+mwKo=",
            "invalid digests 1 2\n",
        ),
    ] {
        let one = reference(alloc, "#obj", DIGEST, first)?;
        let two = reference(alloc, "#two", DIGEST, second)?;
        let references = joined(alloc, &[&one, &two])?;
        let objects = joined(alloc, &[OBJECT, "<Object Id=\"two\">Two</Object>"])?;
        let text = signature(alloc, C10, SHA256, "", &references, value, &objects)?;
        expect_report(&rt, alloc, with_document(&text), out)?;
    }
    Ok(())
}

#[test]
fn references_that_are_refused(rt: HostRuntime) -> Result<(), Fail> {
    let alloc = rt.alloc();
    for (uri, value, rest, err) in [
        (
            "#none",
            "2BQPJ6BFks+p9+EuuiIB3YiFXP83SjGhst7QMHRld7I=",
            OBJECT,
            "refused reference 1 NoSuchId\n",
        ),
        (
            "#obj",
            "00GnRGdIVNGKRGKgqCbmGfLNkHv09Rp5nkK/V9znGkM=",
            "<Object Id=\"obj\">Hello</Object><Object Id=\"obj\"/>",
            "refused reference 1 AmbiguousId 31 36\n",
        ),
    ] {
        let references = reference(alloc, uri, DIGEST, HELLO)?;
        let text = signature(alloc, C10, SHA256, "", &references, value, rest)?;
        expect_refusal(&rt, alloc, with_document(&text), err)?;
    }
    Ok(())
}

#[test]
fn names_of_keys(rt: HostRuntime) -> Result<(), Fail> {
    let alloc = rt.alloc();
    let references = reference(alloc, "#obj", DIGEST, HELLO)?;
    let value = "T/fOeJj6RQ3V7oVzddjXltWur1QiInQ+dKV1e7vVyt4=";
    let keys = Some("4a656665 k1\n4b32 k2\n");
    let named =
        "<KeyInfo><KeyValue>passed over</KeyValue><KeyName>k<!-- -->2</KeyName><KeyName>k1</KeyName></KeyInfo>";
    let rest = joined(alloc, &[named, OBJECT])?;
    let text = signature(alloc, C10, SHA256, "", &references, value, &rest)?;
    let given_keys = Given {
        keys,
        ..with_document(&text)
    };
    expect_report(&rt, alloc, given_keys, "valid\nreference 1 octets 74\n")?;
    expect_refusal(&rt, alloc, with_document(&text), "refused UnknownKey\n")?;
    Ok(())
}

/// A report, up to the Transform of its signature's one Reference.
const REPORT: &str =
    "<report xmlns=\"urn:example:report\">\n  <finding number=\"1\">The seal of tank 4 is worn.<note>Ordered on Monday.</note></finding>\n  <finding number=\"2\">No fault at tank 5.</finding>\n  <Signature xmlns=\"http://www.w3.org/2000/09/xmldsig#\">\n    <SignedInfo>\n      <CanonicalizationMethod Algorithm=\"http://www.w3.org/2001/10/xml-exc-c14n#\"/>\n      <SignatureMethod Algorithm=\"http://www.w3.org/2001/04/xmldsig-more#hmac-sha256\"/>\n      <Reference URI=\"\">\n        <Transforms>\n";

const BY_EXPRESSION: &str =
    "          <Transform Algorithm=\"http://www.w3.org/TR/1999/REC-xpath-19991116\">\n            <XPath xmlns:r=\"urn:example:report\" xmlns:d=\"http://www.w3.org/2000/09/xmldsig#\">not(ancestor-or-self::r:note or ancestor-or-self::d:Signature)</XPath>\n          </Transform>\n";

const BY_FILTERS: &str =
    "          <Transform Algorithm=\"http://www.w3.org/2002/06/xmldsig-filter2\">\n            <XPath xmlns=\"http://www.w3.org/2002/06/xmldsig-filter2\" Filter=\"subtract\">here()/ancestor::*[local-name()='Signature'][1]</XPath>\n            <XPath xmlns=\"http://www.w3.org/2002/06/xmldsig-filter2\" xmlns:r=\"urn:example:report\" Filter=\"subtract\">//r:note</XPath>\n          </Transform>\n";

const DIGESTED: &str =
    "        </Transforms>\n        <DigestMethod Algorithm=\"http://www.w3.org/2001/04/xmlenc#sha256\"/>\n        <DigestValue>NQ2QJiGrbkcFVrGptzREJSqTQA9vmTOaXlbqdTeSNns=</DigestValue>\n      </Reference>\n    </SignedInfo>\n    <SignatureValue>";

#[test]
fn parts_of_a_report(rt: HostRuntime) -> Result<(), Fail> {
    let alloc = rt.alloc();
    for (transform, value) in [
        (
            BY_EXPRESSION,
            "ETIMcyPSk32qoeCQZfvY9HdabFQt3Dyhl54enTTWEpA=",
        ),
        (BY_FILTERS, "/Da0P+ZZeeXzxt16p7wrjwj/Xm6WcnLae6u4dHB4ZDk="),
    ] {
        let end = "</SignatureValue>\n  </Signature>\n</report>\n";
        let text = joined(alloc, &[REPORT, transform, DIGESTED, value, end])?;
        expect_report(
            &rt,
            alloc,
            with_document(&text),
            "valid\nreference 1 octets 160\n",
        )?;
    }
    Ok(())
}
