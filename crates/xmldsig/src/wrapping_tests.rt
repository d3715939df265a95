//! A signature that is wrapped, moved or written otherwise: the verdict is that of the octets that were signed.

use crate::signed_tests::{OBJECT, joined};
use crate::tests::{DOCUMENT, expect_refusal, expect_report, with_document};
use sig_base::NoMemory;
use std::alloc::Global;
use std::process::Abort;
use std::test::Fail;

const VALID: &str = "valid\nreference 1 octets 74\n";

/// A text with another in place of the first one of these.
fn with(
    rt: &impl Abort,
    alloc: Global,
    text: &str,
    old: &str,
    new: &str,
) -> Result<String, NoMemory> {
    let Some((front, back)) = text.split_once(old) else {
        panic!(rt; "{}", old);
    };
    joined(alloc, &[front, new, back])
}

#[test]
fn wrapped(rt: HostRuntime) -> Result<(), Fail> {
    let alloc = rt.alloc();
    for (before, behind, out) in [
        ("<x>", "</x>", VALID),
        ("<x xmlns:q=\"urn:q\">", "</x>", "invalid signature\n"),
    ] {
        let document = joined(alloc, &[before, DOCUMENT, behind])?;
        expect_report(&rt, alloc, with_document(&document), out)?;
    }
    let twice = joined(alloc, &["<x>", DOCUMENT, "<Object Id=\"obj\"/></x>"])?;
    let refusal = "refused reference 1 AmbiguousId 33 38\n";
    expect_refusal(&rt, alloc, with_document(&twice), refusal)?;
    Ok(())
}

#[test]
fn written_otherwise(rt: HostRuntime) -> Result<(), Fail> {
    let alloc = rt.alloc();
    let key = "</SignatureValue><KeyInfo><KeyName>k1</KeyName></KeyInfo>";
    for (old, new, out) in [
        ("</SignatureValue>", key, VALID),
        ("Hello", "<![CDATA[Hello]]>", VALID),
        (
            "</SignatureMethod>",
            "</SignatureMethod> ",
            "invalid signature\n",
        ),
    ] {
        let document = with(&rt, alloc, DOCUMENT, old, new)?;
        expect_report(&rt, alloc, with_document(&document), out)?;
    }
    let digest = with(
        &rt,
        alloc,
        DOCUMENT,
        "<DigestValue>KP",
        "<DigestValue>KP<?p?>",
    )?;
    expect_refusal(&rt, alloc, with_document(&digest), "refused Extra 27\n")?;
    let rest = with(&rt, alloc, DOCUMENT, OBJECT, "")?;
    let moved = joined(alloc, &[OBJECT, "<SignedInfo>"])?;
    let moved = with(&rt, alloc, &rest, "<SignedInfo>", &moved)?;
    let refusal = "refused Missing SignedInfo\n";
    expect_refusal(&rt, alloc, with_document(&moved), refusal)?;
    Ok(())
}
