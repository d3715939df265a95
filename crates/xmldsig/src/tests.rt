//! Whole runs over the forms in memory.

use crate::ending::Status;
use crate::top::run;
use bumpalo::Bump;
use dsig_fields::{Info, read_info};
use sig_base::{CanonMethod, MacMethod, NoMemory};
use sig_outside::{MemFolder, MemKeeper, MemSink};
use std::alloc::Global;
use std::process::Abort;
use std::test::Fail;
use xml_doc::Doc;
use xml_read::read_document;

/// The enveloping example, of which each test may change a part.
pub(crate) const DOCUMENT: &str =
    "<Signature xmlns=\"http://www.w3.org/2000/09/xmldsig#\"><SignedInfo><CanonicalizationMethod Algorithm=\"http://www.w3.org/TR/2001/REC-xml-c14n-20010315\"></CanonicalizationMethod><SignatureMethod Algorithm=\"http://www.w3.org/2001/04/xmldsig-more#hmac-sha256\"></SignatureMethod><Reference URI=\"#obj\"><DigestMethod Algorithm=\"http://www.w3.org/2001/04/xmlenc#sha256\"></DigestMethod><DigestValue>KPGpYHC4zFc1Lx40u3xQYEP5QdfHx+102bWKBRRWYzE=</DigestValue></Reference></SignedInfo><SignatureValue>00GnRGdIVNGKRGKgqCbmGfLNkHv09Rp5nkK/V9znGkM=</SignatureValue><Object Id=\"obj\">Hello</Object></Signature>";

pub(crate) const KEYS: &str = "4a656665 k1\n";

pub(crate) const USAGE: &str = "usage: xmldsig validate|sign|canon|template|selftest\n";

/// What a run is given: the files that the folder holds, and which call fails.
#[derive(Clone, Copy)]
pub(crate) struct Given<'g> {
    pub(crate) document: Option<&'g str>,
    pub(crate) keys: Option<&'g str>,
    pub(crate) command: &'g str,
    pub(crate) folder_fails: bool,
    pub(crate) out_fails: bool,
}

/// A document and the key file of the examples.
pub(crate) fn with_document<'g>(document: &'g str) -> Given<'g> {
    Given {
        document: Some(document),
        keys: Some(KEYS),
        command: "validate",
        folder_fails: false,
        out_fails: false,
    }
}

fn folder_of(alloc: Global, given: &Given<'_>) -> Result<MemFolder, NoMemory> {
    let mut folder = MemFolder::new(alloc);
    if let Some(document) = given.document {
        folder.add("d.xml", document.as_bytes())?;
    }
    if let Some(keys) = given.keys {
        folder.add("k.txt", keys.as_bytes())?;
    }
    if given.folder_fails {
        folder.fail_call(0)?;
    }
    Ok(folder)
}

fn words_of(alloc: Global, command: &str) -> Result<Vec<String>, NoMemory> {
    let mut words = Vec::new(alloc);
    for word in [command, "d.xml", "--keys", "k.txt"] {
        words.push(String::from_str(alloc, word)?)?;
    }
    Ok(words)
}

fn sink(alloc: Global, fails: bool) -> Result<MemSink, NoMemory> {
    let mut sink = MemSink::with_room(alloc, 100)?;
    if fails {
        sink.fail_call(0)?;
    }
    Ok(sink)
}

/// Runs, and asserts the status, what stands on out and on err, and how many names were asked for.
pub(crate) fn expect(
    rt: &impl Abort,
    alloc: Global,
    given: Given<'_>,
    status: Status,
    out: &str,
    err: &str,
    asked: usize,
) -> Result<(), NoMemory> {
    let mut folder = folder_of(alloc, &given)?;
    let words = words_of(alloc, given.command)?;
    let mut keepers: Vec<MemKeeper> = Vec::new(alloc);
    let mut on_out = sink(alloc, given.out_fails)?;
    let mut on_err = sink(alloc, false)?;
    let found = run(
        alloc,
        &words,
        &mut folder,
        &mut keepers,
        &mut on_out,
        &mut on_err,
    );
    assert!(rt; on_out.bytes() == out.as_bytes(), "{}{}", out, err);
    assert!(rt; on_err.bytes() == err.as_bytes(), "{}{}", out, err);
    assert_eq!(rt; found, status);
    assert!(rt; folder.asked_name(0) == if asked > 0 { Some("d.xml") } else { None });
    assert!(rt; folder.asked_name(1) == if asked > 1 { Some("k.txt") } else { None });
    assert!(rt; folder.asked_name(2).is_none());
    Ok(())
}

/// A run that validates: this is what stands on out, and it is valid where it begins so.
pub(crate) fn expect_report(
    rt: &impl Abort,
    alloc: Global,
    given: Given<'_>,
    out: &str,
) -> Result<(), NoMemory> {
    let status = if out.as_bytes().starts_with(b"valid") {
        Status::Valid
    } else {
        Status::Invalid
    };
    expect(rt, alloc, given, status, out, "", 2)
}

/// A run that is refused behind both files: this is what stands on err.
pub(crate) fn expect_refusal(
    rt: &impl Abort,
    alloc: Global,
    given: Given<'_>,
    err: &str,
) -> Result<(), NoMemory> {
    expect(rt, alloc, given, Status::Refused, "", err, 2)
}

/// The example with one piece of it replaced.
fn replaced(alloc: Global, piece: &str, by: &str) -> Result<String, NoMemory> {
    let mut text = String::new(alloc);
    if let Some((before, behind)) = DOCUMENT.split_once(piece) {
        text.push_str(before)?;
        text.push_str(by)?;
        text.push_str(behind)?;
    }
    Ok(text)
}

#[test]
fn reports(rt: HostRuntime) -> Result<(), Fail> {
    let alloc = rt.alloc();
    for (piece, by, out) in [
        ("Hello", "Hello", "valid\nreference 1 octets 74\n"),
        (
            "\">Hello",
            "\" >&#72;el<![CDATA[lo]]>",
            "valid\nreference 1 octets 74\n",
        ),
        ("Hello", "Hallo", "invalid digests 1\n"),
        ("GkM=", "GkI=", "invalid signature\n"),
        (
            "00GnRGdIVNGKRGKgqCbmGfLNkHv09Rp5nkK/V9znGkM=",
            "",
            "invalid signature\n",
        ),
        ("KPGp", "K<!--c-->PGp", "valid\nreference 1 octets 74\n"),
    ] {
        let text = replaced(alloc, piece, by)?;
        expect_report(&rt, alloc, with_document(&text), out)?;
    }
    Ok(())
}

#[test]
fn files_that_are_refused(rt: HostRuntime) -> Result<(), Fail> {
    let alloc = rt.alloc();
    let no_document = Given {
        document: None,
        ..with_document("")
    };
    expect(
        &rt,
        alloc,
        no_document,
        Status::Refused,
        "",
        "refused NoDocument\n",
        1,
    )?;
    let no_keys = Given {
        keys: None,
        ..with_document(DOCUMENT)
    };
    expect_refusal(&rt, alloc, no_keys, "refused NoKeys\n")?;
    for (keys, err) in [
        ("4a6 k", "refused KeyBadLine 1\n"),
        ("4a k\n4b k\n", "refused KeyRepeated 2 1\n"),
        ("", "refused NoKey\n"),
        ("4a656665 k1\n4a k2\n", "refused NoKey\n"),
    ] {
        let keys = Given {
            keys: Some(keys),
            ..with_document(DOCUMENT)
        };
        expect_refusal(&rt, alloc, keys, err)?;
    }
    Ok(())
}

#[test]
fn faults(rt: HostRuntime) -> Result<(), Fail> {
    let alloc = rt.alloc();
    let no_command = Given {
        command: "check",
        ..with_document(DOCUMENT)
    };
    expect(&rt, alloc, no_command, Status::Usage, "", USAGE, 0)?;
    let folder_fails = Given {
        folder_fails: true,
        ..with_document(DOCUMENT)
    };
    expect(
        &rt,
        alloc,
        folder_fails,
        Status::ReadFault,
        "",
        "fault read\n",
        1,
    )?;
    let out_fails = Given {
        out_fails: true,
        ..with_document(DOCUMENT)
    };
    expect(
        &rt,
        alloc,
        out_fails,
        Status::WriteFault,
        "",
        "fault write\n",
        2,
    )?;
    Ok(())
}

#[test]
fn documents_that_are_refused(rt: HostRuntime) -> Result<(), Fail> {
    for (text, err) in [
        ("", "refused NotWellFormed\n"),
        ("<a><b></a>", "refused NotWellFormed\n"),
        ("<!DOCTYPE a><a>", "refused DocType\n"),
        (
            "<?xml version='1.0' encoding='UTF-16'?><a/>",
            "refused Encoding\n",
        ),
        ("<p:a/>", "refused Namespaces\n"),
        ("<a xmlns='a'/>", "refused Namespaces\n"),
        ("<Signature/>", "refused NoSignature\n"),
    ] {
        expect_refusal(&rt, rt.alloc(), with_document(text), err)?;
    }
    Ok(())
}

/// Asserts what the SignedInfo of the enveloping example says.
fn expect_info(rt: &impl Abort, info: &Info) {
    assert!(rt; info.canon == CanonMethod::C10);
    assert!(rt; info.mac == MacMethod::HmacSha256);
    assert!(rt; info.bits.is_none());
    let Some(reference) = info.references.get(0) else {
        panic!(rt);
    };
    assert!(rt; reference.uri.as_str() == "#obj");
    assert!(rt; info.references.get(1).is_none());
}

/// Reads the SignedInfo of the enveloping example, which is row 4.
fn expect_info_of_rows(rt: &impl Abort, alloc: Global, doc: &Doc<'_>) {
    if doc.rows() <= 4 {
        panic!(rt);
    }
    match read_info(alloc, doc, 4) {
        Ok(info) => expect_info(rt, &info),
        Err(_) => panic!(rt),
    }
}

#[test]
fn signed_info_alone(rt: HostRuntime) {
    let alloc = rt.alloc();
    let bump = Bump::new(alloc);
    match read_document(alloc, &bump, DOCUMENT.as_bytes()) {
        Ok(doc) => expect_info_of_rows(&rt, alloc, &doc),
        Err(_) => panic!(rt),
    }
}
