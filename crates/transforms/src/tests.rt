//! Views of References of documents that are read.

use crate::{RefRefusal, run_reference};
use bumpalo::Bump;
use dsig_fields::{Fields, nth_signature, read_fields};
use sig_base::{NoMemory, VecSink};
use sig_outside::MemFolder;
use std::alloc::Global;
use std::process::Abort;
use std::test::Fail;
use uri_refs::{Base, Catalog, Place};
use xml_doc::Doc;
use xml_read::read_document;

/// A signature with one Reference, of that URI and these Transforms.
fn signature(alloc: Global, uri: &str, transforms: &str) -> Result<String, NoMemory> {
    Ok(format!(in alloc;
        "<Signature xmlns=\"http://www.w3.org/2000/09/xmldsig#\"><SignedInfo><CanonicalizationMethod Algorithm=\"http://www.w3.org/TR/2001/REC-xml-c14n-20010315\"/><SignatureMethod Algorithm=\"http://www.w3.org/2001/04/xmldsig-more#hmac-sha256\"/><Reference URI=\"{}\">{}<DigestMethod Algorithm=\"http://www.w3.org/2001/04/xmlenc#sha256\"/><DigestValue/></Reference></SignedInfo><SignatureValue/></Signature>",
        uri, transforms
    )?)
}

const C10: &str = "<Transform Algorithm=\"http://www.w3.org/TR/2001/REC-xml-c14n-20010315\"/>";

const C10_COMMENTS: &str =
    "<Transform Algorithm=\"http://www.w3.org/TR/2001/REC-xml-c14n-20010315#WithComments\"/>";

const BASE64: &str = "<Transform Algorithm=\"http://www.w3.org/2000/09/xmldsig#base64\"/>";

const ENVELOPED: &str =
    "<Transform Algorithm=\"http://www.w3.org/2000/09/xmldsig#enveloped-signature\"/>";

/// The Transform of an expression, behind others; `d` is the prefix of signatures.
fn xpath(alloc: Global, before: &str, expression: &str) -> Result<String, NoMemory> {
    Ok(format!(in alloc;
        "{}<Transform Algorithm=\"http://www.w3.org/TR/1999/REC-xpath-19991116\"><XPath xmlns:d=\"http://www.w3.org/2000/09/xmldsig#\">{}</XPath></Transform>",
        before, expression
    )?)
}

/// The Transform of filters.
fn filters(alloc: Global, parts: &[(&str, &str)]) -> Result<String, NoMemory> {
    let mut text = String::from_str(
        alloc,
        "<Transform Algorithm=\"http://www.w3.org/2002/06/xmldsig-filter2\">",
    )?;
    for (kind, expression) in parts {
        text.push_str(&format!(in alloc;
            "<XPath xmlns=\"http://www.w3.org/2002/06/xmldsig-filter2\" Filter=\"{}\">{}</XPath>",
            kind, expression
        )?)?;
    }
    text.push_str("</Transform>")?;
    Ok(text)
}

/// The Transforms element of these steps.
fn transforms(alloc: Global, steps: &[&str]) -> Result<String, NoMemory> {
    let mut text = String::new(alloc);
    if steps.is_empty() {
        return Ok(text);
    }
    text.push_str("<Transforms>")?;
    for step in steps {
        text.push_str(step)?;
    }
    text.push_str("</Transforms>")?;
    Ok(text)
}

fn place(rt: &impl Abort, alloc: Global) -> Place {
    let (Ok(base), Ok(catalog)) = (
        Base::read(alloc, "https://folder.invalid/"),
        Catalog::read(alloc, b""),
    ) else {
        panic!(rt);
    };
    Place { base, catalog }
}

fn folder(alloc: Global) -> Result<MemFolder, NoMemory> {
    let mut folder = MemFolder::new(alloc);
    folder.add("a.txt", b"QU\nJD")?;
    folder.add("a.xml", b"<a></a >")?;
    folder.add("b.xml", b"<a>PGIvPg==</a>")?;
    folder.add("e.bin", b"")?;
    Ok(folder)
}

/// The view of the first Reference of the signature of that number, or its refusal in words.
fn told(rt: &impl Abort, alloc: Global, document: &str, index: u32) -> Result<String, NoMemory> {
    let bump = Bump::new(alloc);
    let Ok(doc) = read_document(alloc, &bump, document.as_bytes()) else {
        panic!(rt);
    };
    let Some(signature) = nth_signature(&doc, index) else {
        panic!(rt);
    };
    let Ok(fields) = read_fields(alloc, &doc, signature) else {
        panic!(rt);
    };
    let Some(reference) = fields.references.get(0) else {
        panic!(rt);
    };
    let mut folder = folder(alloc)?;
    let mut sink = VecSink::new(alloc);
    let place = place(rt, alloc);
    let text = match run_reference(
        alloc,
        &doc,
        Some(signature),
        reference,
        &place,
        &mut folder,
        &mut sink,
    ) {
        Ok(()) => match str::from_utf8(sink.finish().bytes()) {
            Ok(text) => format!(in alloc; "{}", text)?,
            Err(_) => format!(in alloc; "no text")?,
        },
        Err(refusal) => format!(in alloc; "{:?}", refusal)?,
    };
    Ok(text)
}

fn expect(
    rt: &impl Abort,
    alloc: Global,
    uri: &str,
    steps: &[&str],
    view: &str,
) -> Result<(), NoMemory> {
    let signature = signature(alloc, uri, transforms(alloc, steps)?.as_str())?;
    let document = format!(in alloc;
        "<r><a Id=\"a\">QU<!--c-->JD</a><b Id=\"b\"/><c Id=\"b\"/>{}</r>",
        signature
    )?;
    let found = told(rt, alloc, document.as_str(), 1)?;
    assert_eq!(rt; found.as_str(), view, "{uri}");
    Ok(())
}

#[test]
fn views(rt: HostRuntime) -> Result<(), Fail> {
    let alloc = rt.alloc();
    for (uri, steps, view) in [
        ("#a", [].as_slice(), "<a Id=\"a\">QUJD</a>"),
        ("#xpointer(id('a'))", &[], "<a Id=\"a\">QUJD</a>"),
        (
            "#xpointer(id('a'))",
            &[C10_COMMENTS],
            "<a Id=\"a\">QU<!--c-->JD</a>",
        ),
        ("#a", &[C10_COMMENTS], "<a Id=\"a\">QUJD</a>"),
        ("#a", &[BASE64], "ABC"),
        ("#a", &[C10, BASE64], "NotBase64(2)"),
        ("#a", &[ENVELOPED, BASE64], "ABC"),
        ("#a", &[C10, ENVELOPED], "EnvelopedElsewhere(2)"),
        ("#b", &[], "AmbiguousId(9, 12)"),
        ("#z", &[], "NoSuchId"),
        ("#xpointer(//a)", &[], "Uri(UnknownPointer)"),
        (
            "",
            &[ENVELOPED],
            "<r><a Id=\"a\">QUJD</a><b Id=\"b\"></b><c Id=\"b\"></c></r>",
        ),
        ("a.txt", &[], "QU\nJD"),
        ("a.txt", &[BASE64], "ABC"),
        ("a.txt", &[C10], "Read { step: 1, cause: NotWellFormed }"),
        ("a.xml", &[], "<a></a >"),
        ("a.xml", &[C10], "<a></a>"),
        ("a.xml", &[C10, BASE64], "NotBase64(2)"),
        ("a.xml", &[ENVELOPED], "EnvelopedElsewhere(1)"),
        ("b.xml", &[C10, C10, ENVELOPED], "EnvelopedElsewhere(3)"),
        ("e.bin", &[], ""),
        (
            "e.bin",
            &[BASE64, BASE64, C10],
            "Read { step: 3, cause: NotWellFormed }",
        ),
        ("none", &[BASE64], "Absent"),
    ] {
        expect(&rt, alloc, uri, steps, view)?;
    }
    Ok(())
}

/// A chain that goes from a set to octets, to a document, and to octets again.
#[test]
fn from_octets_to_nodes_and_back(rt: HostRuntime) -> Result<(), Fail> {
    let alloc = rt.alloc();
    let signature = signature(alloc, "#x", transforms(alloc, &[BASE64, C10])?.as_str())?;
    let document = format!(in alloc; "<r><x Id=\"x\">PGI+<y>PC9i</y>ID4=</x>{}</r>", signature)?;
    assert_eq!(rt; told(&rt, alloc, document.as_str(), 1)?.as_str(), "<b></b>");
    Ok(())
}

#[test]
fn two_signatures_in_one_document(rt: HostRuntime) -> Result<(), Fail> {
    let alloc = rt.alloc();
    let steps = transforms(alloc, &[ENVELOPED, C10])?;
    let signature = signature(alloc, "", steps.as_str())?;
    let document = format!(in alloc; "<doc>{}-{}</doc>", signature, signature)?;
    let first = told(&rt, alloc, document.as_str(), 1)?;
    let second = told(&rt, alloc, document.as_str(), 2)?;
    assert!(rt; first.as_str().starts_with("<doc>-<Signature"));
    assert!(rt; second.as_str().ends_with("</Signature>-</doc>"));
    Ok(())
}

#[test]
fn xpath_filtering(rt: HostRuntime) -> Result<(), Fail> {
    let alloc = rt.alloc();
    for (uri, before, expression, view) in [
        ("#a", "", "self::text()", "QUJD"),
        ("#a", C10, "self::text()", "QUJD"),
        (
            "",
            "",
            "not(ancestor-or-self::d:Signature)",
            "<r><a Id=\"a\">QUJD</a><b Id=\"b\"></b><c Id=\"b\"></c></r>",
        ),
        (
            "#a",
            "",
            "count(here()/ancestor::*) > 5",
            "<a Id=\"a\">QUJD</a>",
        ),
        ("#a", "", "name(here()) = 'XPath' and self::a", "<a></a>"),
        (
            "#a",
            "",
            "1 | 2",
            "Eval { step: 1, part: 1, cause: NotNodes }",
        ),
        (
            "#a",
            C10,
            "here()",
            "Eval { step: 2, part: 1, cause: HereElsewhere }",
        ),
        (
            "a.xml",
            "",
            "count(here()/ancestor::*) > 0",
            "Eval { step: 1, part: 1, cause: HereElsewhere }",
        ),
        (
            "#a",
            "",
            "1 +",
            "Syntax { step: 1, part: 1, cause: NotXPath }",
        ),
        (
            "#a",
            "",
            "e:a",
            "Syntax { step: 1, part: 1, cause: UnboundPrefix }",
        ),
        (
            "#a",
            C10,
            "1 div 1",
            "Syntax { step: 2, part: 1, cause: Div }",
        ),
        ("a.txt", "", "1 +", "Read { step: 1, cause: NotWellFormed }"),
    ] {
        let steps = xpath(alloc, before, expression)?;
        expect(&rt, alloc, uri, &[steps.as_str()], view)?;
    }
    Ok(())
}

#[test]
fn filtering_by_subtrees(rt: HostRuntime) -> Result<(), Fail> {
    let alloc = rt.alloc();
    for (uri, parts, view) in [
        ("", [("intersect", "//b")].as_slice(), "<b Id=\"b\"></b>"),
        ("#a", &[("intersect", "/")], "<a Id=\"a\">QUJD</a>"),
        (
            "",
            &[("intersect", "//a"), ("union", "//b")],
            "<a Id=\"a\">QUJD</a><b Id=\"b\"></b>",
        ),
        (
            "",
            &[("intersect", "/r/a"), ("subtract", "//text()")],
            "<a Id=\"a\"></a>",
        ),
        (
            "#a",
            &[("subtract", "/r/a"), ("union", "/r/a")],
            "<a Id=\"a\">QUJD</a>",
        ),
        ("#a", &[("union", "/r/a"), ("subtract", "/r/a")], ""),
        (
            "",
            &[("intersect", "here()/ancestor::*[last()]/b")],
            "<b Id=\"b\"></b>",
        ),
        (
            "a.xml",
            &[("union", "/"), ("intersect", "here()")],
            "Eval { step: 1, part: 2, cause: HereElsewhere }",
        ),
        (
            "",
            &[("intersect", "/"), ("union", "'x'")],
            "Eval { step: 1, part: 2, cause: NotNodes }",
        ),
        (
            "",
            &[("intersect", "1 | 2"), ("union", "1 +")],
            "Syntax { step: 1, part: 2, cause: NotXPath }",
        ),
    ] {
        let step = filters(alloc, parts)?;
        expect(&rt, alloc, uri, &[step.as_str()], view)?;
    }
    Ok(())
}
