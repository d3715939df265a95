//! Canonical forms of sets of rows of documents that are read, in the six methods.

use bumpalo::Bump;
use c14n_methods::canon;
use node_sets::NodeSet;
use sig_base::{CanonMethod, LenSink, Members, NoMemory, VecSink};
use std::alloc::Global;
use std::process::Abort;
use std::test::Fail;
use xml_doc::{Doc, IdAnswer, Kind};
use xml_read::read_document;

/// Which rows of a document are in the set.
#[derive(Clone, Copy)]
enum Rows {
    /// Those of the subtree of the element with the ID `k`.
    Element,
    /// All but those from the first number to before the second.
    But(u32, u32),
}

/// Puts a row of the set's document into the set.
fn insert(set: &mut NodeSet<'_>, row: u32) {
    if row < set.lend().rows() {
        set.insert(row);
    }
}

/// All rows but these.
fn all_but<'d>(
    alloc: Global,
    doc: &'d Doc<'d>,
    from: u32,
    until: u32,
) -> Result<NodeSet<'d>, NoMemory> {
    let mut set = NodeSet::empty(alloc, doc)?;
    for row in 0..doc.rows() {
        if row < from || until <= row {
            insert(&mut set, row);
        }
    }
    Ok(set)
}

/// The set of these rows.
fn set_of<'d>(alloc: Global, doc: &'d Doc<'d>, rows: Rows) -> Result<NodeSet<'d>, NoMemory> {
    match rows {
        Rows::Element => match doc.element_by_id("k") {
            IdAnswer::One(element) if element < doc.rows() => NodeSet::subtree(alloc, doc, element),
            _ => NodeSet::empty(alloc, doc),
        },
        Rows::But(from, until) => all_but(alloc, doc, from, until),
    }
}

/// Asserts the canonical form of these rows of a document.
fn expect_form(
    rt: &impl Abort,
    alloc: Global,
    doc: &Doc<'_>,
    method: CanonMethod,
    rows: Rows,
    form: &str,
) -> Result<(), NoMemory> {
    let prefixes = Members::new(alloc);
    assert!(rt; prefixes.is_empty());
    let set = set_of(alloc, doc, rows)?;
    let mut sink = VecSink::new(alloc);
    assert!(rt;
        canon(alloc, method, &prefixes, set.lend(), &mut sink).is_ok(),
        "{}",
        form
    );
    assert!(rt; sink.finish().bytes() == form.as_bytes(), "{}", form);
    Ok(())
}

/// Reads the document, and asserts the canonical form of these rows of it.
fn expect(
    rt: &impl Abort,
    alloc: Global,
    text: &str,
    method: CanonMethod,
    rows: Rows,
    form: &str,
) -> Result<(), NoMemory> {
    let bump = Bump::new(alloc);
    match read_document(alloc, &bump, text.as_bytes()) {
        Ok(doc) => expect_form(rt, alloc, &doc, method, rows, form),
        Err(_) => panic!(rt),
    }
}

/// An element that is left out, with its namespace rows or without.
#[test]
fn omitted_elements(rt: HostRuntime) -> Result<(), Fail> {
    use CanonMethod::{C10, C11, Exc};
    let text = "<p:a xmlns:p=\"urn:p\"><p:b xmlns:p=\"urn:q\"><p:c xmlns:p=\"urn:p\"/></p:b></p:a>";
    let whole =
        "<p:a xmlns:p=\"urn:p\"><p:b xmlns:p=\"urn:q\"><p:c xmlns:p=\"urn:p\"></p:c></p:b></p:a>";
    let without = "<p:a xmlns:p=\"urn:p\"><p:c></p:c></p:a>";
    let rows = "<p:a xmlns:p=\"urn:p\"> xmlns:p=\"urn:q\"<p:c></p:c></p:a>";
    for (method, until, form) in [
        (C10, 4, whole),
        (C11, 4, whole),
        (Exc, 4, whole),
        (C10, 7, without),
        (C11, 7, without),
        (Exc, 7, without),
        (C10, 5, rows),
        (C11, 5, rows),
        (Exc, 5, without),
    ] {
        expect(&rt, rt.alloc(), text, method, Rows::But(4, until), form)?;
    }
    Ok(())
}

/// Subtrees below elements with `xml:` attributes.
#[test]
fn attributes_from_above(rt: HostRuntime) -> Result<(), Fail> {
    use CanonMethod::{C10, C11, Exc};
    let above =
        "<r xml:lang=\"en\" xml:id=\"i\"><m xml:space=\"preserve\"><e Id=\"k\">t</e></m></r>";
    let nested = "<r xml:base=\"http://h/a/b\"><m xml:base=\"../c/\"><e Id=\"k\"/></m></r>";
    for (text, method, form) in [
        (
            above,
            C10,
            "<e Id=\"k\" xml:id=\"i\" xml:lang=\"en\" xml:space=\"preserve\">t</e>",
        ),
        (
            above,
            C11,
            "<e Id=\"k\" xml:lang=\"en\" xml:space=\"preserve\">t</e>",
        ),
        (above, Exc, "<e Id=\"k\">t</e>"),
        (
            "<r xml:base=\"a/b/\"><e Id=\"k\" xml:base=\"../c\"/></r>",
            C11,
            "<e Id=\"k\" xml:base=\"a/c\"></e>",
        ),
        (nested, C11, "<e Id=\"k\" xml:base=\"http://h/c/\"></e>"),
        (nested, C10, "<e Id=\"k\" xml:base=\"../c/\"></e>"),
    ] {
        expect(&rt, rt.alloc(), text, method, Rows::Element, form)?;
    }
    Ok(())
}

/// The document of the deep walk.
fn deep_text(alloc: Global) -> Result<String, NoMemory> {
    let mut attributes = String::new(alloc);
    for n in 1..501u32 {
        let attribute = format!(in alloc; " a{n}=\"1\"")?;
        attributes.push_str(&attribute)?;
    }
    let mut text = String::from_str(alloc, "<r xml:lang=\"en\" xmlns:p=\"urn:p\">")?;
    for _ in 0..510 {
        text.push_str("<b")?;
        text.push_str(&attributes)?;
        text.push_str(">")?;
    }
    for _ in 0..100_000 {
        text.push_str("<p:e/>")?;
    }
    for _ in 0..510 {
        text.push_str("</b>")?;
    }
    text.push_str("</r>")?;
    Ok(text)
}

fn is_leaf(doc: &Doc<'_>, row: u32) -> bool {
    row < doc.rows() && matches!(doc.kind(row), Kind::Element) && doc.local_name(row) == "e"
}

/// The elements `e`.
fn leaves<'d>(alloc: Global, doc: &'d Doc<'d>) -> Result<NodeSet<'d>, NoMemory> {
    let mut set = NodeSet::empty(alloc, doc)?;
    for row in 0..doc.rows() {
        if is_leaf(doc, row) {
            insert(&mut set, row);
        }
    }
    Ok(set)
}

/// How many octets a form has.
fn length_of(alloc: Global, method: CanonMethod, set: &NodeSet<'_>) -> u64 {
    let prefixes = Members::new(alloc);
    if !prefixes.is_empty() {
        return 0;
    }
    let mut sink = LenSink::new();
    match canon(alloc, method, &prefixes, set.lend(), &mut sink) {
        Ok(()) => sink.count(),
        Err(_) => 0,
    }
}

/// Asserts the lengths of the forms of a document whose elements `e` stand below 510 others.
fn expect_lengths(rt: &impl Abort, alloc: Global, doc: &Doc<'_>) -> Result<(), NoMemory> {
    let elements = leaves(alloc, doc)?;
    let all = NodeSet::all(alloc, doc)?;
    assert!(rt; length_of(alloc, CanonMethod::C10, &elements) == 2_500_000);
    assert!(rt; length_of(alloc, CanonMethod::C11, &elements) == 2_500_000);
    assert!(rt; length_of(alloc, CanonMethod::Exc, &all) == 4_943_511);
    Ok(())
}

/// An attribute and a namespace that stand 510 elements above, and 255,000 attributes between.
#[test]
fn deep_walk(rt: HostRuntime) -> Result<(), Fail> {
    let alloc = rt.alloc();
    let text = deep_text(alloc)?;
    let bump = Bump::new(alloc);
    match read_document(alloc, &bump, text.as_bytes()) {
        Ok(doc) => Ok(expect_lengths(&rt, alloc, &doc)?),
        Err(_) => panic!(&rt),
    }
}
