use super::*;
use bumpalo::Bump;
use std::alloc::Global;
use std::process::Abort;
use std::test::Fail;
use xml_doc::{Kind, RowList};
use xml_syntax::{Event, read_events};

/// The events of a short document.
fn events<'a>(alloc: Global, text: &'a str) -> Result<Vec<Event<'a>>, Fail> {
    if text.len() > 1000 {
        return Ok(Vec::new(alloc));
    }
    Ok(read_events(alloc, text, 0)?)
}

#[test]
fn names_are_resolved_or_refused(rt: HostRuntime) -> Result<(), Fail> {
    let alloc = rt.alloc();
    let documents = [
        ("<a/>", true),
        ("<xmlns/>", true),
        ("<a xml:lang='en'/>", true),
        ("<a xmlns='urn:x' xmlns:p='urn:x' k='1' p:k='2'/>", true),
        ("<a xmlns:p='urn:x'><p:b xmlns:p='urn:y'/><p:c/></a>", true),
        ("<p:a/>", false),
        ("<xmlns:a/>", false),
        ("<a p:k='1'/>", false),
        ("<a xmlns:p=''/>", false),
        (
            "<a xmlns:p='urn:x' xmlns:q='urn:x' p:k='1' q:k='2'/>",
            false,
        ),
        ("<a><b xmlns:p='urn:x'/><p:c/></a>", false),
        ("<?p:q?><a/>", false),
    ];
    for (text, resolved) in documents {
        let events = events(alloc, text)?;
        assert_eq!(rt; check_names(alloc, &events).is_ok(), resolved, "{text}");
    }
    Ok(())
}

/// Asserts the rows of the document in the test below.
fn expect_rows(rt: &impl Abort, rows: &RowList<'_>) -> Result<(), Fail> {
    let wanted = [
        (Kind::Root, 0, 8, ""),
        (Kind::Element, 0, 8, "a"),
        (Kind::Namespace, 1, 2, ""),
        (Kind::Namespace, 1, 3, "xml"),
        (Kind::Attribute, 1, 4, "a"),
        (Kind::Attribute, 1, 5, "b"),
        (Kind::Text, 1, 6, ""),
        (Kind::Element, 1, 8, "b"),
        (Kind::Namespace, 7, 8, "xml"),
    ];
    assert_eq!(rt; rows.len(), wanted.len());
    for (k, (kind, parent, last, name)) in wanted.into_iter().enumerate() {
        let row = rows.get(k).ok_or("a row")?;
        assert_eq!(rt; row.kind, kind);
        assert_eq!(rt; row.parent, parent);
        assert_eq!(rt; row.last, last);
        assert_eq!(rt; row.local_name, name);
    }
    Ok(())
}

/// Asserts the depth and the rows of the document in the test below.
fn expect_document<'a>(
    rt: &impl Abort,
    alloc: Global,
    bump: &'a Bump,
    text: &'a str,
) -> Result<(), Fail> {
    let events = events(alloc, text)?;
    assert_eq!(rt; depth_of(&events), 2);
    match build_rows(alloc, bump, events) {
        Ok(rows) => expect_rows(rt, &rows),
        Err(_) => panic!(rt),
    }
}

#[test]
fn rows_in_document_order(rt: HostRuntime) -> Result<(), Fail> {
    let bump = Bump::new(rt.alloc());
    let text = "<a xmlns='urn:x' b='2' a='1'>t<b xmlns=''/></a>";
    expect_document(&rt, rt.alloc(), &bump, text)
}
