//! The calls of a document, at a small one.
ghost use Rattle.std.specs.Prelude.{◌≡◌, ◌<◌, [], false, length, IfOk};
ghost use Rattle.xml_doc.specs.Rows.{row_of};
ghost use Rattle.xml_doc.specs.Shape.{IsWellShaped};

use crate::{Axis, Doc, IdAnswer, Kind, Row, RowList};
use bumpalo::Bump;
use sig_base::{NoMemory, Put, VecSink, XML_NAME};
use std::alloc::Global;

/// A row without a prefix, a namespace name and tags.
fn row<'a>(kind: Kind, parent: u32, last: u32, local_name: &'a str, value: &'a str) -> Row<'a>
    ensures { row_of result ≡ record {
      kind = kind;
      parent = parent;
      last = last;
      prefix_text = [];
      local_name = local_name.now;
      uri = [];
      value = value.now;
      tag_from = 0;
      body_from = 0;
      body_until = 0;
      empty_tag = false;
    } }
{
    Row {
        kind,
        parent,
        last,
        prefix_text: "",
        local_name,
        uri: "",
        value,
        tag_from: 0,
        body_from: 0,
        body_until: 0,
        empty_tag: false,
    }
}

/// The rows of `<a><!--p--><b Id="v">x</b>y</a>`.
fn small_rows<'a>(alloc: Global) -> Result<RowList<'a>, NoMemory>
    ensures few { IfOk result (λ l. length l ≡ 9) }
    ensures shaped { IfOk result (λ l. IsWellShaped l) }
{
    let mut rows = RowList::new(alloc);
    rows.push(row(Kind::Root, 0, 8, "", ""))?;
    rows.push(row(Kind::Element, 0, 8, "a", ""))?;
    rows.push(row(Kind::Namespace, 1, 2, "xml", XML_NAME))?;
    rows.push(row(Kind::Comment, 1, 3, "", "p"))?;
    rows.push(row(Kind::Element, 1, 7, "b", ""))?;
    rows.push(row(Kind::Namespace, 4, 5, "xml", XML_NAME))?;
    rows.push(row(Kind::Attribute, 4, 6, "Id", "v"))?;
    rows.push(row(Kind::Text, 4, 7, "", "x"))?;
    rows.push(row(Kind::Text, 1, 8, "", "y"))?;
    Ok(rows)
}

/// The document of these rows.
fn small(alloc: Global, bump: &Bump) -> Result<Doc<'_>, NoMemory>
    ensures { IfOk result (λ d. length d ≡ 9) }
{
    let rows = small_rows(alloc)?;
    Doc::make(bump, &rows)
}

/// Whether these are the rows of that axis from `b`.
fn are_from_b(alloc: Global, doc: &Doc<'_>, axis: Axis, rows: &[u32]) -> Result<bool, NoMemory>
    requires { 4 < length doc.now }
{
    let walked: Vec<u32> = doc.axis(axis, 4).collect(alloc)?;
    Ok(walked.as_slice() == rows)
}

#[test]
fn each_axis_from_an_inner_element(rt: HostRuntime) -> Result<(), NoMemory> {
    let alloc = rt.alloc();
    let bump = Bump::new(alloc);
    let doc = small(alloc, &bump)?;
    assert!(rt; are_from_b(alloc, &doc, Axis::Child, &[7])?);
    assert!(rt; are_from_b(alloc, &doc, Axis::Descendant, &[7])?);
    assert!(rt; are_from_b(alloc, &doc, Axis::Parent, &[1])?);
    assert!(rt; are_from_b(alloc, &doc, Axis::Ancestor, &[1, 0])?);
    assert!(rt; are_from_b(alloc, &doc, Axis::FollowingSibling, &[8])?);
    assert!(rt; are_from_b(alloc, &doc, Axis::PrecedingSibling, &[3])?);
    assert!(rt; are_from_b(alloc, &doc, Axis::Following, &[8])?);
    assert!(rt; are_from_b(alloc, &doc, Axis::Preceding, &[3])?);
    assert!(rt; are_from_b(alloc, &doc, Axis::Attribute, &[6])?);
    assert!(rt; are_from_b(alloc, &doc, Axis::Namespace, &[5])?);
    assert!(rt; are_from_b(alloc, &doc, Axis::SelfNode, &[4])?);
    assert!(rt; are_from_b(alloc, &doc, Axis::DescendantOrSelf, &[4, 7])?);
    assert!(rt; are_from_b(alloc, &doc, Axis::AncestorOrSelf, &[4, 1, 0])?);
    Ok(())
}

#[test]
fn id_and_string_value(rt: HostRuntime) -> Result<(), NoMemory> {
    let alloc = rt.alloc();
    let bump = Bump::new(alloc);
    let doc = small(alloc, &bump)?;
    assert_eq!(rt; doc.element_by_id("v"), IdAnswer::One(4));
    assert_eq!(rt; doc.element_by_id("x"), IdAnswer::None);
    let mut sink = VecSink::new(alloc);
    assert_eq!(rt; doc.string_value_into(0, &mut sink), Put::Done);
    assert_eq!(rt; sink.finish().bytes(), b"xy".as_slice());
    Ok(())
}
