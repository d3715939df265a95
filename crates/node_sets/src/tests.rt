//! Changes of a set, at a small document.
ghost use Rattle.std.specs.Prelude.{◌≡◌, ◌<◌, [], false, length, IfOk};
ghost use Rattle.xml_doc.specs.Rows.{row_of};
ghost use Rattle.xml_doc.specs.Shape.{IsWellShaped};

use crate::NodeSet;
use bumpalo::Bump;
use sig_base::{NoMemory, XML_NAME};
use std::alloc::Global;
use std::process::Abort;
use xml_doc::{Doc, Kind, Row, RowList};

/// A row with a name and a value alone.
fn row<'a>(kind: Kind, parent: u32, last: u32, local_name: &'a str, value: &'a str) -> Row<'a>
    ensures { row_of result ≡ record {
      kind = kind;
      parent = parent;
      last = last;
      prefix_text = [];
      local_name = local_name.now;
      uri = [];
      value = value.now;
      tag_from = 0;
      body_from = 0;
      body_until = 0;
      empty_tag = false;
    } }
{
    Row {
        kind,
        parent,
        last,
        prefix_text: "",
        local_name,
        uri: "",
        value,
        tag_from: 0,
        body_from: 0,
        body_until: 0,
        empty_tag: false,
    }
}

/// The rows of `<a><b/></a>`.
fn small_rows<'a>(alloc: Global) -> Result<RowList<'a>, NoMemory>
    ensures few { IfOk result (λ l. length l ≡ 5) }
    ensures shaped { IfOk result (λ l. IsWellShaped l) }
{
    let mut rows = RowList::new(alloc);
    rows.push(row(Kind::Root, 0, 4, "", ""))?;
    rows.push(row(Kind::Element, 0, 4, "a", ""))?;
    rows.push(row(Kind::Namespace, 1, 2, "xml", XML_NAME))?;
    rows.push(row(Kind::Element, 1, 4, "b", ""))?;
    rows.push(row(Kind::Namespace, 3, 4, "xml", XML_NAME))?;
    Ok(rows)
}

/// The document of these rows.
fn small(alloc: Global, bump: &Bump) -> Result<Doc<'_>, NoMemory>
    ensures { IfOk result (λ d. length d ≡ 5) }
{
    let rows = small_rows(alloc)?;
    Doc::make(bump, &rows)
}

/// A change of a set.
#[derive(Clone, Copy, Debug)]
enum Change {
    Union,
    Intersect,
    Subtract,
    InsertSubtree,
    RemoveSubtree,
}

/// Changes the set, by the other one or by the subtree of `b`.
fn apply_change<'d>(by: Change, set: &mut NodeSet<'d>, other: &NodeSet<'d>)
    requires same { length set.old.rows ≡ length other.now.rows }
    requires row { 3 < length set.old.rows }
{
    match by {
        Change::Union => set.union_with(other),
        Change::Intersect => set.intersect_with(other),
        Change::Subtract => set.subtract(other),
        Change::InsertSubtree => set.insert_subtree(3),
        Change::RemoveSubtree => set.remove_subtree(3),
    }
}

/// Whether these rows are in the set, and no others.
fn holds(set: &NodeSet<'_>, rows: &[u32]) -> bool {
    (0..6).all(|i| set.contains(i) == rows.contains(&i))
}

/// Asserts what each change makes of a set of the small document.
fn expect_changes(rt: &impl Abort, alloc: Global, doc: &Doc<'_>) -> Result<(), NoMemory>
    requires { length doc.now ≡ 5 }
{
    let other = NodeSet::subtree(alloc, doc, 3)?;
    for (by, rows) in [
        (Change::Union, [1, 3, 4].as_slice()),
        (Change::Intersect, [3].as_slice()),
        (Change::Subtract, [1].as_slice()),
        (Change::InsertSubtree, [1, 3, 4].as_slice()),
        (Change::RemoveSubtree, [1].as_slice()),
    ] {
        let mut set = NodeSet::empty(alloc, doc)?;
        set.insert(1);
        set.insert(3);
        apply_change(by, &mut set, &other);
        assert!(rt; holds(&set, rows), "{:?}", by);
    }
    Ok(())
}

#[test]
fn changes(rt: HostRuntime) -> Result<(), NoMemory> {
    let alloc = rt.alloc();
    let bump = Bump::new(alloc);
    match small(alloc, &bump) {
        Ok(doc) => expect_changes(&rt, alloc, &doc),
        Err(fault) => Err(fault),
    }
}
