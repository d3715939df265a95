//! The document, and what its rows say.
ghost use Rattle.std.specs.Prelude.{◌≡◌, true, ◌+◌, ◌<◌, ◌^◌, length, IfOk, IfSome, slice_get, option_map, Some, None, MatchOption, ◌≤◌, ◌⊎◌};
ghost use Rattle.std.specs.List.{flat_map};
ghost use Rattle.xml_doc.specs.Kinds.{is_field};
ghost use Rattle.xml_doc.specs.Rows.{row_of};
ghost use Rattle.xml_doc.specs.Shape.{IsWellShaped, row_at};
ghost use Rattle.xml_doc.specs.Values.{subtree, text_of};
ghost use Rattle.xml_doc.specs.Code.Kept.{AreOf, kept_text};
ghost use Rattle.xml_doc.specs.Fields.{is_namespace_of, is_attribute_of, RunEnds, OwnRowsStand};

use crate::kept::Common;
use crate::row::{Kind, Row, RowList};
use bumpalo::Bump;
use sig_base::NoMemory;
use std::marker::Model;

/// The rows of a document, whose texts stand in an arena. Every call takes a row by its number, from 0 to below [`rows`](Doc::rows).
#[derive(Drop)]
pub struct Doc<'a> {
    rows: RowList<'a>,
}

impl<'a> Model for Doc<'a> {
    ghost use Rattle.std.specs.Prelude.{List, ◌<◌, ◌^◌, length};
    ghost use Rattle.xml_doc.specs.Rows.{RowOf};
    ghost use Rattle.xml_doc.specs.Shape.{IsWellShaped};

    ghost Value = { List RowOf };

    ghost view = { λ d. d.rows };

    ghost invariant = { λ d. (length d.rows < 2 ^ 32) × IsWellShaped d.rows };
}

impl<'a> Doc<'a> {
    /// The document of these rows.
    pub fn from_rows(rows: RowList<'a>) -> Doc<'a>
        requires few { length rows < 2 ^ 32 }
        requires shaped { IsWellShaped rows }
        ensures { result ≡ rows.entry }
    {
        Doc { rows }
    }

    /// The document of a copy of these rows, whose texts stand in the arena.
    pub fn make(_bump: &'a Bump, rows: &RowList<'a>) -> Result<Doc<'a>, NoMemory>
        requires few { length rows.now < 2 ^ 32 }
        requires shaped { IsWellShaped rows.now }
        ensures { IfOk result (λ d. d ≡ rows.now) }
    {
        let rows = rows.copied()?;
        Ok(Doc { rows })
    }

    /// How many rows there are: at least one, and fewer than 2^32. What is said of the rows' order and nesting holds of
    /// them.
    pub fn rows(&self) -> u32
        ensures count { result ≡ length self.now }
        ensures shaped { IsWellShaped self.now }
    {
        self.rows.len() as u32
    }

    /// The row of that number. `None` from the number of rows on.
    pub fn row(&self, i: u32) -> Option<Row<'a>>
        ensures { option_map row_of result ≡ slice_get self.now i }
    {
        self.rows.get(i as usize)
    }

    /// The parent of a row (XPath 1.0 §5). `None` for the root, and from the number of rows on.
    pub fn parent(&self, i: u32) -> Option<u32>
        ensures value { MatchOption result ((i ≡ 0) ⊎ (length self.now ≤ i))
            (λ p. (0 < i) × (i < length self.now) × (p ≡ (row_at self.now i).parent)) }
        ensures before { IfSome result (λ p. p < i) }
    {
        let _count = self.rows();
        if i == 0 {
            return None;
        }
        Some(self.row(i)?.parent)
    }

    /// The row of that number, without its rare fields.
    pub(crate) fn at(&self, i: u32) -> &Common<'a>
        requires { i < length self.now }
        ensures row { AreOf (row_at self.now i) result.now }
        ensures from { i ≤ result.now.last }
        ensures below { result.now.last < length self.now }
    {
        let _count = self.rows();
        self.rows.common(i as usize)
    }

    /// The number behind the last row of the row's subtree.
    pub fn behind(&self, i: u32) -> u32
        requires { i < length self.now }
        ensures value { result ≡ (row_at self.now i).last + 1 }
        ensures behind { i < result }
        ensures within { result ≤ length self.now }
    {
        let _count = self.rows();
        self.at(i).last + 1
    }

    /// The rows from row `i` to the last of its subtree, for the texts among them.
    pub(crate) fn subtree(&self, i: u32) -> &[Common<'a>]
        requires { i < length self.now }
        ensures { flat_map kept_text result.now ≡ flat_map text_of (subtree self.now i) }
    {
        let behind = self.behind(i);
        self.rows.range(i as usize, behind as usize)
    }

    /// The row's kind.
    pub fn kind(&self, i: u32) -> Kind
        requires { i < length self.now }
        ensures { result ≡ (row_at self.now i).kind }
    {
        self.at(i).kind
    }

    /// The row's parent; the root's is the root.
    pub fn above(&self, i: u32) -> u32
        requires { i < length self.now }
        ensures { result ≡ (row_at self.now i).parent }
    {
        self.at(i).parent
    }

    /// The last row of the row's subtree.
    pub fn last(&self, i: u32) -> u32
        requires { i < length self.now }
        ensures { result ≡ (row_at self.now i).last }
    {
        self.at(i).last
    }

    /// The row's prefix, as [`Row::prefix_text`] says.
    pub fn prefix_text(&self, i: u32) -> &'a str
        requires { i < length self.now }
        ensures { result.now ≡ (row_at self.now i).prefix_text }
    {
        self.rows.rare(i as usize).prefix_text
    }

    /// The row's local name, as [`Row::local_name`] says.
    pub fn local_name(&self, i: u32) -> &'a str
        requires { i < length self.now }
        ensures { result.now ≡ (row_at self.now i).local_name }
    {
        self.at(i).local_name
    }

    /// The row's namespace name, as [`Row::uri`] says.
    pub fn uri(&self, i: u32) -> &'a str
        requires { i < length self.now }
        ensures { result.now ≡ (row_at self.now i).uri }
    {
        self.rows.rare(i as usize).uri
    }

    /// The row's value, as [`Row::value`] says.
    pub fn value(&self, i: u32) -> &'a str
        requires { i < length self.now }
        ensures { result.now ≡ (row_at self.now i).value }
    {
        self.at(i).value
    }

    /// Whether row `y` is a namespace row of `e`.
    pub(crate) fn is_namespace_of(&self, e: u32, y: u32) -> bool
        requires { y < length self.now }
        ensures { result ≡ is_namespace_of self.now e y }
    {
        self.kind(y) == Kind::Namespace && self.above(y) == e
    }

    /// Whether row `y` is an attribute row of `e`.
    pub(crate) fn is_attribute_of(&self, e: u32, y: u32) -> bool
        requires { y < length self.now }
        ensures { result ≡ is_attribute_of self.now e y }
    {
        self.kind(y) == Kind::Attribute && self.above(y) == e
    }

    /// Whether row `y` is an attribute or a namespace row.
    pub(crate) fn is_field(&self, y: u32) -> bool
        requires { y < length self.now }
        ensures { result ≡ is_field (row_at self.now y).kind }
    {
        matches!(self.kind(y), Kind::Namespace | Kind::Attribute)
    }

    /// The number behind the namespace rows of `e`.
    pub(crate) fn namespaces_end(&self, e: u32) -> u32
        requires { e < length self.now }
        ensures { RunEnds self.now (is_namespace_of self.now e) (e + 1) result }
    {
        let count = self.rows();
        let mut end = e + 1;
        while end < count && self.is_namespace_of(e, end) {
            end += 1;
        }
        end
    }

    /// The number behind the attribute rows of `e`, which stand from `from` on.
    pub(crate) fn attributes_end(&self, e: u32, from: u32) -> u32
        requires { from ≤ length self.now }
        ensures { RunEnds self.now (is_attribute_of self.now e) from result }
    {
        let count = self.rows();
        let mut end = from;
        while end < count && self.is_attribute_of(e, end) {
            end += 1;
        }
        end
    }

    /// Where the namespace rows and the attribute rows of row `e` stand. A row that is no element has none.
    pub fn own_rows(&self, e: u32) -> OwnRows
        requires { e < length self.now }
        ensures { OwnRowsStand self.now e result.first_attribute result.first_child }
    {
        let _count = self.rows();
        let first_attribute = self.namespaces_end(e);
        let first_child = self.attributes_end(e, first_attribute);
        OwnRows {
            first_attribute,
            first_child,
        }
    }
}

/// Where an element's own rows stand: from behind the element its namespace rows, then its attribute rows.
#[derive(Clone, Copy, Debug, PartialEq, Eq)]
pub struct OwnRows {
    /// The number behind the namespace rows.
    pub first_attribute: u32,
    /// The number behind the attribute rows.
    pub first_child: u32,
}
