//! Rows, and lists of them.
ghost use Rattle.std.specs.Prelude.{◌≡◌, ◌<◌, ◌∷◌, ◌++◌, [], length, IfOk, OnOk, OnErr, slice_get, slice_range, slice_set, option_map, ◌≤◌};
ghost use Rattle.std.specs.List.{flat_map};
ghost use Rattle.xml_doc.specs.Rows.{row_of};
ghost use Rattle.xml_doc.specs.Shape.{row_at};
ghost use Rattle.xml_doc.specs.Values.{text_of};
ghost use Rattle.xml_doc.specs.Code.Kept.{AreOf, kept_text, rare_in, rare_of};

use crate::kept::{Common, Rare, keep_rare, rare_at};
use sig_base::NoMemory;
use std::alloc::Global;
use std::marker::Model;

/// The kind of a node: the seven of XPath 1.0 §5.
#[derive(Clone, Copy, Debug, PartialEq, Eq)]
pub enum Kind {
    /// The root node, above the document element.
    Root,
    /// An element.
    Element,
    /// A namespace in scope at an element.
    Namespace,
    /// An attribute of an element, no namespace declaration.
    Attribute,
    /// Adjacent characters, references and CDATA sections, as one text.
    Text,
    /// A comment.
    Comment,
    /// A processing instruction.
    Instruction,
}

/// A node of a document. A field of which nothing is said for the row's kind is empty, 0 or false.
#[derive(Clone, Copy, Debug, PartialEq, Eq)]
pub struct Row<'a> {
    /// What the node is.
    pub kind: Kind,
    /// The number of the parent row. The root is its own parent.
    pub parent: u32,
    /// The number of the last row of the subtree: the row's own number where nothing stands below it.
    pub last: u32,
    /// The prefix of an element or an attribute, empty where its name has none.
    pub prefix_text: &'a str,
    /// The local name of an element or an attribute, the prefix that a namespace row binds (empty for the default),
    /// and the target of an instruction.
    pub local_name: &'a str,
    /// The namespace name of an element or an attribute, empty where it has none.
    pub uri: &'a str,
    /// The value of an attribute, the characters of a text, the content of a comment or an instruction, and the
    /// name to which a namespace row binds its prefix.
    pub value: &'a str,
    /// The offset of the `<` of an element's start tag, in bytes of the document.
    pub tag_from: u32,
    /// The offset behind the `>` of an element's start tag; in an empty-element tag the offset of its `/`.
    pub body_from: u32,
    /// The offset of the `</` of an element's end tag; in an empty-element tag the offset behind its `>`.
    pub body_until: u32,
    /// Whether the element is written as an empty-element tag.
    pub empty_tag: bool,
}

/// Rows, in document order.
#[derive(Drop)]
pub struct RowList<'a> {
    rows: Vec<Common<'a>>,
    rares: Vec<Rare<'a>>,
}

impl<'a> Model for RowList<'a> {
    ghost use Rattle.std.specs.Prelude.{List, map, length};
    ghost use Rattle.std.specs.List.{All};
    ghost use Rattle.xml_doc.specs.Rows.{RowOf};
    ghost use Rattle.xml_doc.specs.Code.Kept.{IsPlaced, rare_of, row_in};

    ghost Value = { List RowOf };

    ghost view = { λ l. map (row_in (map rare_of l.rares.items)) l.rows.items };

    ghost invariant = { λ l. All (IsPlaced (length l.rares.items)) l.rows.items };
}

impl<'a> RowList<'a> {
    /// The empty list.
    pub fn new(alloc: Global) -> RowList<'a>
        ensures { result ≡ [] }
    {
        RowList {
            rows: Vec::new(alloc),
            rares: Vec::new(alloc),
        }
    }

    /// Appends a row. For want of memory the list stays as it was.
    pub fn push(&mut self, member: Row<'a>) -> Result<(), NoMemory>
        ensures ok { OnOk result (self.new ≡ self.old ++ row_of member.entry ∷ []) }
        ensures err { OnErr result (self.new ≡ self.old) }
    {
        let rare = keep_rare(&mut self.rares, &member)?;
        self.rows.push(Common::of(&member, rare))?;
        Ok(())
    }

    /// How many rows there are.
    pub fn len(&self) -> usize
        ensures { result ≡ length self.now }
    {
        self.rows.len()
    }

    /// The row at that place, counted from 0. `None` from the list's end on.
    pub fn get(&self, k: usize) -> Option<Row<'a>>
        ensures { option_map row_of result ≡ slice_get self.now k }
    {
        if k < self.rows.len() {
            Some(self.common(k).with(self.rare(k)))
        } else {
            None
        }
    }

    /// Completes the row at that place, counted from 0: says its last row and where its content ends.
    pub fn complete(&mut self, k: usize, last: u32, body_until: u32)
        requires { k < length self.old }
        ensures { self.new ≡ slice_set self.old k (record (row_at self.old k) { last = last; body_until = body_until }) }
    {
        let row = &mut self.rows[k];
        row.last = last;
        row.body_until = body_until;
    }

    /// The fields of the row at that place that most rows fill.
    pub(crate) fn common(&self, k: usize) -> &Common<'a>
        requires { k < length self.now }
        ensures { AreOf (row_at self.now k) result.now }
    {
        &self.rows[k]
    }

    /// Its other fields.
    pub(crate) fn rare(&self, k: usize) -> Rare<'a>
        requires { k < length self.now }
        ensures { rare_of result ≡ rare_in (row_at self.now k) }
    {
        rare_at(&self.rares, self.rows[k].rare)
    }

    /// The rows from one place to before another, without their rare fields.
    pub(crate) fn range(&self, from: usize, until: usize) -> &[Common<'a>]
        requires order { from ≤ until }
        requires within { until ≤ length self.now }
        ensures { flat_map kept_text result.now ≡ flat_map text_of (slice_range self.now from until) }
    {
        &self.rows[from..until]
    }

    /// The rows once more.
    pub(crate) fn copied(&self) -> Result<RowList<'a>, NoMemory>
        ensures { IfOk result (λ rows. rows ≡ self.now) }
    {
        Ok(RowList {
            rows: self.rows.clone()?,
            rares: self.rares.clone()?,
        })
    }
}

#[cfg(test)]
mod tests {
    use super::*;

    fn text(value: &str) -> Row<'_> {
        Row {
            kind: Kind::Text,
            parent: 1,
            last: 3,
            prefix_text: "",
            local_name: "",
            uri: "",
            value,
            tag_from: 0,
            body_from: 0,
            body_until: 0,
            empty_tag: false,
        }
    }

    #[test]
    fn rows_are_kept_in_order(rt: HostRuntime) -> Result<(), NoMemory> {
        let mut rows = RowList::new(rt.alloc());
        rows.push(text("a"))?;
        rows.push(text("b"))?;
        assert_eq!(rt; rows.len(), 2);
        assert_eq!(rt; rows.get(0), Some(text("a")));
        assert_eq!(rt; rows.get(1), Some(text("b")));
        assert_eq!(rt; rows.get(2), None);
        Ok(())
    }

    #[test]
    fn a_row_is_completed(rt: HostRuntime) -> Result<(), NoMemory> {
        let mut rows = RowList::new(rt.alloc());
        rows.push(text("a"))?;
        if rows.len() == 1 {
            rows.complete(0, 7, 9);
        }
        let completed = Row {
            last: 7,
            body_until: 9,
            ..text("a")
        };
        assert_eq!(rt; rows.get(0), Some(completed));
        Ok(())
    }
}
