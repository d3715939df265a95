//! A set of the rows of a document, and a view of one.
ghost use Rattle.std.specs.Prelude.{◌≡◌, ◌<◌, ◌≤◌, ◌==◌, ◌||◌, ◌&&◌, ℕ, Bool, true, false, not, nat_lt, nat_le, length, IfOk};
ghost use Rattle.node_sets.specs.Members.{ChangesTo, has, SetOf, Spanned, in_subtree, is_comment};
ghost use Rattle.xml_doc.specs.Shape.{row_at};

use crate::bits::Bits;
use crate::span::Span;
use sig_base::NoMemory;
use std::alloc::Global;
use std::marker::Model;
use xml_doc::{Doc, Kind};

/// Some of the rows of a document, by their numbers.
#[derive(Drop)]
pub struct NodeSet<'d> {
    doc: &'d Doc<'d>,
    bits: Bits,
    span: Span,
}

impl<'d> Model for NodeSet<'d> {
    ghost use Rattle.std.specs.Prelude.{◌≡◌, ◌≤◌, length};
    ghost use Rattle.node_sets.specs.Members.{SetOf, Spanned};

    ghost Value = { SetOf };

    ghost view = { λ s. record { rows = s.doc.now; members = s.bits } };

    ghost invariant = { λ s. (length s.bits ≡ length s.doc.now) × Spanned s.bits s.span.from s.span.until × (s.span.until ≤ length s.doc.now) };
}

impl<'d> NodeSet<'d> {
    /// The set of no row.
    pub fn empty(alloc: Global, doc: &'d Doc<'d>) -> Result<NodeSet<'d>, NoMemory>
        ensures document { IfOk result (λ s. s.rows ≡ doc.now) }
        ensures members { IfOk result (λ s. (k : ℕ) → has s.members k ≡ false) }
    {
        let count = doc.rows();
        let bits = Bits::new(alloc, count)?;
        let span = Span {
            from: count,
            until: 0,
        };
        Ok(NodeSet { doc, bits, span })
    }

    /// The set of all rows.
    pub fn all(alloc: Global, doc: &'d Doc<'d>) -> Result<NodeSet<'d>, NoMemory>
        ensures document { IfOk result (λ s. s.rows ≡ doc.now) }
        ensures members { IfOk result (λ s. (k : ℕ) → has s.members k ≡ nat_lt k (length doc.now)) }
    {
        let count = doc.rows();
        let mut bits = Bits::new(alloc, count)?;
        bits.insert_range(0, count);
        let span = Span {
            from: 0,
            until: count,
        };
        Ok(NodeSet { doc, bits, span })
    }

    /// The set of row `i` and the rows below it, its namespace rows and attribute rows among them.
    pub fn subtree(alloc: Global, doc: &'d Doc<'d>, i: u32) -> Result<NodeSet<'d>, NoMemory>
        requires { i < length doc.now }
        ensures document { IfOk result (λ s. s.rows ≡ doc.now) }
        ensures members { IfOk result (λ s. (k : ℕ) → has s.members k ≡ in_subtree doc.now i k) }
    {
        let mut set = NodeSet::empty(alloc, doc)?;
        set.insert_subtree(i);
        Ok(set)
    }

    /// Whether row `i` is in the set; no number past the last row is.
    pub fn contains(&self, i: u32) -> bool
        ensures { result ≡ has self.now.members i }
    {
        self.bits.contains(i)
    }

    /// Puts row `i` into the set.
    pub fn insert(&mut self, i: u32)
        requires { i < length self.old.rows }
        ensures { ChangesTo self.old self.new (λ k. k == i || has self.old.members k) }
    {
        let _rows = self.doc.rows();
        self.bits.insert(i);
        self.span = self.span.join(Span {
            from: i,
            until: i + 1,
        });
    }

    /// Puts row `i` and the rows below it into the set.
    pub fn insert_subtree(&mut self, i: u32)
        requires { i < length self.old.rows }
        ensures { ChangesTo self.old self.new (λ k. in_subtree self.old.rows i k || has self.old.members k) }
    {
        let until = self.doc.behind(i);
        self.bits.insert_range(i, until);
        self.span = self.span.join(Span { from: i, until });
    }

    /// Takes row `i` and the rows below it out of the set. It takes no memory.
    pub fn remove_subtree(&mut self, i: u32)
        requires { i < length self.old.rows }
        ensures { ChangesTo self.old self.new (λ k. has self.old.members k && not (in_subtree self.old.rows i k)) }
    {
        let until = self.doc.behind(i);
        self.bits.remove_range(i, until);
    }

    /// Takes the comments out of the set.
    pub fn drop_comments(&mut self)
        ensures { ChangesTo self.old self.new (λ k. has self.old.members k && not (is_comment (row_at self.old.rows k).kind)) }
    {
        drop_comments_in(self.doc, self.span, &mut self.bits);
    }

    /// Puts the rows of another set into the set, by their numbers.
    pub fn union_with(&mut self, other: &NodeSet<'d>)
        requires { length self.old.rows ≡ length other.now.rows }
        ensures { ChangesTo self.old self.new (λ k. has self.old.members k || has other.now.members k) }
    {
        self.bits.union_with(&other.bits);
        self.span = self.span.join(other.span);
    }

    /// Keeps the rows that another set has, by their numbers.
    pub fn intersect_with(&mut self, other: &NodeSet<'d>)
        requires { length self.old.rows ≡ length other.now.rows }
        ensures { ChangesTo self.old self.new (λ k. has self.old.members k && has other.now.members k) }
    {
        self.bits.intersect_with(&other.bits);
        self.span = self.span.meet(other.span);
    }

    /// Keeps the rows that another set lacks, by their numbers.
    pub fn subtract(&mut self, other: &NodeSet<'d>)
        requires { length self.old.rows ≡ length other.now.rows }
        ensures { ChangesTo self.old self.new (λ k. has self.old.members k && not (has other.now.members k)) }
    {
        self.bits.subtract(&other.bits);
    }

    /// Lends the document.
    pub fn doc(&self) -> &'d Doc<'d>
        ensures { result.now ≡ self.now.rows }
    {
        self.doc
    }

    /// Lends a view of the set.
    pub fn lend(&self) -> SetView<'_>
        ensures { result.set.now ≡ self.now }
    {
        SetView { set: self }
    }

    /// A range of row numbers that has all rows of the set, so that a walk needn't go over the whole document.
    pub fn span(&self) -> Span
        ensures members { Spanned self.now.members result.from result.until }
        ensures within { result.until ≤ length self.now.rows }
    {
        self.span
    }
}

/// A set that is lent.
#[derive(Clone, Copy)]
pub struct SetView<'v> {
    set: &'v NodeSet<'v>,
}

impl<'v> SetView<'v> {
    /// Lends the document.
    pub fn doc(&self) -> &'v Doc<'v>
        ensures { result.now ≡ self.now.set.now.rows }
    {
        let set = self.set;
        set.doc
    }

    /// Whether row `i` is in the set; no number past the last row is.
    pub fn contains(&self, i: u32) -> bool
        ensures { result ≡ has self.now.set.now.members i }
    {
        self.set.contains(i)
    }

    /// How many rows the document has.
    pub fn rows(&self) -> u32
        ensures { result ≡ length self.now.set.now.rows }
    {
        self.doc().rows()
    }

    /// The range of the set, as [`NodeSet::span`] has it.
    pub fn span(&self) -> Span
        ensures members { Spanned self.now.set.now.members result.from result.until }
        ensures within { result.until ≤ length self.now.set.now.rows }
    {
        self.set.span()
    }
}

/// Whether a kind of row is that of comments.
fn is_comment(kind: Kind) -> bool
    ensures { result ≡ is_comment kind }
{
    matches!(kind, Kind::Comment)
}

/// Takes row `i` out of the set where it is a comment.
fn drop_comment(doc: &Doc<'_>, i: u32, bits: &mut Bits)
    requires row { i < length doc.now }
    requires sizes { length bits.old ≡ length doc.now }
    ensures members { (k : ℕ) → has bits.new k ≡ (has bits.old k && not (k == i && is_comment (row_at doc.now i).kind)) }
    ensures size { length bits.new ≡ length bits.old }
{
    if is_comment(doc.kind(i)) {
        bits.remove(i);
    }
}

/// Takes the comments out of a set whose rows are in a range.
fn drop_comments_in(doc: &Doc<'_>, span: Span, bits: &mut Bits)
    requires sizes { length bits.old ≡ length doc.now }
    requires within { span.until ≤ length doc.now }
    requires members { Spanned bits.old span.from span.until }
    ensures members { (k : ℕ) → has bits.new k ≡ (has bits.old k && not (is_comment (row_at doc.now k).kind)) }
    ensures size { length bits.new ≡ length bits.old }
{
    for i in span.from..span.until {
        drop_comment(doc, i, bits);
    }
}
