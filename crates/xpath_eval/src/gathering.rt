//! Rows that several walks find.
ghost use Rattle.std.specs.Prelude.{◌≡◌, ◌||◌, ◌++◌, List, ℕ, false, length, IfOk};
ghost use Rattle.std.specs.List.{filter, range_with_len};
ghost use Rattle.xml_doc.specs.Rows.{RowOf};
ghost use Rattle.node_sets.specs.Members.{has};
ghost use Rattle.xpath_eval.specs.declared.gathering.Gathering.TheVariants.{Listed};
ghost use Rattle.xpath_eval.specs.Context.{is_in};
ghost use Rattle.xpath_eval.specs.Code.Context.{AreRows};
ghost use Rattle.xpath_eval.specs.Code.Gathering.{Gathers, holds_row};

use crate::nodes::{end_of_ascent, insert_all, push_all, rows_of};
use node_sets::NodeSet;
use sig_base::NoMemory;
use sqlite_items::Items;
use std::alloc::Global;
use xml_doc::Doc;

/// Rows that are gathered from several walks.
///
/// They are a list as long as they come in document order, which takes no time for other rows, and a set from the first
/// walk on that goes back.
#[derive(Drop)]
pub enum Gathering<'d> {
    /// Rows in document order.
    Listed {
        /// The rows.
        rows: Items<u32>,
        /// A number behind all of them.
        end: u64,
    },
    /// Rows as they came.
    Marked(NodeSet<'d>),
}

/// No rows.
pub(crate) fn nothing<'d>(alloc: Global) -> Gathering<'d>
    ensures rows { (rows : List RowOf) → Gathers rows result }
    ensures members { (k : ℕ) → holds_row result k ≡ false }
{
    Gathering::Listed {
        rows: Items::new(alloc),
        end: 0,
    }
}

/// Rows in document order, and more of them behind.
fn longer<'d>(rows: Items<u32>, end: u64, more: &[u32]) -> Result<Gathering<'d>, NoMemory>
    ensures { IfOk result (λ g. g ≡ Listed (rows ++ more.now) end) }
{
    let mut rows = rows;
    push_all(&mut rows, more)?;
    Ok(Gathering::Listed { rows, end })
}

/// A set, and more rows in it.
fn fuller<'d>(set: NodeSet<'d>, more: &[u32]) -> Gathering<'d>
    requires { AreRows set.rows more.now }
    ensures rows { Gathers set.entry.rows result }
    ensures members { (k : ℕ) → holds_row result k ≡ (is_in more.now k || has set.entry.members k) }
{
    let mut set = set;
    insert_all(&mut set, more);
    Gathering::Marked(set)
}

/// A set of the rows of a list, and more rows in it.
fn marked<'d>(
    alloc: Global,
    doc: &'d Doc<'d>,
    rows: &[u32],
    more: &[u32],
) -> Result<Gathering<'d>, NoMemory>
    requires rows { AreRows doc.now rows.now }
    requires more { AreRows doc.now more.now }
    ensures rows { IfOk result (Gathers doc.now) }
    ensures members { IfOk result (λ g. (k : ℕ) → holds_row g k ≡ (is_in more.now k || is_in rows.now k)) }
{
    let mut set = NodeSet::empty(alloc, doc)?;
    insert_all(&mut set, rows);
    Ok(fuller(set, more))
}

/// What is gathered, and more rows in it.
pub(crate) fn gathered_with<'d>(
    alloc: Global,
    doc: &'d Doc<'d>,
    gathering: Gathering<'d>,
    more: &[u32],
) -> Result<Gathering<'d>, NoMemory>
    requires rows { Gathers doc.now gathering }
    requires more { AreRows doc.now more.now }
    ensures rows { IfOk result (Gathers doc.now) }
    ensures members { IfOk result (λ g. (k : ℕ) → holds_row g k ≡ (is_in more.now k || holds_row gathering.entry k)) }
{
    match gathering {
        Gathering::Listed { rows, end } => match end_of_ascent(end, more) {
            Some(behind) => longer(rows, behind, more),
            None => marked(alloc, doc, rows.as_slice(), more),
        },
        Gathering::Marked(set) => Ok(fuller(set, more)),
    }
}

/// The rows that are gathered, in document order.
pub(crate) fn gathered_rows(alloc: Global, gathering: Gathering<'_>) -> Result<Items<u32>, NoMemory>
    ensures value { (rows : List RowOf) → Gathers rows gathering.entry
        → IfOk result (λ ys. ys ≡ filter (holds_row gathering.entry) (range_with_len 0 (length rows))) }
    ensures rows { (rows : List RowOf) → Gathers rows gathering.entry → IfOk result (AreRows rows) }
{
    match gathering {
        Gathering::Listed { rows, end: _ } => Ok(rows),
        Gathering::Marked(set) => rows_of(alloc, &set),
    }
}
