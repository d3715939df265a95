//! Node sets with their subtrees, and what filters make of them.
ghost use Rattle.std.specs.Prelude.{◌≡◌, ◌<◌, ◌+◌, ◌&&◌, ◌||◌, ℕ, cond, length, map, nat_lt, IfOk};
ghost use Rattle.std.specs.List.{All};
ghost use Rattle.xml_doc.specs.Shape.{row_at};
ghost use Rattle.node_sets.specs.Members.{ChangesTo, has, in_subtree};
ghost use Rattle.filter2.specs.Filters.{combined, filtered_from, with_subtrees};
ghost use Rattle.filter2.specs.Code.Selections.{filter_of};

use crate::selections::Selected;
use node_sets::NodeSet;
use sig_base::{FilterKind, NoMemory};
use std::alloc::Global;
use xml_doc::Doc;

/// Puts the subtree of row `i` into a set where the row is in it, and says where the rows that were put in end.
fn expand_row(nodes: &mut NodeSet<'_>, i: u32, until: u32) -> u32
    requires { i < length nodes.old.rows }
    ensures members { ChangesTo nodes.old nodes.new
        (λ k. (has nodes.old.members i && in_subtree nodes.old.rows i k) || has nodes.old.members k) }
    ensures until { result ≡ cond (has nodes.old.members i) ((row_at nodes.old.rows i).last + 1) until }
{
    if nodes.contains(i) {
        nodes.insert_subtree(i);
        nodes.doc().behind(i)
    } else {
        until
    }
}

/// Puts the subtrees of a set's rows into the set.
///
/// A row in the subtree of another one is passed over with it, so that each row is put in once at most.
pub(crate) fn expand(nodes: &mut NodeSet<'_>)
    ensures { ChangesTo nodes.old nodes.new (with_subtrees nodes.old.rows (has nodes.old.members)) }
{
    let doc = nodes.doc();
    let mut until = 0;
    for i in 0..doc.rows() {
        if i >= until {
            until = expand_row(nodes, i, until);
        }
    }
}

/// Changes a set by the rows that a filter selects.
fn combine<'d>(kind: FilterKind, selected: &NodeSet<'d>, so_far: &mut NodeSet<'d>)
    requires { length so_far.old.rows ≡ length selected.now.rows }
    ensures { ChangesTo so_far.old so_far.new (λ k. combined kind (has so_far.old.members k) (has selected.now.members k)) }
{
    match kind {
        FilterKind::Intersect => so_far.intersect_with(selected),
        FilterKind::Subtract => so_far.subtract(selected),
        FilterKind::Union => so_far.union_with(selected),
    }
}

/// What the filters make of all rows.
pub(crate) fn filter_all<'d>(
    alloc: Global,
    doc: &'d Doc<'d>,
    filters: &[Selected<'d>],
) -> Result<NodeSet<'d>, NoMemory>
    requires { All (λ f. f.nodes.rows ≡ doc.now) filters.now }
    ensures rows { IfOk result (λ s. s.rows ≡ doc.now) }
    ensures members { IfOk result (λ s. (k : ℕ) → has s.members k
        ≡ filtered_from (map filter_of filters.now) (λ y. nat_lt y (length doc.now)) k) }
{
    let mut so_far = NodeSet::all(alloc, doc)?;
    for filter in filters {
        combine(filter.kind, &filter.nodes, &mut so_far);
    }
    Ok(so_far)
}
