//! The namespace row of an element that has a prefix. The rows stand in order of prefix, so that it is found by halving.
ghost use Rattle.std.specs.Prelude.{◌≡◌, ◌<◌, ◌≤◌, ◌+◌, ◌-◌, false, length, MatchOption};
ghost use Rattle.std.specs.List.{list_any, range_with_len};
ghost use Rattle.xml_doc.specs.Fields.{namespace_rows};
ghost use Rattle.xml_doc.specs.Shape.{row_at};
ghost use Rattle.c14n_rows.specs.Code.Stacks.{is_of};

use std::cmp::Ordering;
use xml_doc::Doc;

/// The row of this prefix among the namespace rows of element `e`, which end before row `until`.
pub(crate) fn row_named(doc: &Doc<'_>, e: u32, until: u32, prefix: &str) -> Option<u32>
    requires behind { e < until }
    requires within { until ≤ length doc.now }
    requires rows { namespace_rows doc.now e ≡ range_with_len (e + 1) (until - (e + 1)) }
    ensures { MatchOption result (list_any (is_of doc.now prefix.now) (namespace_rows doc.now e) ≡ false)
        (λ z. (e < z) × (z < until) × ((row_at doc.now z).local_name ≡ prefix.now)) }
{
    let _rows = doc.rows();
    let mut low = e + 1;
    let mut high = until;
    while low < high {
        let middle = low + (high - low) / 2;
        match doc.local_name(middle).cmp(prefix) {
            Ordering::Less => low = middle + 1,
            Ordering::Equal => return Some(middle),
            Ordering::Greater => high = middle,
        }
    }
    None
}
