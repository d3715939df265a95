//! Node sets as lists of rows in document order.
ghost use Rattle.std.specs.Prelude.{◌≡◌, ◌≤◌, ◌||◌, ◌++◌, ◌∷◌, [], ℕ, length, reverse, IfOk, IfSome, OnOk};
ghost use Rattle.std.specs.List.{filter, range_with_len};
ghost use Rattle.node_sets.specs.Members.{ChangesTo, has};
ghost use Rattle.xpath_eval.specs.Context.{in_document_order, is_in};
ghost use Rattle.xpath_eval.specs.Order.{Ascends};
ghost use Rattle.xpath_eval.specs.Code.Context.{AreRows};

use node_sets::NodeSet;
use sig_base::NoMemory;
use sqlite_items::Items;
use std::alloc::Global;
use xml_doc::Doc;

/// One row.
pub(crate) fn one(alloc: Global, y: u32) -> Result<Items<u32>, NoMemory>
    ensures { IfOk result (λ ys. ys ≡ y ∷ []) }
{
    let mut ys = Items::new(alloc);
    ys.push(y)?;
    Ok(ys)
}

/// Puts rows into a set.
pub(crate) fn insert_all(set: &mut NodeSet<'_>, ys: &[u32])
    requires { AreRows set.old.rows ys.now }
    ensures { ChangesTo set.old set.new (λ k. is_in ys.now k || has set.old.members k) }
{
    for y in ys {
        set.insert(*y);
    }
}

/// The rows of a set, in document order.
pub(crate) fn rows_of(alloc: Global, set: &NodeSet<'_>) -> Result<Items<u32>, NoMemory>
    ensures value { IfOk result (λ ys. ys ≡ filter (has set.now.members) (range_with_len 0 (length set.now.rows))) }
    ensures rows { IfOk result (AreRows set.now.rows) }
{
    let mut ys = Items::new(alloc);
    let span = set.lend().span();
    for y in span.from..span.until {
        if set.contains(y) {
            ys.push(y)?;
        }
    }
    Ok(ys)
}

/// One more than the last of rows that ascend from a number on, and that number where there are none.
pub(crate) fn end_of_ascent(low: u64, ys: &[u32]) -> Option<u64>
    ensures ascends { IfSome result (λ end. Ascends low end ys.now) }
    ensures behind { IfSome result (λ end. low ≤ end) }
{
    let mut end = low;
    for y in ys {
        let row = u64::from(*y);
        if row < end {
            return None;
        }
        end = row + 1;
    }
    Some(end)
}

/// Puts rows behind others.
pub(crate) fn push_all(ys: &mut Items<u32>, more: &[u32]) -> Result<(), NoMemory>
    ensures { OnOk result (ys.new ≡ ys.old ++ more.now) }
{
    for y in more {
        ys.push(*y)?;
    }
    Ok(())
}

/// The same rows, the last first.
fn reversed(alloc: Global, ys: Items<u32>) -> Result<Items<u32>, NoMemory>
    ensures { IfOk result (λ zs. zs ≡ reverse ys) }
{
    let mut rest = ys;
    let mut zs = Items::new(alloc);
    while let Some(y) = rest.pop() {
        zs.push(y)?;
    }
    Ok(zs)
}

/// Rows in document order, each once. Where they stand so, or the other way round, it takes no time for other rows.
pub(crate) fn ordered(alloc: Global, doc: &Doc<'_>, ys: Items<u32>) -> Result<Items<u32>, NoMemory>
    requires { AreRows doc.now ys }
    ensures value { IfOk result (λ zs. zs ≡ in_document_order doc.now ys) }
    ensures rows { IfOk result (AreRows doc.now) }
{
    if let Some(_end) = end_of_ascent(0, ys.as_slice()) {
        return Ok(ys);
    }
    let zs = reversed(alloc, ys)?;
    if let Some(_end) = end_of_ascent(0, zs.as_slice()) {
        return Ok(zs);
    }
    let mut set = NodeSet::empty(alloc, doc)?;
    insert_all(&mut set, zs.as_slice());
    rows_of(alloc, &set)
}

/// The rows of two node sets, in document order.
pub(crate) fn union(
    alloc: Global,
    doc: &Doc<'_>,
    xs: &[u32],
    ys: &[u32],
) -> Result<Items<u32>, NoMemory>
    requires left { AreRows doc.now xs.now }
    requires right { AreRows doc.now ys.now }
    ensures value { IfOk result (λ zs. zs ≡ in_document_order doc.now (xs.now ++ ys.now)) }
    ensures rows { IfOk result (AreRows doc.now) }
{
    let mut set = NodeSet::empty(alloc, doc)?;
    insert_all(&mut set, xs);
    insert_all(&mut set, ys);
    rows_of(alloc, &set)
}
