//! Filters whose expressions are evaluated.
ghost use Rattle.std.specs.Prelude.{◌≡◌, ◌<◌, ◌+◌, ◌^◌, ℕ, length, IfOk, IfSome};
ghost use Rattle.std.specs.List.{All};
ghost use Rattle.filter2.specs.Selections.{filters_from, nodes_at_root, selected};
ghost use Rattle.filter2.specs.Code.Selections.{Collects, Evaluates, Finds, Selects};

use crate::filters::expand;
use crate::transform::FilterRefusal;
use node_sets::NodeSet;
use sig_base::FilterKind;
use std::alloc::Global;
use xml_doc::Doc;
use xpath_eval::{EvalRefusal, Value, eval};
use xpath_syntax::Expr;

/// A filter whose expression was evaluated.
#[derive(Drop)]
pub(crate) struct Selected<'d> {
    /// What it does.
    pub kind: FilterKind,
    /// The rows that it selects, with their subtrees.
    pub nodes: NodeSet<'d>,
}

/// The node set that an expression comes to, with the root as its context node.
fn nodes_at_root<'d>(
    alloc: Global,
    expr: &Expr,
    doc: &'d Doc<'d>,
    here: Option<u32>,
) -> Result<NodeSet<'d>, EvalRefusal>
    requires { IfSome here (λ h. h < length doc.now) }
    ensures { Finds doc.now result (nodes_at_root doc.now expr.now here) }
{
    let _rows = doc.rows();
    match eval(alloc, expr, doc, 0, here)? {
        Value::Nodes(nodes) => Ok(nodes),
        _ => Err(EvalRefusal::NotNodes),
    }
}

/// The same with the subtrees of its rows.
fn selected_rows<'d>(
    alloc: Global,
    expr: &Expr,
    doc: &'d Doc<'d>,
    here: Option<u32>,
) -> Result<NodeSet<'d>, EvalRefusal>
    requires { IfSome here (λ h. h < length doc.now) }
    ensures members { Selects result (selected doc.now expr.now here) }
    ensures rows { IfOk result (λ s. s.rows ≡ doc.now) }
{
    let mut nodes = nodes_at_root(alloc, expr, doc, here)?;
    expand(&mut nodes);
    Ok(nodes)
}

/// The filter of that number, evaluated.
fn select<'d>(
    alloc: Global,
    part: u32,
    filter: &(FilterKind, Expr),
    doc: &'d Doc<'d>,
    here: Option<u32>,
) -> Result<Selected<'d>, FilterRefusal>
    requires { IfSome here (λ h. h < length doc.now) }
    ensures filter { Evaluates part filter.now.0 result (selected doc.now filter.now.1 here) }
    ensures rows { IfOk result (λ s. s.nodes.rows ≡ doc.now) }
{
    match selected_rows(alloc, &filter.1, doc, here) {
        Ok(nodes) => Ok(Selected {
            kind: filter.0,
            nodes,
        }),
        Err(cause) => Err(FilterRefusal { part, cause }),
    }
}

/// All filters evaluated, in order. The first that is refused decides.
pub(crate) fn select_all<'d>(
    alloc: Global,
    filters: &[(FilterKind, Expr)],
    doc: &'d Doc<'d>,
    here: &[Option<u32>],
) -> Result<Vec<Selected<'d>>, FilterRefusal>
    requires paired { length here.now ≡ length filters.now }
    requires few { length filters.now < 2 ^ 32 }
    requires here { All (λ h. IfSome h (λ x. x < length doc.now)) here.now }
    ensures filters { Collects result (filters_from doc.now 1 filters.now here.now) }
    ensures rows { IfOk result (λ selections. All (λ s. s.nodes.rows ≡ doc.now) selections.items) }
{
    let mut selections = Vec::new(alloc);
    for (i, filter) in filters.iter().enumerate() {
        let selection = select(alloc, i as u32 + 1, filter, doc, here[i])?;
        selections.push(selection)?;
    }
    Ok(selections)
}
