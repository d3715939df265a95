//! Operators, once a side is evaluated.
ghost use Rattle.std.specs.Prelude.{◌≡◌, IfOk};
ghost use Rattle.xpath_eval.specs.Arithmetic.{is_arithmetic};
ghost use Rattle.xpath_eval.specs.Context.{context_of};
ghost use Rattle.xpath_eval.specs.Code.Context.{IsOver};
ghost use Rattle.xpath_eval.specs.Meaning.{calculated, decides, operated, refused_by, related, united};
ghost use Rattle.xpath_eval.specs.Code.Outcome.{Answers};

use crate::arithmetic::arithmetic;
use crate::comparison::compared;
use crate::found::{Found, nodes_in, number_in, truth_of};
use crate::nodes::union;
use crate::refusal::EvalRefusal;
use crate::scene::Scene;
use std::alloc::Global;
use xpath_syntax::BinaryOp;

/// Whether an operator is arithmetic.
fn is_arithmetic(op: BinaryOp) -> bool
    ensures { result ≡ is_arithmetic op }
{
    matches!(
        op,
        BinaryOp::Add | BinaryOp::Subtract | BinaryOp::Multiply | BinaryOp::Mod
    )
}

/// Whether the left side decides `or` or `and` (XPath 1.0 §3.4).
pub(crate) fn decides(op: BinaryOp, x: &Found) -> bool
    ensures { result ≡ decides op x.now }
{
    match op {
        BinaryOp::Or => truth_of(x),
        BinaryOp::And => !truth_of(x),
        _ => false,
    }
}

/// What the left side of `|` is refused by: it has to be a node set (XPath 1.0 §3.3).
pub(crate) fn refused_by(op: BinaryOp, x: &Found) -> Option<EvalRefusal>
    ensures { result ≡ refused_by op x.now }
{
    match op {
        BinaryOp::Union => match x {
            Found::Nodes(_) => None,
            _ => Some(EvalRefusal::NotNodes),
        },
        _ => None,
    }
}

/// What `|` comes to.
fn united(alloc: Global, x: Found, y: Found, scene: &Scene<'_>) -> Result<Found, EvalRefusal>
    requires left { IsOver scene.now.doc.now x }
    requires right { IsOver scene.now.doc.now y }
    ensures value { Answers result (united x y (context_of scene.now)) }
    ensures rows { IfOk result (IsOver scene.now.doc.now) }
{
    let xs = nodes_in(x)?;
    let ys = nodes_in(y)?;
    let zs = union(alloc, scene.doc, xs.as_slice(), ys.as_slice())?;
    Ok(Found::Nodes(zs))
}

/// What an arithmetic operator comes to.
fn calculated(
    alloc: Global,
    op: BinaryOp,
    x: &Found,
    y: &Found,
    scene: &Scene<'_>,
) -> Result<Found, EvalRefusal>
    requires left { IsOver scene.now.doc.now x.now }
    requires right { IsOver scene.now.doc.now y.now }
    ensures value { Answers result (calculated op x.now y.now (context_of scene.now)) }
    ensures rows { IfOk result (IsOver scene.now.doc.now) }
{
    let a = number_in(alloc, scene.doc, x)?;
    let b = number_in(alloc, scene.doc, y)?;
    Ok(Found::Num(arithmetic(op, a, b)?))
}

/// What a comparison comes to.
fn related(
    alloc: Global,
    op: BinaryOp,
    x: &Found,
    y: &Found,
    scene: &Scene<'_>,
) -> Result<Found, EvalRefusal>
    requires left { IsOver scene.now.doc.now x.now }
    requires right { IsOver scene.now.doc.now y.now }
    ensures value { Answers result (related op x.now y.now (context_of scene.now)) }
    ensures rows { IfOk result (IsOver scene.now.doc.now) }
{
    Ok(Found::Truth(compared(alloc, op, scene.doc, x, y)?))
}

/// What an operator comes to.
pub(crate) fn operated(
    alloc: Global,
    op: BinaryOp,
    x: Found,
    y: Found,
    scene: &Scene<'_>,
) -> Result<Found, EvalRefusal>
    requires left { IsOver scene.now.doc.now x }
    requires right { IsOver scene.now.doc.now y }
    ensures value { Answers result (operated op x y (context_of scene.now)) }
    ensures rows { IfOk result (IsOver scene.now.doc.now) }
{
    match op {
        BinaryOp::Or | BinaryOp::And => Ok(Found::Truth(truth_of(&y))),
        BinaryOp::Union => united(alloc, x, y, scene),
        _ => {
            if is_arithmetic(op) {
                calculated(alloc, op, &x, &y, scene)
            } else {
                related(alloc, op, &x, &y, scene)
            }
        }
    }
}
