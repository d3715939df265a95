//! Evaluation, which goes down an expression as its meaning does.
ghost use Rattle.std.specs.Prelude.{◌≡◌, ◌<◌, ◌^◌, ◌∷◌, [], length, map, IfOk};
ghost use Rattle.std.specs.List.{All};
ghost use Rattle.xpath_eval.specs.Context.{Stands, context_of};
ghost use Rattle.xpath_eval.specs.Code.Context.{AreRows, IsOver};
ghost use Rattle.xpath_eval.specs.Meaning.{after_left, arguments_in, meaning, nodes_meant};
ghost use Rattle.xpath_eval.specs.Code.Meaning.{meaning_of_start, meaning_of_step};
ghost use Rattle.xpath_eval.specs.Code.Outcome.{Answers};
ghost use Rattle.xpath_eval.specs.Steps.{along, filtered, holding, holds, is_place, stepped};

use crate::arithmetic::negated;
use crate::enough::enough;
use crate::found::{Found, nodes_in, number_in, truth_of};
use crate::function::applied;
use crate::gathering::{gathered_rows, gathered_with, nothing};
use crate::node_test::tested;
use crate::nodes::{one, ordered};
use crate::operator::{decides, operated, refused_by};
use crate::refusal::EvalRefusal;
use crate::scene::Scene;
use crate::waiting::Waiting;
use sig_base::Text;
use sqlite_items::Items;
use std::alloc::Global;
use xpath_syntax::{BinaryOp, Expr, ExprList, PathStart, PathStep};
use xpath_value::Number;

/// What an expression comes to.
///
/// Operators of one rank group from the left, as many as an expression has room for. So the left sides are gone down by a
/// loop, and the depth of the calls is bounded by how deep an expression nests.
#[cycle(evaluation)]
pub(crate) fn evaluate(alloc: Global, expr: &Expr, scene: &Scene<'_>) -> Result<Found, EvalRefusal>
    requires { Stands (context_of scene.now) }
    ensures value { Answers result (meaning expr.now (context_of scene.now)) }
    ensures rows { IfOk result (IsOver scene.now.doc.now) }
{
    let mut waiting = Vec::new(alloc);
    let mut lowest = expr;
    while let Expr::Binary { op, left, right } = lowest {
        waiting.push(Waiting {
            op: *op,
            right: right.get(),
        })?;
        lowest = left.get();
    }
    let mut x = operand(alloc, lowest, scene)?;
    while let Some(next) = waiting.pop() {
        x = operation(alloc, next.op, next.right, x, scene)?;
    }
    Ok(x)
}

/// What an operator comes to behind its left side.
#[cycle(evaluation)]
fn operation(
    alloc: Global,
    op: BinaryOp,
    right: &Expr,
    x: Found,
    scene: &Scene<'_>,
) -> Result<Found, EvalRefusal>
    requires stands { Stands (context_of scene.now) }
    requires left { IsOver scene.now.doc.now x }
    ensures value { Answers result (after_left op x (meaning right.now) (context_of scene.now)) }
    ensures rows { IfOk result (IsOver scene.now.doc.now) }
{
    if decides(op, &x) {
        return Ok(Found::Truth(truth_of(&x)));
    }
    if let Some(refusal) = refused_by(op, &x) {
        return Err(refusal);
    }
    let y = evaluate(alloc, right, scene)?;
    operated(alloc, op, x, y, scene)
}

/// What an expression comes to that is no operator between two sides. Of others it evaluates the left side by a call.
#[cycle(evaluation)]
fn operand(alloc: Global, expr: &Expr, scene: &Scene<'_>) -> Result<Found, EvalRefusal>
    requires { Stands (context_of scene.now) }
    ensures value { Answers result (meaning expr.now (context_of scene.now)) }
    ensures rows { IfOk result (IsOver scene.now.doc.now) }
{
    match expr {
        Expr::Binary { op, left, right } => {
            let x = evaluate(alloc, left.get(), scene)?;
            operation(alloc, *op, right.get(), x, scene)
        }
        Expr::Negate(inner) => {
            let x = evaluate(alloc, inner.get(), scene)?;
            let a = number_in(alloc, scene.doc, &x)?;
            Ok(Found::Num(negated(a)?))
        }
        Expr::Literal(w) => Ok(Found::Words(Text::from_str(alloc, w.as_str())?)),
        Expr::Number(n) => Ok(Found::Num(*n)),
        Expr::Call { function, args } => {
            let given = arguments(alloc, args.as_slice(), scene)?;
            applied(alloc, *function, given.as_slice(), scene)
        }
        Expr::Filtered { base, predicates } => {
            let xs = nodes_of(alloc, base.get(), scene)?;
            let ys = filtered(alloc, predicates, scene, xs)?;
            Ok(Found::Nodes(ys))
        }
        Expr::Path { start, steps } => {
            let xs = begun(alloc, start, scene)?;
            let ys = along(alloc, steps.as_slice(), scene, xs)?;
            Ok(Found::Nodes(ys))
        }
    }
}

/// The rows of an expression that has to be a node set.
#[cycle(evaluation)]
fn nodes_of(alloc: Global, expr: &Expr, scene: &Scene<'_>) -> Result<Items<u32>, EvalRefusal>
    requires { Stands (context_of scene.now) }
    ensures value { Answers result (nodes_meant (meaning expr.now) (context_of scene.now)) }
    ensures rows { IfOk result (AreRows scene.now.doc.now) }
{
    let value = evaluate(alloc, expr, scene)?;
    nodes_in(value)
}

/// What the arguments of a call come to.
#[cycle(evaluation)]
fn arguments(alloc: Global, args: &[Expr], scene: &Scene<'_>) -> Result<Items<Found>, EvalRefusal>
    requires { Stands (context_of scene.now) }
    ensures value { Answers result (arguments_in (map meaning args.now) (context_of scene.now)) }
    ensures rows { IfOk result (All (IsOver scene.now.doc.now)) }
{
    let mut given = Items::new(alloc);
    for arg in args {
        given.push(evaluate(alloc, arg, scene)?)?;
    }
    Ok(given)
}

/// The rows from which a path goes.
#[cycle(evaluation)]
fn begun(alloc: Global, start: &PathStart, scene: &Scene<'_>) -> Result<Items<u32>, EvalRefusal>
    requires { Stands (context_of scene.now) }
    ensures value { Answers result (meaning_of_start start.now (context_of scene.now)) }
    ensures rows { IfOk result (AreRows scene.now.doc.now) }
{
    let _rows = scene.doc.rows();
    match start {
        PathStart::Context => Ok(one(alloc, scene.node)?),
        PathStart::Root => Ok(one(alloc, 0)?),
        PathStart::From(base) => nodes_of(alloc, base.get(), scene),
    }
}

/// What the steps of a path lead to.
#[cycle(evaluation)]
#[tactic(auto, unfolding(crate::specs::Steps::along))]
fn along(
    alloc: Global,
    steps: &[PathStep],
    scene: &Scene<'_>,
    from: Items<u32>,
) -> Result<Items<u32>, EvalRefusal>
    requires stands { Stands (context_of scene.now) }
    requires from { AreRows scene.now.doc.now from }
    ensures value { Answers result (along (map meaning_of_step steps.now) (context_of scene.now) from) }
    ensures rows { IfOk result (AreRows scene.now.doc.now) }
{
    let mut xs = from;
    for step in steps {
        xs = stepped(alloc, step, scene, xs.as_slice())?;
    }
    Ok(xs)
}

/// What a step leads to.
#[cycle(evaluation)]
fn stepped(
    alloc: Global,
    step: &PathStep,
    scene: &Scene<'_>,
    xs: &[u32],
) -> Result<Items<u32>, EvalRefusal>
    requires stands { Stands (context_of scene.now) }
    requires from { AreRows scene.now.doc.now xs.now }
    ensures value { Answers result (stepped (meaning_of_step step.now) (context_of scene.now) xs.now) }
    ensures rows { IfOk result (AreRows scene.now.doc.now) }
{
    if xs.len() == 1 {
        let found = step_from(alloc, step, scene, xs[0])?;
        return Ok(ordered(alloc, scene.doc, found)?);
    }
    let mut gathering = nothing(alloc);
    for x in xs {
        let ys = step_from(alloc, step, scene, *x)?;
        gathering = gathered_with(alloc, scene.doc, gathering, ys.as_slice())?;
    }
    Ok(gathered_rows(alloc, gathering)?)
}

/// What a step leads to from one row, in the order of its axis.
#[cycle(evaluation)]
fn step_from(
    alloc: Global,
    step: &PathStep,
    scene: &Scene<'_>,
    x: u32,
) -> Result<Items<u32>, EvalRefusal>
    requires stands { Stands (context_of scene.now) }
    requires from { x < length scene.now.doc.now }
    ensures value { Answers result (meaning_of_step step.now (context_of scene.now) x) }
    ensures rows { IfOk result (AreRows scene.now.doc.now) }
{
    let most = enough(&step.predicates, scene.doc.rows());
    let ys = tested(alloc, scene.doc, step.axis, &step.test, x, most)?;
    filtered(alloc, &step.predicates, scene, ys)
}

/// The rows that predicate after predicate keeps.
#[cycle(evaluation)]
#[tactic(auto, unfolding(crate::specs::Steps::filtered))]
fn filtered(
    alloc: Global,
    predicates: &ExprList,
    scene: &Scene<'_>,
    from: Items<u32>,
) -> Result<Items<u32>, EvalRefusal>
    requires stands { Stands (context_of scene.now) }
    requires from { AreRows scene.now.doc.now from }
    ensures value { Answers result (filtered (map meaning predicates.now) (context_of scene.now) from) }
    ensures rows { IfOk result (AreRows scene.now.doc.now) }
{
    let mut ys = from;
    for predicate in predicates.as_slice() {
        ys = holding(alloc, predicate, scene, ys.as_slice())?;
    }
    Ok(ys)
}

/// The rows at which a predicate holds.
#[cycle(evaluation)]
fn holding(
    alloc: Global,
    predicate: &Expr,
    scene: &Scene<'_>,
    ys: &[u32],
) -> Result<Items<u32>, EvalRefusal>
    requires stands { Stands (context_of scene.now) }
    requires from { AreRows scene.now.doc.now ys.now }
    ensures value { Answers result (holding (meaning predicate.now) (context_of scene.now) ys.now) }
    ensures rows { IfOk result (AreRows scene.now.doc.now) }
{
    let mut kept = Items::new(alloc);
    let size = ys.len() as u64;
    let mut place = 0;
    for y in ys {
        place += 1;
        let value = evaluate(alloc, predicate, &scene.at(*y, place, size))?;
        if holds(&value, place) {
            kept.push(*y)?;
        }
    }
    Ok(kept)
}

/// Whether a number is this position.
fn is_place(n: Number, place: u64) -> bool
    requires { place < 2 ^ 63 }
    ensures { result ≡ is_place n place }
{
    match n {
        Number::Nan => false,
        Number::Whole(value) => value <= place as i64 && place as i64 <= value,
    }
}

/// Whether a predicate holds that comes to this, at that position (XPath 1.0 §2.4).
fn holds(value: &Found, place: u64) -> bool
    requires { place < 2 ^ 63 }
    ensures { result ≡ holds value.now place }
{
    match value {
        Found::Num(n) => is_place(*n, place),
        other => truth_of(other),
    }
}
