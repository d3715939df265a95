//! Whether an expression reads the context node, position or size.
ghost use Rattle.std.specs.Prelude.{◌≡◌, map};
ghost use Rattle.std.specs.List.{list_any};
ghost use Rattle.xpath_eval.specs.Reads.{asks_context, expected, reads_context};
ghost use Rattle.xpath_eval.specs.Code.Reads.{reads_of_start};

use xpath_syntax::{Expr, Function, PathStart};

/// With fewer arguments than that the context node stands for one (XPath 1.0 §4).
fn expected(function: Function) -> usize
    ensures { result ≡ expected function }
{
    match function {
        Function::True | Function::False | Function::Here | Function::Concat => 0,
        Function::StartsWith | Function::Contains => 2,
        Function::SubstringBefore | Function::SubstringAfter | Function::Substring => 2,
        Function::Translate => 3,
        _ => 1,
    }
}

/// Whether a function reads the context itself, with so many arguments.
fn asks_context(function: Function, count: usize) -> bool
    ensures { result ≡ asks_context function count }
{
    match function {
        Function::Last | Function::Position | Function::Lang => true,
        _ => count < expected(function),
    }
}

/// Whether an expression reads the context (XPath 1.0 §1). If not, it comes to the same at each node of a document.
///
/// Operators of one rank group from the left, as many as an expression has room for, so the left sides are gone down by a
/// loop.
#[cycle(reading)]
pub(crate) fn reads_context(expr: &Expr) -> bool
    ensures { result ≡ reads_context expr.now }
{
    let mut lowest = expr;
    while let Expr::Binary { op: _, left, right } = lowest {
        if reads_context(right.get()) {
            return true;
        }
        lowest = left.get();
    }
    operand_reads(lowest)
}

/// The same of an expression that is no operator between two sides. Of others it goes down the left side by a call.
#[cycle(reading)]
fn operand_reads(expr: &Expr) -> bool
    ensures { result ≡ reads_context expr.now }
{
    match expr {
        Expr::Binary { op: _, left, right } => {
            reads_context(left.get()) || reads_context(right.get())
        }
        Expr::Negate(inner) => reads_context(inner.get()),
        Expr::Literal(_) | Expr::Number(_) => false,
        Expr::Call { function, args } => {
            asks_context(*function, args.len()) || some_reads(args.as_slice())
        }
        Expr::Filtered {
            base,
            predicates: _,
        } => reads_context(base.get()),
        Expr::Path { start, steps: _ } => start_reads(start),
    }
}

/// Whether one of the arguments reads the context.
#[cycle(reading)]
fn some_reads(args: &[Expr]) -> bool
    ensures { result ≡ list_any (λ arg. arg) (map reads_context args.now) }
{
    for arg in args {
        if reads_context(arg) {
            return true;
        }
    }
    false
}

/// Whether the rows from which a path goes are found by the context.
#[cycle(reading)]
fn start_reads(start: &PathStart) -> bool
    ensures { result ≡ reads_of_start start.now }
{
    match start {
        PathStart::Context => true,
        PathStart::Root => false,
        PathStart::From(base) => reads_context(base.get()),
    }
}
