//! A terminal behind what was read.
ghost use Rattle.std.specs.Prelude.{◌≡◌, List, reverse};
ghost use Rattle.xpath_syntax.specs.Reading.{bracket_closed, closed, ended_by, reduced, separated};
ghost use Rattle.xpath_syntax.specs.Reading.{behind, behind_axis, behind_filter, behind_path, behind_root, behind_step};
ghost use Rattle.xpath_syntax.specs.Seen.{Steps};

use crate::begin::{begin_step, is_step_start};
use crate::expr::{Expr, ExprList, PathStart, PathSteps};
use crate::frame::{Frame, OpenStep, level_of, operator_of, reduce};
use crate::mode::Mode;
use crate::parts::{anywhere_step, close_step, filtered_by};
use crate::refusal::SyntaxRefusal;
use sqlite_items::{Boxed, Items};
use std::alloc::Global;
use xpath_words::{AxisName, Terminal};

/// `)` behind an expression: a group or a call ends.
fn close(alloc: Global, stack: &mut Vec<Frame>, operand: Expr) -> Result<Mode, SyntaxRefusal>
    ensures { Steps result (reverse stack.new.items) (closed (reduced 0 (reverse stack.old.items) operand)) }
{
    let inner = reduce(alloc, stack, operand, 0)?;
    match stack.pop() {
        Some(Frame::Group) => Ok(Mode::Filter(inner, Items::new(alloc))),
        Some(Frame::Argument(function, mut args)) => {
            args.push(inner)?;
            Ok(Mode::Filter(Expr::Call { function, args }, Items::new(alloc)))
        }
        _ => Err(SyntaxRefusal::NotXPath),
    }
}

/// `]` behind an expression: a predicate ends.
fn close_bracket(
    alloc: Global,
    stack: &mut Vec<Frame>,
    operand: Expr,
) -> Result<Mode, SyntaxRefusal>
    ensures { Steps result (reverse stack.new.items) (bracket_closed (reduced 0 (reverse stack.old.items) operand)) }
{
    let inner = reduce(alloc, stack, operand, 0)?;
    match stack.pop() {
        Some(Frame::Predicate(base, mut predicates)) => {
            predicates.push(inner)?;
            Ok(Mode::Filter(base, predicates))
        }
        Some(Frame::StepPredicate(mut last)) => {
            last.predicates.push(inner)?;
            Ok(Mode::Stepping(last))
        }
        _ => Err(SyntaxRefusal::NotXPath),
    }
}

/// `,` behind an expression: an argument ends.
fn separate(alloc: Global, stack: &mut Vec<Frame>, operand: Expr) -> Result<Mode, SyntaxRefusal>
    ensures { Steps result (reverse stack.new.items) (separated (reduced 0 (reverse stack.old.items) operand)) }
{
    let inner = reduce(alloc, stack, operand, 0)?;
    match stack.pop() {
        Some(Frame::Argument(function, mut args)) => {
            args.push(inner)?;
            stack.push(Frame::Argument(function, args))?;
            Ok(Mode::Wanted)
        }
        _ => Err(SyntaxRefusal::NotXPath),
    }
}

/// A mark that ends an operand.
fn end_operand(
    alloc: Global,
    stack: &mut Vec<Frame>,
    operand: Expr,
    terminal: Terminal,
) -> Result<Mode, SyntaxRefusal>
    ensures { Steps result (reverse stack.new.items) (ended_by terminal (reverse stack.old.items) operand) }
{
    match terminal {
        Terminal::Close => close(alloc, stack, operand),
        Terminal::CloseBracket => close_bracket(alloc, stack, operand),
        Terminal::Comma => separate(alloc, stack, operand),
        _ => Err(SyntaxRefusal::NotXPath),
    }
}

/// A terminal behind an operand.
fn go_on(
    alloc: Global,
    stack: &mut Vec<Frame>,
    operand: Expr,
    terminal: Terminal,
) -> Result<Mode, SyntaxRefusal>
    ensures { Steps result (reverse stack.new.items) (behind terminal (reverse stack.old.items) operand) }
{
    match operator_of(&terminal) {
        Some(op) => {
            let left = reduce(alloc, stack, operand, level_of(op))?;
            stack.push(Frame::Left(op, left))?;
            Ok(Mode::Wanted)
        }
        None => end_operand(alloc, stack, operand, terminal),
    }
}

/// Behind a primary with its predicates so far.
pub fn after_filter(
    alloc: Global,
    stack: &mut Vec<Frame>,
    base: Expr,
    predicates: ExprList,
    terminal: Terminal,
) -> Result<Mode, SyntaxRefusal>
    ensures { Steps result (reverse stack.new.items) (behind_filter terminal (reverse stack.old.items) base predicates) }
{
    match terminal {
        Terminal::OpenBracket => {
            stack.push(Frame::Predicate(base, predicates))?;
            Ok(Mode::Wanted)
        }
        Terminal::Slash => {
            let start = filtered_by(alloc, base, predicates)?;
            let start = PathStart::From(Boxed::new(alloc, start)?);
            Ok(Mode::Leading(start, Items::new(alloc)))
        }
        Terminal::DoubleSlash => {
            let start = filtered_by(alloc, base, predicates)?;
            let start = PathStart::From(Boxed::new(alloc, start)?);
            let mut steps = Items::new(alloc);
            steps.push(anywhere_step(alloc))?;
            Ok(Mode::Leading(start, steps))
        }
        _ => {
            let operand = filtered_by(alloc, base, predicates)?;
            go_on(alloc, stack, operand, terminal)
        }
    }
}

/// Behind a path.
pub fn after_path(
    alloc: Global,
    stack: &mut Vec<Frame>,
    start: PathStart,
    mut steps: PathSteps,
    terminal: Terminal,
) -> Result<Mode, SyntaxRefusal>
    ensures { Steps result (reverse stack.new.items) (behind_path terminal (reverse stack.old.items) start steps) }
{
    match terminal {
        Terminal::Slash => Ok(Mode::Leading(start, steps)),
        Terminal::DoubleSlash => {
            steps.push(anywhere_step(alloc))?;
            Ok(Mode::Leading(start, steps))
        }
        _ => go_on(alloc, stack, Expr::Path { start, steps }, terminal),
    }
}

/// Behind a step with its predicates so far.
pub fn after_step(
    alloc: Global,
    stack: &mut Vec<Frame>,
    last: OpenStep,
    terminal: Terminal,
) -> Result<Mode, SyntaxRefusal>
    ensures { Steps result (reverse stack.new.items) (behind_step terminal (reverse stack.old.items) last) }
{
    match terminal {
        Terminal::OpenBracket => {
            stack.push(Frame::StepPredicate(last))?;
            Ok(Mode::Wanted)
        }
        _ => {
            let (start, steps) = close_step(last)?;
            after_path(alloc, stack, start, steps, terminal)
        }
    }
}

/// Behind an axis.
pub fn after_axis(
    alloc: Global,
    start: PathStart,
    steps: PathSteps,
    axis: AxisName,
    terminal: Terminal,
) -> Result<Mode, SyntaxRefusal>
    ensures { (k : List Frame) → Steps result k (behind_axis terminal k start steps axis) }
{
    match terminal {
        Terminal::Test(test) => Ok(Mode::Stepping(OpenStep {
            start,
            steps,
            axis,
            test,
            predicates: Items::new(alloc),
        })),
        _ => Err(SyntaxRefusal::NotXPath),
    }
}

/// Behind a slash with nothing before it.
pub fn after_root(
    alloc: Global,
    stack: &mut Vec<Frame>,
    terminal: Terminal,
) -> Result<Mode, SyntaxRefusal>
    ensures { Steps result (reverse stack.new.items) (behind_root terminal (reverse stack.old.items)) }
{
    if is_step_start(&terminal) {
        begin_step(alloc, PathStart::Root, Items::new(alloc), terminal)
    } else {
        let operand = Expr::Path {
            start: PathStart::Root,
            steps: Items::new(alloc),
        };
        go_on(alloc, stack, operand, terminal)
    }
}
