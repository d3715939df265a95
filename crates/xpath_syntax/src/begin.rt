//! A terminal where an operand is wanted.
ghost use Rattle.std.specs.Prelude.{◌≡◌, List, reverse};
ghost use Rattle.xpath_syntax.specs.Reading.{begins_step, begun, called, primary_begun, step_begun};
ghost use Rattle.xpath_syntax.specs.Seen.{Steps};

use crate::expr::{Expr, PathStart, PathSteps};
use crate::frame::{Frame, OpenStep, wanted_level};
use crate::mode::Mode;
use crate::parts::{anywhere_step, bare_step};
use crate::refusal::SyntaxRefusal;
use sqlite_items::Items;
use std::alloc::Global;
use xpath_words::{AxisName, NodeTest, Terminal};

/// The first terminal of a step.
pub fn begin_step(
    alloc: Global,
    start: PathStart,
    mut steps: PathSteps,
    terminal: Terminal,
) -> Result<Mode, SyntaxRefusal>
    ensures { (k : List Frame) → Steps result k (step_begun terminal k start steps) }
{
    match terminal {
        Terminal::Dot => {
            steps.push(bare_step(alloc, AxisName::SelfNode, NodeTest::Node))?;
            Ok(Mode::Located(start, steps))
        }
        Terminal::DoubleDot => {
            steps.push(bare_step(alloc, AxisName::Parent, NodeTest::Node))?;
            Ok(Mode::Located(start, steps))
        }
        Terminal::Axis(axis) => Ok(Mode::Along(start, steps, axis)),
        Terminal::Test(test) => Ok(Mode::Stepping(OpenStep {
            start,
            steps,
            axis: AxisName::Child,
            test,
            predicates: Items::new(alloc),
        })),
        _ => Err(SyntaxRefusal::NotXPath),
    }
}

/// Whether a step begins with the terminal.
pub fn is_step_start(terminal: &Terminal) -> bool
    ensures { result ≡ begins_step terminal.now }
{
    match terminal {
        Terminal::Dot | Terminal::DoubleDot | Terminal::Axis(_) | Terminal::Test(_) => true,
        _ => false,
    }
}

/// `)` where an expression is wanted: a call without arguments ends.
fn close_empty(alloc: Global, stack: &mut Vec<Frame>) -> Result<Mode, SyntaxRefusal>
    ensures { Steps result (reverse stack.new.items) (called (reverse stack.old.items)) }
{
    match stack.pop() {
        Some(Frame::Argument(function, args)) => {
            if !args.is_empty() {
                return Err(SyntaxRefusal::NotXPath);
            }
            Ok(Mode::Filter(Expr::Call { function, args }, Items::new(alloc)))
        }
        _ => Err(SyntaxRefusal::NotXPath),
    }
}

/// A terminal that begins no step, where an operand is wanted.
fn begin_primary(
    alloc: Global,
    stack: &mut Vec<Frame>,
    terminal: Terminal,
) -> Result<Mode, SyntaxRefusal>
    ensures { Steps result (reverse stack.new.items) (primary_begun terminal (reverse stack.old.items)) }
{
    match terminal {
        Terminal::Literal(text) => Ok(Mode::Filter(Expr::Literal(text), Items::new(alloc))),
        Terminal::Number(n) => Ok(Mode::Filter(Expr::Number(n), Items::new(alloc))),
        Terminal::Open => {
            stack.push(Frame::Group)?;
            Ok(Mode::Wanted)
        }
        Terminal::Minus => {
            if wanted_level(stack) > 6 {
                return Err(SyntaxRefusal::NotXPath);
            }
            stack.push(Frame::Negation)?;
            Ok(Mode::Wanted)
        }
        Terminal::Call(function) => {
            stack.push(Frame::Argument(function, Items::new(alloc)))?;
            Ok(Mode::Wanted)
        }
        Terminal::Close => close_empty(alloc, stack),
        Terminal::Slash => Ok(Mode::Root),
        Terminal::DoubleSlash => {
            let mut steps = Items::new(alloc);
            steps.push(anywhere_step(alloc))?;
            Ok(Mode::Leading(PathStart::Root, steps))
        }
        _ => Err(SyntaxRefusal::NotXPath),
    }
}

/// A terminal where an operand is wanted.
pub fn begin(
    alloc: Global,
    stack: &mut Vec<Frame>,
    terminal: Terminal,
) -> Result<Mode, SyntaxRefusal>
    ensures { Steps result (reverse stack.new.items) (begun terminal (reverse stack.old.items)) }
{
    if is_step_start(&terminal) {
        begin_step(alloc, PathStart::Context, Items::new(alloc), terminal)
    } else {
        begin_primary(alloc, stack, terminal)
    }
}
