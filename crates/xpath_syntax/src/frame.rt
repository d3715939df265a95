//! The parts that wait for the expression behind them.
ghost use Rattle.std.specs.Prelude.{◌≡◌, IfOk, reverse};
ghost use Rattle.xpath_syntax.specs.Grammar.{level, operator_of};
ghost use Rattle.xpath_syntax.specs.Reading.{binds, completed, wanted, reduced};

use crate::expr::{Expr, ExprList, PathStart, PathSteps};
use sqlite_items::Boxed;
use std::alloc::{AllocError, Global};
use xpath_words::{AxisName, BinaryOp, Function, NodeTest, Terminal};

/// A path whose last step may have more predicates.
#[derive(Drop)]
pub struct OpenStep {
    /// Where the path begins.
    pub start: PathStart,
    /// The steps before the last one.
    pub steps: PathSteps,
    /// The axis of the last step.
    pub axis: AxisName,
    /// The test of the last step.
    pub test: NodeTest,
    /// The predicates of the last step so far.
    pub predicates: ExprList,
}

/// A part that waits for the expression behind it.
#[derive(Drop)]
pub enum Frame {
    /// `(`, where it groups.
    Group,
    /// A minus sign without a left operand.
    Negation,
    /// An operator with its left operand.
    Left(BinaryOp, Expr),
    /// A function with the arguments before the one that is wanted.
    Argument(Function, ExprList),
    /// A primary expression with the predicates before the one that is wanted.
    Predicate(Expr, ExprList),
    /// A step with the predicates before the one that is wanted.
    StepPredicate(OpenStep),
}

/// How tightly an operator binds; a higher one binds tighter (XPath 1.0 §3.3 to §3.5).
pub fn level_of(op: BinaryOp) -> usize
    ensures { result ≡ level op }
{
    match op {
        BinaryOp::Or => 0,
        BinaryOp::And => 1,
        BinaryOp::Equal => 2,
        BinaryOp::NotEqual => 2,
        BinaryOp::Less => 3,
        BinaryOp::LessEqual => 3,
        BinaryOp::Greater => 3,
        BinaryOp::GreaterEqual => 3,
        BinaryOp::Add => 4,
        BinaryOp::Subtract => 4,
        BinaryOp::Multiply => 5,
        BinaryOp::Mod => 5,
        BinaryOp::Union => 7,
    }
}

/// The operator that a terminal is behind an operand.
pub fn operator_of(terminal: &Terminal) -> Option<BinaryOp>
    ensures { result ≡ operator_of terminal.now }
{
    match terminal {
        Terminal::Operator(op) => Some(*op),
        Terminal::Minus => Some(BinaryOp::Subtract),
        _ => None,
    }
}

impl Frame {
    /// Whether an operand before a terminal of this level is the frame's.
    pub fn binds(&self, level: usize) -> bool
        ensures { result ≡ binds level self.now }
    {
        match self {
            Frame::Negation => level <= 6,
            Frame::Left(op, _) => level <= level_of(*op),
            _ => false,
        }
    }

    /// The frame with its operand.
    pub fn complete(self, alloc: Global, operand: Expr) -> Result<Expr, AllocError>
        ensures { IfOk result (λ e. e ≡ completed self operand) }
    {
        match self {
            Frame::Negation => Ok(Expr::Negate(Boxed::new(alloc, operand)?)),
            Frame::Left(op, left) => Ok(Expr::Binary {
                op,
                left: Boxed::new(alloc, left)?,
                right: Boxed::new(alloc, operand)?,
            }),
            _ => Ok(operand),
        }
    }
}

/// The level of the operand that is wanted behind these frames.
pub fn wanted_level(stack: &[Frame]) -> usize
    ensures { result ≡ wanted (reverse stack.now) }
{
    match stack.last() {
        Some(Frame::Negation) => 6,
        Some(Frame::Left(op, _)) => level_of(*op) + 1,
        _ => 0,
    }
}

/// Completes the frames that an operand before a terminal of this level belongs to.
#[tactic(auto, unfolding(crate::specs::Reading::reduced))]
pub fn reduce(
    alloc: Global,
    stack: &mut Vec<Frame>,
    operand: Expr,
    level: usize,
) -> Result<Expr, AllocError>
    ensures { IfOk result (λ e. reduced level (reverse stack.old.items) operand ≡ (reverse stack.new.items, e)) }
{
    let mut operand = operand;
    while let Some(frame) = stack.pop() {
        if !frame.binds(level) {
            stack.push(frame)?;
            return Ok(operand);
        }
        operand = frame.complete(alloc, operand)?;
    }
    Ok(operand)
}
