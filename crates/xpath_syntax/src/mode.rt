//! What was read behind the frames.

use crate::expr::{Expr, ExprList, PathStart, PathSteps};
use crate::frame::OpenStep;
use xpath_words::AxisName;

/// What was read behind the frames.
#[derive(Drop)]
pub enum Mode {
    /// Nothing: an operand is wanted.
    Wanted,
    /// A primary expression with its predicates so far.
    Filter(Expr, ExprList),
    /// `/` with nothing before it.
    Root,
    /// A path, behind which a step has to come.
    Leading(PathStart, PathSteps),
    /// A path with the axis of its next step.
    Along(PathStart, PathSteps, AxisName),
    /// A path whose last step may have more predicates.
    Stepping(OpenStep),
    /// A path whose last step is `.` or `..`.
    Located(PathStart, PathSteps),
}
