//! What the code makes of steps and filters.
ghost use Rattle.std.specs.Prelude.{◌≡◌, IfOk, []};
ghost use Rattle.xpath_syntax.specs.Grammar.{anywhere, step_with, filtered};
ghost use Rattle.xpath_syntax.specs.Reading.{steps_of};

use crate::expr::{Expr, ExprList, PathStart, PathStep, PathSteps};
use crate::frame::OpenStep;
use sqlite_items::{Boxed, Items};
use std::alloc::{AllocError, Global};
use xpath_words::{AxisName, NodeTest};

/// A step without predicates.
pub fn bare_step(alloc: Global, axis: AxisName, test: NodeTest) -> PathStep
    ensures { result ≡ step_with axis test [] }
{
    PathStep {
        axis,
        test,
        predicates: Items::new(alloc),
    }
}

/// The step that `//` stands for, `descendant-or-self::node()` (XPath 1.0 §2.5).
pub fn anywhere_step(alloc: Global) -> PathStep
    ensures { result ≡ anywhere }
{
    bare_step(alloc, AxisName::DescendantOrSelf, NodeTest::Node)
}

/// A primary expression with predicates, or alone where there are none.
pub fn filtered_by(alloc: Global, base: Expr, predicates: ExprList) -> Result<Expr, AllocError>
    ensures { IfOk result (λ e. e ≡ filtered base predicates) }
{
    if predicates.is_empty() {
        return Ok(base);
    }
    Ok(Expr::Filtered {
        base: Boxed::new(alloc, base)?,
        predicates,
    })
}

/// The beginning and the steps of a path, with its last step.
pub fn close_step(last: OpenStep) -> Result<(PathStart, PathSteps), AllocError>
    ensures { IfOk result (λ r. r ≡ (last.start, steps_of last)) }
{
    let OpenStep {
        start,
        mut steps,
        axis,
        test,
        predicates,
    } = last;
    steps.push(PathStep {
        axis,
        test,
        predicates,
    })?;
    Ok((start, steps))
}
