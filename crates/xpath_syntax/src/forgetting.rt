//! What reading keeps once the terminals nest too deep.
ghost use Rattle.std.specs.Prelude.{◌≡◌};
ghost use Rattle.xpath_syntax.specs.Code.Forgetting.{bare, bare_step, kept};

use crate::expr::{Expr, PathStart};
use crate::frame::OpenStep;
use crate::mode::Mode;
use sqlite_items::Items;
use std::alloc::Global;
use xpath_value::Number;
use xpath_words::{AxisName, NodeTest};

/// A step that stands for one that was forgotten.
fn bare_step(alloc: Global) -> OpenStep
    ensures { result ≡ bare_step }
{
    OpenStep {
        start: PathStart::Context,
        steps: Items::new(alloc),
        axis: AxisName::Child,
        test: NodeTest::Any,
        predicates: Items::new(alloc),
    }
}

/// The mode without what it read.
fn bare(alloc: Global, mode: Mode) -> Mode
    ensures { result ≡ bare mode }
{
    match mode {
        Mode::Wanted => Mode::Wanted,
        Mode::Filter(_, _) => Mode::Filter(Expr::Number(Number::Nan), Items::new(alloc)),
        Mode::Root => Mode::Root,
        Mode::Leading(_, _) => Mode::Leading(PathStart::Context, Items::new(alloc)),
        Mode::Along(_, _, axis) => Mode::Along(PathStart::Context, Items::new(alloc), axis),
        Mode::Stepping(_) => Mode::Stepping(bare_step(alloc)),
        Mode::Located(_, _) => Mode::Located(PathStart::Context, Items::new(alloc)),
    }
}

/// What reading goes on with. Once the terminals nest too deep it only matters whether the rest can end as an expression,
/// so what was read is let go: kept, it would nest as deep as the text, and letting it go takes a call for each level.
pub fn kept(alloc: Global, mode: Mode, is_deep: bool) -> Mode
    ensures { result ≡ kept is_deep mode }
{
    if is_deep { bare(alloc, mode) } else { mode }
}
