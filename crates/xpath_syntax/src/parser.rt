//! All terminals of an expression.
ghost use Rattle.std.specs.Prelude.{◌≡◌, List, IfOk, reverse};
ghost use Rattle.xpath_syntax.specs.Offences.{terminals};
ghost use Rattle.xpath_syntax.specs.Reading.{step, finish, operand_of};
ghost use Rattle.xpath_syntax.specs.Code.Forgetting.{shallow_expression_of};
ghost use Rattle.xpath_syntax.specs.Seen.{Gives, Steps};

use crate::begin::{begin, begin_step};
use crate::behind::{after_axis, after_filter, after_path, after_root, after_step};
use crate::expr::{Expr, PathStart};
use crate::forgetting::kept;
use crate::frame::{Frame, reduce};
use crate::mode::Mode;
use crate::nesting::{deepens, own_levels};
use crate::parts::{close_step, filtered_by};
use crate::refusal::SyntaxRefusal;
use sqlite_items::Items;
use std::alloc::Global;
use xpath_words::{Terminal, Token};

/// One terminal.
fn advance(
    alloc: Global,
    stack: &mut Vec<Frame>,
    mode: Mode,
    terminal: Terminal,
) -> Result<Mode, SyntaxRefusal>
    ensures { Steps result (reverse stack.new.items) (step (reverse stack.old.items) mode terminal) }
{
    match mode {
        Mode::Wanted => begin(alloc, stack, terminal),
        Mode::Filter(base, predicates) => after_filter(alloc, stack, base, predicates, terminal),
        Mode::Root => after_root(alloc, stack, terminal),
        Mode::Leading(start, steps) => begin_step(alloc, start, steps, terminal),
        Mode::Along(start, steps, axis) => after_axis(alloc, start, steps, axis, terminal),
        Mode::Stepping(last) => after_step(alloc, stack, last, terminal),
        Mode::Located(start, steps) => after_path(alloc, stack, start, steps, terminal),
    }
}

/// The operand that ends here.
fn last_operand(alloc: Global, mode: Mode) -> Result<Expr, SyntaxRefusal>
    ensures { Gives result (operand_of mode) }
{
    match mode {
        Mode::Filter(base, predicates) => Ok(filtered_by(alloc, base, predicates)?),
        Mode::Root => Ok(Expr::Path {
            start: PathStart::Root,
            steps: Items::new(alloc),
        }),
        Mode::Stepping(last) => {
            let (start, steps) = close_step(last)?;
            Ok(Expr::Path { start, steps })
        }
        Mode::Located(start, steps) => Ok(Expr::Path { start, steps }),
        Mode::Wanted | Mode::Leading(_, _) | Mode::Along(_, _, _) => Err(SyntaxRefusal::NotXPath),
    }
}

/// Behind the last token.
fn end(alloc: Global, stack: &mut Vec<Frame>, mode: Mode) -> Result<Expr, SyntaxRefusal>
    ensures { Gives result (finish (reverse stack.old.items) mode) }
{
    let operand = last_operand(alloc, mode)?;
    let whole = reduce(alloc, stack, operand, 0)?;
    if !stack.is_empty() {
        return Err(SyntaxRefusal::NotXPath);
    }
    Ok(whole)
}

/// The expression that the terminals of tokens spell, or `None` where it nests too deep; `NotXPath` where they spell none.
#[tactic(auto, unfolding(crate::specs::Reading::run))]
pub fn read_all(alloc: Global, tokens: Vec<Token>) -> Result<Option<Expr>, SyntaxRefusal>
    ensures { Gives result (shallow_expression_of (terminals tokens.items)) }
{
    let mut stack = Vec::new(alloc);
    let mut mode = Mode::Wanted;
    let mut is_deep = false;
    let mut rest = tokens;
    rest.reverse();
    while let Some(token) = rest.pop() {
        let terminal = token.terminal;
        let own = own_levels(&terminal);
        mode = advance(alloc, &mut stack, mode, terminal)?;
        is_deep = is_deep || deepens(&stack, own);
        mode = kept(alloc, mode, is_deep);
    }
    let whole = end(alloc, &mut stack, mode)?;
    if is_deep {
        return Ok(None);
    }
    Ok(Some(whole))
}
