//! The filter transform.
ghost use Rattle.std.specs.Prelude.{◌≡◌, ◌<◌, ◌^◌, length, IfSome};
ghost use Rattle.std.specs.List.{All};
ghost use Rattle.node_sets.specs.Members.{has};
ghost use Rattle.filter2.specs.Selections.{Applies, transformed};

use crate::filters::filter_all;
use crate::selections::select_all;
use node_sets::NodeSet;
use sig_base::{FilterKind, NoMemory};
use std::alloc::{AllocFailed, Global};
use xpath_eval::EvalRefusal;
use xpath_syntax::Expr;

/// Why the filters give no set.
#[derive(Clone, Copy, Debug, PartialEq, Eq, Drop)]
pub struct FilterRefusal {
    /// The number of the filter whose expression is refused, from 1. Beside [`EvalRefusal::Memory`] it may be 0, where memory
    /// was wanted for all of them.
    pub part: u32,
    /// Why it is refused.
    pub cause: EvalRefusal,
}

impl From<NoMemory> for FilterRefusal {
    ghost use Rattle.std.specs.Prelude.{◌≡◌};
    ghost use Rattle.xpath_eval.specs.declared.refusal.EvalRefusal.TheVariants.{Memory};

    ghost from_gives = { λ _ r. r ≡ record { part = 0; cause = Memory } };

    fn from(_: NoMemory) -> FilterRefusal {
        FilterRefusal {
            part: 0,
            cause: EvalRefusal::Memory,
        }
    }
}

impl<T: Drop> From<AllocFailed<T>> for FilterRefusal {
    ghost use Rattle.std.specs.Prelude.{◌≡◌};
    ghost use Rattle.xpath_eval.specs.declared.refusal.EvalRefusal.TheVariants.{Memory};

    ghost from_gives = { λ _ r. r ≡ record { part = 0; cause = Memory } };

    fn from(_: AllocFailed<T>) -> FilterRefusal {
        FilterRefusal {
            part: 0,
            cause: EvalRefusal::Memory,
        }
    }
}

/// Keeps the rows of a set that the filters keep (XML-Signature XPath Filter 2.0 §3). `here` has for each filter the node of
/// `here()` in its expression, if there is one.
///
/// Each expression is evaluated once, with the root as its context node, and the first refusal is the answer;
/// [`EvalRefusal::NotNodes`] is that of an expression that comes to no node set. A refusal leaves the set unchanged.
pub fn apply<'d>(
    alloc: Global,
    filters: &[(FilterKind, Expr)],
    set: &mut NodeSet<'d>,
    here: &[Option<u32>],
) -> Result<(), FilterRefusal>
    requires paired { length here.now ≡ length filters.now }
    requires few { length filters.now < 2 ^ 32 }
    requires here { All (λ h. IfSome h (λ x. x < length set.old.rows)) here.now }
    ensures { Applies result set.old set.new (transformed set.old.rows filters.now here.now (has set.old.members)) }
{
    let doc = set.doc();
    let selections = select_all(alloc, filters, doc, here)?;
    let kept = filter_all(alloc, doc, &selections)?;
    set.intersect_with(&kept);
    Ok(())
}
