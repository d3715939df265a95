//! How many of the rows that a walk finds are enough.
ghost use Rattle.std.specs.Prelude.{◌≡◌, ◌<◌, ◌≤◌, ℕ, false, map};
ghost use Rattle.xpath_eval.specs.Meaning.{meaning};
ghost use Rattle.xpath_eval.specs.Steps.{is_place};
ghost use Rattle.xpath_eval.specs.Code.Enough.{Enough, EnoughForEach};

use xpath_syntax::{Expr, ExprList};
use xpath_value::Number;

/// A position behind which none is the number, of so many positions.
fn last_place(n: Number, all: u32) -> u32
    ensures { (place : ℕ) → result < place → place ≤ all → is_place n place ≡ false }
{
    match n {
        Number::Nan => 0,
        Number::Whole(value) => {
            if value <= 0 {
                0
            } else if value < i64::from(all) {
                value as u32
            } else {
                all
            }
        }
    }
}

/// How many rows are enough for a predicate, of so many. At positions behind that of a number it isn't asked.
fn enough_for(predicate: &Expr, all: u32) -> u32
    ensures { Enough result all (meaning predicate.now) }
{
    match predicate {
        Expr::Number(n) => last_place(*n, all),
        _ => all,
    }
}

/// How many rows are enough for predicate after predicate, of so many.
pub(crate) fn enough(predicates: &ExprList, all: u32) -> u32
    ensures { EnoughForEach result all (map meaning predicates.now) }
{
    match predicates.as_slice().first() {
        Some(first) => enough_for(first, all),
        None => all,
    }
}
