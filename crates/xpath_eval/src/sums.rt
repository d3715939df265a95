//! Sums (XPath 1.0 §4.4, `sum`).
ghost use Rattle.std.specs.Prelude.{◌≡◌};
ghost use Rattle.xpath_value.specs.declared.number.Number.TheVariants.{Whole};
ghost use Rattle.xpath_eval.specs.Code.Context.{AreRows};
ghost use Rattle.xpath_eval.specs.Functions.{ranged_total, sum_of, total};
ghost use Rattle.xpath_eval.specs.Code.Outcome.{Answers};

use crate::arithmetic::ranged;
use crate::comparison::numbers_at;
use crate::found::Found;
use crate::refusal::EvalRefusal;
use std::alloc::Global;
use xml_doc::Doc;
use xpath_value::Number;

/// A sum, which has to be in the range.
fn ranged_sum(sum: i128) -> Result<Found, EvalRefusal>
    ensures { result ≡ ranged_total (Whole sum) }
{
    let n = ranged(sum)?;
    Ok(Found::Num(n))
}

/// The sum of numbers, or NaN where one of them is NaN.
fn ranged_total(ns: &[Number]) -> Result<Found, EvalRefusal>
    ensures { result ≡ ranged_total (total ns.now) }
{
    let mut sum: i128 = 0;
    for n in ns {
        match n {
            Number::Nan => return Ok(Found::Num(Number::Nan)),
            Number::Whole(value) => sum += i128::from(*value),
        }
    }
    ranged_sum(sum)
}

/// The sum of the numbers that string values spell.
pub(crate) fn sum_of(alloc: Global, doc: &Doc<'_>, ys: &[u32]) -> Result<Found, EvalRefusal>
    requires { AreRows doc.now ys.now }
    ensures { Answers result (sum_of doc.now ys.now) }
{
    let ns = numbers_at(alloc, doc, ys)?;
    ranged_total(ns.as_slice())
}
