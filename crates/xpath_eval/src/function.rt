//! The function library.
ghost use Rattle.std.specs.Prelude.{◌≡◌, ◌<◌, ◌^◌, ◌∷◌, [], length, not, slice_get, Ok, IfOk};
ghost use Rattle.std.specs.List.{All, flat_map};
ghost use Rattle.xml_doc.specs.Shape.{row_at};
ghost use Rattle.xpath_words.specs.declared.function.Function.TheVariants as function;
ghost use Rattle.xpath_eval.specs.Arithmetic.{ranged};
ghost use Rattle.xpath_eval.specs.Context.{Stands, context_of};
ghost use Rattle.xpath_eval.specs.Code.Context.{AreRows, IsOver};
ghost use Rattle.xpath_eval.specs.Found.{nodes_in, number_in, text_in, truth_of};
ghost use Rattle.xpath_eval.specs.Functions.{applied, argument, here_of, named, nodes_at, number_of_count, of_first, optional_number, part_of, words_at};
ghost use Rattle.xpath_eval.specs.Code.Outcome.{Answers};

use crate::arithmetic::ranged;
use crate::found::{Found, number_at, number_in, text_at, text_in, truth_of};
use crate::ids::{elements_by_id, elements_by_id_at};
use crate::languages::speaks;
use crate::nodes::one;
use crate::refusal::EvalRefusal;
use crate::scene::Scene;
use crate::sums::sum_of;
use sig_base::{NoMemory, Text};
use sqlite_items::Items;
use std::alloc::Global;
use xml_doc::Doc;
use xpath_syntax::Function;
use xpath_value::{
    Number, append, concat, contains, normalize_space, starts_with, string_length, substring,
    substring_after, substring_before, translate,
};

/// A name, or a part of it.
#[derive(Clone, Copy, Debug, PartialEq, Eq)]
pub(crate) enum NamePart {
    /// The local name.
    Local,
    /// The namespace name.
    Namespace,
    /// The prefix, if there is one, and the local name.
    Whole,
}

/// A count as a number.
fn number_of_count(n: u64) -> Found
    requires { n < 2 ^ 63 }
    ensures { result ≡ number_of_count n }
{
    Found::Num(Number::Whole(n as i64))
}

/// An argument as a text. One that is left out is the context node.
fn words_at(alloc: Global, given: &[Found], k: usize, scene: &Scene<'_>) -> Result<Text, NoMemory>
    requires stands { Stands (context_of scene.now) }
    requires given { All (IsOver scene.now.doc.now) given.now }
    ensures { IfOk result (λ t. t ≡ words_at k given.now (context_of scene.now)) }
{
    match given.get(k) {
        Some(value) => text_in(alloc, scene.doc, value),
        None => text_at(alloc, scene.doc, scene.node),
    }
}

/// An argument as a number.
fn number_given(
    alloc: Global,
    given: &[Found],
    k: usize,
    scene: &Scene<'_>,
) -> Result<Number, EvalRefusal>
    requires stands { Stands (context_of scene.now) }
    requires given { All (IsOver scene.now.doc.now) given.now }
    ensures { Answers result (number_in scene.now.doc.now (argument k given.now (context_of scene.now))) }
{
    match given.get(k) {
        Some(value) => number_in(alloc, scene.doc, value),
        None => number_at(alloc, scene.doc, scene.node),
    }
}

/// The first argument as a boolean.
fn truth_given(given: &[Found], scene: &Scene<'_>) -> bool
    ensures { result ≡ truth_of (argument 0 given.now (context_of scene.now)) }
{
    match given.get(0) {
        Some(value) => truth_of(value),
        None => true,
    }
}

/// `count` (XPath 1.0 §4.1).
fn count(given: &[Found], scene: &Scene<'_>) -> Result<Found, EvalRefusal>
    ensures { result ≡ applied function.Count given.now (context_of scene.now) }
{
    match given.get(0) {
        Some(value) => match value {
            Found::Nodes(ys) => Ok(number_of_count(ys.as_slice().len() as u64)),
            _ => Err(EvalRefusal::NotNodes),
        },
        None => Ok(number_of_count(1)),
    }
}

/// The name of a row, or a part of it (XPath 1.0 §4.1).
#[tactic(auto, using(crate::proofs::Texts::spelled_colon))]
fn part_of(alloc: Global, part: NamePart, doc: &Doc<'_>, y: u32) -> Result<Text, NoMemory>
    requires { y < length doc.now }
    ensures { IfOk result (λ t. t ≡ part_of part (row_at doc.now y)) }
{
    match part {
        NamePart::Local => Text::from_str(alloc, doc.local_name(y)),
        NamePart::Namespace => Text::from_str(alloc, doc.uri(y)),
        NamePart::Whole => {
            if doc.prefix_text(y).is_empty() {
                return Text::from_str(alloc, doc.local_name(y));
            }
            let front = concat(alloc, doc.prefix_text(y), ":")?;
            concat(alloc, front.as_str(), doc.local_name(y))
        }
    }
}

/// The name of the first row, or a part of it.
fn part_of_first(
    alloc: Global,
    part: NamePart,
    doc: &Doc<'_>,
    ys: &Items<u32>,
) -> Result<Found, NoMemory>
    requires { AreRows doc.now ys.now }
    ensures { IfOk result (λ v. v ≡ of_first (part_of part) doc.now ys.now) }
{
    match ys.get(0) {
        Some(y) => Ok(Found::Words(part_of(alloc, part, doc, *y)?)),
        None => Ok(Found::Words(Text::new(alloc))),
    }
}

/// `local-name`, `namespace-uri` and `name` (XPath 1.0 §4.1).
fn named(
    alloc: Global,
    part: NamePart,
    given: &[Found],
    scene: &Scene<'_>,
) -> Result<Found, EvalRefusal>
    requires stands { Stands (context_of scene.now) }
    requires given { All (IsOver scene.now.doc.now) given.now }
    ensures { Answers result (named part given.now (context_of scene.now)) }
{
    match given.get(0) {
        Some(value) => match value {
            Found::Nodes(ys) => Ok(part_of_first(alloc, part, scene.doc, ys)?),
            _ => Err(EvalRefusal::NotNodes),
        },
        None => Ok(Found::Words(part_of(alloc, part, scene.doc, scene.node)?)),
    }
}

/// `here` (XML Signature 1.1 §6.6.3).
fn here(alloc: Global, scene: &Scene<'_>) -> Result<Found, EvalRefusal>
    requires { Stands (context_of scene.now) }
    ensures value { Answers result (here_of scene.now.here) }
    ensures rows { IfOk result (IsOver scene.now.doc.now) }
{
    match scene.here {
        Some(h) => Ok(Found::Nodes(one(alloc, h)?)),
        None => Err(EvalRefusal::HereElsewhere),
    }
}

/// `string-length` (XPath 1.0 §4.2).
fn length_of(alloc: Global, given: &[Found], scene: &Scene<'_>) -> Result<Found, EvalRefusal>
    requires stands { Stands (context_of scene.now) }
    requires given { All (IsOver scene.now.doc.now) given.now }
    ensures { Answers result (applied function.StringLength given.now (context_of scene.now)) }
{
    let text = words_at(alloc, given, 0, scene)?;
    Ok(Found::Num(ranged(i128::from(string_length(text.as_str())))?))
}

/// `normalize-space` (XPath 1.0 §4.2).
fn normalized(alloc: Global, given: &[Found], scene: &Scene<'_>) -> Result<Found, NoMemory>
    requires stands { Stands (context_of scene.now) }
    requires given { All (IsOver scene.now.doc.now) given.now }
    ensures { IfOk result (λ v. applied function.NormalizeSpace given.now (context_of scene.now) ≡ Ok v) }
{
    let text = words_at(alloc, given, 0, scene)?;
    Ok(Found::Words(normalize_space(alloc, text.as_str())?))
}

/// `substring-before` (XPath 1.0 §4.2).
fn before(alloc: Global, given: &[Found], scene: &Scene<'_>) -> Result<Found, NoMemory>
    requires stands { Stands (context_of scene.now) }
    requires given { All (IsOver scene.now.doc.now) given.now }
    ensures { IfOk result (λ v. applied function.SubstringBefore given.now (context_of scene.now) ≡ Ok v) }
{
    let text = words_at(alloc, given, 0, scene)?;
    let mark = words_at(alloc, given, 1, scene)?;
    Ok(Found::Words(substring_before(alloc, text.as_str(), mark.as_str())?))
}

/// `substring-after` (XPath 1.0 §4.2).
fn after(alloc: Global, given: &[Found], scene: &Scene<'_>) -> Result<Found, NoMemory>
    requires stands { Stands (context_of scene.now) }
    requires given { All (IsOver scene.now.doc.now) given.now }
    ensures { IfOk result (λ v. applied function.SubstringAfter given.now (context_of scene.now) ≡ Ok v) }
{
    let text = words_at(alloc, given, 0, scene)?;
    let mark = words_at(alloc, given, 1, scene)?;
    Ok(Found::Words(substring_after(alloc, text.as_str(), mark.as_str())?))
}

/// `translate` (XPath 1.0 §4.2).
fn translated(alloc: Global, given: &[Found], scene: &Scene<'_>) -> Result<Found, NoMemory>
    requires stands { Stands (context_of scene.now) }
    requires given { All (IsOver scene.now.doc.now) given.now }
    ensures { IfOk result (λ v. applied function.Translate given.now (context_of scene.now) ≡ Ok v) }
{
    let text = words_at(alloc, given, 0, scene)?;
    let characters = words_at(alloc, given, 1, scene)?;
    let others = words_at(alloc, given, 2, scene)?;
    Ok(Found::Words(translate(alloc, text.as_str(), characters.as_str(), others.as_str())?))
}

/// A third argument as a number, where there is one.
fn optional_number(
    alloc: Global,
    given: &[Found],
    scene: &Scene<'_>,
) -> Result<Option<Number>, EvalRefusal>
    requires { All (IsOver scene.now.doc.now) given.now }
    ensures { Answers result (optional_number scene.now.doc.now (slice_get given.now 2)) }
{
    match given.get(2) {
        Some(value) => Ok(Some(number_in(alloc, scene.doc, value)?)),
        None => Ok(None),
    }
}

/// `substring` (XPath 1.0 §4.2).
fn part(alloc: Global, given: &[Found], scene: &Scene<'_>) -> Result<Found, EvalRefusal>
    requires stands { Stands (context_of scene.now) }
    requires given { All (IsOver scene.now.doc.now) given.now }
    ensures { Answers result (applied function.Substring given.now (context_of scene.now)) }
{
    let from = number_given(alloc, given, 1, scene)?;
    let count = optional_number(alloc, given, scene)?;
    let text = words_at(alloc, given, 0, scene)?;
    Ok(Found::Words(substring(alloc, text.as_str(), from, count)?))
}

/// `concat` (XPath 1.0 §4.2).
fn joined(alloc: Global, given: &[Found], scene: &Scene<'_>) -> Result<Text, NoMemory>
    requires { All (IsOver scene.now.doc.now) given.now }
    ensures { IfOk result (λ t. t ≡ flat_map (text_in scene.now.doc.now) given.now) }
{
    let mut all = Text::new(alloc);
    for value in given {
        let text = text_in(alloc, scene.doc, value)?;
        append(&mut all, text.as_str())?;
    }
    Ok(all)
}

/// `starts-with` (XPath 1.0 §4.2).
fn starts(alloc: Global, given: &[Found], scene: &Scene<'_>) -> Result<Found, NoMemory>
    requires stands { Stands (context_of scene.now) }
    requires given { All (IsOver scene.now.doc.now) given.now }
    ensures { IfOk result (λ v. applied function.StartsWith given.now (context_of scene.now) ≡ Ok v) }
{
    let text = words_at(alloc, given, 0, scene)?;
    let mark = words_at(alloc, given, 1, scene)?;
    Ok(Found::Truth(starts_with(text.as_str(), mark.as_str())))
}

/// `contains` (XPath 1.0 §4.2).
fn occurs(alloc: Global, given: &[Found], scene: &Scene<'_>) -> Result<Found, NoMemory>
    requires stands { Stands (context_of scene.now) }
    requires given { All (IsOver scene.now.doc.now) given.now }
    ensures { IfOk result (λ v. applied function.Contains given.now (context_of scene.now) ≡ Ok v) }
{
    let text = words_at(alloc, given, 0, scene)?;
    let mark = words_at(alloc, given, 1, scene)?;
    Ok(Found::Truth(contains(text.as_str(), mark.as_str())))
}

/// `id` (XPath 1.0 §4.1).
fn identified(alloc: Global, given: &[Found], scene: &Scene<'_>) -> Result<Found, EvalRefusal>
    requires stands { Stands (context_of scene.now) }
    requires given { All (IsOver scene.now.doc.now) given.now }
    ensures value { Answers result (applied function.Id given.now (context_of scene.now)) }
    ensures rows { IfOk result (IsOver scene.now.doc.now) }
{
    match given.get(0) {
        Some(value) => elements_by_id(alloc, scene.doc, value),
        None => elements_by_id_at(alloc, scene.doc, scene.node),
    }
}

/// `lang` (XPath 1.0 §4.3).
fn is_spoken(alloc: Global, given: &[Found], scene: &Scene<'_>) -> Result<Found, NoMemory>
    requires stands { Stands (context_of scene.now) }
    requires given { All (IsOver scene.now.doc.now) given.now }
    ensures { IfOk result (λ v. applied function.Lang given.now (context_of scene.now) ≡ Ok v) }
{
    let wanted = words_at(alloc, given, 0, scene)?;
    let is_so = speaks(alloc, scene.doc, wanted.as_str(), scene.node)?;
    Ok(Found::Truth(is_so))
}

/// `sum` (XPath 1.0 §4.4).
fn sum(alloc: Global, given: &[Found], scene: &Scene<'_>) -> Result<Found, EvalRefusal>
    requires stands { Stands (context_of scene.now) }
    requires given { All (IsOver scene.now.doc.now) given.now }
    ensures value { Answers result (applied function.Sum given.now (context_of scene.now)) }
    ensures rows { IfOk result (IsOver scene.now.doc.now) }
{
    match given.get(0) {
        Some(value) => match value {
            Found::Nodes(ys) => sum_of(alloc, scene.doc, ys.as_slice()),
            _ => Err(EvalRefusal::NotNodes),
        },
        None => sum_of(alloc, scene.doc, &[scene.node]),
    }
}

/// What a function comes to with its arguments.
pub(crate) fn applied(
    alloc: Global,
    function: Function,
    given: &[Found],
    scene: &Scene<'_>,
) -> Result<Found, EvalRefusal>
    requires stands { Stands (context_of scene.now) }
    requires given { All (IsOver scene.now.doc.now) given.now }
    ensures value { Answers result (applied function given.now (context_of scene.now)) }
    ensures rows { IfOk result (IsOver scene.now.doc.now) }
{
    match function {
        Function::Last => Ok(number_of_count(scene.size)),
        Function::Position => Ok(number_of_count(scene.place)),
        Function::Count => count(given, scene),
        Function::LocalName => named(alloc, NamePart::Local, given, scene),
        Function::NamespaceUri => named(alloc, NamePart::Namespace, given, scene),
        Function::Name => named(alloc, NamePart::Whole, given, scene),
        Function::String => Ok(Found::Words(words_at(alloc, given, 0, scene)?)),
        Function::StringLength => length_of(alloc, given, scene),
        Function::NormalizeSpace => Ok(normalized(alloc, given, scene)?),
        Function::Substring => Ok(part(alloc, given, scene)?),
        Function::SubstringBefore => Ok(before(alloc, given, scene)?),
        Function::SubstringAfter => Ok(after(alloc, given, scene)?),
        Function::Translate => Ok(translated(alloc, given, scene)?),
        Function::Boolean => Ok(Found::Truth(truth_given(given, scene))),
        Function::Not => Ok(Found::Truth(!truth_given(given, scene))),
        Function::True => Ok(Found::Truth(true)),
        Function::False => Ok(Found::Truth(false)),
        Function::Number => Ok(Found::Num(number_given(alloc, given, 0, scene)?)),
        Function::Floor => Ok(Found::Num(number_given(alloc, given, 0, scene)?)),
        Function::Ceiling => Ok(Found::Num(number_given(alloc, given, 0, scene)?)),
        Function::Round => Ok(Found::Num(number_given(alloc, given, 0, scene)?)),
        Function::Here => here(alloc, scene),
        Function::Id => identified(alloc, given, scene),
        Function::Concat => Ok(Found::Words(joined(alloc, given, scene)?)),
        Function::StartsWith => Ok(starts(alloc, given, scene)?),
        Function::Contains => Ok(occurs(alloc, given, scene)?),
        Function::Lang => Ok(is_spoken(alloc, given, scene)?),
        Function::Sum => sum(alloc, given, scene),
    }
}
