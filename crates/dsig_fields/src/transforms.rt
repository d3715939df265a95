//! Transforms, by their identifiers.

ghost use Rattle.std.specs.Prelude.{◌≡◌, ◌<◌, ℕ, List, length, option_map, IfSome};
ghost use Rattle.std.specs.Borrow.{Bor};
ghost use Rattle.dsig_fields.specs.Fields as spec;
ghost use Rattle.dsig_fields.specs.Reading.{Gives};

use crate::attributes::{algorithm, attribute};
use crate::children::Children;
use crate::fields::{Filter, Step, StepList};
use crate::methods::inner_prefixes;
use crate::names::ElementName;
use crate::refusal::FieldRefusal;
use crate::repeated::{Repeated, one_or_more};
use crate::simple::simple_text;
use sig_base::{CanonMethod, FilterKind, Members, Text, canon_method_of};
use std::alloc::Global;
use xml_doc::Doc;

/// A Transform without children.
#[tactic(auto, unfolding(crate::specs::Fields::bare_step))]
fn bare_step(doc: &Doc<'_>, x: u32, work: Step) -> Result<Step, FieldRefusal>
    requires { x < length doc.now }
    ensures { Gives (λ s. s) result (spec.bare_step doc.now x work) }
{
    Children::of(doc, x).at_end(doc)?;
    Ok(work)
}

/// A Transform that canonicalizes (XML Signature 1.1 §6.6.1).
#[tactic(auto, unfolding(crate::specs::Fields::canonicalizing_step))]
fn canonicalizing_step(
    alloc: Global,
    doc: &Doc<'_>,
    x: u32,
    method: CanonMethod,
) -> Result<Step, FieldRefusal>
    requires { x < length doc.now }
    ensures { Gives (λ s. s) result (spec.canonicalizing_step doc.now x method) }
{
    let prefixes = inner_prefixes(alloc, doc, method, x)?;
    Ok(Step::Canon { method, prefixes })
}

/// XPath filtering (XML Signature 1.1 §6.6.3).
#[tactic(auto, unfolding(crate::specs::Fields::xpath_step))]
fn xpath_step(alloc: Global, doc: &Doc<'_>, x: u32) -> Result<Step, FieldRefusal>
    requires { x < length doc.now }
    ensures { Gives (λ s. s) result (spec.xpath_step doc.now x) }
{
    let mut children = Children::of(doc, x);
    let row = children.required(doc, ElementName::XPath)?;
    let text = simple_text(alloc, doc, row)?;
    children.at_end(doc)?;
    let text = Text::from_string(text);
    Ok(Step::XPath { row, text })
}

/// What the Filter attribute says (XML-Signature XPath Filter 2.0 §3.3).
fn filter_kind_in(text: Option<&str>) -> Option<FilterKind>
    ensures { result ≡ spec.filter_kind_in (option_map (λ (v : Bor (List ℕ)). v.now) text.entry) }
{
    match text? {
        "intersect" => Some(FilterKind::Intersect),
        "subtract" => Some(FilterKind::Subtract),
        "union" => Some(FilterKind::Union),
        _ => None,
    }
}

/// A filter (XML-Signature XPath Filter 2.0 §3.3).
#[tactic(auto, unfolding(crate::specs::Fields::filter_at))]
fn filter_at(alloc: Global, doc: &Doc<'_>, x: u32) -> Result<Filter, FieldRefusal>
    requires { x < length doc.now }
    ensures { Gives (λ f. f) result (spec.filter_at doc.now x) }
{
    let kind = filter_kind_in(attribute(doc, x, "Filter")).ok_or(FieldRefusal::BadFilter(x))?;
    let text = simple_text(alloc, doc, x)?;
    let text = Text::from_string(text);
    Ok(Filter { kind, row: x, text })
}

impl Repeated for Filter {
    ghost use Rattle.dsig_fields.specs.Fields.{filter_at};
    ghost use Rattle.dsig_fields.specs.declared.names.ElementName.TheVariants.{FilterXPath};
    ghost use Rattle.dsig_fields.specs.declared.refusal.FieldRefusal.TheVariants.{TooManyFilters};

    ghost NAME = { FilterXPath };

    ghost LIMIT = { 16 };

    ghost excess = { TooManyFilters };

    ghost outcome = { filter_at };

    const NAME: ElementName = ElementName::FilterXPath;

    const LIMIT: usize = 16;

    fn too_many(x: u32) -> FieldRefusal {
        FieldRefusal::TooManyFilters(x)
    }

    fn read(alloc: Global, doc: &Doc<'_>, x: u32) -> Result<Filter, FieldRefusal> {
        filter_at(alloc, doc, x)
    }
}

/// One or more filters (XML-Signature XPath Filter 2.0 §3.3).
#[tactic(auto, unfolding(crate::specs::Fields::filters_step))]
fn filters_step(alloc: Global, doc: &Doc<'_>, x: u32) -> Result<Step, FieldRefusal>
    requires { x < length doc.now }
    ensures { Gives (λ s. s) result (spec.filters_step doc.now x) }
{
    let mut children = Children::of(doc, x);
    let filters = one_or_more(alloc, doc, &mut children)?;
    children.at_end(doc)?;
    Ok(Step::Filters(filters))
}

/// A Transform that doesn't canonicalize, by its identifier (XML Signature 1.1 §6.6).
fn other_step(alloc: Global, doc: &Doc<'_>, x: u32, uri: &str) -> Result<Step, FieldRefusal>
    requires { x < length doc.now }
    ensures { Gives (λ s. s) result (spec.other_step doc.now x uri.now) }
{
    match uri {
        "http://www.w3.org/2000/09/xmldsig#base64" => bare_step(doc, x, Step::Base64),
        "http://www.w3.org/2000/09/xmldsig#enveloped-signature" => {
            bare_step(doc, x, Step::Enveloped)
        }
        "http://www.w3.org/TR/1999/REC-xpath-19991116" => xpath_step(alloc, doc, x),
        "http://www.w3.org/2002/06/xmldsig-filter2" => filters_step(alloc, doc, x),
        "http://www.w3.org/TR/1999/REC-xslt-19991116" => Err(FieldRefusal::Xslt(x)),
        _ => Err(FieldRefusal::UnknownMethod(x)),
    }
}

/// Transform (XML Signature 1.1 §4.4.3.4).
#[tactic(auto, unfolding(crate::specs::Fields::transform))]
fn transform(alloc: Global, doc: &Doc<'_>, x: u32) -> Result<Step, FieldRefusal>
    requires { x < length doc.now }
    ensures { Gives (λ s. s) result (spec.transform doc.now x) }
{
    let uri = algorithm(doc, x)?;
    match canon_method_of(uri) {
        Some(method) => canonicalizing_step(alloc, doc, x, method),
        None => other_step(alloc, doc, x, uri),
    }
}

impl Repeated for Step {
    ghost use Rattle.dsig_fields.specs.Fields.{transform};
    ghost use Rattle.dsig_fields.specs.declared.names.ElementName.TheVariants.{Transform};
    ghost use Rattle.dsig_fields.specs.declared.refusal.FieldRefusal.TheVariants.{TooManyTransforms};

    ghost NAME = { Transform };

    ghost LIMIT = { 16 };

    ghost excess = { TooManyTransforms };

    ghost outcome = { transform };

    const NAME: ElementName = ElementName::Transform;

    const LIMIT: usize = 16;

    fn too_many(x: u32) -> FieldRefusal {
        FieldRefusal::TooManyTransforms(x)
    }

    fn read(alloc: Global, doc: &Doc<'_>, x: u32) -> Result<Step, FieldRefusal> {
        transform(alloc, doc, x)
    }
}

/// Transforms: one or more (XML Signature 1.1 §4.4.3.4).
#[tactic(auto, unfolding(crate::specs::Fields::transforms))]
fn transforms(alloc: Global, doc: &Doc<'_>, x: u32) -> Result<StepList, FieldRefusal>
    requires { x < length doc.now }
    ensures { Gives (λ l. l) result (spec.transforms doc.now x) }
{
    let mut children = Children::of(doc, x);
    let steps = one_or_more(alloc, doc, &mut children)?;
    children.at_end(doc)?;
    Ok(steps)
}

/// The Transforms of a Reference, which has none without that element.
pub(crate) fn transforms_if(
    alloc: Global,
    doc: &Doc<'_>,
    row: Option<u32>,
) -> Result<StepList, FieldRefusal>
    requires { IfSome row (λ x. x < length doc.now) }
    ensures { Gives (λ l. l) result (spec.transforms_if doc.now row) }
{
    match row {
        Some(x) => transforms(alloc, doc, x),
        None => Ok(Members::new(alloc)),
    }
}
