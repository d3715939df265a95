//! The language of a node (XPath 1.0 §4.3, `lang`).
ghost use Rattle.std.specs.Prelude.{◌≡◌, ◌<◌, length, map, slice_get, IfOk, IfSome};
ghost use Rattle.std.specs.List.{filter};
ghost use Rattle.std.specs.Str.{chars};
ghost use Rattle.xml_doc.specs.Fields.{attribute_rows};
ghost use Rattle.xpath_eval.specs.Functions.{is_language, is_of_language, languages, small, speaks};

use crate::wording::lowered;
use sig_base::{NoMemory, XML_NAME};
use std::alloc::Global;
use xml_doc::{Axis, Doc};
use xpath_value::starts_with;

/// Whether a row has the name `xml:lang`.
fn is_language(doc: &Doc<'_>, a: u32) -> bool
    requires { a < length doc.now }
    ensures { result ≡ is_language doc.now a }
{
    doc.uri(a) == XML_NAME && doc.local_name(a) == "lang"
}

/// The attribute `xml:lang` of an element.
fn language_of(doc: &Doc<'_>, e: u32) -> Option<u32>
    requires { e < length doc.now }
    ensures value { result ≡ slice_get (filter (is_language doc.now) (attribute_rows doc.now e)) 0 }
    ensures row { IfSome result (λ a. a < length doc.now) }
{
    let own = doc.own_rows(e);
    for a in own.first_attribute..own.first_child {
        if is_language(doc, a) {
            return Some(a);
        }
    }
    None
}

/// The nearest attribute `xml:lang` of a node and its ancestors.
fn nearest_language(doc: &Doc<'_>, x: u32) -> Option<u32>
    requires { x < length doc.now }
    ensures value { result ≡ slice_get (languages doc.now x) 0 }
    ensures row { IfSome result (λ a. a < length doc.now) }
{
    let mut walk = doc.axis(Axis::AncestorOrSelf, x);
    while let Some(e) = walk.next() {
        let found = language_of(doc, e);
        if found.is_some() {
            return found;
        }
    }
    None
}

/// Whether a language is the wanted one, or one of it.
fn is_of_language(alloc: Global, wanted: &str, language: &str) -> Result<bool, NoMemory>
    ensures { IfOk result (λ b. b ≡ is_of_language (map small (chars wanted.now)) (map small (chars language.now))) }
{
    let mut front = lowered(alloc, wanted)?;
    let all = lowered(alloc, language)?;
    if all.as_str() == front.as_str() {
        return Ok(true);
    }
    front.push('-')?;
    Ok(starts_with(all.as_str(), front.as_str()))
}

/// Whether the language at a node is the wanted one, or one of it.
pub(crate) fn speaks(alloc: Global, doc: &Doc<'_>, wanted: &str, x: u32) -> Result<bool, NoMemory>
    requires { x < length doc.now }
    ensures { IfOk result (λ b. b ≡ speaks doc.now (chars wanted.now) (languages doc.now x)) }
{
    match nearest_language(doc, x) {
        Some(a) => is_of_language(alloc, wanted, doc.value(a)),
        None => Ok(false),
    }
}
