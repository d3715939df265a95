//! KeyInfo, of which the first KeyName is read.

ghost use Rattle.std.specs.Prelude.{◌≡◌, ◌<◌, length, IfSome};
ghost use Rattle.dsig_fields.specs.Code.Cursor.{name_at};
ghost use Rattle.dsig_fields.specs.Fields as spec;
ghost use Rattle.dsig_fields.specs.Reading.{Gives};

use crate::children::Children;
use crate::element::is_named;
use crate::names::ElementName;
use crate::refusal::FieldRefusal;
use crate::simple::simple_text;
use sig_base::Text;
use std::alloc::Global;
use xml_doc::Doc;

/// The content of a KeyName; another element says nothing.
fn name_at(alloc: Global, doc: &Doc<'_>, y: u32) -> Result<Option<Text>, FieldRefusal>
    requires { y < length doc.now }
    ensures { Gives (λ n. n) result (name_at doc.now y) }
{
    if !is_named(doc, y, ElementName::KeyName) {
        return Ok(None);
    }
    let text = simple_text(alloc, doc, y)?;
    Ok(Some(Text::from_string(text)))
}

/// KeyInfo: the content of the first KeyName, if there is one (XML Signature 1.1 §4.5). Each KeyName is read.
fn key_info(alloc: Global, doc: &Doc<'_>, x: u32) -> Result<Option<Text>, FieldRefusal>
    requires { x < length doc.now }
    ensures { Gives (λ n. n) result (spec.key_info doc.now x) }
{
    let mut children = Children::of(doc, x);
    let mut first = None;
    while let Some(y) = children.any_element(doc)? {
        let name = name_at(alloc, doc, y)?;
        first = first.or(name);
    }
    Ok(first)
}

/// The same of a KeyInfo that a Signature may lack.
pub(crate) fn key_info_if(
    alloc: Global,
    doc: &Doc<'_>,
    row: Option<u32>,
) -> Result<Option<Text>, FieldRefusal>
    requires { IfSome row (λ x. x < length doc.now) }
    ensures { Gives (λ n. n) result (spec.key_info_if doc.now row) }
{
    match row {
        Some(x) => key_info(alloc, doc, x),
        None => Ok(None),
    }
}
