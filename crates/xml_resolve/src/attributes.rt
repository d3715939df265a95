//! What the attributes of a tag declare and name.
ghost use Rattle.std.specs.Prelude.{◌≡◌, [], map, Some, Err, option_map, IfOk, IfSome, OnErr};
ghost use Rattle.std.specs.List.{list_any};
ghost use Rattle.std.specs.BTreeMap.{insert_entry};
ghost use Rattle.xml_names.specs.Names.{qname_of};
ghost use Rattle.xml_syntax.specs.Seen.{seen_attribute, seen_attributes};
ghost use Rattle.xml_resolve.specs.Code.Keys.{attribute_of};
ghost use Rattle.xml_resolve.specs.Resolve.{attribute_uri, declaration_of, is_declaration};
ghost use Rattle.xml_resolve.specs.SeenRows.{Finds};
ghost use Rattle.xml_resolve.specs.Steps.{key_cmp};
ghost use Rattle.xml_resolve.specs.Table.{bindings_behind, bound_by, declares, ordered_behind, with_attribute};

use crate::bindings::Bindings;
use crate::fault::RowFault;
use crate::names::is_behind;
use crate::rows::{Attributes, Named, kept};
use bumpalo::Bump;
use std::alloc::Global;
use std::collections::BTreeMap;
use xml_names::split_qname;
use xml_syntax::Attribute;

/// Whether an attribute of this name is a declaration.
pub(crate) fn is_declaration(prefix: &str, local: &str) -> bool
    ensures { result ≡ is_declaration (prefix.now, local.now) }
{
    let word = if prefix.is_empty() { local } else { prefix };
    word == "xmlns"
}

/// Whether the attribute is a declaration.
fn declares(attribute: &Attribute<'_>) -> bool
    ensures { result ≡ declares (seen_attribute attribute.now) }
{
    match split_qname(attribute.name) {
        Some((prefix, local)) => is_declaration(prefix, local),
        None => false,
    }
}

/// Whether one of the attributes is a declaration.
pub(crate) fn declares_any(attributes: &[Attribute<'_>]) -> bool
    ensures { result ≡ list_any declares (seen_attributes attributes.now) }
{
    for attribute in attributes {
        if declares(attribute) {
            return true;
        }
    }
    false
}

/// The prefix that a declaration of this name binds, empty for the default.
fn declared_prefix<'s>(prefix: &str, local: &'s str) -> &'s str
    ensures { result.now ≡ (declaration_of (prefix.now, local.now) []).prefix }
{
    if prefix.is_empty() { "" } else { local }
}

/// Binds what the attribute declares, if it is a declaration.
fn bind_attribute<'a>(
    bump: &'a Bump,
    bindings: &mut Bindings<'a>,
    attribute: &Attribute<'a>,
) -> Result<(), RowFault>
    ensures { Finds (λ _. bindings.new) result (Some
        (with_attribute bindings.old (qname_of (seen_attribute attribute.now).name) (seen_attribute attribute.now).value)) }
{
    let Some((prefix, local)) = split_qname(attribute.name) else {
        return Ok(());
    };
    if !is_declaration(prefix, local) {
        return Ok(());
    }
    let Ok(uri) = kept(bump, &attribute.value) else {
        return Err(RowFault::Memory);
    };
    bindings.bind(declared_prefix(prefix, local), uri)
}

/// The bindings behind the attributes of a tag.
#[tactic(auto, unfolding(crate::specs::Table::bindings_behind))]
pub(crate) fn bindings_behind<'a>(
    bump: &'a Bump,
    above: &Bindings<'a>,
    attributes: &[Attribute<'a>],
) -> Result<Bindings<'a>, RowFault>
    ensures { Finds (λ b. b) result (Some (bindings_behind above.now (seen_attributes attributes.now))) }
{
    let mut bindings = above.again()?;
    for attribute in attributes {
        bind_attribute(bump, &mut bindings, attribute)?;
    }
    Ok(bindings)
}

/// The namespace name of an attribute with this prefix.
fn attribute_uri<'a>(bindings: &Bindings<'a>, prefix: &str) -> Option<&'a str>
    ensures { option_map (λ x. x.now) result ≡ attribute_uri (bound_by bindings.now) prefix.now }
{
    if prefix.is_empty() {
        Some("")
    } else {
        bindings.get(prefix)
    }
}

/// Puts an attribute with its name and value in order.
fn add_attribute<'a>(
    bindings: &Bindings<'a>,
    ordered: &mut Attributes<'a>,
    prefix: &'a str,
    local: &'a str,
    value: &'a str,
) -> Result<(), RowFault>
    ensures { Finds (λ _. map attribute_of ordered.new.entries) result
        (option_map (λ uri. insert_entry key_cmp (map attribute_of ordered.old.entries) (uri, local.now) (prefix.now, value.now))
        (attribute_uri (bound_by bindings.now) prefix.now)) }
{
    let Some(uri) = attribute_uri(bindings, prefix) else {
        return Err(RowFault::Namespaces);
    };
    match ordered.insert((uri, local), (prefix, value)) {
        Ok(_) => Ok(()),
        Err(_) => Err(RowFault::Memory),
    }
}

/// The attributes of a tag that are no declarations, if they can be resolved and stand in order as they are written, as in a
/// canonical form.
#[tactic(auto, unfolding(crate::specs::Table::ordered_behind))]
pub(crate) fn rising<'a>(
    alloc: Global,
    bump: &'a Bump,
    bindings: &Bindings<'a>,
    attributes: &[Attribute<'a>],
) -> Result<Option<Vec<Named<'a>>>, RowFault>
    ensures ok { IfOk result (λ found. IfSome found (λ list.
        ordered_behind (bound_by bindings.now) [] (seen_attributes attributes.now) ≡ Some (map attribute_of list.items))) }
    ensures err { OnErr result (result ≡ Err RowFault.Memory) }
{
    let mut list: Vec<Named<'a>> = Vec::with_capacity(alloc, attributes.len())?;
    let mut last = None;
    for attribute in attributes {
        let Some((prefix, local)) = split_qname(attribute.name) else {
            return Ok(None);
        };
        if !is_declaration(prefix, local) {
            let Some(uri) = attribute_uri(bindings, prefix) else {
                return Ok(None);
            };
            if !is_behind(last, uri, local) {
                return Ok(None);
            }
            let Ok(value) = kept(bump, &attribute.value) else {
                return Err(RowFault::Memory);
            };
            list.push(((uri, local), (prefix, value)))?;
            last = Some((uri, local));
        }
    }
    Ok(Some(list))
}

/// The attributes of a tag that are no declarations, in order.
#[tactic(auto, unfolding(crate::specs::Table::ordered_behind))]
pub(crate) fn ordered<'a>(
    alloc: Global,
    bump: &'a Bump,
    bindings: &Bindings<'a>,
    attributes: &[Attribute<'a>],
) -> Result<Attributes<'a>, RowFault>
    ensures { Finds (λ m. map attribute_of m.entries) result (ordered_behind (bound_by bindings.now) [] (seen_attributes attributes.now)) }
{
    let mut ordered = BTreeMap::new(alloc);
    for attribute in attributes {
        let Some((prefix, local)) = split_qname(attribute.name) else {
            return Err(RowFault::Namespaces);
        };
        if !is_declaration(prefix, local) {
            let Ok(value) = kept(bump, &attribute.value) else {
                return Err(RowFault::Memory);
            };
            add_attribute(bindings, &mut ordered, prefix, local, value)?;
        }
    }
    Ok(ordered)
}
