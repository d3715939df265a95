//! Whether the names of a document can be resolved (Namespaces in XML 1.0).
ghost use Rattle.std.specs.Prelude.{◌≡◌, [], ◌∷◌, ◌+◌, ◌<◌, ◌≤◌, ◌^◌, true, None, is_some, option_map, IfOk, OnOk};
ghost use Rattle.xml_names.specs.Names.{qname_of};
ghost use Rattle.xml_names.specs.Scopes.{Declared, Enter};
ghost use Rattle.xml_resolve.specs.Resolve.{attribute_uri, element_name, is_declaration, resolve};
ghost use Rattle.xml_resolve.specs.Seen.{Resolves};
ghost use Rattle.xml_resolve.specs.Code.Seen.{Leads, Takes};
ghost use Rattle.xml_syntax.specs.Seen.{seen, seen_all, seen_attribute, seen_attributes, seen_tag};
ghost use Rattle.xml_syntax.specs.Tree as tree;
ghost use Rattle.xml_syntax.specs.Tree.{Content};
ghost use Rattle.xml_resolve.specs.Steps.{bound_in, names_behind, opened, resolves, scope_behind};
ghost use Rattle.xml_resolve.specs.Code.Steps.{enters, rises};

use crate::attributes::is_declaration;
use crate::names::{NameSet, is_behind};
use std::alloc::Global;
use xml_names::{Scope, ScopeFault, is_ncname, split_qname};
use xml_syntax::{Attribute, Event, Tag};

/// Why the names of a document are not resolved.
#[derive(Clone, Copy, Debug, PartialEq, Eq)]
pub enum ResolveFault {
    /// A name is no QName, or a target no NCName (Namespaces in XML 1.0 §3, §4 and §7), a declaration has a fault (§2 and
    /// §3), a prefix is not declared (§5), or two attributes of an element have one expanded name (§6.3).
    Namespaces,
    /// Memory ran out.
    Memory,
}

/// Declares what the attributes declare.
#[tactic(auto, unfolding(crate::specs::Steps::scope_behind))]
fn declare_all(scope: &mut Scope, attributes: &[Attribute<'_>]) -> Result<(), ResolveFault>
    ensures depth { enters scope.new ≡ enters scope.old }
    ensures scope { Leads result scope.new (scope_behind scope.old (seen_attributes attributes.now)) }
{
    for attribute in attributes {
        let Some((prefix, local)) = split_qname(attribute.name) else {
            return Err(ResolveFault::Namespaces);
        };
        if is_declaration(prefix, local) {
            let bound = if prefix.is_empty() { "" } else { local };
            match scope.declare(bound, attribute.value.as_str()) {
                Ok(()) => {}
                Err(ScopeFault::Memory) => return Err(ResolveFault::Memory),
                Err(_) => return Err(ResolveFault::Namespaces),
            }
        }
    }
    Ok(())
}

/// Whether the name of an element can be resolved.
#[tactic(auto, unfolding(crate::specs::Resolve::element_name))]
fn is_element_named(scope: &Scope, text: &str) -> bool
    ensures { result ≡ is_some (element_name (bound_in scope.now) text.now) }
{
    match split_qname(text) {
        Some((prefix, _local)) => prefix.is_empty() || scope.lookup(prefix).is_some(),
        None => false,
    }
}

/// The namespace name of an attribute with this prefix.
fn attribute_uri<'s>(scope: &'s Scope, prefix: &str) -> Option<&'s str>
    ensures { option_map (λ x. x.now) result ≡ attribute_uri (bound_in scope.now) prefix.now }
{
    if prefix.is_empty() {
        Some("")
    } else {
        scope.lookup(prefix)
    }
}

/// Opens an element.
#[tactic(auto, unfolding(crate::specs::Steps::opened))]
fn open_element(alloc: Global, scope: &mut Scope, tag: &Tag<'_>) -> Result<(), ResolveFault>
    ensures opened { Leads result scope.new (opened scope.old (seen_tag tag.now)) }
    ensures depth { OnOk result (enters scope.new ≡ enters scope.old + 1) }
{
    if scope.enter().is_err() {
        return Err(ResolveFault::Memory);
    }
    declare_all(scope, &tag.attributes)?;
    if !is_element_named(scope, tag.name) {
        return Err(ResolveFault::Namespaces);
    }
    names_are_apart(alloc, scope, &tag.attributes)
}

/// Whether all attributes can be resolved, and stand in order of their names, as in a canonical form. Then no two have the
/// same name.
#[tactic(auto, unfolding(crate::specs::Code::Steps::rises))]
fn names_rise(scope: &Scope, attributes: &[Attribute<'_>]) -> bool
    ensures { result ≡ rises (bound_in scope.now) None (seen_attributes attributes.now) }
{
    let mut last = None;
    for attribute in attributes {
        let Some((prefix, local)) = split_qname(attribute.name) else {
            return false;
        };
        if !is_declaration(prefix, local) {
            let Some(uri) = attribute_uri(scope, prefix) else {
                return false;
            };
            if !is_behind(last, uri, local) {
                return false;
            }
            last = Some((uri, local));
        }
    }
    true
}

/// Whether all attributes can be resolved, and no two have the same name.
#[tactic(auto, unfolding(crate::specs::Steps::names_behind))]
fn names_are_apart(
    alloc: Global,
    scope: &Scope,
    attributes: &[Attribute<'_>],
) -> Result<(), ResolveFault>
    ensures { Resolves result (is_some (names_behind scope.now [] (seen_attributes attributes.now))) }
{
    if names_rise(scope, attributes) {
        return Ok(());
    }
    let mut names = NameSet::new(alloc);
    for attribute in attributes {
        let Some((prefix, local)) = split_qname(attribute.name) else {
            return Err(ResolveFault::Namespaces);
        };
        if !is_declaration(prefix, local) {
            let Some(uri) = attribute_uri(scope, prefix) else {
                return Err(ResolveFault::Namespaces);
            };
            match names.add(uri, local) {
                Ok(true) => {}
                Ok(false) => return Err(ResolveFault::Namespaces),
                Err(_) => return Err(ResolveFault::Memory),
            }
        }
    }
    Ok(())
}

/// Takes an event, where so many elements are open.
#[tactic(auto, unfolding(crate::specs::Steps::resolves))]
fn take_event(
    alloc: Global,
    scope: &mut Scope,
    depth: usize,
    event: &Event<'_>,
) -> Result<usize, ResolveFault>
    requires small { depth < 2 ^ 63 }
    requires depth { depth ≡ enters scope.old }
    ensures depth { IfOk result (λ d. d ≡ enters scope.new) }
    ensures small { IfOk result (λ d. d ≤ depth + 1) }
    ensures taken { Takes result scope.old scope.new (seen event.now) }
{
    match event {
        Event::Text(_) => Ok(depth),
        Event::Comment(_) => Ok(depth),
        Event::Instruction(pi) => {
            if is_ncname(pi.target) {
                Ok(depth)
            } else {
                Err(ResolveFault::Namespaces)
            }
        }
        Event::Start(tag) => {
            open_element(alloc, scope, tag)?;
            Ok(depth + 1)
        }
        Event::End(_) => {
            if depth == 0 {
                return Err(ResolveFault::Namespaces);
            }
            scope.leave();
            Ok(depth - 1)
        }
    }
}

/// Finds whether all names of some events can be resolved. It holds the declarations in scope alone, and the attributes' names
/// of one tag.
///
/// # Errors
///
/// `Namespaces` exactly where a name can't be resolved: for the events of a tree, exactly where the tree has no resolution.
/// `Memory` where memory runs out before that is known.
pub fn check_names(alloc: Global, events: &[Event<'_>]) -> Result<(), ResolveFault>
    ensures exact { Resolves result (resolves [] (seen_all events.now)) }
    ensures tree { (t : Content) → seen_all events.now ≡ tree.events t → Resolves result (is_some (resolve [] t)) }
{
    resolve_events(alloc, events)
}

#[tactic(auto, unfolding(crate::specs::Steps::resolves))]
fn resolve_events(alloc: Global, events: &[Event<'_>]) -> Result<(), ResolveFault>
    ensures { Resolves result (resolves [] (seen_all events.now)) }
{
    let mut scope = Scope::new(alloc);
    let mut depth = 0;
    for event in events {
        depth = take_event(alloc, &mut scope, depth, event)?;
    }
    Ok(())
}
