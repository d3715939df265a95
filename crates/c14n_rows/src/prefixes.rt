//! The names of a PrefixList (Exclusive XML Canonicalization 1.0 §3).
ghost use Rattle.std.specs.Prelude.{◌≡◌, map, encode_utf8_all, IfOk};
ghost use Rattle.std.specs.List.{list_any};
ghost use Rattle.std.specs.Str.{bytes_eq};
ghost use Rattle.c14n_rows.specs.Prefixes.{HasNames};

use sig_base::{NoMemory, PrefixList};
use std::alloc::Global;
use std::collections::BTreeSet;
use std::marker::Model;

/// A PrefixList, in which names are looked up.
#[derive(Drop)]
pub struct Listed<'p> {
    prefixes: &'p PrefixList,
    /// Its names in order, where memory was taken for them.
    names: Option<BTreeSet<&'p str>>,
}

impl<'p> Model for Listed<'p> {
    ghost use Rattle.std.specs.Prelude.{ℕ, List, IfSome};
    ghost use Rattle.c14n_rows.specs.Prefixes.{HasNames};

    ghost Value = { List (List ℕ) };

    ghost view = { λ l. l.prefixes.now };

    ghost invariant = { λ l. IfSome l.names (HasNames l.prefixes.now) };
}

impl<'p> Listed<'p> {
    /// A list in which each look-up goes through all names. It takes no memory.
    pub fn new(prefixes: &'p PrefixList) -> Listed<'p>
        ensures { result ≡ prefixes.now }
    {
        Listed {
            prefixes,
            names: None,
        }
    }

    /// A list that puts its names in order, so that each look-up meets few of them. `NoMemory` comes where the memory for
    /// this isn't given.
    pub fn in_order(alloc: Global, prefixes: &'p PrefixList) -> Result<Listed<'p>, NoMemory>
        ensures { IfOk result (λ l. l ≡ prefixes.now) }
    {
        let names = names_of(alloc, prefixes)?;
        Ok(Listed {
            prefixes,
            names: Some(names),
        })
    }

    /// Whether the list has this name.
    pub(crate) fn has(&self, name: &str) -> bool
        ensures { result ≡ list_any (bytes_eq name.now) (map encode_utf8_all self.now) }
    {
        match &self.names {
            Some(names) => names.contains(name),
            None => is_listed(self.prefixes, name),
        }
    }
}

/// The names of a PrefixList, in order.
fn names_of<'p>(alloc: Global, prefixes: &'p PrefixList) -> Result<BTreeSet<&'p str>, NoMemory>
    ensures { IfOk result (HasNames prefixes.now) }
{
    let mut names = BTreeSet::new(alloc);
    for k in 0..prefixes.len() {
        match prefixes.get(k) {
            Some(prefix) => {
                names.insert(prefix.as_str())?;
            }
            None => return Ok(names),
        }
    }
    Ok(names)
}

/// Whether a PrefixList has this name.
fn is_listed(prefixes: &PrefixList, name: &str) -> bool
    ensures { result ≡ list_any (bytes_eq name.now) (map encode_utf8_all prefixes.now) }
{
    for k in 0..prefixes.len() {
        match prefixes.get(k) {
            Some(prefix) => {
                if name == prefix.as_str() {
                    return true;
                }
            }
            None => return false,
        }
    }
    false
}
