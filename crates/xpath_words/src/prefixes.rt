//! The prefixes in scope of an expression.
ghost use Rattle.std.specs.Prelude.{◌≡◌, ◌∷◌, ◌++◌, [], OnOk, OnErr, map, option_map};
ghost use Rattle.xpath_words.specs.Prefixes.{namespace_of, pair_of};

use sig_base::NoMemory;
use std::alloc::Global;
use std::marker::Model;

/// The prefixes in scope of an expression, each with the namespace name for which it stands (XPath 1.0 §1). Contracts see
/// the list of the pairs, as UTF-8 octets.
#[derive(Drop)]
pub struct Prefixes<'p> {
    pairs: Vec<(&'p str, &'p str)>,
}

impl<'p> Model for Prefixes<'p> {
    ghost use Rattle.std.specs.Prelude.{List, map};
    ghost use Rattle.xpath_words.specs.Prefixes.{Pair, pair_of};

    ghost Value = { List Pair };

    ghost view = { λ p. map pair_of p.pairs.items };
}

impl<'p> Prefixes<'p> {
    /// No prefix is in scope.
    pub fn new(alloc: Global) -> Prefixes<'p>
        ensures { result ≡ [] }
    {
        Prefixes {
            pairs: Vec::new(alloc),
        }
    }

    /// Adds a pair. Of the pairs of a prefix the first one counts. After `NoMemory` the list is as before.
    pub fn add(&mut self, prefix: &'p str, uri: &'p str) -> Result<(), NoMemory>
        ensures ok { OnOk result (self.new ≡ self.old ++ (prefix.now, uri.now) ∷ []) }
        ensures err { OnErr result (self.new ≡ self.old) }
    {
        self.pairs.push((prefix, uri))?;
        Ok(())
    }

    /// The namespace name in the first pair of the prefix.
    pub(crate) fn namespace_of(&self, prefix: &str) -> Option<&'p str>
        ensures { option_map (λ u. u.now) result ≡ namespace_of prefix.now self.now }
    {
        first_of(&self.pairs, prefix)
    }
}

/// The namespace name in the first pair of the prefix.
#[tactic(auto, unfolding(crate::specs::Prefixes::namespace_of))]
fn first_of<'p>(pairs: &[(&'p str, &'p str)], prefix: &str) -> Option<&'p str>
    ensures { option_map (λ u. u.now) result ≡ namespace_of prefix.now (map pair_of pairs.now) }
{
    for (bound, uri) in pairs {
        if *bound == prefix {
            return Some(uri);
        }
    }
    None
}
