//! The names of a PrefixList.
ghost use Rattle.std.specs.Prelude.{◌≡◌, ◌<◌, ◌≤◌, ◌++◌, ◌∷◌, [], length, map, filter, nat_lt, IfOk, OnOk, MatchOption};
ghost use Rattle.std.specs.List.{position_or_len, slice_split};
ghost use Rattle.std.specs.Str.{chars};
ghost use Rattle.sig_base.specs.Space.{is_space};
ghost use Rattle.sig_base.specs.Prefixes as spec;

use crate::lists::{PrefixList, Text};
use crate::memory::NoMemory;
use crate::space::is_space;
use std::alloc::Global;

/// The names of a PrefixList: what stands between white space (Exclusive XML Canonicalization 1.0 §3).
pub fn names_in(alloc: Global, text: &str) -> Result<PrefixList, NoMemory>
    ensures { IfOk result (λ l. l ≡ spec.names_in text.now) }
{
    let mut names = PrefixList::new(alloc);
    let mut rest = text;
    while let Some((name, behind)) = cut_at_space(rest) {
        add_name(alloc, name, &mut names)?;
        rest = behind;
    }
    add_name(alloc, rest, &mut names)?;
    Ok(names)
}

/// The text before the first white space, and the text behind that octet. `None` where there is none.
fn cut_at_space(text: &str) -> Option<(&str, &str)>
    ensures { MatchOption result (slice_split is_space text.now ≡ text.now ∷ [])
        (λ cut. (slice_split is_space text.now ≡ cut.0.now ∷ slice_split is_space cut.1.now) × (length cut.1.now < length text.now)) }
{
    let at = first_space(text)?;
    Some((&text[..at], &text[at + 1..]))
}

/// The place of the first white space; `None` where there is none.
fn first_space(text: &str) -> Option<usize>
    ensures { MatchOption result (length text.now ≤ position_or_len is_space text.now)
        (λ at. (at ≡ position_or_len is_space text.now) × (at < length text.now)) }
{
    text.as_bytes().iter().position(|octet| is_space(*octet))
}

/// Adds a name to the list, if it has a character.
fn add_name(alloc: Global, name: &str, names: &mut PrefixList) -> Result<(), NoMemory>
    ensures { OnOk result (names.new ≡ names.old ++ map chars (filter (λ name. nat_lt 0 (length name)) (name.now ∷ []))) }
{
    if !name.is_empty() {
        names.push(Text::from_str(alloc, name)?)?;
    }
    Ok(())
}
