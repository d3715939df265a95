//! Canonical forms of node sets, within the limit.

ghost use Rattle.std.specs.Prelude.{◌≡◌, false, [], map, IfOk, Ok, encode_utf8_all};
ghost use Rattle.sig_base.specs.Methods.{is_exclusive};
ghost use Rattle.sig_base.specs.declared.method.CanonMethod.TheVariants.{C10};
ghost use Rattle.node_sets.specs.Members.{has};
ghost use Rattle.c14n_methods.specs.Canons.{Canons};
ghost use Rattle.c14n_methods.specs.Limits.{is_within};
ghost use Rattle.c14n_methods.specs.Methods.{canonical_form};
ghost use Rattle.transforms.specs.Answers.{Writes};
ghost use Rattle.transforms.specs.Code.Answers.{Gives};
ghost use Rattle.transforms.specs.Steps.{within};

use crate::refusal::RefRefusal;
use c14n_methods::{CanonFault, OCTET_LIMIT, canon, fits, octets_within};
use node_sets::NodeSet;
use sig_base::{CanonMethod, NoMemory, OctetSink, Octets, PrefixList, Put};
use std::alloc::Global;

/// Writes the canonical form of a set.
fn write<S: OctetSink>(
    alloc: Global,
    method: CanonMethod,
    prefixes: &PrefixList,
    set: &NodeSet<'_>,
    sink: &mut S,
) -> Result<(), CanonFault>
    requires unlisted { is_exclusive method ≡ false → prefixes.now ≡ [] }
    ensures { Canons S.stands_for S.refusals S.makes sink.old sink.new
        (canonical_form method (map encode_utf8_all prefixes.now) set.now.rows (has set.now.members)) result }
{
    canon(alloc, method, prefixes, set.lend(), sink)
}

/// Whether the canonical form of a set is within the limit.
fn is_within(
    alloc: Global,
    method: CanonMethod,
    prefixes: &PrefixList,
    set: &NodeSet<'_>,
) -> Result<bool, NoMemory>
    requires unlisted { is_exclusive method ≡ false → prefixes.now ≡ [] }
    ensures { IfOk result (λ b. b ≡ is_within (canonical_form method (map encode_utf8_all prefixes.now) set.now.rows (has set.now.members))) }
{
    fits(alloc, method, prefixes, set.lend())
}

/// The canonical form of a set, as the step of this number makes it. It takes memory only where it is within the limit.
pub(crate) fn canonical(
    alloc: Global,
    method: CanonMethod,
    prefixes: &PrefixList,
    set: &NodeSet<'_>,
    number: u32,
) -> Result<Octets, RefRefusal>
    requires unlisted { is_exclusive method ≡ false → prefixes.now ≡ [] }
    ensures { Gives (λ o. o) result (within number
        (canonical_form method (map encode_utf8_all prefixes.now) set.now.rows (has set.now.members))) }
{
    match octets_within(alloc, method, prefixes, set.lend())? {
        Some(octets) => Ok(octets),
        None => Err(RefRefusal::OctetsTooLong(number)),
    }
}

/// Writes the canonical form of a set by Canonical XML 1.0 without comments.
fn write_form<S: OctetSink>(
    alloc: Global,
    set: &NodeSet<'_>,
    sink: &mut S,
) -> Result<(), RefRefusal>
    ensures { Writes S.stands_for S.refusals S.makes sink.old sink.new (Ok (canonical_form C10 [] set.now.rows (has set.now.members)))
        result }
{
    match write(alloc, CanonMethod::C10, &PrefixList::new(alloc), set, sink) {
        Ok(()) => Ok(()),
        Err(CanonFault::SinkRefused) => Err(RefRefusal::SinkRefused),
        Err(CanonFault::Memory) => Err(RefRefusal::Memory),
    }
}

/// Writes a set that is left behind the last step, as the step of this number.
pub(crate) fn write_set<S: OctetSink>(
    alloc: Global,
    set: &NodeSet<'_>,
    number: u32,
    sink: &mut S,
) -> Result<(), RefRefusal>
    ensures { Writes S.stands_for S.refusals S.makes sink.old sink.new
        (within number (canonical_form C10 [] set.now.rows (has set.now.members))) result }
{
    if !is_within(alloc, CanonMethod::C10, &PrefixList::new(alloc), set)? {
        return Err(RefRefusal::OctetsTooLong(number));
    }
    write_form(alloc, set, sink)
}

/// Writes octets that are left behind the last step, as the step of this number.
pub(crate) fn write_octets<S: OctetSink>(
    octets: &Octets,
    number: u32,
    sink: &mut S,
) -> Result<(), RefRefusal>
    ensures { Writes S.stands_for S.refusals S.makes sink.old sink.new (within number octets.now) result }
{
    if OCTET_LIMIT < octets.len() as u64 {
        return Err(RefRefusal::OctetsTooLong(number));
    }
    match sink.put(octets.bytes()) {
        Put::Done => Ok(()),
        Put::Refused => Err(RefRefusal::SinkRefused),
    }
}
