//! Canonical forms by the method that a signature names (XML Signature 1.1 §6.5).
//!
//! [`canon`] writes Canonical XML 1.0 and 1.1, and Exclusive XML Canonicalization 1.0, each with comments and without. [`fits`]
//! and [`octets_within`] do so within a limit of octets: a form can be far longer than its document, since what an omitted
//! ancestor declares is written at each element below it.
#![tactic(auto)]

mod limit;

ghost use Rattle.std.specs.Prelude.{◌≡◌, map, false, [], encode_utf8_all};
ghost use Rattle.sig_base.specs.Methods.{is_exclusive};
ghost use Rattle.node_sets.specs.View.{in_view, rows_of};
ghost use Rattle.c14n_text.specs.Namespaces.{inclusive, eleven, exclusive};
ghost use Rattle.c14n_text.specs.Canon.{canon};
ghost use Rattle.c14n_methods.specs.Methods.{canonical_form};
ghost use Rattle.c14n_methods.specs.Canons.{Canons};

pub use limit::{OCTET_LIMIT, fits, octets_within};
use node_sets::SetView;
use sig_base::{CanonMethod, NoMemory, OctetSink, PrefixList, Put};
use std::alloc::Global;

/// Why a canonical form was not written whole.
#[derive(Clone, Copy, Debug, PartialEq, Eq)]
pub enum CanonFault {
    /// The sink refused a piece.
    SinkRefused,
    /// Memory that was asked for was not given.
    Memory,
}

/// Writes the canonical form of a set of rows by a method.
///
/// `prefixes` is the PrefixList of an exclusive method, and empty for another. `SinkRefused` comes where the sink refused a
/// piece, and leaves a prefix of the form in it. `Memory` comes for want of memory alone, which is taken before anything is
/// written, and leaves nothing.
pub fn canon<S: OctetSink>(
    alloc: Global,
    method: CanonMethod,
    prefixes: &PrefixList,
    set: SetView<'_>,
    sink: &mut S,
) -> Result<(), CanonFault>
    requires { is_exclusive method ≡ false → prefixes.now ≡ [] }
    ensures { Canons S.stands_for S.refusals S.makes sink.old sink.new
        (canonical_form method (map encode_utf8_all prefixes.now) (rows_of set.entry) (in_view set.entry)) result }
{
    match method {
        CanonMethod::C10 => inclusive_form(alloc, set, false, sink),
        CanonMethod::C10Comments => inclusive_form(alloc, set, true, sink),
        CanonMethod::C11 => eleven_form(alloc, set, false, sink),
        CanonMethod::C11Comments => eleven_form(alloc, set, true, sink),
        CanonMethod::Exc => exclusive_form(alloc, set, prefixes, false, sink),
        CanonMethod::ExcComments => exclusive_form(alloc, set, prefixes, true, sink),
    }
}

/// Writes the form of Canonical XML 1.0.
fn inclusive_form<S: OctetSink>(
    alloc: Global,
    set: SetView<'_>,
    comments: bool,
    sink: &mut S,
) -> Result<(), CanonFault>
    ensures { Canons S.stands_for S.refusals S.makes sink.old sink.new (canon inclusive comments (rows_of set.entry) (in_view set.entry))
        result }
{
    match c14n_inclusive::write_once(alloc, set, comments, sink) {
        Ok(Put::Done) => Ok(()),
        Ok(Put::Refused) => Err(CanonFault::SinkRefused),
        Err(NoMemory) => Err(CanonFault::Memory),
    }
}

/// Writes the form of Canonical XML 1.1.
fn eleven_form<S: OctetSink>(
    alloc: Global,
    set: SetView<'_>,
    comments: bool,
    sink: &mut S,
) -> Result<(), CanonFault>
    ensures { Canons S.stands_for S.refusals S.makes sink.old sink.new (canon eleven comments (rows_of set.entry) (in_view set.entry))
        result }
{
    match c14n_eleven::write_once(alloc, set, comments, sink) {
        Ok(Put::Done) => Ok(()),
        Ok(Put::Refused) => Err(CanonFault::SinkRefused),
        Err(NoMemory) => Err(CanonFault::Memory),
    }
}

/// Writes the form of Exclusive XML Canonicalization 1.0.
fn exclusive_form<S: OctetSink>(
    alloc: Global,
    set: SetView<'_>,
    prefixes: &PrefixList,
    comments: bool,
    sink: &mut S,
) -> Result<(), CanonFault>
    ensures { Canons S.stands_for S.refusals S.makes sink.old sink.new
        (canon (exclusive (map encode_utf8_all prefixes.now)) comments (rows_of set.entry) (in_view set.entry)) result }
{
    match c14n_exclusive::write_once(alloc, set, prefixes, comments, sink) {
        Ok(Put::Done) => Ok(()),
        Ok(Put::Refused) => Err(CanonFault::SinkRefused),
        Err(NoMemory) => Err(CanonFault::Memory),
    }
}
