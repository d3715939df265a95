//! Canonical forms within a limit of octets.
ghost use Rattle.std.specs.Prelude.{◌≡◌, false, [], length, map, encode_utf8_all, IfOk, nat_le};
ghost use Rattle.sig_base.specs.Methods.{is_exclusive};
ghost use Rattle.node_sets.specs.View.{in_view, rows_of};
ghost use Rattle.c14n_methods.specs.Limits.{form_within, is_within, octet_limit};
ghost use Rattle.c14n_methods.specs.Code.Limited.{Counts};
ghost use Rattle.c14n_methods.specs.Methods.{canonical_form};

use crate::{CanonFault, canon};
use node_sets::SetView;
use sig_base::{CanonMethod, NoMemory, OctetSink, Octets, PrefixList, Put, VecSink};
use std::alloc::Global;
use std::marker::Model;

/// The octets that one canonical form may have, where its user limits it: this project's own limit.
pub const OCTET_LIMIT: u64 = 33_554_432;

/// Counts octets, and refuses once it has more than the limit.
#[derive(Drop)]
struct LimitSink {
    count: u64,
    refused: u64,
}

impl Model for LimitSink {
    ghost use Rattle.std.specs.Prelude.{ℕ};

    ghost Value = { ℕ × ℕ };

    ghost view = { λ s. (s.count, s.refused) };
}

impl LimitSink {
    /// A sink that has taken nothing.
    fn new() -> LimitSink
        ensures { result ≡ (0, 0) }
    {
        LimitSink {
            count: 0,
            refused: 0,
        }
    }

    /// Whether no more than the limit was taken.
    fn is_within(&self) -> bool
        ensures { result ≡ nat_le self.now.0 octet_limit }
    {
        self.count <= OCTET_LIMIT
    }
}

impl OctetSink for LimitSink {
    ghost stands_for = { Counts };

    ghost refusals = { λ s. s.1 };

    ghost makes = { λ _ m. m };

    fn put(&mut self, piece: &[u8]) -> Put {
        if OCTET_LIMIT < self.count {
            self.refused = self.refused.saturating_add(1);
            return Put::Refused;
        }
        self.count = self.count.saturating_add(piece.len() as u64);
        Put::Done
    }
}

/// Whether the canonical form of a set by a method has at most [`OCTET_LIMIT`] octets. It is written no further than that.
///
/// `prefixes` is the PrefixList of an exclusive method, and empty for another.
///
/// # Errors
/// Want of memory.
pub fn fits(
    alloc: Global,
    method: CanonMethod,
    prefixes: &PrefixList,
    set: SetView<'_>,
) -> Result<bool, NoMemory>
    requires { is_exclusive method ≡ false → prefixes.now ≡ [] }
    ensures { IfOk result (λ fits. fits
        ≡ is_within (canonical_form method (map encode_utf8_all prefixes.now) (rows_of set.entry) (in_view set.entry))) }
{
    let mut sink = LimitSink::new();
    match canon(alloc, method, prefixes, set, &mut sink) {
        Ok(()) => Ok(sink.is_within()),
        Err(CanonFault::SinkRefused) => Ok(false),
        Err(CanonFault::Memory) => Err(NoMemory),
    }
}

/// The canonical form of a set by a method, where it has at most [`OCTET_LIMIT`] octets. Only then is memory for them taken.
///
/// `prefixes` is the PrefixList of an exclusive method, and empty for another.
///
/// # Errors
/// Want of memory.
pub fn octets_within(
    alloc: Global,
    method: CanonMethod,
    prefixes: &PrefixList,
    set: SetView<'_>,
) -> Result<Option<Octets>, NoMemory>
    requires { is_exclusive method ≡ false → prefixes.now ≡ [] }
    ensures { IfOk result (λ octets. octets
        ≡ form_within (canonical_form method (map encode_utf8_all prefixes.now) (rows_of set.entry) (in_view set.entry))) }
{
    if !fits(alloc, method, prefixes, set)? {
        return Ok(None);
    }
    let mut sink = VecSink::new(alloc);
    match canon(alloc, method, prefixes, set, &mut sink) {
        Ok(()) => Ok(Some(sink.finish())),
        Err(_) => Err(NoMemory),
    }
}
