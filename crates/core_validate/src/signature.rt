//! Signature validation (XML Signature 1.1 §3.2.2): whether the signature value is the HMAC over the canonical SignedInfo.

ghost use Rattle.std.specs.Prelude.{◌≡◌, ◌-◌, ◌^◌, ℕ, List, [], false, length, map, min, IfOk, IfSome, encode_utf8_all};
ghost use Rattle.sig_base.specs.Methods.{is_exclusive};
ghost use Rattle.sig_base.specs.Outcomes.{Gives};
ghost use Rattle.node_sets.specs.Members.{has};
ghost use Rattle.c14n_methods.specs.Canons.{Canons};
ghost use Rattle.c14n_methods.specs.Methods.{canonical_form};
ghost use Rattle.digests_hmac.specs.Hash.{hmac_of};
ghost use Rattle.digests_hmac.specs.Sinks.{mac_by};
ghost use Rattle.dsig_fields.specs.Fits.{FieldsFit};
ghost use Rattle.core_validate.specs.Answers.{Stops};
ghost use Rattle.core_validate.specs.Authenticated.{HasTaken};
ghost use Rattle.core_validate.specs.Code.Signature as code;

use c14n_methods::{CanonFault, OCTET_LIMIT, canon};
use digests_hmac::{Digest, MacSink, hmac_matches};
use dsig_fields::{Fields, is_long_enough, value_bits};
use node_sets::NodeSet;
use sig_base::{CanonMethod, LenSink, MacMethod, NoMemory, OctetSink, PrefixList, Put};
use std::alloc::Global;
use transforms::{Report, ValidateRefusal};
use xml_doc::Doc;

/// The length of a canonical form in octets, and the HMAC over it.
#[derive(Drop)]
struct Authenticated {
    length: u64,
    mac: Digest,
}

/// Counts and authenticates what is put, and never refuses.
#[derive(Drop)]
struct CountMacSink {
    count: LenSink,
    mac: MacSink,
}

impl CountMacSink {
    /// A sink that has taken nothing.
    fn new(method: MacMethod, key: &[u8]) -> CountMacSink
        ensures empty { HasTaken result [] }
        ensures makes { (octets : List ℕ) → mac_by result.mac octets ≡ hmac_of method key.now octets }
    {
        CountMacSink {
            count: LenSink::new(),
            mac: MacSink::new(method, key),
        }
    }
}

impl OctetSink for CountMacSink {
    ghost stands_for = { HasTaken };

    ghost refusals = { λ _. 0 };

    ghost makes = { λ s octets. mac_by s.mac octets };

    fn put(&mut self, piece: &[u8]) -> Put {
        let _counted = self.count.put(piece);
        self.mac.put(piece)
    }
}

/// Writes the canonical form of a set.
fn write<S: OctetSink>(
    alloc: Global,
    method: CanonMethod,
    prefixes: &PrefixList,
    set: &NodeSet<'_>,
    sink: &mut S,
) -> Result<(), CanonFault>
    requires unlisted { is_exclusive method ≡ false → prefixes.now ≡ [] }
    ensures { Canons S.stands_for S.refusals S.makes sink.old sink.new
        (canonical_form method (map encode_utf8_all prefixes.now) set.now.rows (has set.now.members)) result }
{
    canon(alloc, method, prefixes, set.lend(), sink)
}

/// The length of the canonical form of a set, and the HMAC over it, in one walk that keeps nothing of it.
fn authenticate(
    alloc: Global,
    method: CanonMethod,
    prefixes: &PrefixList,
    set: &NodeSet<'_>,
    mac: MacMethod,
    key: &[u8],
) -> Result<Authenticated, NoMemory>
    requires unlisted { is_exclusive method ≡ false → prefixes.now ≡ [] }
    ensures length { IfOk result (λ a. a.length ≡ min
        (length (canonical_form method (map encode_utf8_all prefixes.now) set.now.rows (has set.now.members))) (2 ^ 64 - 1)) }
    ensures mac { IfOk result (λ a. a.mac ≡ hmac_of mac key.now
        (canonical_form method (map encode_utf8_all prefixes.now) set.now.rows (has set.now.members))) }
{
    let mut sink = CountMacSink::new(mac, key);
    match write(alloc, method, prefixes, set, &mut sink) {
        Ok(()) => Ok(Authenticated {
            length: sink.count.count(),
            mac: sink.mac.finish(),
        }),
        Err(_) => Err(NoMemory),
    }
}

/// Whether the signature value is the HMAC over the canonical SignedInfo, cut to the bits that the fields name. A canonical
/// SignedInfo above the limit is refused.
fn value_stands(
    alloc: Global,
    doc: &Doc<'_>,
    fields: &Fields,
    key: &[u8],
) -> Result<bool, ValidateRefusal>
    requires fit { FieldsFit doc.now fields.now }
    ensures { Gives Stops (λ stands. stands) result (code.value_stands doc.now fields.now key.now) }
{
    let set = NodeSet::subtree(alloc, doc, fields.signed_info)?;
    let form = authenticate(alloc, fields.canon, &fields.prefixes, &set, fields.mac, key)?;
    if OCTET_LIMIT < form.length {
        return Err(ValidateRefusal::OctetsTooLong);
    }
    let bits = value_bits(fields.mac, fields.bits);
    Ok(hmac_matches(&form.mac, bits, fields.value.bytes()))
}

/// Why the signature fails, if it does.
pub(crate) fn signature_failure(
    alloc: Global,
    doc: &Doc<'_>,
    fields: &Fields,
    key: &[u8],
) -> Result<Option<Report>, ValidateRefusal>
    requires fit { FieldsFit doc.now fields.now }
    ensures failure { Gives Stops (λ r. r) result (code.signature_failure doc.now fields.now key.now) }
    ensures kind { IfOk result (λ r. IfSome r code.IsFailure) }
{
    let bits = value_bits(fields.mac, fields.bits);
    if !is_long_enough(fields.mac, bits) {
        return Ok(Some(Report::ShortTruncation(bits)));
    }
    if !value_stands(alloc, doc, fields, key)? {
        return Ok(Some(Report::SignatureDiffers));
    }
    Ok(None)
}
