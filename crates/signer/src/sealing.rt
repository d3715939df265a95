//! The signature value: the HMAC over the canonical SignedInfo of the template with its digests filled in (XML Signature 1.1
//! §3.1.2).

ghost use Rattle.std.specs.Prelude.{◌≡◌, ◌<◌, ◌≤◌, ◌*◌, ℕ, List, Some, Ok, true, nat_le, length, map, IfOk, encode_utf8_all};
ghost use Rattle.sig_base.specs.Outcomes.{Gives};
ghost use Rattle.xml_doc.specs.Rows.{RowOf};
ghost use Rattle.xml_read.specs.ReadOutcome.{read_outcome};
ghost use Rattle.node_sets.specs.Members.{has};
ghost use Rattle.c14n_methods.specs.Canons.{Canons};
ghost use Rattle.c14n_methods.specs.Limits.{octet_limit};
ghost use Rattle.c14n_methods.specs.Methods.{canonical_form};
ghost use Rattle.digests_hmac.specs.Hash.{hmac_of, kept};
ghost use Rattle.dsig_fields.specs.Fits.{PrefixesFit};
ghost use Rattle.dsig_fields.specs.Lengths.{may_keep};
ghost use Rattle.signer.specs.Code.Refusals.{Stops};
ghost use Rattle.signer.specs.Code.Sealing as code;

use crate::refusal::{SignRefusal, filled_cause};
use bumpalo::Bump;
use c14n_methods::{CanonFault, canon, fits};
use digests_hmac::{Digest, MacSink};
use dsig_fields::{Fields, value_bits};
use node_sets::NodeSet;
use sig_base::{NoMemory, OctetSink, Octets};
use std::alloc::Global;
use xml_doc::Doc;
use xml_read::read_document;

/// What is made of the template with its digests filled in.
#[derive(Drop)]
pub(crate) struct Seal {
    /// The signature value.
    pub(crate) value: Octets,
    /// Whether the canonical SignedInfo is within its limit.
    pub(crate) fits: bool,
}

/// Writes the canonical form of a set by the method of these fields.
fn write<S: OctetSink>(
    alloc: Global,
    fields: &Fields,
    set: &NodeSet<'_>,
    sink: &mut S,
) -> Result<(), CanonFault>
    requires unlisted { PrefixesFit fields.now.canon fields.now.prefixes }
    ensures { Canons S.stands_for S.refusals S.makes sink.old sink.new
        (canonical_form fields.now.canon (map encode_utf8_all fields.now.prefixes) set.now.rows (has set.now.members)) result }
{
    canon(alloc, fields.canon, &fields.prefixes, set.lend(), sink)
}

/// The HMAC over the canonical form of a set. Nothing of the form is kept.
fn authenticate(
    alloc: Global,
    fields: &Fields,
    set: &NodeSet<'_>,
    key: &[u8],
) -> Result<Digest, NoMemory>
    requires unlisted { PrefixesFit fields.now.canon fields.now.prefixes }
    ensures { IfOk result (λ mac. mac ≡ hmac_of fields.now.mac key.now
        (canonical_form fields.now.canon (map encode_utf8_all fields.now.prefixes) set.now.rows (has set.now.members))) }
{
    let mut sink = MacSink::new(fields.mac, key);
    match write(alloc, fields, set, &mut sink) {
        Ok(()) => Ok(sink.finish()),
        Err(_) => Err(NoMemory),
    }
}

/// Whether the canonical form of a set is within the limit on octets.
fn is_within(alloc: Global, fields: &Fields, set: &NodeSet<'_>) -> Result<bool, NoMemory>
    requires unlisted { PrefixesFit fields.now.canon fields.now.prefixes }
    ensures { IfOk result (λ within. within ≡ nat_le
        (length (canonical_form fields.now.canon (map encode_utf8_all fields.now.prefixes) set.now.rows (has set.now.members))) octet_limit) }
{
    fits(alloc, fields.canon, &fields.prefixes, set.lend())
}

/// The first bits of an HMAC.
fn kept(alloc: Global, mac: &Digest, bits: u32) -> Result<Octets, NoMemory>
    requires fits { bits ≤ 8 * length mac.now }
    ensures { IfOk result (λ value. value ≡ kept mac.now bits) }
{
    let value = mac.bytes()[..(bits / 8) as usize].to_vec(alloc)?;
    Ok(Octets::from_vec(value))
}

/// The signature value of the template with its digests filled in.
fn seal_document(
    alloc: Global,
    doc: &Doc<'_>,
    fields: &Fields,
    key: &[u8],
) -> Result<Seal, NoMemory>
    requires stands { fields.now.signed_info < length doc.now }
    requires unlisted { PrefixesFit fields.now.canon fields.now.prefixes }
    requires bits { (n : ℕ) → fields.now.bits ≡ Some n → may_keep fields.now.mac n ≡ true }
    ensures { IfOk result (λ seal. seal ≡ code.seal_by doc.now fields.now key.now) }
{
    let set = NodeSet::subtree(alloc, doc, fields.signed_info)?;
    let mac = authenticate(alloc, fields, &set, key)?;
    let fits = is_within(alloc, fields, &set)?;
    let value = kept(alloc, &mac, value_bits(fields.mac, fields.bits))?;
    Ok(Seal { value, fits })
}

/// The same of its octets. What was read of them is let go.
pub(crate) fn seal_octets(
    alloc: Global,
    octets: &[u8],
    fields: &Fields,
    key: &[u8],
) -> Result<Seal, SignRefusal>
    requires stands { (rows : List RowOf) → read_outcome octets.now ≡ Ok rows → fields.now.signed_info < length rows }
    requires unlisted { PrefixesFit fields.now.canon fields.now.prefixes }
    requires bits { (n : ℕ) → fields.now.bits ≡ Some n → may_keep fields.now.mac n ≡ true }
    ensures { Gives Stops (λ seal. seal) result (code.seal_of octets.now fields.now key.now) }
{
    let bump = Bump::new(alloc);
    match read_document(alloc, &bump, octets) {
        Ok(doc) => Ok(seal_document(alloc, &doc, fields, key)?),
        Err(cause) => Err(filled_cause(cause)),
    }
}
