//! The view of a Reference as a validation needs it: its length, its digest and, where it is kept, its octets (XML Signature 1.1
//! §4.4.3.2).

ghost use Rattle.std.specs.Prelude.{◌≡◌, ◌<◌, Some, true, false, ℕ, List, [], length, IfOk};
ghost use Rattle.std.specs.List.{list_all};
ghost use Rattle.std.specs.Option.{ForSome};
ghost use Rattle.sig_outside.specs.Told.{Held};
ghost use Rattle.digests_hmac.specs.Hash.{hash};
ghost use Rattle.digests_hmac.specs.Sinks.{digest_by};
ghost use Rattle.dsig_fields.specs.Fits.{ReferenceFits};
ghost use Rattle.transforms.specs.Answers.{AsksAll, FaultCounts, Tells, names_of};
ghost use Rattle.transforms.specs.Values.{origin_of};
ghost use Rattle.transforms.specs.Views.{target_in, view_of};
ghost use Rattle.core_validate.specs.Measures as spec;
ghost use Rattle.core_validate.specs.Code.Measures as code;

use digests_hmac::{Digest, DigestSink, digest};
use dsig_fields::Reference;
use sig_base::{DigestMethod, LenSink, OctetSink, Octets, Put, VecSink};
use sig_outside::Folder;
use std::alloc::Global;
use transforms::{RefRefusal, run_reference};
use uri_refs::Place;
use xml_doc::Doc;

/// A view: its length, its digest and, where it is kept, its octets.
#[derive(Drop)]
pub(crate) struct Measured {
    /// The length in octets.
    pub(crate) length: u64,
    /// The digest.
    pub(crate) value: Digest,
    /// The octets, where they are kept.
    pub(crate) octets: Option<Octets>,
}

/// Counts and digests what is put, and never refuses.
#[derive(Drop)]
struct CountSink {
    count: LenSink,
    digest: DigestSink,
}

impl CountSink {
    /// A sink that has taken nothing.
    fn new(method: DigestMethod) -> CountSink
        ensures empty { spec.HasCounted result [] }
        ensures makes { (octets : List ℕ) → digest_by result.digest octets ≡ hash method octets }
    {
        CountSink {
            count: LenSink::new(),
            digest: DigestSink::new(method),
        }
    }
}

impl OctetSink for CountSink {
    ghost stands_for = { spec.HasCounted };

    ghost refusals = { λ _. 0 };

    ghost makes = { λ s octets. digest_by s.digest octets };

    fn put(&mut self, piece: &[u8]) -> Put {
        let _counted = self.count.put(piece);
        self.digest.put(piece)
    }
}

/// The view of a Reference, which is kept.
fn measure_kept<F: Folder>(
    alloc: Global,
    doc: &Doc<'_>,
    signature: u32,
    reference: &Reference,
    place: &Place,
    folder: &mut F,
) -> Result<Measured, RefRefusal>
    requires fits { ReferenceFits doc.now reference.now }
    requires signature { signature < length doc.now }
    ensures measured { (files : Held) → Tells (target_in place.now reference.now) (F.held folder.old) files
        → code.Measures true reference.now.digest result (view_of (origin_of doc.now (Some signature)) place.now files reference.now) }
    ensures shape { IfOk result (spec.IsMeasure true reference.now.digest) }
    ensures held { F.held folder.new ≡ F.held folder.old }
    ensures asked { ForSome (F.held folder.old) (λ _. AsksAll result (names_of (target_in place.now reference.now)) (F.asked folder.old)
        (F.asked folder.new)) }
    ensures faults { FaultCounts result (F.faults folder.old) (F.faults folder.new) }
{
    let mut sink = VecSink::new(alloc);
    match run_reference(
        alloc,
        doc,
        Some(signature),
        reference,
        place,
        folder,
        &mut sink,
    ) {
        Ok(()) => {
            let view = sink.finish();
            Ok(Measured {
                length: view.len() as u64,
                value: digest(reference.digest, view.bytes()),
                octets: Some(view),
            })
        }
        Err(RefRefusal::SinkRefused) => Err(RefRefusal::Memory),
        Err(cause) => Err(cause),
    }
}

/// The view of a Reference, which isn't kept: only its length and its digest are made.
fn measure_dropped<F: Folder>(
    alloc: Global,
    doc: &Doc<'_>,
    signature: u32,
    reference: &Reference,
    place: &Place,
    folder: &mut F,
) -> Result<Measured, RefRefusal>
    requires fits { ReferenceFits doc.now reference.now }
    requires signature { signature < length doc.now }
    ensures measured { (files : Held) → Tells (target_in place.now reference.now) (F.held folder.old) files
        → code.Measures false reference.now.digest result (view_of (origin_of doc.now (Some signature)) place.now files reference.now) }
    ensures shape { IfOk result (spec.IsMeasure false reference.now.digest) }
    ensures held { F.held folder.new ≡ F.held folder.old }
    ensures asked { ForSome (F.held folder.old) (λ _. AsksAll result (names_of (target_in place.now reference.now)) (F.asked folder.old)
        (F.asked folder.new)) }
    ensures faults { FaultCounts result (F.faults folder.old) (F.faults folder.new) }
{
    let mut sink = CountSink::new(reference.digest);
    match run_reference(
        alloc,
        doc,
        Some(signature),
        reference,
        place,
        folder,
        &mut sink,
    ) {
        Ok(()) => Ok(Measured {
            length: sink.count.count(),
            value: sink.digest.finish(),
            octets: None,
        }),
        Err(RefRefusal::SinkRefused) => Err(RefRefusal::Memory),
        Err(cause) => Err(cause),
    }
}

/// The view of a Reference. One that isn't kept is counted and digested in one pass, and takes no memory of its length.
pub(crate) fn measure<F: Folder>(
    alloc: Global,
    doc: &Doc<'_>,
    signature: u32,
    reference: &Reference,
    place: &Place,
    keep: bool,
    folder: &mut F,
) -> Result<Measured, RefRefusal>
    requires fits { ReferenceFits doc.now reference.now }
    requires signature { signature < length doc.now }
    ensures measured { (files : Held) → Tells (target_in place.now reference.now) (F.held folder.old) files
        → code.Measures keep reference.now.digest result (view_of (origin_of doc.now (Some signature)) place.now files reference.now) }
    ensures shape { IfOk result (spec.IsMeasure keep reference.now.digest) }
    ensures held { F.held folder.new ≡ F.held folder.old }
    ensures asked { ForSome (F.held folder.old) (λ _. AsksAll result (names_of (target_in place.now reference.now)) (F.asked folder.old)
        (F.asked folder.new)) }
    ensures faults { FaultCounts result (F.faults folder.old) (F.faults folder.new) }
{
    if keep {
        measure_kept(alloc, doc, signature, reference, place, folder)
    } else {
        measure_dropped(alloc, doc, signature, reference, place, folder)
    }
}
