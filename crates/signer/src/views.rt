//! The views of a template's References, one behind the other (XML Signature 1.1 §3.1.1).

ghost use Rattle.std.specs.Prelude.{◌≡◌, ◌<◌, ◌≤◌, Some, length, IfOk, OnOk};
ghost use Rattle.std.specs.List.{All};
ghost use Rattle.std.specs.Option.{ForSome};
ghost use Rattle.sig_base.specs.Outcomes as outcomes;
ghost use Rattle.sig_outside.specs.Told.{Held};
ghost use Rattle.dsig_fields.specs.Fits.{ReferenceFits};
ghost use Rattle.transforms.specs.Answers as ref;
ghost use Rattle.transforms.specs.Answers.{Tells, names_of};
ghost use Rattle.transforms.specs.Asked.{names_behind};
ghost use Rattle.transforms.specs.Values.{origin_of};
ghost use Rattle.transforms.specs.Views.{target_in, view_of};
ghost use Rattle.core_validate.specs.Progress.{sources_of};
ghost use Rattle.signer.specs.Answers.{AsksAll, FaultCounts, Gives};
ghost use Rattle.signer.specs.Code.Refusals.{IsOwnStop};
ghost use Rattle.signer.specs.Code.Views as code;
ghost use Rattle.signer.specs.Outcome.{views_from};

use crate::refusal::{SignRefusal, reference_cause};
use dsig_fields::{Reference, ReferenceList};
use sig_base::{NoMemory, Octets, OctetsList, VecSink};
use sig_outside::Folder;
use std::alloc::Global;
use transforms::{RefRefusal, run_reference};
use uri_refs::Place;
use xml_doc::Doc;

/// The octets that all views together may have.
const TOTAL_LIMIT: u64 = 536_870_912;

/// The view of a Reference.
pub(crate) fn view_of_reference<F: Folder>(
    alloc: Global,
    doc: &Doc<'_>,
    signature: u32,
    reference: &Reference,
    place: &Place,
    folder: &mut F,
) -> Result<Octets, RefRefusal>
    requires fits { ReferenceFits doc.now reference.now }
    requires signature { signature < length doc.now }
    ensures shown { (files : Held) → Tells (target_in place.now reference.now) (F.held folder.old) files
        → code.Shows result (view_of (origin_of doc.now (Some signature)) place.now files reference.now) }
    ensures within { IfOk result (λ view. length view ≤ 33554432) }
    ensures held { F.held folder.new ≡ F.held folder.old }
    ensures asked { ForSome (F.held folder.old) (λ _. ref.AsksAll result (names_of (target_in place.now reference.now)) (F.asked folder.old)
        (F.asked folder.new)) }
    ensures faults { ref.FaultCounts result (F.faults folder.old) (F.faults folder.new) }
{
    let mut sink = VecSink::new(alloc);
    match run_reference(
        alloc,
        doc,
        Some(signature),
        reference,
        place,
        folder,
        &mut sink,
    ) {
        Ok(()) => Ok(sink.finish()),
        Err(RefRefusal::SinkRefused) => Err(RefRefusal::Memory),
        Err(cause) => Err(cause),
    }
}

/// The views of some References, none of which is refused.
#[derive(Drop)]
struct Gathered {
    /// The octets of the views together.
    total: u64,
    /// The views.
    views: OctetsList,
}

impl Gathered {
    /// Before the first Reference.
    fn new(alloc: Global) -> Gathered
        ensures { result ≡ code.nothing_gathered }
    {
        Gathered {
            total: 0,
            views: OctetsList::new(alloc),
        }
    }

    /// Keeps one more view.
    fn keep(&mut self, view: Octets) -> Result<(), NoMemory>
        requires total { self.old.total ≤ 536870912 }
        requires length { length view ≤ 33554432 }
        ensures { OnOk result (self.new ≡ code.with_view view self.old) }
    {
        let length = view.len() as u64;
        self.views.push(view)?;
        self.total += length;
        Ok(())
    }

    /// Keeps the view of one more Reference, of this number, unless the views together are too long.
    fn add_view(
        &mut self,
        number: u32,
        reference: &Reference,
        view: Octets,
    ) -> Result<(), SignRefusal>
        requires total { self.old.total ≤ 536870912 }
        requires steps { length reference.now.steps ≤ 16 }
        requires length { length view ≤ 33554432 }
        ensures added { outcomes.Gives code.Limits (λ _. self.new) result (code.with_limited number reference.now view self.old) }
        ensures within { OnOk result (self.new.total ≤ 536870912) }
        ensures causes { IsOwnStop result }
    {
        if TOTAL_LIMIT < self.total + view.len() as u64 {
            let step = reference.steps.len() as u32 + 1;
            return Err(SignRefusal::Reference(number, RefRefusal::OctetsTooLong(step)));
        }
        self.keep(view)?;
        Ok(())
    }

    /// Keeps the view of one more Reference, of this number.
    fn add_reference<F: Folder>(
        &mut self,
        alloc: Global,
        doc: &Doc<'_>,
        signature: u32,
        number: u32,
        reference: &Reference,
        place: &Place,
        folder: &mut F,
    ) -> Result<(), SignRefusal>
        requires total { self.old.total ≤ 536870912 }
        requires fits { ReferenceFits doc.now reference.now }
        requires signature { signature < length doc.now }
        ensures gathered { (files : Held) → Tells (target_in place.now reference.now) (F.held folder.old) files
            → Gives (λ _. self.new) result (code.with_reference (sources_of doc.now signature place.now files) number reference.now self.old) }
        ensures within { OnOk result (self.new.total ≤ 536870912) }
        ensures causes { IsOwnStop result }
        ensures held { F.held folder.new ≡ F.held folder.old }
        ensures asked { ForSome (F.held folder.old) (λ _. AsksAll result (names_of (target_in place.now reference.now))
            (F.asked folder.old) (F.asked folder.new)) }
        ensures faults { FaultCounts result (F.faults folder.old) (F.faults folder.new) }
    {
        match view_of_reference(alloc, doc, signature, reference, place, folder) {
            Ok(view) => self.add_view(number, reference, view),
            Err(cause) => Err(reference_cause(number, cause)),
        }
    }
}

/// The views of the References, in order. The first Reference that has none decides.
pub(crate) fn views_of<F: Folder>(
    alloc: Global,
    doc: &Doc<'_>,
    signature: u32,
    references: &ReferenceList,
    place: &Place,
    folder: &mut F,
) -> Result<OctetsList, SignRefusal>
    requires few { length references.now ≤ 256 }
    requires fit { All (ReferenceFits doc.now) references.now }
    requires signature { signature < length doc.now }
    ensures views { (files : Held) → code.TellsEach place.now references.now (F.held folder.old) files
        → Gives (λ views. views) result (views_from (sources_of doc.now signature place.now files) 0 1 references.now) }
    ensures causes { IsOwnStop result }
    ensures held { F.held folder.new ≡ F.held folder.old }
    ensures asked { ForSome (F.held folder.old) (λ files. AsksAll result
        (names_behind (sources_of doc.now signature place.now files) 0 references.now) (F.asked folder.old) (F.asked folder.new)) }
    ensures faults { FaultCounts result (F.faults folder.old) (F.faults folder.new) }
{
    let mut gathered = Gathered::new(alloc);
    let mut number = 0;
    while let Some(reference) = references.get(number as usize) {
        number += 1;
        gathered.add_reference(alloc, doc, signature, number, reference, place, folder)?;
    }
    Ok(gathered.views)
}
