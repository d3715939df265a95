//! Reference validation (XML Signature 1.1 §3.2.1): the References of a SignedInfo, one behind the other.

ghost use Rattle.std.specs.Prelude.{◌≡◌, ◌<◌, ◌≤◌, ℕ, List, true, length, IfOk, OnOk};
ghost use Rattle.std.specs.List.{All, list_all};
ghost use Rattle.std.specs.Option.{ForSome};
ghost use Rattle.sig_base.specs.Outcomes as outcomes;
ghost use Rattle.sig_outside.specs.Told.{Held};
ghost use Rattle.dsig_fields.specs.Fits.{ReferenceFits};
ghost use Rattle.transforms.specs.Answers.{Tells, names_of};
ghost use Rattle.transforms.specs.Asked.{names_behind};
ghost use Rattle.transforms.specs.Outcome.{references_report};
ghost use Rattle.transforms.specs.Views.{target_in};
ghost use Rattle.core_validate.specs.Answers.{AsksAll, FaultCounts, Gives, HasFewViews, Stops};
ghost use Rattle.core_validate.specs.Code.Answers.{TellsEach};
ghost use Rattle.core_validate.specs.Measures.{IsMeasure, measure_of};
ghost use Rattle.core_validate.specs.Progress as spec;
ghost use Rattle.core_validate.specs.Code.Progress as code;
ghost use Rattle.core_validate.specs.Reached.{IsHad, Reports};

use crate::view::{Measured, measure};
use dsig_fields::{Reference, ReferenceList};
use sig_base::{NoMemory, Numbers, Octets, OctetsList, Views};
use sig_outside::Folder;
use std::alloc::Global;
use transforms::{RefRefusal, Report, ValidateRefusal};
use uri_refs::Place;
use xml_doc::Doc;

/// The octets that all views together may have.
const TOTAL_LIMIT: u64 = 536_870_912;

/// What is known behind some References, none of which is refused.
#[derive(Drop)]
pub(crate) struct Progress {
    /// Whether the views are kept.
    keep: bool,
    /// The octets of the views together.
    total: u64,
    /// The views.
    views: Views,
    /// The numbers, from 1, of the References whose digest differs.
    differing: Numbers,
}

impl Progress {
    /// Before the first Reference.
    fn new(alloc: Global, keep: bool) -> Progress
        ensures { result ≡ spec.no_progress keep }
    {
        Progress {
            keep,
            total: 0,
            views: Views {
                lengths: Numbers::new(alloc),
                octets: OctetsList::new(alloc),
            },
            differing: Numbers::new(alloc),
        }
    }

    /// Keeps the octets of one more view, if there are any to keep.
    fn keep_octets(&mut self, octets: Option<Octets>) -> Result<(), NoMemory>
        ensures { OnOk result (self.new ≡ spec.with_octets octets self.old) }
    {
        match octets {
            Some(octets) => self.views.octets.push(octets),
            None => Ok(()),
        }
    }

    /// Notes the length of one more view, and whether its digest is the one that its Reference names.
    fn note(&mut self, number: u32, length: u64, holds: bool) -> Result<(), NoMemory>
        requires total { self.old.total ≤ 536870912 }
        requires length { length ≤ 33554432 }
        ensures { OnOk result (self.new ≡ spec.noted number length holds self.old) }
    {
        if !holds {
            self.differing.push(number as u64)?;
        }
        self.views.lengths.push(length)?;
        self.total += length;
        Ok(())
    }

    /// Adds the view of one more Reference, of this number, unless the views together are too long.
    fn add_view(
        &mut self,
        number: u32,
        reference: &Reference,
        measured: Measured,
    ) -> Result<(), ValidateRefusal>
        requires total { self.old.total ≤ 536870912 }
        requires steps { length reference.now.steps ≤ 16 }
        requires measure { IsMeasure self.old.keep reference.now.digest measured }
        ensures added { (view : List ℕ) → measured ≡ measure_of self.old.keep reference.now.digest view
            → outcomes.Gives Stops (λ _. self.new) result (spec.with_limited number reference.now view self.old) }
        ensures further { OnOk result (spec.Advances number reference.now self.old self.new) }
        ensures causes { spec.IsOwnStop result }
    {
        if TOTAL_LIMIT < self.total + measured.length {
            let step = reference.steps.len() as u32 + 1;
            return Err(ValidateRefusal::Reference(number, RefRefusal::OctetsTooLong(step)));
        }
        let holds = measured.value.bytes() == reference.expected.bytes();
        self.keep_octets(measured.octets)?;
        self.note(number, measured.length, holds)?;
        Ok(())
    }

    /// Validates one more Reference, of this number.
    fn add_reference<F: Folder>(
        &mut self,
        alloc: Global,
        doc: &Doc<'_>,
        signature: u32,
        number: u32,
        reference: &Reference,
        place: &Place,
        folder: &mut F,
    ) -> Result<(), ValidateRefusal>
        requires total { self.old.total ≤ 536870912 }
        requires fits { ReferenceFits doc.now reference.now }
        requires signature { signature < length doc.now }
        ensures progress { (files : Held) → Tells (target_in place.now reference.now) (F.held folder.old) files
            → Gives (λ _. self.new) result (spec.with_reference (spec.sources_of doc.now signature place.now files) number reference.now
            self.old) }
        ensures further { OnOk result (spec.Advances number reference.now self.old self.new) }
        ensures had { OnOk result (IsHad doc.now signature place.now reference.now) }
        ensures causes { spec.IsOwnStop result }
        ensures held { F.held folder.new ≡ F.held folder.old }
        ensures asked { ForSome (F.held folder.old) (λ _. AsksAll result (names_of (target_in place.now reference.now))
            (F.asked folder.old) (F.asked folder.new)) }
        ensures faults { FaultCounts result (F.faults folder.old) (F.faults folder.new) }
    {
        match measure(alloc, doc, signature, reference, place, self.keep, folder) {
            Ok(measured) => self.add_view(number, reference, measured),
            Err(cause) => Err(reference_cause(number, cause)),
        }
    }

    /// The report behind the last Reference.
    fn report(self) -> Report
        ensures { result ≡ spec.report_with self.views.lengths self.views.octets self.differing }
    {
        if self.differing.len() == 0 {
            Report::Valid(self.views)
        } else {
            Report::DigestsDiffer(self.differing)
        }
    }
}

/// Why a Reference of this number that has no view stops a validation.
fn reference_cause(number: u32, cause: RefRefusal) -> ValidateRefusal
    ensures { result ≡ code.reference_cause number cause }
{
    match cause {
        RefRefusal::FetchFailed => ValidateRefusal::FetchFailed,
        RefRefusal::SinkRefused | RefRefusal::Memory => ValidateRefusal::Memory,
        _ => ValidateRefusal::Reference(number, cause),
    }
}

/// Validates the References in order. The first that is refused decides, also where the digest of an earlier one differs.
pub(crate) fn validate_references<F: Folder>(
    alloc: Global,
    doc: &Doc<'_>,
    signature: u32,
    references: &ReferenceList,
    place: &Place,
    keep: bool,
    folder: &mut F,
) -> Result<Report, ValidateRefusal>
    requires few { length references.now ≤ 256 }
    requires fit { All (ReferenceFits doc.now) references.now }
    requires signature { signature < length doc.now }
    ensures report { (files : Held) → TellsEach place.now references.now (F.held folder.old) files
        → Gives (λ r. r) result (references_report (spec.sources_of doc.now signature place.now files) keep references.now) }
    ensures reached { IfOk result (Reports doc.now signature place.now keep references.now) }
    ensures few { IfOk result HasFewViews }
    ensures causes { code.HasOwnStage result }
    ensures held { F.held folder.new ≡ F.held folder.old }
    ensures asked { ForSome (F.held folder.old) (λ files. AsksAll result
        (names_behind (spec.sources_of doc.now signature place.now files) 0 references.now) (F.asked folder.old) (F.asked folder.new)) }
    ensures faults { FaultCounts result (F.faults folder.old) (F.faults folder.new) }
{
    let mut progress = Progress::new(alloc, keep);
    let mut number = 0;
    while let Some(reference) = references.get(number as usize) {
        number += 1;
        progress.add_reference(alloc, doc, signature, number, reference, place, folder)?;
    }
    Ok(progress.report())
}
