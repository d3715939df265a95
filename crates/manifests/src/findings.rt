//! The Manifests to which References refer, and what is read of them.

ghost use Rattle.std.specs.Prelude.{◌≡◌, ◌<◌, ◌≤◌, ◌+◌, length, IfOk, OnOk};
ghost use Rattle.std.specs.List.{All, list_all};
ghost use Rattle.dsig_fields.specs.Fits.{ReferenceFits};
ghost use Rattle.manifests.specs.Findings as spec;
ghost use Rattle.manifests.specs.Code.Findings as code;

use crate::elements::{manifest_row, signature_above};
use crate::lines::ManifestKind;
use dsig_fields::{FieldRefusal, Reference, ReferenceList, Step, StepList, read_manifest};
use sig_base::{Members, NoMemory};
use std::alloc::Global;
use uri_refs::Place;
use xml_doc::Doc;

/// The entries that may be checked in a run.
const ENTRY_LIMIT: usize = 1024;

/// What a Reference to a Manifest comes to before the entries are looked at.
#[derive(Drop)]
pub(crate) enum Found {
    /// One line tells all.
    OneLine(ManifestKind),
    /// The Manifest has these entries.
    Entries {
        /// The row of the Signature that contains the Manifest, if one does.
        signature: Option<u32>,
        /// The entries.
        entries: ReferenceList,
    },
}

/// The same, with the number of the Reference.
#[derive(Drop)]
pub(crate) struct Finding {
    pub(crate) reference: u32,
    pub(crate) found: Found,
}

/// The findings of a signature, in the order of its References.
pub(crate) type FindingList = Members<Finding>;

/// Whether the step canonicalizes.
fn is_canonicalization(step: &Step) -> bool
    ensures { result ≡ spec.is_canonicalization step.now }
{
    matches!(step, Step::Canon { .. })
}

/// Whether all steps canonicalize.
fn canonicalize_alone(steps: &StepList) -> bool
    ensures { result ≡ list_all spec.is_canonicalization steps.now }
{
    let _count = steps.len();
    let mut k = 0;
    while let Some(step) = steps.get(k) {
        if !is_canonicalization(step) {
            return false;
        }
        k += 1;
    }
    true
}

/// What a Manifest comes to whose References can't be read.
fn unread(cause: FieldRefusal) -> Result<Found, NoMemory>
    ensures { code.Unreads result cause }
{
    match cause {
        FieldRefusal::Memory => Err(NoMemory),
        _ => Ok(Found::OneLine(ManifestKind::Fields(cause))),
    }
}

/// What the entries of a Manifest come to behind `count` others.
fn found_of_entries(doc: &Doc<'_>, x: u32, count: usize, entries: ReferenceList) -> Found
    requires row { x < length doc.now }
    requires count { count ≤ 1024 }
    requires few { length entries ≤ 256 }
    requires fit { All (ReferenceFits doc.now) entries }
    ensures found { result ≡ spec.found_of_entries doc.now x count entries }
    ensures fits { code.FoundFits doc.now result }
    ensures room { count + length (spec.entries_in result) ≤ 1024 }
{
    if count + entries.len() <= ENTRY_LIMIT {
        let signature = signature_above(doc, x);
        Found::Entries { signature, entries }
    } else {
        Found::OneLine(ManifestKind::TooMany)
    }
}

/// What a Manifest comes to behind `count` entries of others.
fn found_of_manifest(alloc: Global, doc: &Doc<'_>, x: u32, count: usize) -> Result<Found, NoMemory>
    requires row { x < length doc.now }
    requires count { count ≤ 1024 }
    ensures found { IfOk result (λ f. f ≡ spec.found_of_manifest doc.now x count) }
    ensures fits { IfOk result (code.FoundFits doc.now) }
    ensures room { IfOk result (λ f. count + length (spec.entries_in f) ≤ 1024) }
{
    match read_manifest(alloc, doc, x) {
        Ok(entries) => Ok(found_of_entries(doc, x, count, entries)),
        Err(cause) => unread(cause),
    }
}

/// What a Reference to a Manifest comes to behind `count` entries of others.
#[tactic(auto, unfolding(crate::specs::Findings::found_of_reference))]
fn found_of_reference(
    alloc: Global,
    doc: &Doc<'_>,
    reference: &Reference,
    place: &Place,
    count: usize,
) -> Result<Found, NoMemory>
    requires count { count ≤ 1024 }
    ensures found { IfOk result (λ f. f ≡ spec.found_of_reference doc.now place.now count reference.now) }
    ensures fits { IfOk result (code.FoundFits doc.now) }
    ensures room { IfOk result (λ f. count + length (spec.entries_in f) ≤ 1024) }
{
    if !canonicalize_alone(&reference.steps) {
        return Ok(Found::OneLine(ManifestKind::ManifestTransforms));
    }
    match manifest_row(alloc, doc, reference, place)? {
        Some(x) => found_of_manifest(alloc, doc, x, count),
        None => Ok(Found::OneLine(ManifestKind::NotManifest)),
    }
}

/// How many entries are to be checked of what was found.
fn entry_count(found: &Found) -> usize
    ensures { result ≡ length (spec.entries_in found.now) }
{
    match found {
        Found::OneLine(_) => 0,
        Found::Entries { entries, .. } => entries.len(),
    }
}

/// What is known behind some References.
#[derive(Drop)]
struct Search {
    /// What was found.
    findings: FindingList,
    /// How many entries that are.
    count: usize,
}

impl Search {
    /// Looks at one more Reference, of this number.
    fn add(
        &mut self,
        alloc: Global,
        doc: &Doc<'_>,
        number: u32,
        reference: &Reference,
        place: &Place,
    ) -> Result<(), NoMemory>
        requires count { self.old.count ≤ 1024 }
        requires fit { All (code.FindingFits doc.now) self.old.findings }
        ensures added { OnOk result (self.new ≡ code.with_reference doc.now place.now number reference.now self.old) }
        ensures room { OnOk result (self.new.count ≤ 1024) }
        ensures fit { OnOk result (All (code.FindingFits doc.now) self.new.findings) }
    {
        if !reference.manifest {
            return Ok(());
        }
        let found = found_of_reference(alloc, doc, reference, place, self.count)?;
        let more = entry_count(&found);
        self.findings.push(Finding {
            reference: number,
            found,
        })?;
        self.count += more;
        Ok(())
    }
}

/// Finds the Manifests of the References that say by their Type that they refer to one. No more entries are kept than may be
/// checked.
pub(crate) fn find_manifests(
    alloc: Global,
    doc: &Doc<'_>,
    references: &ReferenceList,
    place: &Place,
) -> Result<FindingList, NoMemory>
    requires few { length references.now ≤ 256 }
    ensures findings { IfOk result (λ l. l ≡ spec.findings doc.now place.now 1 0 references.now) }
    ensures fit { IfOk result (λ l. All (code.FindingFits doc.now) l) }
{
    let mut search = Search {
        findings: Members::new(alloc),
        count: 0,
    };
    let mut number = 0;
    while let Some(reference) = references.get(number as usize) {
        number += 1;
        search.add(alloc, doc, number, reference, place)?;
    }
    Ok(search.findings)
}
