//! The entries of Manifests, checked in order.

ghost use Rattle.std.specs.Prelude.{◌≡◌, ◌<◌, ◌≤◌, ◌++◌, length, IfOk, OnOk};
ghost use Rattle.std.specs.List.{All};
ghost use Rattle.std.specs.Option.{ForSome};
ghost use Rattle.sig_outside.specs.Told.{Held};
ghost use Rattle.dsig_fields.specs.Fits.{FieldsFit, ReferenceFits};
ghost use Rattle.transforms.specs.Answers.{Tells, names_of};
ghost use Rattle.transforms.specs.Values.{origin_of};
ghost use Rattle.transforms.specs.Views.{target_in, view_of};
ghost use Rattle.manifests.specs.Answers.{AsksAll, FaultCounts, HasOwnKind, IsOwnKind, TellsNames};
ghost use Rattle.manifests.specs.Code.Answers as code;
ghost use Rattle.manifests.specs.Code.Findings.{FindingFits};
ghost use Rattle.manifests.specs.Manifests as spec;

use crate::findings::{Finding, FindingList, Found, find_manifests};
use crate::lines::{ManifestKind, ManifestLine, ManifestLines, ManifestStop};
use digests_hmac::DigestSink;
use dsig_fields::{Fields, Reference, ReferenceList};
use sig_base::Members;
use sig_outside::Folder;
use std::alloc::Global;
use transforms::{RefRefusal, run_reference};
use uri_refs::Place;
use xml_doc::Doc;

/// What an entry comes to that has no view.
fn kind_of_cause(cause: RefRefusal) -> Result<ManifestKind, ManifestStop>
    ensures { result ≡ code.kind_of_cause cause }
{
    match cause {
        RefRefusal::FetchFailed => Err(ManifestStop::FetchFailed),
        RefRefusal::SinkRefused | RefRefusal::Memory => Err(ManifestStop::Memory),
        _ => Ok(ManifestKind::Refused(cause)),
    }
}

/// What an entry comes to whose view the sink has taken.
fn kind_of_digest(sink: DigestSink, entry: &Reference) -> ManifestKind
    ensures kind { code.KindByDigest sink entry.now result }
    ensures own { IsOwnKind result }
{
    if sink.finish().bytes() == entry.expected.bytes() {
        ManifestKind::Same
    } else {
        ManifestKind::Differs
    }
}

/// What an entry of a Manifest comes to. Its view is digested as it is written, and takes no memory of its length.
fn check_entry<F: Folder>(
    alloc: Global,
    doc: &Doc<'_>,
    signature: Option<u32>,
    entry: &Reference,
    place: &Place,
    folder: &mut F,
) -> Result<ManifestKind, ManifestStop>
    requires signature { ForSome signature (λ g. g < length doc.now) }
    requires fits { ReferenceFits doc.now entry.now }
    ensures kind { (files : Held) → Tells (target_in place.now entry.now) (F.held folder.old) files
        → IfOk result (λ k. k ≡ spec.kind_of entry.now (view_of (origin_of doc.now signature) place.now files entry.now)) }
    ensures own { IfOk result IsOwnKind }
    ensures held { F.held folder.new ≡ F.held folder.old }
    ensures asked { ForSome (F.held folder.old) (λ _. AsksAll result (names_of (target_in place.now entry.now))
        (F.asked folder.old) (F.asked folder.new)) }
    ensures faults { FaultCounts result (F.faults folder.old) (F.faults folder.new) }
{
    let mut sink = DigestSink::new(entry.digest);
    match run_reference(alloc, doc, signature, entry, place, folder, &mut sink) {
        Ok(()) => Ok(kind_of_digest(sink, entry)),
        Err(cause) => kind_of_cause(cause),
    }
}

/// Adds the lines of the entries of a Manifest, to which the Reference of this number refers.
fn check_entries<F: Folder>(
    alloc: Global,
    doc: &Doc<'_>,
    reference: u32,
    signature: Option<u32>,
    entries: &ReferenceList,
    place: &Place,
    lines: &mut ManifestLines,
    folder: &mut F,
) -> Result<(), ManifestStop>
    requires signature { ForSome signature (λ g. g < length doc.now) }
    requires few { length entries.now ≤ 256 }
    requires fit { All (ReferenceFits doc.now) entries.now }
    requires own { All HasOwnKind lines.old }
    ensures lines { (files : Held) → TellsNames (spec.names_of_entries place.now entries.now) (F.held folder.old) files
        → OnOk result (lines.new
        ≡ lines.old ++ spec.entry_lines (origin_of doc.now signature) place.now files reference 1 entries.now) }
    ensures own { OnOk result (All HasOwnKind lines.new) }
    ensures held { F.held folder.new ≡ F.held folder.old }
    ensures asked { ForSome (F.held folder.old) (λ _. AsksAll result (spec.names_of_entries place.now entries.now)
        (F.asked folder.old) (F.asked folder.new)) }
    ensures faults { FaultCounts result (F.faults folder.old) (F.faults folder.new) }
{
    let mut number = 0;
    while let Some(entry) = entries.get(number as usize) {
        number += 1;
        let kind = check_entry(alloc, doc, signature, entry, place, folder)?;
        lines.push(ManifestLine {
            reference,
            entry: number,
            kind,
        })?;
    }
    Ok(())
}

/// Adds the lines of a Manifest.
fn check_finding<F: Folder>(
    alloc: Global,
    doc: &Doc<'_>,
    finding: &Finding,
    place: &Place,
    lines: &mut ManifestLines,
    folder: &mut F,
) -> Result<(), ManifestStop>
    requires fits { FindingFits doc.now finding.now }
    requires own { All HasOwnKind lines.old }
    ensures lines { (files : Held) → TellsNames (spec.names_of_finding place.now finding.now) (F.held folder.old) files
        → OnOk result (lines.new ≡ lines.old ++ spec.lines_of_finding doc.now place.now files finding.now) }
    ensures own { OnOk result (All HasOwnKind lines.new) }
    ensures held { F.held folder.new ≡ F.held folder.old }
    ensures asked { ForSome (F.held folder.old) (λ _. AsksAll result (spec.names_of_finding place.now finding.now)
        (F.asked folder.old) (F.asked folder.new)) }
    ensures faults { FaultCounts result (F.faults folder.old) (F.faults folder.new) }
{
    match &finding.found {
        Found::OneLine(kind) => Ok(lines.push(ManifestLine {
            reference: finding.reference,
            entry: 0,
            kind: *kind,
        })?),
        Found::Entries { signature, entries } => check_entries(
            alloc,
            doc,
            finding.reference,
            *signature,
            entries,
            place,
            lines,
            folder,
        ),
    }
}

/// The lines of what was found.
fn check_findings<F: Folder>(
    alloc: Global,
    doc: &Doc<'_>,
    findings: &FindingList,
    place: &Place,
    folder: &mut F,
) -> Result<ManifestLines, ManifestStop>
    requires fit { All (FindingFits doc.now) findings.now }
    ensures lines { (files : Held) → TellsNames (spec.names_of_findings place.now findings.now) (F.held folder.old) files
        → IfOk result (λ lines. lines ≡ spec.lines_of_findings doc.now place.now files findings.now) }
    ensures own { IfOk result (λ lines. All HasOwnKind lines) }
    ensures held { F.held folder.new ≡ F.held folder.old }
    ensures asked { ForSome (F.held folder.old) (λ _. AsksAll result (spec.names_of_findings place.now findings.now)
        (F.asked folder.old) (F.asked folder.new)) }
    ensures faults { FaultCounts result (F.faults folder.old) (F.faults folder.new) }
{
    let _count = findings.len();
    let mut lines = Members::new(alloc);
    let mut k = 0;
    while let Some(finding) = findings.get(k) {
        k += 1;
        check_finding(alloc, doc, finding, place, &mut lines, folder)?;
    }
    Ok(lines)
}

/// Checks the entries of the Manifests to which References of a signature refer (XML Signature 1.1 §5.1): of those whose Type
/// says so, in order.
///
/// A Reference that does anything but canonicalize, that doesn't lead to one Manifest element of this document, whose Manifest
/// can't be read, or with whose entries there would be more than 1,024, has one line that says so. Else each entry has a line.
/// Its containing Signature is the nearest one above the Manifest. The folder is asked for the file of each entry that refers to
/// one, once and in order. Manifests to which entries refer aren't looked into.
#[tactic(auto, unfolding(crate::specs::Manifests::manifest_lines, crate::specs::Manifests::names_asked))]
pub fn check_manifests<F: Folder>(
    alloc: Global,
    doc: &Doc<'_>,
    fields: &Fields,
    place: &Place,
    folder: &mut F,
) -> Result<ManifestLines, ManifestStop>
    requires fit { FieldsFit doc.now fields.now }
    ensures lines { (files : Held) → TellsNames (spec.names_asked doc.now fields.now place.now) (F.held folder.old) files
        → IfOk result (λ lines. lines ≡ spec.manifest_lines doc.now fields.now place.now files) }
    ensures causes { IfOk result (λ lines. All HasOwnKind lines) }
    ensures held { F.held folder.new ≡ F.held folder.old }
    ensures asked { ForSome (F.held folder.old) (λ _. AsksAll result (spec.names_asked doc.now fields.now place.now)
        (F.asked folder.old) (F.asked folder.new)) }
    ensures faults { FaultCounts result (F.faults folder.old) (F.faults folder.new) }
{
    let findings = find_manifests(alloc, doc, &fields.references, place)?;
    check_findings(alloc, doc, &findings, place, folder)
}
