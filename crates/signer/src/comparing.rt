//! The views of a template are compared with those of the document that is made of it: where one is another, its Reference covers
//! what is filled in.

ghost use Rattle.std.specs.Prelude.{◌≡◌, ◌<◌, ◌≤◌, List, Some, Ok, length, IfOk};
ghost use Rattle.std.specs.List.{All};
ghost use Rattle.std.specs.Option.{ForSome};
ghost use Rattle.sig_outside.specs.Told.{Held};
ghost use Rattle.xml_doc.specs.Rows.{RowOf};
ghost use Rattle.xml_read.specs.ReadOutcome.{read_outcome};
ghost use Rattle.dsig_fields.specs.Fits.{ReferenceFits};
ghost use Rattle.transforms.specs.Answers.{Tells, names_of};
ghost use Rattle.transforms.specs.Values.{origin_of};
ghost use Rattle.transforms.specs.Views.{target_in, view_of};
ghost use Rattle.core_validate.specs.Progress.{sources_of};
ghost use Rattle.signer.specs.Answers.{AsksAll, FaultCounts, Gives, HasOwnCause};
ghost use Rattle.signer.specs.Asked.{names_compared};
ghost use Rattle.signer.specs.Code.Comparing as code;
ghost use Rattle.signer.specs.Code.Refusals.{IsOutside};
ghost use Rattle.signer.specs.Code.Views.{TellsEach};
ghost use Rattle.signer.specs.Outcome as spec;

use crate::filling::pair_at;
use crate::refusal::{SignRefusal, filled_cause};
use crate::views::view_of_reference;
use bumpalo::Bump;
use dsig_fields::{Reference, ReferenceList, read_fields};
use sig_base::OctetsList;
use sig_outside::Folder;
use std::alloc::Global;
use transforms::RefRefusal;
use uri_refs::Place;
use xml_doc::Doc;
use xml_read::read_document;

/// What it comes to where a Reference has no view: none is the one that is compared with it, unless it isn't known.
fn not_had(cause: RefRefusal) -> Result<bool, SignRefusal>
    ensures { result ≡ code.not_had cause }
{
    match cause {
        RefRefusal::FetchFailed => Err(SignRefusal::FetchFailed),
        RefRefusal::SinkRefused | RefRefusal::Memory => Err(SignRefusal::Memory),
        _ => Ok(false),
    }
}

/// Whether the view of a Reference is this one.
fn is_view<F: Folder>(
    alloc: Global,
    doc: &Doc<'_>,
    signature: u32,
    reference: &Reference,
    view: &[u8],
    place: &Place,
    folder: &mut F,
) -> Result<bool, SignRefusal>
    requires fits { ReferenceFits doc.now reference.now }
    requires signature { signature < length doc.now }
    ensures same { (files : Held) → Tells (target_in place.now reference.now) (F.held folder.old) files
        → IfOk result (λ same. same ≡ spec.is_view (view_of (origin_of doc.now (Some signature)) place.now files reference.now) view.now) }
    ensures causes { IsOutside result }
    ensures held { F.held folder.new ≡ F.held folder.old }
    ensures asked { ForSome (F.held folder.old) (λ _. AsksAll result (names_of (target_in place.now reference.now))
        (F.asked folder.old) (F.asked folder.new)) }
    ensures faults { FaultCounts result (F.faults folder.old) (F.faults folder.new) }
{
    match view_of_reference(alloc, doc, signature, reference, place, folder) {
        Ok(had) => Ok(had.bytes() == view),
        Err(cause) => not_had(cause),
    }
}

/// The number of the first Reference whose view is another than the one beside it, if there is one.
fn first_changed<F: Folder>(
    alloc: Global,
    doc: &Doc<'_>,
    signature: u32,
    references: &ReferenceList,
    views: &OctetsList,
    place: &Place,
    folder: &mut F,
) -> Result<Option<u32>, SignRefusal>
    requires few { length references.now ≤ 256 }
    requires fit { All (ReferenceFits doc.now) references.now }
    requires signature { signature < length doc.now }
    ensures changed { (files : Held) → TellsEach place.now references.now (F.held folder.old) files
        → IfOk result (λ number. number ≡ spec.first_changed (sources_of doc.now signature place.now files) 1 references.now views.now) }
    ensures causes { IsOutside result }
    ensures held { F.held folder.new ≡ F.held folder.old }
    ensures asked { ForSome (F.held folder.old) (λ files. AsksAll result
        (names_compared (sources_of doc.now signature place.now files) references.now views.now) (F.asked folder.old) (F.asked folder.new)) }
    ensures faults { FaultCounts result (F.faults folder.old) (F.faults folder.new) }
{
    let mut number = 0;
    while let Some((reference, view)) = pair_at(references, views, number as usize) {
        number += 1;
        if !is_view(
            alloc,
            doc,
            signature,
            reference,
            view.bytes(),
            place,
            folder,
        )? {
            return Ok(Some(number));
        }
    }
    Ok(None)
}

/// Refuses a document where a Reference of the Signature has another view than the one beside it.
fn compare_document<F: Folder>(
    alloc: Global,
    doc: &Doc<'_>,
    signature: u32,
    views: &OctetsList,
    place: &Place,
    folder: &mut F,
) -> Result<(), SignRefusal>
    requires signature { signature < length doc.now }
    ensures outcome { (files : Held) → code.TellsAgain place.now doc.now signature (F.held folder.old) files
        → Gives (λ done. done) result (code.compared (sources_of doc.now signature place.now files) views.now) }
    ensures causes { HasOwnCause result }
    ensures held { F.held folder.new ≡ F.held folder.old }
    ensures asked { ForSome (F.held folder.old) (λ files. AsksAll result
        (code.names_of_comparison (sources_of doc.now signature place.now files) views.now) (F.asked folder.old) (F.asked folder.new)) }
    ensures faults { FaultCounts result (F.faults folder.old) (F.faults folder.new) }
{
    let Ok(fields) = read_fields(alloc, doc, signature) else {
        return Err(SignRefusal::Memory);
    };
    match first_changed(
        alloc,
        doc,
        signature,
        &fields.references,
        views,
        place,
        folder,
    ) {
        Ok(None) => Ok(()),
        Ok(Some(number)) => Err(SignRefusal::CoversItself(number)),
        Err(cause) => Err(cause),
    }
}

/// The same of octets, which are read; it has to be told whether their canonical SignedInfo is within its limit.
pub(crate) fn compare_octets<F: Folder>(
    alloc: Global,
    made: &[u8],
    fits: bool,
    signature: u32,
    views: &OctetsList,
    place: &Place,
    folder: &mut F,
) -> Result<(), SignRefusal>
    requires stands { (rows : List RowOf) → read_outcome made.now ≡ Ok rows → signature < length rows }
    ensures outcome { (files : Held) → code.TellsMade place.now made.now signature (F.held folder.old) files
        → Gives (λ done. done) result (code.made_outcome signature place.now files made.now fits views.now) }
    ensures causes { HasOwnCause result }
    ensures held { F.held folder.new ≡ F.held folder.old }
    ensures asked { ForSome (F.held folder.old) (λ files. AsksAll result
        (code.names_made signature place.now files made.now fits views.now) (F.asked folder.old) (F.asked folder.new)) }
    ensures faults { FaultCounts result (F.faults folder.old) (F.faults folder.new) }
{
    let bump = Bump::new(alloc);
    match read_document(alloc, &bump, made) {
        Ok(_) if !fits => Err(SignRefusal::OctetsTooLong),
        Ok(doc) => compare_document(alloc, &doc, signature, views, place, folder),
        Err(cause) => Err(filled_cause(cause)),
    }
}
