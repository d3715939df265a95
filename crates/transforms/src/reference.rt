//! The view of a Reference.

ghost use Rattle.std.specs.Prelude.{◌≡◌, ◌<◌, ◌∷◌, [], true, length};
ghost use Rattle.std.specs.Option.{ForSome};
ghost use Rattle.sig_outside.specs.Told.{Held};
ghost use Rattle.transforms.specs.Answers.{AsksAll, FaultCounts, Leaves, Tells, Views, Writes, names_of};
ghost use Rattle.transforms.specs.Code.Answers.{Gives, nodes_of};
ghost use Rattle.dsig_fields.specs.Fits.{ReferenceFits};
ghost use Rattle.transforms.specs.Code.Fits.{ChainFits};
ghost use Rattle.sig_base.specs.Outcomes.{and_then};
ghost use Rattle.transforms.specs.Start.{file_value};
ghost use Rattle.transforms.specs.Values.{origin_of};
ghost use Rattle.transforms.specs.Values.{OfNodes, OfOctets};
ghost use Rattle.transforms.specs.Views as spec;

use crate::chain::{Left, run_nodes, run_rest};
use crate::fetch::fetch_file;
use crate::refusal::RefRefusal;
use crate::start::{bearer_set, whole_set};
use dsig_fields::{Reference, StepList};
use node_sets::NodeSet;
use sig_base::OctetSink;
use sig_outside::Folder;
use std::alloc::Global;
use uri_refs::{Place, Target, UriRefusal, target_of};
use xml_doc::Doc;

/// What the Reference refers to.
fn target_in(alloc: Global, reference: &Reference, place: &Place) -> Result<Target, RefRefusal>
    ensures { Gives (λ t. t) result (spec.target_in place.now reference.now) }
{
    match target_of(alloc, reference.uri.as_str(), place) {
        Ok(target) => Ok(target),
        Err(UriRefusal::Memory) => Err(RefRefusal::Memory),
        Err(cause) => Err(RefRefusal::Uri(cause)),
    }
}

/// Does all steps on a set of the document in which the Reference stands, and writes the view.
fn run_own<S: OctetSink>(
    alloc: Global,
    doc: &Doc<'_>,
    signature: Option<u32>,
    steps: &StepList,
    set: NodeSet<'_>,
    sink: &mut S,
) -> Result<(), RefRefusal>
    requires chain { ChainFits doc.now signature steps.now }
    requires own { set.rows ≡ doc.now }
    ensures { Writes S.stands_for S.refusals S.makes sink.old sink.new
        (spec.view_from (origin_of doc.now signature) 1 steps.now (OfNodes (nodes_of true set.entry))) result }
{
    match run_nodes(alloc, doc, signature, true, steps, 0, set, sink)? {
        Some(left) => run_rest(alloc, doc, signature, steps, left, sink),
        None => Ok(()),
    }
}

/// Does all steps on the octets of a file, and writes the view.
fn run_file<F: Folder, S: OctetSink>(
    alloc: Global,
    doc: &Doc<'_>,
    signature: Option<u32>,
    steps: &StepList,
    name: &str,
    folder: &mut F,
    sink: &mut S,
) -> Result<(), RefRefusal>
    requires chain { ChainFits doc.now signature steps.now }
    ensures view { ForSome (F.held folder.old) (λ files. Views S.stands_for S.refusals S.makes sink.old sink.new
        (and_then (file_value (files name.now)) (spec.view_from (origin_of doc.now signature) 1 steps.now)) result) }
    ensures sink { Leaves S.stands_for S.refusals S.makes sink.old sink.new result }
    ensures held { F.held folder.new ≡ F.held folder.old }
    ensures asked { ForSome (F.held folder.old) (λ _. AsksAll result (name.now ∷ []) (F.asked folder.old) (F.asked folder.new)) }
    ensures faults { FaultCounts result (F.faults folder.old) (F.faults folder.new) }
{
    let octets = fetch_file(alloc, name, folder)?;
    run_rest(alloc, doc, signature, steps, Left { octets, next: 0 }, sink)
}

/// Writes the view of a Reference (XML Signature 1.1 §4.4.3.2).
///
/// `signature` is the row of the Signature that contains the Reference, if one does: the enveloped signature transform takes that
/// one out. The folder is asked for one file at most, and only where the URI refers to one. After a refusal some octets may stand
/// in the sink, and are to be dropped.
pub fn run_reference<F: Folder, S: OctetSink>(
    alloc: Global,
    doc: &Doc<'_>,
    signature: Option<u32>,
    reference: &Reference,
    place: &Place,
    folder: &mut F,
    sink: &mut S,
) -> Result<(), RefRefusal>
    requires fits { ReferenceFits doc.now reference.now }
    requires signature { ForSome signature (λ g. g < length doc.now) }
    ensures view { (files : Held) → Tells (spec.target_in place.now reference.now) (F.held folder.old) files
        → Views S.stands_for S.refusals S.makes sink.old sink.new
        (spec.view_of (origin_of doc.now signature) place.now files reference.now) result }
    ensures sink { Leaves S.stands_for S.refusals S.makes sink.old sink.new result }
    ensures held { F.held folder.new ≡ F.held folder.old }
    ensures asked { ForSome (F.held folder.old) (λ _. AsksAll result (names_of (spec.target_in place.now reference.now))
        (F.asked folder.old) (F.asked folder.new)) }
    ensures faults { FaultCounts result (F.faults folder.old) (F.faults folder.new) }
{
    let steps = &reference.steps;
    match target_in(alloc, reference, place)? {
        Target::Whole { comments } => {
            let set = whole_set(alloc, doc, comments)?;
            run_own(alloc, doc, signature, steps, set, sink)
        }
        Target::Element { id, comments } => {
            let set = bearer_set(alloc, doc, &id, comments)?;
            run_own(alloc, doc, signature, steps, set, sink)
        }
        Target::Named(name) => {
            run_file(alloc, doc, signature, steps, name.as_str(), folder, sink)
        }
    }
}
