//! The Transforms of a Reference, one behind the other (XML Signature 1.1 §4.4.3.2).
//!
//! Octets that a step wants as a node set are read as a document, in an arena of its own. The arena lives as long as the steps
//! that change the set, and is given up as soon as one of them gives octets: so never more than one stands beside the signature's
//! document.

ghost use Rattle.std.specs.Prelude.{◌≡◌, ◌<◌, ◌≤◌, ◌+◌, true, false, length, drop, slice_get};
ghost use Rattle.std.specs.Option.{ForSome};
ghost use Rattle.transforms.specs.Answers.{Writes};
ghost use Rattle.transforms.specs.Code.Answers.{Proceeds, nodes_of, read_cause};
ghost use Rattle.transforms.specs.Code.Fits.{ChainFits};
ghost use Rattle.transforms.specs.Steps.{all_nodes, wants_octets};
ghost use Rattle.transforms.specs.Values.{origin_of};
ghost use Rattle.transforms.specs.Values.{OfNodes, OfOctets};
ghost use Rattle.transforms.specs.Views.{view_from};

use crate::decode::decode;
use crate::forms::{write_octets, write_set};
use crate::nodes::change;
use crate::refusal::RefRefusal;
use bumpalo::Bump;
use dsig_fields::{Step, StepList};
use node_sets::NodeSet;
use sig_base::{OctetSink, Octets};
use std::alloc::Global;
use xml_doc::Doc;
use xml_read::{ReadRefusal, read_document};

/// Octets, and how many steps are done.
#[derive(Drop)]
pub(crate) struct Left {
    /// The octets.
    pub(crate) octets: Octets,
    /// How many steps are done.
    pub(crate) next: usize,
}

/// Whether the step takes octets as they are, and doesn't want them read as a document.
fn wants_octets(step: &Step) -> bool
    ensures { result ≡ wants_octets step.now }
{
    matches!(step, Step::Base64)
}

/// Does the steps on a set until one of them gives octets, or writes the view where none is left.
pub(crate) fn run_nodes<S: OctetSink>(
    alloc: Global,
    doc: &Doc<'_>,
    signature: Option<u32>,
    own: bool,
    steps: &StepList,
    done: usize,
    nodes: NodeSet<'_>,
    sink: &mut S,
) -> Result<Option<Left>, RefRefusal>
    requires chain { ChainFits doc.now signature steps.now }
    requires own { own ≡ true → nodes.rows ≡ doc.now }
    requires within { done ≤ length steps.now }
    ensures { Proceeds S.stands_for S.refusals S.makes sink.old sink.new (origin_of doc.now signature) steps.now done
        (view_from (origin_of doc.now signature) (done + 1) (drop done steps.now) (OfNodes (nodes_of own nodes.entry))) result }
{
    let mut set = nodes;
    let mut next = done;
    while let Some(step) = steps.get(next) {
        next += 1;
        if let Some(octets) = change(alloc, doc, signature, own, next as u32, step, &mut set)? {
            return Ok(Some(Left { octets, next }));
        }
    }
    write_set(alloc, &set, next as u32 + 1, sink)?;
    Ok(None)
}

/// Why a document that the step of this number wants can't be read: want of memory is the same here and there.
fn read_cause(number: u32, cause: ReadRefusal) -> RefRefusal
    ensures { result ≡ read_cause number cause }
{
    match cause {
        ReadRefusal::Memory => RefRefusal::Memory,
        _ => RefRefusal::Read {
            step: number,
            cause,
        },
    }
}

/// Does steps on all nodes of a document that was read from octets.
fn run_read<S: OctetSink>(
    alloc: Global,
    doc: &Doc<'_>,
    signature: Option<u32>,
    steps: &StepList,
    next: usize,
    read: &Doc<'_>,
    sink: &mut S,
) -> Result<Option<Left>, RefRefusal>
    requires chain { ChainFits doc.now signature steps.now }
    requires within { next ≤ length steps.now }
    ensures { Proceeds S.stands_for S.refusals S.makes sink.old sink.new (origin_of doc.now signature) steps.now next
        (view_from (origin_of doc.now signature) (next + 1) (drop next steps.now) (OfNodes (all_nodes read.now))) result }
{
    let all = NodeSet::all(alloc, read)?;
    run_nodes(alloc, doc, signature, false, steps, next, all, sink)
}

/// Reads octets as a document, for the step that wants a node set, and does the steps on it.
fn run_document<S: OctetSink>(
    alloc: Global,
    doc: &Doc<'_>,
    signature: Option<u32>,
    steps: &StepList,
    left: Left,
    sink: &mut S,
) -> Result<Option<Left>, RefRefusal>
    requires chain { ChainFits doc.now signature steps.now }
    requires within { left.next < length steps.now }
    requires wants { ForSome (slice_get steps.now left.next) (λ step. wants_octets step ≡ false) }
    ensures { Proceeds S.stands_for S.refusals S.makes sink.old sink.new (origin_of doc.now signature) steps.now left.next
        (view_from (origin_of doc.now signature) (left.next + 1) (drop left.next steps.now) (OfOctets left.octets)) result }
{
    let bump = Bump::new(alloc);
    match read_document(alloc, &bump, left.octets.bytes()) {
        Ok(read) => run_read(alloc, doc, signature, steps, left.next, &read, sink),
        Err(cause) => Err(read_cause(left.next as u32 + 1, cause)),
    }
}

/// Does one step on octets, or several of them if it wants a node set, or writes the view where none is left.
fn run_octets<S: OctetSink>(
    alloc: Global,
    doc: &Doc<'_>,
    signature: Option<u32>,
    steps: &StepList,
    left: Left,
    sink: &mut S,
) -> Result<Option<Left>, RefRefusal>
    requires chain { ChainFits doc.now signature steps.now }
    requires within { left.next ≤ length steps.now }
    ensures { Proceeds S.stands_for S.refusals S.makes sink.old sink.new (origin_of doc.now signature) steps.now left.next
        (view_from (origin_of doc.now signature) (left.next + 1) (drop left.next steps.now) (OfOctets left.octets)) result }
{
    let Some(step) = steps.get(left.next) else {
        write_octets(&left.octets, left.next as u32 + 1, sink)?;
        return Ok(None);
    };
    if !wants_octets(step) {
        return run_document(alloc, doc, signature, steps, left, sink);
    }
    let next = left.next + 1;
    let octets = decode(alloc, left.octets.bytes(), next as u32)?;
    Ok(Some(Left { octets, next }))
}

/// Does all steps that are left, and writes the view.
pub(crate) fn run_rest<S: OctetSink>(
    alloc: Global,
    doc: &Doc<'_>,
    signature: Option<u32>,
    steps: &StepList,
    left: Left,
    sink: &mut S,
) -> Result<(), RefRefusal>
    requires chain { ChainFits doc.now signature steps.now }
    requires within { left.next ≤ length steps.now }
    ensures { Writes S.stands_for S.refusals S.makes sink.old sink.new
        (view_from (origin_of doc.now signature) (left.next + 1) (drop left.next steps.now) (OfOctets left.octets)) result }
{
    let mut left = left;
    loop {
        match run_octets(alloc, doc, signature, steps, left, sink)? {
            Some(more) => left = more,
            None => return Ok(()),
        }
    }
}
