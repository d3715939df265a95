//! Transforms of a node set (XML Signature 1.1 §6.6).

ghost use Rattle.std.specs.Prelude.{◌≡◌, ◌<◌, true, length};
ghost use Rattle.std.specs.Option.{ForSome};
ghost use Rattle.dsig_base64.specs.Loose.{octets_in};
ghost use Rattle.node_sets.specs.Members.{has};
ghost use Rattle.dsig_fields.specs.Fits.{StepFits};
ghost use Rattle.transforms.specs.Code.Answers.{Alters, Changes, Gives, nodes_of};
ghost use Rattle.transforms.specs.Steps as spec;
ghost use Rattle.transforms.specs.Values.{origin_of};

use crate::decode::decode;
use crate::expressions::{apply_filters, filter_by};
use crate::forms::canonical;
use crate::refusal::RefRefusal;
use crate::texts::text_of_set;
use dsig_fields::Step;
use node_sets::NodeSet;
use sig_base::Octets;
use std::alloc::Global;
use xml_doc::Doc;

/// Decodes the characters of a set.
fn decode_texts(alloc: Global, set: &NodeSet<'_>, number: u32) -> Result<Octets, RefRefusal>
    ensures { Gives (λ o. o) result (spec.spelled number (octets_in (spec.text_of_set set.now.rows (has set.now.members)))) }
{
    let text = text_of_set(alloc, set)?;
    decode(alloc, &text, number)
}

/// Takes the rows of an element's subtree out of a set.
fn take_out(element: u32, set: &mut NodeSet<'_>)
    requires { element < length set.old.rows }
    ensures members { has set.new.members ≡ spec.outside set.old.rows element (has set.old.members) }
    ensures rows { set.new.rows ≡ set.old.rows }
{
    set.remove_subtree(element);
}

/// Takes out of a set the Signature that contains the Reference.
fn leave_out(
    doc: &Doc<'_>,
    signature: Option<u32>,
    own: bool,
    number: u32,
    set: &mut NodeSet<'_>,
) -> Result<(), RefRefusal>
    requires signature { ForSome signature (λ g. g < length doc.now) }
    requires own { own ≡ true → set.old.rows ≡ doc.now }
    ensures members { Alters own result set.new (spec.enveloped number signature (nodes_of own set.old)) }
    ensures rows { set.new.rows ≡ set.old.rows }
{
    match signature {
        Some(element) => {
            if !own {
                return Err(RefRefusal::EnvelopedElsewhere(number));
            }
            let _rows = doc.rows();
            take_out(element, set);
            Ok(())
        }
        None => Err(RefRefusal::EnvelopedElsewhere(number)),
    }
}

/// Does the step of this number on a set: it gives octets, or changes the set.
pub(crate) fn change(
    alloc: Global,
    doc: &Doc<'_>,
    signature: Option<u32>,
    own: bool,
    number: u32,
    step: &Step,
    set: &mut NodeSet<'_>,
) -> Result<Option<Octets>, RefRefusal>
    requires signature { ForSome signature (λ g. g < length doc.now) }
    requires own { own ≡ true → set.old.rows ≡ doc.now }
    requires fits { StepFits doc.now step.now }
    ensures value { Changes own result set.new (spec.nodes_step (origin_of doc.now signature) number step.now (nodes_of own set.old)) }
    ensures rows { set.new.rows ≡ set.old.rows }
{
    match step {
        Step::Canon { method, prefixes } => Ok(Some(canonical(
            alloc, *method, prefixes, set, number,
        )?)),
        Step::Base64 => Ok(Some(decode_texts(alloc, set, number)?)),
        Step::Enveloped => {
            leave_out(doc, signature, own, number, set)?;
            Ok(None)
        }
        Step::XPath { row, text } => {
            filter_by(alloc, doc, own, number, *row, text, set)?;
            Ok(None)
        }
        Step::Filters(filters) => {
            apply_filters(alloc, doc, own, number, filters, set)?;
            Ok(None)
        }
    }
}
