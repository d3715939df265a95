//! The References of a Manifest.

ghost use Rattle.std.specs.Prelude.{◌<◌, ◌≤◌, length, IfOk};
ghost use Rattle.std.specs.List.{All};
ghost use Rattle.dsig_fields.specs.Fits.{ReferenceFits};
ghost use Rattle.dsig_fields.specs.Manifests as spec;
ghost use Rattle.dsig_fields.specs.Reading.{Gives};

use crate::children::Children;
use crate::fields::ReferenceList;
use crate::refusal::FieldRefusal;
use crate::repeated::one_or_more;
use std::alloc::Global;
use xml_doc::Doc;

/// Reads the References of a Manifest element (XML Signature 1.1 §5.1), which are its children: one or more, and at most 256.
/// The first refusal that is met in document order is the answer.
#[tactic(auto, unfolding(crate::specs::Manifests::manifest_of))]
pub fn read_manifest(
    alloc: Global,
    doc: &Doc<'_>,
    manifest: u32,
) -> Result<ReferenceList, FieldRefusal>
    requires { manifest < length doc.now }
    ensures references { Gives (λ l. l) result (spec.manifest_of doc.now manifest) }
    ensures few { IfOk result (λ l. length l ≤ 256) }
    ensures fit { IfOk result (λ l. All (ReferenceFits doc.now) l) }
{
    let mut children = Children::of(doc, manifest);
    let references = one_or_more(alloc, doc, &mut children)?;
    children.at_end(doc)?;
    Ok(references)
}
