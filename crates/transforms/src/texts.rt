//! The characters of a node set.

ghost use Rattle.std.specs.Prelude.{◌≡◌, ◌<◌, ◌++◌, length, IfOk, OnOk};
ghost use Rattle.node_sets.specs.Members.{has};
ghost use Rattle.transforms.specs.Steps as spec;

use node_sets::NodeSet;
use sig_base::NoMemory;
use std::alloc::Global;
use xml_doc::Kind;

/// Adds the characters of a row, if it is a text node of the set.
fn add_text(set: &NodeSet<'_>, k: u32, text: &mut Vec<u8>) -> Result<(), NoMemory>
    requires { k < length set.now.rows }
    ensures { OnOk result (text.new.items ≡ text.old.items ++ spec.text_in set.now.rows (has set.now.members) k) }
{
    let doc = set.doc();
    if set.contains(k) && doc.kind(k) == Kind::Text {
        text.extend_from_slice(doc.value(k).as_bytes())?;
    }
    Ok(())
}

/// The characters of the text nodes of a set, in document order.
pub(crate) fn text_of_set(alloc: Global, set: &NodeSet<'_>) -> Result<Vec<u8>, NoMemory>
    ensures { IfOk result (λ text. text.items ≡ spec.text_of_set set.now.rows (has set.now.members)) }
{
    let mut text = Vec::new(alloc);
    let span = set.span();
    if span.until <= span.from {
        return Ok(text);
    }
    for k in span.from..span.until {
        add_text(set, k, &mut text)?;
    }
    Ok(text)
}
