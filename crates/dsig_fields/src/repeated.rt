//! Elements of which one or more stand side by side.

ghost use Rattle.std.specs.Prelude.{◌≡◌, ◌-◌, ◌<◌, length};
ghost use Rattle.dsig_fields.specs.Cursor.{Leaves};
ghost use Rattle.dsig_fields.specs.Code.Cursor.{with_front};
ghost use Rattle.dsig_fields.specs.Reading as spec;

use crate::children::Children;
use crate::names::ElementName;
use crate::refusal::FieldRefusal;
use sig_base::Members;
use std::alloc::Global;
use xml_doc::Doc;

/// What is read of an element of which one or more stand side by side.
pub(crate) trait Repeated: Drop {
    ghost use Rattle.std.specs.Prelude.{ℕ, List, Result};
    ghost use Rattle.xml_doc.specs.Rows.{RowOf};
    ghost use Rattle.dsig_fields.specs.declared.names.ElementName.{ElementName};
    ghost use Rattle.dsig_fields.specs.declared.refusal.FieldRefusal.{FieldRefusal};

    /// The element's name.
    ghost NAME: { ElementName };

    /// How many may stand side by side.
    ghost LIMIT: { ℕ };

    /// The refusal of one more.
    ghost excess: { ℕ → FieldRefusal };

    /// What the element of a row says.
    ghost outcome: { List RowOf → ℕ → Result Self FieldRefusal };

    /// The element's name.
    const NAME: ElementName;

    /// How many may stand side by side.
    const LIMIT: usize;

    /// The refusal of one more, of row `x`.
    fn too_many(x: u32) -> FieldRefusal
        ensures { result ≡ excess x };

    /// Reads the element of row `x`.
    fn read(alloc: Global, doc: &Doc<'_>, x: u32) -> Result<Self, FieldRefusal>
        requires { x < length doc.now }
        ensures { spec.Gives (λ r. r) result (outcome doc.now x) };
}

/// One or more elements of a kind, which have to stand next.
#[tactic(auto, unfolding(crate::specs::Reading::one_or_more))]
pub(crate) fn one_or_more<T: Repeated>(
    alloc: Global,
    doc: &Doc<'_>,
    children: &mut Children<'_>,
) -> Result<Members<T>, FieldRefusal>
    ensures { spec.Reads (λ l. l) result children.new (spec.one_or_more T.excess doc.now T.NAME (T.outcome doc.now) T.LIMIT children.old) }
{
    let first = children.required(doc, T::NAME)?;
    let mut members = Members::new(alloc);
    members.push(T::read(alloc, doc, first)?)?;
    read_more(alloc, doc, children, &mut members)?;
    Ok(members)
}

/// Any number of elements of a kind, which may stand next, behind those that were read.
fn read_more<T: Repeated>(
    alloc: Global,
    doc: &Doc<'_>,
    children: &mut Children<'_>,
    members: &mut Members<T>,
) -> Result<(), FieldRefusal>
    ensures { Leaves result (members.new, children.new)
        (with_front members.old (spec.many T.excess doc.now T.NAME (T.outcome doc.now) (T.LIMIT - length members.old) children.old)) }
{
    while let Some(y) = children.optional(doc, T::NAME)? {
        if members.len() >= T::LIMIT {
            return Err(T::too_many(y));
        }
        members.push(T::read(alloc, doc, y)?)?;
    }
    Ok(())
}
