//! Laws of the definitions: they need no code, and take no memory.
ghost use Rattle.std.specs.Prelude.{◌≡◌, ◌↔◌, ℕ, List, Ok, Some, Result};
ghost use Rattle.xml_doc.specs.Rows.{RowOf};
ghost use Rattle.xml_read.specs.ReadOutcome.{read_outcome};
ghost use Rattle.xml_read.specs.Spelled.{IsOutcome, Spells, SpellsTree, limited};
ghost use Rattle.xml_read.specs.SpelledTree.{tree_of};
ghost use Rattle.xml_read.specs.declared.read.ReadRefusal.{ReadRefusal};
ghost use Rattle.xml_syntax.specs.Tree.{Content};

/// The tree of octets is the one that the grammar spells.
pub fn trees_are_spelled()
    ensures { (octets : List ℕ) (tree : Content) → (tree_of octets ≡ Some tree) ↔ SpellsTree octets tree }
{}

/// A document is read exactly where one is spelled within the limits, and each refusal comes exactly where the grammar and the
/// limits say so.
pub fn outcomes_are_told()
    ensures { (octets : List ℕ) (outcome : Result (List RowOf) ReadRefusal)
        → (read_outcome octets ≡ outcome) ↔ IsOutcome outcome octets }
{}

/// A document that is read is spelled, and one that is spelled is read, within the limits on octets and rows.
pub fn documents_are_spelled()
    ensures read { (octets : List ℕ) (rows : List RowOf) → read_outcome octets ≡ Ok rows → Spells octets rows }
    ensures outcome { (octets : List ℕ) (rows : List RowOf) → Spells octets rows → read_outcome octets ≡ limited octets rows }
{}
