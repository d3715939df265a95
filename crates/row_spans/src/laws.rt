//! Laws of the definitions: they need no code, and take no memory.
ghost use Rattle.std.specs.Prelude.{◌≡◌, ◌<◌, ◌≤◌, ℕ, List, length, true};
ghost use Rattle.xml_doc.specs.Rows.{RowOf};
ghost use Rattle.xml_doc.specs.Axes.{is_child};
ghost use Rattle.xml_doc.specs.Shape.{IsWellShaped, row_at};
ghost use Rattle.xml_doc.specs.declared.row.Kind.TheVariants.{Element, Text};
ghost use Rattle.xml_read.specs.Spelled.{Spells};
ghost use Rattle.xml_spans.specs.Spans.{are_bare};
ghost use Rattle.row_spans.specs.Alike.{IsRefilled};
ghost use Rattle.row_spans.specs.TextAlone.{HasTextAlone};
ghost use Rattle.row_spans.specs.RowSpans.{LiesAt};

/// Where an element has text alone, its content lies between the offsets of its row.
pub fn content_lies_at_its_offsets()
    ensures { (octets : List ℕ) (rows : List RowOf) (i : ℕ) → Spells octets rows → HasTextAlone rows i → LiesAt octets (row_at rows i) }
{}

/// Where an element has text alone, each later element begins behind its content.
pub fn contents_lie_in_order()
    ensures { (octets : List ℕ) (rows : List RowOf) (i j : ℕ) → Spells octets rows → HasTextAlone rows i → i < j → j < length rows
        → (row_at rows j).kind ≡ Element → (row_at rows i).body_until ≤ (row_at rows j).body_from }
{}

/// Where an element has text alone, the octets with another text as its content spell a document too, whose rows are the
/// same but for that text, their numbers and their offsets. Later elements that have text alone have it still, and their offsets
/// move by what the octets grew.
pub fn a_text_is_read_again()
    ensures { (octets : List ℕ) (rows : List RowOf) (i : ℕ) (w : List ℕ) → Spells octets rows → HasTextAlone rows i → are_bare w ≡ true
        → IsRefilled octets rows i w }
{}

/// The offsets of rows lie within the octets.
pub fn offsets_lie_within()
    ensures { (octets : List ℕ) (rows : List RowOf) (i : ℕ) → Spells octets rows → i < length rows
        → ((row_at rows i).body_from ≤ length octets) × ((row_at rows i).body_until ≤ length octets) }
{}

/// An element whose children are texts has text alone.
pub fn only_texts_are_text_alone()
    ensures { (rows : List RowOf) (x : ℕ) → IsWellShaped rows → x < length rows → (row_at rows x).kind ≡ Element
        → ((y : ℕ) → y < length rows → is_child rows x y ≡ true → (row_at rows y).kind ≡ Text) → HasTextAlone rows x }
{}
