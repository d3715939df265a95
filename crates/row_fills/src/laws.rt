//! Laws of the definitions: they need no code, and take no memory.
ghost use Rattle.std.specs.Prelude.{◌≡◌, ℕ, ◌+◌, Bool, List, [], ◌∷◌, ◌++◌, length};
ghost use Rattle.xml_doc.specs.Rows.{RowOf};
ghost use Rattle.node_sets.specs.Members.{in_subtree};
ghost use Rattle.c14n_text.specs.Namespaces.{Rule};
ghost use Rattle.c14n_text.specs.Canon.{canon};
ghost use Rattle.xml_read.specs.Spelled.{Spells};
ghost use Rattle.row_spans.specs.RowSpans.{InOrder};
ghost use Rattle.row_fills.specs.Fillings.{Filling, CanFillAll, AreFilled, AreFilledAlike, LiesInFront, filled_again, filled_in, first_of, filling, spans_of};

/// The octets with texts filled in spell a document too, whose rows stand for those of the first. Each text stands in its element.
pub fn texts_are_read_again()
    ensures { (octets : List ℕ) (rows : List RowOf) (f : Filling) (fs : List Filling) → Spells octets rows → CanFillAll rows 0 (f ∷ fs)
        → AreFilled octets rows f.row (f ∷ fs) }
{}

/// What is filled in lies in order within the octets, so that it can be written in one pass.
pub fn fillings_lie_in_order()
    ensures { (octets : List ℕ) (rows : List RowOf) (fs : List Filling) → Spells octets rows → CanFillAll rows 0 fs
        → InOrder 0 (length octets) (spans_of rows fs) }
{}

/// Where only the text of the last element differs, both documents begin alike up to it, and their octets are the same but for it.
pub fn texts_in_front_are_read_alike()
    ensures { (octets : List ℕ) (rows : List RowOf) (fs : List Filling) (row : ℕ) (text spelled other_text other_spelled : List ℕ)
        → Spells octets rows
        → CanFillAll rows 0 (fs ++ filling row text spelled ∷ []) → CanFillAll rows 0 (fs ++ filling row other_text other_spelled ∷ [])
        → AreFilledAlike octets rows (first_of fs row) fs (filling row text spelled) (filling row other_text other_spelled) }
{}

/// The canonical form of an element beside the last one, in front of all the others, doesn't depend on the last text.
pub fn forms_in_front_are_the_same()
    ensures { (rule : Rule) (comments : Bool) (octets : List ℕ) (rows one other : List RowOf) (fs : List Filling) (row : ℕ)
        (text spelled other_text other_spelled : List ℕ) (e : ℕ)
        → Spells octets rows
        → CanFillAll rows (e + 1) (fs ++ filling row text spelled ∷ []) → CanFillAll rows (e + 1) (fs ++ filling row other_text other_spelled ∷ []) → LiesInFront rows e row
        → Spells (filled_in octets rows (fs ++ filling row text spelled ∷ [])) one → Spells (filled_in octets rows (fs ++ filling row other_text other_spelled ∷ [])) other
        → canon rule comments one (in_subtree one e) ≡ canon rule comments other (in_subtree other e) }
{}

/// Filling in the texts that stand there changes no octet.
pub fn the_same_texts_change_nothing()
    ensures { (octets : List ℕ) (rows : List RowOf) (first : ℕ) (fs : List Filling) (filled : AreFilled octets rows first fs)
        → filled_in (filled_in octets rows fs) filled.others (filled_again filled.number fs) ≡ filled_in octets rows fs }
{}

/// Where only the text of the last element differs, the one document is the other with the texts of the one filled in.
pub fn the_last_text_changes_alone()
    ensures { (octets : List ℕ) (rows : List RowOf) (first : ℕ) (fs : List Filling) (row : ℕ) (text spelled other_text other_spelled : List ℕ)
        (pair : AreFilledAlike octets rows first fs (filling row text spelled) (filling row other_text other_spelled))
        → filled_in (filled_in octets rows (fs ++ filling row other_text other_spelled ∷ [])) pair.other.others
        (filled_again pair.other.number (fs ++ filling row text spelled ∷ []))
        ≡ filled_in octets rows (fs ++ filling row text spelled ∷ []) }
{}
