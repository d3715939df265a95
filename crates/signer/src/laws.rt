//! Laws of the definitions. Their functions do nothing; what they ensure holds of every argument.

ghost use Rattle.std.specs.Prelude.{◌≡◌, ℕ, List, length, None, Some, Ok, true};
ghost use Rattle.xml_doc.specs.Rows.{RowOf};
ghost use Rattle.xml_read.specs.Spelled.{Spells};
ghost use Rattle.dsig_fields.specs.Fields.{fields_of};
ghost use Rattle.dsig_fields.specs.Holds.{is_long_enough, value_bits};
ghost use Rattle.dsig_fields.specs.Signatures.{nth_signature};
ghost use Rattle.dsig_fields.specs.declared.fields.Fields.{Fields};
ghost use Rattle.signer.specs.Laws.{FilledAgain, SignedIsValid};
ghost use Rattle.signer.specs.Outcome.{not_text};
ghost use Rattle.signer.specs.Signed.{AreSpelled, Holds, signed, unsigned, value_under};

/// Where digests and signature value have text alone, both validations hold in the document with them filled in (XML
/// Signature 1.1 §3.2): whatever the views are, and however large the documents.
pub fn what_is_signed_holds()
    ensures { (octets : List ℕ) (rows one two : List RowOf) (index x : ℕ) (fields : Fields) (views : List (List ℕ)) (key : List ℕ)
        → Spells octets rows → nth_signature rows index ≡ Some x → fields_of rows x ≡ Ok fields → not_text rows fields ≡ None
        → length views ≡ length fields.references → is_long_enough fields.mac (value_bits fields.mac fields.bits) ≡ true
        → Spells (unsigned octets rows fields views) one → Spells (signed octets rows fields views (value_under one fields key)) two
        → Holds one two index x fields views key }
{}

/// Where digests and signature value have text alone, the document with them filled in is spelled, before and after its signature
/// value is: so it is read, unless it has too many octets or rows.
pub fn what_is_filled_in_is_spelled()
    ensures { (octets : List ℕ) (rows : List RowOf) (index x : ℕ) (fields : Fields) (views : List (List ℕ)) → Spells octets rows
        → nth_signature rows index ≡ Some x → fields_of rows x ≡ Ok fields → not_text rows fields ≡ None → AreSpelled octets rows fields views }
{}

/// What is signed is valid: where a template is filled in, core validation of what was made, asked the same, gives Valid with the
/// template's views.
pub fn what_is_signed_is_valid()
    ensures { SignedIsValid }
{}

/// Signing what is signed changes nothing: where a template is filled in, filling in what was made, asked the same with the same
/// files, gives the same octets.
pub fn filling_again_changes_nothing()
    ensures { FilledAgain }
{}
