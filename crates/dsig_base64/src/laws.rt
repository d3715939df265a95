//! Laws of reading and writing base64. Their functions do nothing; what they ensure holds of every argument.

ghost use Rattle.std.specs.Prelude.{◌≡◌, Some, true};
ghost use Rattle.dsig_base64.specs.Bare.{are_bare};
ghost use Rattle.dsig_base64.specs.Loose.{base64_of, octets_in, SpellsExactly};

/// Reading what was written gives the octets that were written.
pub fn reading_undoes_writing(octets: &[u8])
    ensures { octets_in (base64_of octets.now) ≡ Some octets.now }
{}

/// A text spells octets exactly where, its white space left out, it is their base64.
pub fn a_text_spells_what_it_encodes(text: &[u8], octets: &[u8])
    ensures { SpellsExactly text.now octets.now }
{}

/// Base64 may stand in an element as it is: it is bare text.
pub fn an_encoding_is_bare(octets: &[u8])
    ensures { are_bare (base64_of octets.now) ≡ true }
{}
