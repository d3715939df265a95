//! Laws of the cut into tokens, for texts of any length: they need no code, and take no memory.
ghost use Rattle.std.specs.Prelude.{◌≡◌, ◌↔◌, ℕ, List, Some};
ghost use Rattle.xpath_words.specs.Words.{SpellsAll};
ghost use Rattle.xpath_words.specs.Reading.{words_of};
ghost use Rattle.xpath_words.specs.declared.word.Word.{Word};

/// The tokens into which a text is cut are just those that it spells, the longest one each time (XPath 1.0 §3.7): it spells
/// no others, and none where it has no cut.
pub fn longest_tokens()
    ensures read { (text : List ℕ) (words : List Word) → (words_of text ≡ Some words) ↔ SpellsAll text words }
    ensures one { (text : List ℕ) (these those : List Word) → SpellsAll text these → SpellsAll text those → these ≡ those }
{}
