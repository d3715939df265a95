//! A text, character by character.
ghost use Rattle.std.specs.Prelude.{◌≡◌, ◌+◌, ◌<◌, ◌≤◌, [], ◌∷◌, length, IfNone, IfSome};
ghost use Rattle.std.specs.Char.{len_utf8};
ghost use Rattle.std.specs.Str.{chars};

/// The first character, and the rest. `None` comes exactly where the text is empty.
pub fn split_first(text: &str) -> Option<(char, &str)>
    ensures none { IfNone result (chars text.now ≡ []) }
    ensures some { IfSome result (λ x. chars text.now ≡ x.0 ∷ chars x.1.now) }
    ensures len { IfSome result (λ x. length text.now ≡ len_utf8 x.0 + length x.1.now) }
    ensures small { IfSome result (λ x. len_utf8 x.0 ≤ 4) }
    ensures shorter { IfSome result (λ x. length x.1.now < length text.now) }
{
    let mut chars = text.chars();
    match chars.next() {
        Some(c) => Some((c, chars.as_str())),
        None => None,
    }
}
