//! White space, and reading a text from its ends.
ghost use Rattle.std.specs.Prelude.{◌≡◌, ◌<◌, ◌++◌, [], ◌∷◌, length, IfNone, IfSome};
ghost use Rattle.std.specs.List.{list_all};
ghost use Rattle.std.specs.Str.{chars};
ghost use Rattle.xpath_value.specs.Characters.{is_digit, is_empty, is_space, is_zero, stripped, stripped_end, stripped_start};

use sig_base::split_first;

/// Whether the character is white space of XML (XML 1.0 §2.3).
pub(crate) fn is_space(c: char) -> bool
    ensures { result ≡ is_space c }
{
    c == ' ' || c == '\t' || c == '\r' || c == '\n'
}

/// Whether there is no character.
pub(crate) fn is_empty(text: &str) -> bool
    ensures { result ≡ is_empty (chars text.now) }
{
    split_first(text).is_none()
}

/// Whether each character is a decimal digit.
pub(crate) fn are_digits(text: &str) -> bool
    ensures { result ≡ list_all is_digit (chars text.now) }
{
    text.chars().all(|c| c >= '0' && c <= '9')
}

/// Whether each character is the digit zero.
pub(crate) fn are_zeros(text: &str) -> bool
    ensures { result ≡ list_all is_zero (chars text.now) }
{
    text.chars().all(|c| c == '0')
}

/// The last character, and what stands before it.
fn split_last(text: &str) -> Option<(&str, char)>
    ensures none { IfNone result (chars text.now ≡ []) }
    ensures some { IfSome result (λ x. chars text.now ≡ chars x.0.now ++ x.1 ∷ []) }
    ensures shorter { IfSome result (λ x. length x.0.now < length text.now) }
{
    let mut chars = text.chars();
    match chars.next_back() {
        Some(c) => Some((chars.as_str(), c)),
        None => None,
    }
}

/// The text without the white space at its start.
fn strip_start(text: &str) -> &str
    ensures { chars result.now ≡ stripped_start (chars text.now) }
{
    let mut rest = text;
    while let Some((c, behind)) = split_first(rest) {
        if !is_space(c) {
            return rest;
        }
        rest = behind;
    }
    rest
}

/// The text without the white space at its end.
fn strip_end(text: &str) -> &str
    ensures { chars result.now ≡ stripped_end (chars text.now) }
{
    let mut rest = text;
    while let Some((before, c)) = split_last(rest) {
        if !is_space(c) {
            return rest;
        }
        rest = before;
    }
    rest
}

/// The text without the white space at both ends.
pub(crate) fn strip_space(text: &str) -> &str
    ensures { chars result.now ≡ stripped (chars text.now) }
{
    strip_end(strip_start(text))
}
