//! Words, one by one.
ghost use Rattle.std.specs.Prelude.{◌≡◌, map, option_map, string_bytes};
ghost use Rattle.std.specs.List.{position};
ghost use Rattle.job_words.specs.Word as spec;
ghost use Rattle.job_words.specs.Code.Word as code;

/// Whether a word is no option, and can be a value: it isn't empty, and doesn't begin with `-`.
pub(crate) fn is_plain(word: &[u8]) -> bool
    ensures { result ≡ spec.is_plain word.now }
{
    match word {
        [] => false,
        [first, ..] => *first != b'-',
    }
}

/// Whether an octet is a letter of ASCII.
fn is_letter(octet: u8) -> bool
    ensures { result ≡ spec.is_letter octet }
{
    (octet >= b'A' && octet <= b'Z') || (octet >= b'a' && octet <= b'z')
}

/// The place of the first `=`.
fn place_of_equals(text: &[u8]) -> Option<usize>
    ensures { result ≡ position spec.is_equals text.now }
{
    text.iter().position(|octet| *octet == b'=')
}

/// What stands behind the first `=`, where there is one.
fn value_in(text: &[u8]) -> Option<&[u8]>
    ensures { option_map (λ value. value.now) result ≡ (spec.name_and_value text.now).1 }
{
    match place_of_equals(text) {
        Some(place) => Some(&text[place + 1..]),
        None => None,
    }
}

/// Whether what stands behind an option's name is nothing, or a value that is plain.
fn has_plain_value(text: &[u8]) -> bool
    ensures { result ≡ code.is_plain_value (spec.name_and_value text.now).1 }
{
    match value_in(text) {
        Some(value) => is_plain(value),
        None => true,
    }
}

/// Whether a word is an option, with a plain value or none.
fn is_lawful_option(word: &[u8]) -> bool
    ensures { result ≡ code.is_lawful_option (spec.option_in word.now) }
{
    match word {
        [first, second, letter, ..] => {
            *first == b'-' && *second == b'-' && is_letter(*letter) && has_plain_value(&word[2..])
        }
        _ => false,
    }
}

/// Whether a word is plain, or an option with a plain value or none.
fn is_lawful(word: &str) -> bool
    ensures { result ≡ code.is_lawful word.now }
{
    is_plain(word.as_bytes()) || is_lawful_option(word.as_bytes())
}

/// Whether each word is plain, or an option with a plain value or none.
pub(crate) fn are_lawful(words: &[String]) -> bool
    ensures { result ≡ code.are_lawful (map string_bytes words.now) }
{
    for word in words {
        if !is_lawful(word.as_str()) {
            return false;
        }
    }
    true
}
