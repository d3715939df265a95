//! Cutting texts.

ghost use Rattle.std.specs.Prelude.{◌≡◌, ◌≤◌, position, reverse, length};
ghost use Rattle.std.specs.Option.{option_copied};
ghost use Rattle.uri_refs.specs.Cuts as spec;

/// What stands behind a prefix.
pub(crate) fn behind<'t>(prefix: &str, text: &'t str) -> Option<&'t str>
    ensures { option_copied result ≡ spec.behind prefix.now text.now }
{
    text.strip_prefix(prefix)
}

/// The same of octets.
pub(crate) fn behind_octets<'t>(prefix: &[u8], text: &'t [u8]) -> Option<&'t [u8]>
    ensures { option_copied result ≡ spec.behind prefix.now text.now }
{
    if text.starts_with(prefix) {
        Some(&text[prefix.len()..])
    } else {
        None
    }
}

/// How many octets stand behind the last slash.
fn behind_last_slash(text: &[u8]) -> Option<usize>
    ensures { result ≡ position spec.is_slash (reverse text.now) }
{
    text.iter().rev().position(|byte| *byte == b'/')
}

/// The length of a text up to its last slash, that one with it.
fn folder_length(text: &[u8]) -> usize
    ensures length { result ≡ spec.folder_length text.now }
    ensures within { result ≤ length text.now }
{
    match behind_last_slash(text) {
        Some(behind) => text.len() - behind,
        None => 0,
    }
}

/// A text up to its last slash, that one with it.
pub(crate) fn folder_part(text: &[u8]) -> &[u8]
    ensures { result.now ≡ spec.folder_part text.now }
{
    &text[..folder_length(text)]
}
