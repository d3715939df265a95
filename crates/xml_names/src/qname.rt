//! Qualified names (Namespaces in XML 1.0 §3 and §4).
ghost use Rattle.std.specs.Prelude.{◌≡◌, option_map};
ghost use Rattle.std.specs.List.{list_all};
ghost use Rattle.std.specs.Str.{chars};
ghost use Rattle.xml_names.specs.Characters.{in_some};
ghost use Rattle.xml_names.specs.Names.{SplitsQNames, begins_part, is_ncname, is_part_char, qname_of};
ghost use Rattle.xml_names.specs.Code.Names.{ascii_parts, ascii_starts, is_ascii_ncname};

use crate::class::{is_name_char, is_name_start};
use sig_base::split_first;

/// Whether the character may stand in an NCName.
fn is_part_char(c: char) -> bool
    ensures { result ≡ is_part_char c }
{
    is_name_char(c) && c != ':'
}

/// Whether each character may stand in an NCName.
fn are_part_chars(text: &str) -> bool
    ensures { result ≡ list_all is_part_char (chars text.now) }
{
    text.chars().all(|c| is_part_char(c))
}

/// Whether an NCName may begin as the text does.
fn begins_part(text: &str) -> bool
    ensures { result ≡ begins_part (chars text.now) }
{
    match split_first(text) {
        Some((c, _rest)) => is_name_start(c) && c != ':',
        None => false,
    }
}

/// Whether the octet is an ASCII character that may stand in an NCName.
fn is_ascii_part(octet: u8) -> bool
    ensures { result ≡ in_some ascii_parts octet }
{
    matches!(octet, b'A'..=b'Z' | b'_' | b'a'..=b'z' | b'-' | b'.' | b'0'..=b'9')
}

/// Whether the octet is an ASCII character with which an NCName may begin.
fn is_ascii_start(octet: u8) -> bool
    ensures { result ≡ in_some ascii_starts octet }
{
    matches!(octet, b'A'..=b'Z' | b'_' | b'a'..=b'z')
}

/// Whether each octet is an ASCII character that may stand in an NCName.
fn are_ascii_parts(octets: &[u8]) -> bool
    ensures { result ≡ list_all (in_some ascii_parts) octets.now }
{
    octets.iter().all(|octet| is_ascii_part(*octet))
}

/// Whether the octets are an NCName of ASCII characters.
fn is_ascii_ncname(octets: &[u8]) -> bool
    ensures { result ≡ is_ascii_ncname octets.now }
{
    match octets {
        [] => false,
        [first, others @ ..] => is_ascii_start(*first) && are_ascii_parts(others),
    }
}

/// Whether the text is an NCName, that is a Name without a colon (Namespaces in XML 1.0 §3).
#[tactic(auto, unfolding(crate::specs::Names::is_ncname))]
pub fn is_ncname(text: &str) -> bool
    ensures { result ≡ is_ncname text.now }
{
    if is_ascii_ncname(text.as_bytes()) {
        return true;
    }
    begins_part(text) && are_part_chars(text)
}

/// The prefix and the local name of a QName (Namespaces in XML 1.0 §4). The prefix is empty where there is none. `None`
/// comes exactly where the text is no QName. It takes no memory.
#[tactic(auto, unfolding(crate::specs::Names::qname_of))]
pub fn split_qname(text: &str) -> Option<(&str, &str)>
    ensures parts { qname_of text.now ≡ option_map (λ x. (x.0.now, x.1.now)) result }
    ensures law { SplitsQNames text.now }
{
    if is_ascii_ncname(text.as_bytes()) {
        return Some(("", text));
    }
    match text.split_once(':') {
        Some((prefix, local)) => {
            if is_ncname(prefix) && is_ncname(local) {
                Some((prefix, local))
            } else {
                None
            }
        }
        None => {
            if is_ncname(text) {
                Some(("", text))
            } else {
                None
            }
        }
    }
}
