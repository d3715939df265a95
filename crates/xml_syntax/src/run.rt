//! Runs of ASCII characters that stand for themselves.
ghost use Rattle.std.specs.Prelude.{◌≡◌, ◌<◌, ◌≤◌, ◌+◌, ◌-◌, [], ◌∷◌, ◌++◌, true, IfNone, IfSome, length, take, drop, encode_utf8_all};
ghost use Rattle.std.specs.Char.{len_utf8};
ghost use Rattle.std.specs.Str.{chars};
ghost use Rattle.std.specs.List.{All};
ghost use Rattle.xml_syntax.specs.Classes.{is_between};
ghost use Rattle.xml_syntax.specs.Run.{BeginsSmall, EndsName, IsTagBegin, behind_name, front_name, in_run, is_shown, is_shown_or_space};

use xml_names::is_name_char;

/// Where a run stands.
#[derive(Clone, Copy)]
pub enum Run {
    /// In character data.
    Text,
    /// In a value between quotes.
    Value,
    /// In a name.
    Name,
    /// In a comment, a CDATA section or an instruction.
    Inner,
}

fn is_shown(octet: u8) -> bool
    ensures { result ≡ is_shown octet }
{
    b' ' <= octet && octet <= 127
}

fn is_shown_or_space(octet: u8) -> bool
    ensures { result ≡ is_shown_or_space octet }
{
    is_shown(octet) || octet == b'\t' || octet == b'\n'
}

// Whether the octet is a small letter, of which most runs consist. Each kind of run has them.
fn is_small(octet: u8) -> bool
    ensures { result ≡ is_between 97 122 octet }
{
    b'a' <= octet && octet <= b'z'
}

impl Run {
    /// Whether the octet belongs to such a run.
    pub fn holds(self, octet: u8) -> bool
        ensures { result ≡ in_run self octet }
    {
        if is_small(octet) {
            return true;
        }
        match self {
            Run::Text => octet != b'<'
                && octet != b'&'
                && octet != b']'
                && is_shown_or_space(octet),
            Run::Value => {
                octet != b'"' && octet != b'\'' && octet != b'<' && octet != b'&' && is_shown(octet)
            }
            Run::Name =>
                matches!(octet, b':' | b'A'..=b'Z' | b'_' | b'a'..=b'z' | b'-' | b'.' | b'0'..=b'9'),
            Run::Inner => {
                octet != b'-' && octet != b']' && octet != b'?' && is_shown_or_space(octet)
            }
        }
    }
}

/// The first character, and the rest. `None` comes exactly where the text is empty. An ASCII character is its octet.
pub fn split_first(text: &str) -> Option<(char, &str)>
    ensures none { IfNone result (chars text.now ≡ []) }
    ensures some { IfSome result (λ x. chars text.now ≡ x.0 ∷ chars x.1.now) }
    ensures len { IfSome result (λ x. length text.now ≡ len_utf8 x.0 + length x.1.now) }
    ensures small { IfSome result (λ x. len_utf8 x.0 ≤ 4) }
    ensures shorter { IfSome result (λ x. length x.1.now < length text.now) }
{
    let octets = text.as_bytes();
    if octets.is_empty() || octets[0] >= 128 {
        return sig_base::split_first(text);
    }
    let first = octets[0] as char;
    let (_octet, rest) = text.split_at(1);
    Some((first, rest))
}

// How many octets the run has that a text begins with.
fn length_of(run: Run, octets: &[u8]) -> usize
    ensures within { result ≤ length octets.now }
    ensures run { All (λ b. in_run run b ≡ true) (take result octets.now) }
{
    let mut n = 0;
    while n < octets.len() {
        if !run.holds(octets[n]) {
            break;
        }
        n += 1;
    }
    n
}

/// The longest run that a text begins with, and what is behind it.
pub fn split_run(run: Run, text: &str) -> (&str, &str)
    ensures parts { text.now ≡ result.0.now ++ result.1.now }
    ensures run { All (λ b. in_run run b ≡ true) result.0.now }
{
    text.split_at(length_of(run, text.as_bytes()))
}

// What is behind the NameChars that a text begins with.
fn behind_name(text: &str) -> &str
    ensures rest { chars result.now ≡ behind_name (chars text.now) }
    ensures within { length result.now ≤ length text.now }
    ensures end { drop (length text.now - length result.now) text.now ≡ result.now }
{
    let (_run, mut rest) = split_run(Run::Name, text);
    while let Some((c, behind)) = split_first(rest) {
        if !is_name_char(c) {
            return rest;
        }
        rest = behind;
    }
    rest
}

// Whether a name ends here: nothing comes, or an ASCII character that stands in no name.
fn ends_name(octets: &[u8]) -> bool
    ensures { result ≡ true → EndsName octets.now }
{
    match octets {
        [] => true,
        [first, ..] => *first < 128 && !Run::Name.holds(*first),
    }
}

/// The longest front of NameChars of a text, and what is behind it. Most names are ASCII, so these are taken as a run.
pub fn split_name(text: &str) -> (&str, &str)
    ensures parts { text.now ≡ result.0.now ++ result.1.now }
    ensures name { result.0.now ≡ encode_utf8_all (front_name (chars text.now)) }
    ensures rest { chars result.1.now ≡ behind_name (chars text.now) }
{
    let (name, rest) = split_run(Run::Name, text);
    if ends_name(rest.as_bytes()) {
        return (name, rest);
    }
    text.split_at(text.len() - behind_name(text).len())
}

/// Whether a small letter comes first, as in most names.
pub fn begins_small(octets: &[u8]) -> bool
    ensures { result ≡ true → BeginsSmall octets.now }
{
    match octets {
        [] => false,
        [first, ..] => is_small(*first),
    }
}

/// Whether a text begins with `<` and an octet that begins a tag. Where it doesn't, a tag may come next too.
pub fn begins_tag(octets: &[u8]) -> bool
    ensures { result ≡ true → IsTagBegin octets.now }
{
    octets.len() >= 2 && octets[0] == b'<' && (octets[1] == b'/' || Run::Name.holds(octets[1]))
}
