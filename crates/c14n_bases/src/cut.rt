//! The parts of a value (RFC 3986 appendix B), as slices of it.
ghost use Rattle.std.specs.Prelude.{◌≡◌, ◌≤◌, length};
ghost use Rattle.std.specs.List.{position_or_len};
ghost use Rattle.c14n_bases.specs.Join.{is_one_of, is_empty, has_scheme, scheme_of, behind_scheme, authority_of, behind_authority, query_of, cut};
ghost use Rattle.c14n_bases.specs.Code.Slices.{octets_of, parts_of};

/// A value in its parts, without its fragment.
#[derive(Clone, Copy)]
pub(crate) struct Parts<'a> {
    pub scheme: Option<&'a [u8]>,
    pub authority: Option<&'a [u8]>,
    pub path: &'a [u8],
    pub query: Option<&'a [u8]>,
}

/// The place of the first of these octets, or the length.
pub(crate) fn first_of(stops: &[u8], text: &[u8]) -> usize
    ensures place { result ≡ position_or_len (is_one_of stops.now) text.now }
    ensures within { result ≤ length text.now }
{
    for i in 0..text.len() {
        if stops.contains(&text[i]) {
            return i;
        }
    }
    text.len()
}

/// Whether there is no octet.
pub(crate) fn is_empty(text: &[u8]) -> bool
    ensures { result ≡ is_empty text.now }
{
    text.is_empty()
}

/// Whether a scheme stands at the front, and the colon behind it.
pub(crate) fn has_scheme(text: &[u8]) -> bool
    ensures { result ≡ has_scheme text.now }
{
    let at = first_of(b":/?#", text);
    at != 0 && text[at..].starts_with(b":")
}

/// The scheme, and what stands behind it.
fn cut_scheme(text: &[u8]) -> (Option<&[u8]>, &[u8])
    ensures scheme { octets_of result.0 ≡ scheme_of text.now }
    ensures behind { result.1.now ≡ behind_scheme text.now }
{
    let at = first_of(b":/?#", text);
    if has_scheme(text) {
        (Some(&text[..at]), &text[at + 1..])
    } else {
        (None, text)
    }
}

/// The authority, and what stands behind it.
fn cut_authority(text: &[u8]) -> (Option<&[u8]>, &[u8])
    ensures authority { octets_of result.0 ≡ authority_of text.now }
    ensures behind { result.1.now ≡ behind_authority text.now }
{
    if text.starts_with(b"//") {
        let text = &text[2..];
        let at = first_of(b"/?#", text);
        (Some(&text[..at]), &text[at..])
    } else {
        (None, text)
    }
}

/// The query, where it begins the text.
fn query_at(text: &[u8]) -> Option<&[u8]>
    ensures { octets_of result ≡ query_of text.now }
{
    if text.starts_with(b"?") {
        let text = &text[1..];
        Some(&text[..first_of(b"#", text)])
    } else {
        None
    }
}

/// The parts of a value.
pub(crate) fn cut(text: &[u8]) -> Parts<'_>
    ensures { parts_of result ≡ cut text.now }
{
    let (scheme, text) = cut_scheme(text);
    let (authority, text) = cut_authority(text);
    let at = first_of(b"?#", text);
    Parts {
        scheme,
        authority,
        path: &text[..at],
        query: query_at(&text[at..]),
    }
}
