//! Joining (RFC 3986 §5.2.2).
ghost use Rattle.std.specs.Prelude.{◌≡◌, ℕ, ◌≤◌, ◌+◌, ◌++◌, ◌&&◌, List, false, length, is_some, vec_capacity};
ghost use Rattle.sig_base.specs.Puts.{Puts};
ghost use Rattle.c14n_bases.specs.Join.{put_together, clean, is_absolute, is_empty, relative_path, joined_path, joined_query, below, cleaned, cleaned_value, first_some, is_open, join, segments, scheme_octets, authority_octets, query_octets};
ghost use Rattle.c14n_bases.specs.Code.Slices.{octets_of, parts_of, parts_weight, value_octets, value_weight};

use crate::clean::{directory, is_absolute, is_dotted};
use crate::cut::{Parts, cut, is_empty};
use crate::fill::fill_value;
use crate::value::{Value, put_value};
use sig_base::{OctetSink, Put};

/// The value whose path is one text.
pub(crate) fn whole<'a>(
    scheme: Option<&'a [u8]>,
    authority: Option<&'a [u8]>,
    path: &'a [u8],
    query: Option<&'a [u8]>,
) -> Value<'a>
    ensures value { value_octets result ≡ put_together (octets_of scheme.entry) (octets_of authority.entry) (clean path.now)
        (octets_of query.entry) }
    ensures weight { value_weight result ≡ length (scheme_octets (octets_of scheme.entry)) + length
        (authority_octets (octets_of authority.entry)) + length path.now + length (query_octets (octets_of query.entry)) }
{
    Value {
        scheme,
        authority,
        absolute: is_absolute(path),
        first: b"",
        second: path,
        query,
    }
}

/// Whether a base has an authority and an empty path.
pub(crate) fn has_no_path(base: Parts<'_>) -> bool
    ensures { result ≡ (is_some (octets_of base.entry.authority) && is_empty base.entry.path.now) }
{
    base.authority.is_some() && is_empty(base.path)
}

/// The value of a relative path below a directory of a base.
fn below_directory<'a>(
    base: Parts<'a>,
    absolute: bool,
    directory: &'a [u8],
    path: &'a [u8],
    query: Option<&'a [u8]>,
) -> Value<'a>
    ensures value { value_octets result ≡ put_together (octets_of base.entry.scheme) (octets_of base.entry.authority)
        (cleaned absolute (is_open path.now) (segments directory.now ++ segments path.now)) (octets_of query.entry) }
    ensures weight { value_weight result ≡ length (scheme_octets (octets_of base.entry.scheme)) + length
        (authority_octets (octets_of base.entry.authority)) + (length directory.now + length path.now) + length
        (query_octets (octets_of query.entry)) }
{
    Value {
        scheme: base.scheme,
        authority: base.authority,
        absolute,
        first: directory,
        second: path,
        query,
    }
}

/// Whether the paths below a base are absolute, and the directory that they stand in.
pub(crate) fn directory_of(base: Parts<'_>) -> (bool, &[u8])
    ensures below { (path : List ℕ) → is_empty path ≡ false → is_absolute path ≡ false → clean (relative_path (parts_of base.entry) path)
        ≡ cleaned result.0 (is_open path) (segments result.1.now ++ segments path) }
    ensures shorter { length result.1.now ≤ length base.entry.path.now }
{
    if has_no_path(base) {
        (true, b"")
    } else if is_dotted(base.path) {
        (is_absolute(base.path), base.path)
    } else {
        let first = directory(base.path);
        (is_absolute(first), first)
    }
}

/// The value of a relative path below a base.
fn relative<'a>(base: Parts<'a>, path: &'a [u8], query: Option<&'a [u8]>) -> Value<'a>
    requires some { is_empty path.now ≡ false }
    requires relative { is_absolute path.now ≡ false }
    ensures value { value_octets result ≡ put_together (octets_of base.entry.scheme) (octets_of base.entry.authority)
        (clean (relative_path (parts_of base.entry) path.now)) (octets_of query.entry) }
    ensures weight { value_weight result ≤ parts_weight (parts_of base.entry) + length path.now + length
        (query_octets (octets_of query.entry)) }
{
    let (absolute, first) = directory_of(base);
    below_directory(base, absolute, first, path, query)
}

/// The first of two queries that is there.
fn first_some<'a>(query: Option<&'a [u8]>, other: Option<&'a [u8]>) -> Option<&'a [u8]>
    ensures { octets_of result ≡ first_some (octets_of query.entry) (octets_of other.entry) }
{
    match query {
        Some(query) => Some(query),
        None => other,
    }
}

/// The value of a path and query below a base.
fn below<'a>(base: Parts<'a>, own: Parts<'a>) -> Value<'a>
    ensures value { value_octets result ≡ put_together (octets_of base.entry.scheme) (octets_of base.entry.authority)
        (clean (joined_path (parts_of base.entry) (parts_of own.entry))) (joined_query (parts_of base.entry) (parts_of own.entry)) }
    ensures weight { value_weight result ≤ parts_weight (parts_of base.entry) + parts_weight (parts_of own.entry) }
{
    if is_empty(own.path) {
        whole(
            base.scheme,
            base.authority,
            base.path,
            first_some(own.query, base.query),
        )
    } else if is_absolute(own.path) {
        whole(base.scheme, base.authority, own.path, own.query)
    } else {
        relative(base, own.path, own.query)
    }
}

/// The value of parts below the parts of a base.
fn join_parts<'a>(base: Parts<'a>, own: Parts<'a>) -> Value<'a>
    ensures value { value_octets result ≡ cleaned_value (below (parts_of base.entry) (parts_of own.entry)) }
    ensures weight { value_weight result ≤ parts_weight (parts_of base.entry) + parts_weight (parts_of own.entry) }
{
    if own.scheme.is_some() {
        whole(own.scheme, own.authority, own.path, own.query)
    } else if own.authority.is_some() {
        whole(base.scheme, own.authority, own.path, own.query)
    } else {
        below(base, own)
    }
}

/// The value that `own` gives below `base`.
fn join_values<'a>(base: &'a [u8], own: &'a [u8]) -> Value<'a>
    ensures value { value_octets result ≡ join base.now own.now }
    ensures weight { value_weight result ≤ length base.now + length own.now }
{
    join_parts(cut(base), cut(own))
}

/// Writes the value that `own` gives below `base`. `Refused` comes where the sink refused a piece, and leaves a prefix of the
/// octets in it. It takes no memory.
pub fn join_base<S: OctetSink>(base: &str, own: &str, sink: &mut S) -> Put
    ensures { Puts S.stands_for S.refusals S.makes sink.old sink.new (join base.now own.now) result }
{
    let value = join_values(base.as_bytes(), own.as_bytes());
    put_value(value, sink)
}

/// Puts the value that `own` gives below `base` in a buffer, which has room for both and four octets more. The work is linear.
pub(crate) fn join_into(base: &[u8], own: &[u8], into: &mut Vec<u8>)
    requires room { length base.now + length own.now + 4 ≤ vec_capacity into.old }
    ensures items { into.new.items ≡ join base.now own.now }
    ensures capacity { vec_capacity into.old ≤ vec_capacity into.new }
{
    let value = join_values(base, own);
    fill_value(value, into);
}
