//! A value whose path is not cleaned yet, and writing it out.
ghost use Rattle.std.specs.Prelude.{◌≡◌, ◌++◌};
ghost use Rattle.sig_base.specs.Puts.{Puts};
ghost use Rattle.c14n_bases.specs.Join.{scheme_octets, authority_octets, query_octets};
ghost use Rattle.c14n_bases.specs.Code.Slices.{octets_of, value_octets};

use crate::clean::put_cleaned;
use sig_base::{OctetSink, Put, put_pieces};

/// A value in its parts. Its path has the segments of two texts, and begins with `/` where it is absolute.
#[derive(Clone, Copy)]
pub(crate) struct Value<'a> {
    pub scheme: Option<&'a [u8]>,
    pub authority: Option<&'a [u8]>,
    pub absolute: bool,
    pub first: &'a [u8],
    pub second: &'a [u8],
    pub query: Option<&'a [u8]>,
}

/// Writes what stands before the path.
fn put_front<S: OctetSink>(scheme: Option<&[u8]>, authority: Option<&[u8]>, sink: &mut S) -> Put
    ensures { Puts S.stands_for S.refusals S.makes sink.old sink.new
        (scheme_octets (octets_of scheme.entry) ++ authority_octets (octets_of authority.entry)) result }
{
    match (scheme, authority) {
        (Some(scheme), Some(authority)) => put_pieces(&[scheme, b"://", authority], sink),
        (Some(scheme), None) => put_pieces(&[scheme, b":"], sink),
        (None, Some(authority)) => put_pieces(&[b"//", authority], sink),
        (None, None) => Put::Done,
    }
}

/// Writes a query.
fn put_query<S: OctetSink>(query: Option<&[u8]>, sink: &mut S) -> Put
    ensures { Puts S.stands_for S.refusals S.makes sink.old sink.new (query_octets (octets_of query.entry)) result }
{
    match query {
        Some(query) => put_pieces(&[b"?", query], sink),
        None => Put::Done,
    }
}

/// Writes a value, and takes no memory for it.
pub(crate) fn put_value<S: OctetSink>(value: Value<'_>, sink: &mut S) -> Put
    ensures { Puts S.stands_for S.refusals S.makes sink.old sink.new (value_octets value.entry) result }
{
    if let Put::Refused = put_front(value.scheme, value.authority, sink) {
        return Put::Refused;
    }
    if let Put::Refused = put_cleaned(value.absolute, value.first, value.second, sink) {
        return Put::Refused;
    }
    put_query(value.query, sink)
}
