//! Writing a value into a buffer. A `..` cuts the buffer back to its last `/`, so that the work is linear.
ghost use Rattle.std.specs.Prelude.{◌≡◌, ℕ, ◌≤◌, ◌<◌, ◌+◌, ◌-◌, ◌^◌, ◌++◌, List, [], false, cond, nat_lt, length, codes, take, drop, vec_capacity};
ghost use Rattle.std.specs.List.{list_any};
ghost use Rattle.c14n_bases.specs.Join.{scheme_octets, authority_octets, query_octets, segments, directory, is_slash, is_open, add, added, cleaned};
ghost use Rattle.c14n_bases.specs.Code.Slices.{octets_of, value_octets, value_weight};
ghost use Rattle.c14n_bases.specs.Code.Kept.{KeptIn};

use crate::clean::{closes, cut_segment, is_same, is_up};
use crate::value::Value;

/// Puts octets in the buffer, which has room for them.
pub(crate) fn push_all(into: &mut Vec<u8>, octets: &[u8])
    requires { length into.old.items + length octets.now ≤ vec_capacity into.old }
    ensures items { into.new.items ≡ into.old.items ++ octets.now }
    ensures capacity { vec_capacity into.old ≤ vec_capacity into.new }
{
    into.extend_from_slice(octets).unwrap();
}

/// Puts the scheme of a value in the buffer.
pub(crate) fn push_scheme(into: &mut Vec<u8>, scheme: Option<&[u8]>)
    requires { length into.old.items + length (scheme_octets (octets_of scheme)) ≤ vec_capacity into.old }
    ensures items { into.new.items ≡ into.old.items ++ scheme_octets (octets_of scheme.entry) }
    ensures capacity { vec_capacity into.old ≤ vec_capacity into.new }
{
    if let Some(scheme) = scheme {
        push_all(into, scheme);
        push_all(into, b":");
    }
}

/// Puts the authority of a value in the buffer.
pub(crate) fn push_authority(into: &mut Vec<u8>, authority: Option<&[u8]>)
    requires { length into.old.items + length (authority_octets (octets_of authority)) ≤ vec_capacity into.old }
    ensures items { into.new.items ≡ into.old.items ++ authority_octets (octets_of authority.entry) }
    ensures capacity { vec_capacity into.old ≤ vec_capacity into.new }
{
    if let Some(authority) = authority {
        push_all(into, b"//");
        push_all(into, authority);
    }
}

/// Puts the query of a value in the buffer.
pub(crate) fn push_query(into: &mut Vec<u8>, query: Option<&[u8]>)
    requires { length into.old.items + length (query_octets (octets_of query)) ≤ vec_capacity into.old }
    ensures items { into.new.items ≡ into.old.items ++ query_octets (octets_of query.entry) }
    ensures capacity { vec_capacity into.old ≤ vec_capacity into.new }
{
    if let Some(query) = query {
        push_all(into, b"?");
        push_all(into, query);
    }
}

/// Puts `/` in the buffer where asked for.
pub(crate) fn push_slash_if(into: &mut Vec<u8>, wanted: bool)
    requires { length into.old.items + 1 ≤ vec_capacity into.old }
    ensures items { into.new.items ≡ into.old.items ++ cond wanted (codes "/") [] }
    ensures capacity { vec_capacity into.old ≤ vec_capacity into.new }
{
    if wanted {
        push_all(into, b"/");
    }
}

/// Where the last `/` stands, or 0.
fn last_slash(text: &[u8]) -> usize
    ensures value { result ≡ length (directory text.now) - 1 }
    ensures within { result ≤ length text.now }
{
    let mut i = text.len();
    while i > 0 {
        i -= 1;
        if text[i] == b'/' {
            return i;
        }
    }
    0
}

/// Puts a segment in the buffer, and `/` before it where it isn't the first behind `floor`.
fn push_segment(into: &mut Vec<u8>, floor: usize, segment: &[u8])
    requires { length into.old.items + length segment.now + 1 ≤ vec_capacity into.old }
    ensures items { into.new.items ≡ into.old.items ++ cond (nat_lt floor (length into.old.items)) (codes "/") [] ++ segment.now }
    ensures capacity { vec_capacity into.old ≤ vec_capacity into.new }
{
    let begun = floor < into.len();
    push_slash_if(into, begun);
    push_all(into, segment);
}

/// Takes the last segment behind `floor` from the buffer, and the `/` before it.
pub(crate) fn cut_back(into: &mut Vec<u8>, floor: usize)
    requires { floor ≤ length into.old.items }
    ensures items { into.new.items ≡ take (floor + (length (directory (drop floor into.old.items)) - 1)) into.old.items }
    ensures capacity { vec_capacity into.new ≡ vec_capacity into.old }
{
    let kept = floor + last_slash(&into[floor..]);
    into.truncate(kept);
}

/// Adds a segment to those behind `floor`, of which the last `names` are names.
fn add_segment(into: &mut Vec<u8>, floor: usize, absolute: bool, names: &mut u64, segment: &[u8])
    requires room { length into.old.items + length segment.now + 1 ≤ vec_capacity into.old }
    requires within { floor ≤ length into.old.items }
    requires few { names.old + 1 < 2 ^ 64 }
    requires plain { list_any is_slash segment.now ≡ false }
    ensures kept { (front : List ℕ) (kept : List (List ℕ)) → floor ≡ length front → KeptIn absolute front kept into.old.items names.old
        → KeptIn absolute front (add absolute kept segment.now) into.new.items names.new }
    ensures within { floor ≤ length into.new.items }
    ensures longer { length into.new.items ≤ length into.old.items + length segment.now + 1 }
    ensures few { names.new ≤ names.old + 1 }
    ensures capacity { vec_capacity into.old ≤ vec_capacity into.new }
{
    if is_same(segment) {
        return;
    }
    if !is_up(segment) {
        push_segment(into, floor, segment);
        *names += 1;
    } else if *names > 0 {
        cut_back(into, floor);
        *names -= 1;
    } else if !absolute {
        push_segment(into, floor, segment);
    }
}

/// Adds the segments of a path.
pub(crate) fn add_segments(
    into: &mut Vec<u8>,
    floor: usize,
    absolute: bool,
    names: &mut u64,
    path: &[u8],
)
    requires room { length into.old.items + length path.now + 1 ≤ vec_capacity into.old }
    requires within { floor ≤ length into.old.items }
    requires few { names.old + length path.now + 1 < 2 ^ 64 }
    ensures kept { (front : List ℕ) (kept : List (List ℕ)) → floor ≡ length front → KeptIn absolute front kept into.old.items names.old
        → KeptIn absolute front (added absolute kept (segments path.now)) into.new.items names.new }
    ensures within { floor ≤ length into.new.items }
    ensures longer { length into.new.items ≤ length into.old.items + length path.now + 1 }
    ensures few { names.new ≤ names.old + length path.now + 1 }
    ensures capacity { vec_capacity into.old ≤ vec_capacity into.new }
{
    let mut next = Some(path);
    while let Some(rest) = next {
        let (segment, more) = cut_segment(rest);
        add_segment(into, floor, absolute, names, segment);
        next = more;
    }
}

/// Puts the cleaned path of the segments of two texts in the buffer.
pub(crate) fn push_path(into: &mut Vec<u8>, absolute: bool, first: &[u8], second: &[u8])
    requires { length into.old.items + (length first.now + length second.now) + 4 ≤ vec_capacity into.old }
    ensures items { into.new.items ≡ into.old.items ++ cleaned absolute (is_open second.now) (segments first.now ++ segments second.now) }
    ensures longer { length into.new.items ≤ length into.old.items + (length first.now + length second.now) + 4 }
    ensures capacity { vec_capacity into.old ≤ vec_capacity into.new }
{
    push_slash_if(into, absolute);
    let floor = into.len();
    let mut names = 0;
    add_segments(into, floor, absolute, &mut names, first);
    add_segments(into, floor, absolute, &mut names, second);
    let begun = floor < into.len();
    let closing = closes(begun, second);
    push_slash_if(into, closing);
}

/// Puts a value in the buffer, which has room for it.
pub(crate) fn fill_value(value: Value<'_>, into: &mut Vec<u8>)
    requires { value_weight value + 4 ≤ vec_capacity into.old }
    ensures items { into.new.items ≡ value_octets value.entry }
    ensures capacity { vec_capacity into.old ≤ vec_capacity into.new }
{
    into.clear();
    push_scheme(into, value.scheme);
    push_authority(into, value.authority);
    push_path(into, value.absolute, value.first, value.second);
    push_query(into, value.query);
}
