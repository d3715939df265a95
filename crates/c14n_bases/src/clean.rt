//! A path without `.`, `..` and empty segments (RFC 3986 §5.2.4).
//!
//! No memory is taken: a segment is kept where no `..` behind it takes it away, so what is behind is looked at anew for each.
ghost use Rattle.std.specs.Prelude.{◌≡◌, ℕ, suc, ◌≤◌, ◌<◌, ◌+◌, ◌-◌, ◌*◌, ◌^◌, ◌||◌, ◌&&◌, ◌++◌, ◌∷◌, [], false, cond, length, codes, MatchOption, replicate};
ghost use Rattle.sig_base.specs.Puts.{Puts};
ghost use Rattle.sig_base.specs.declared.sink.Put.TheVariants.{Done};
ghost use Rattle.std.specs.List.{list_any};
ghost use Rattle.c14n_bases.specs.Join.{is_slash, segments, is_same, is_up, last_segment, directory, is_open, is_absolute, is_dots, cleaned};
ghost use Rattle.c14n_bases.specs.Code.Slices.{octets_of, segments_left, most_left};
ghost use Rattle.c14n_bases.specs.Code.Surplus.{surplus, is_name_kept, names_kept, is_any, led};

use crate::cut::first_of;
use sig_base::{OctetSink, Put, put_pieces};

/// The first segment, and what stands behind the `/` after it.
pub(crate) fn cut_segment(path: &[u8]) -> (&[u8], Option<&[u8]>)
    ensures segments { segments path.now ≡ result.0.now ∷ segments_left (octets_of result.1) }
    ensures shorter { most_left (octets_of result.1) + length result.0.now ≤ length path.now }
    ensures plain { list_any is_slash result.0.now ≡ false }
{
    let at = first_of(b"/", path);
    if at == path.len() {
        (path, None)
    } else {
        (&path[..at], Some(&path[at + 1..]))
    }
}

/// Whether a segment leads nowhere.
pub(crate) fn is_same(segment: &[u8]) -> bool
    ensures { result ≡ is_same segment.now }
{
    segment.is_empty() || segment == b".".as_slice()
}

/// Whether a segment leads upwards.
pub(crate) fn is_up(segment: &[u8]) -> bool
    ensures { result ≡ is_up segment.now }
{
    segment == b"..".as_slice()
}

/// What stands behind the first `/`.
fn behind_slash(path: &[u8]) -> Option<&[u8]>
    ensures { MatchOption result (last_segment path.now ≡ path.now)
        (λ behind. (last_segment path.now ≡ last_segment behind.now) × (length behind.now < length path.now)) }
{
    let at = first_of(b"/", path);
    if at == path.len() {
        None
    } else {
        Some(&path[at + 1..])
    }
}

/// What stands behind the last `/`, or the whole.
pub(crate) fn last_segment(path: &[u8]) -> &[u8]
    ensures { result.now ≡ last_segment path.now }
{
    let mut rest = path;
    while let Some(behind) = behind_slash(rest) {
        rest = behind;
    }
    rest
}

/// What stands up to and with the last `/`.
pub(crate) fn directory(path: &[u8]) -> &[u8]
    ensures { result.now ≡ directory path.now }
{
    &path[..path.len() - last_segment(path).len()]
}

/// Whether the last segment is `.` or `..`.
pub(crate) fn is_dotted(path: &[u8]) -> bool
    ensures { result ≡ is_dots (last_segment path.now) }
{
    let last = last_segment(path);
    last == b".".as_slice() || last == b"..".as_slice()
}

/// Whether the path begins with `/`.
pub(crate) fn is_absolute(path: &[u8]) -> bool
    ensures { result ≡ is_absolute path.now }
{
    path.starts_with(b"/")
}

/// Whether the path ends with `/`, or its last segment is `.` or `..`.
fn is_open(path: &[u8]) -> bool
    ensures { result ≡ is_open path.now }
{
    let last = last_segment(path);
    is_same(last) || is_up(last)
}

/// The `..` that nothing met so far, and the segments that may meet one, after one segment more.
fn counted(upwards: u64, waiting: u64, segment: &[u8]) -> (u64, u64)
    requires few { upwards + waiting < 2 ^ 63 }
    ensures exact { (s : ℕ) → result.0 + (s - result.1)
        ≡ upwards + (cond (is_same segment.now) s (cond (is_up segment.now) (suc s) (s - 1)) - waiting) }
    ensures bounded { (result.0 + result.1) * 2 ≤ (upwards + waiting) * 2 + length segment.now + 1 }
{
    if is_same(segment) {
        (upwards, waiting)
    } else if !is_up(segment) {
        (upwards, waiting + 1)
    } else if waiting == 0 {
        (upwards + 1, 0)
    } else {
        (upwards, waiting - 1)
    }
}

/// How many `..` of what is left no segment before them meets, where so many come behind.
fn surplus(left: Option<&[u8]>, behind: u64) -> u64
    requires few { behind < 2 ^ 63 }
    ensures value { result ≡ surplus behind (segments_left (octets_of left.entry)) }
    ensures bounded { result * 2 ≤ behind * 2 + most_left (octets_of left.entry) }
{
    let mut upwards = 0;
    let mut waiting = 0;
    let mut next = left;
    while let Some(path) = next {
        let (segment, more) = cut_segment(path);
        (upwards, waiting) = counted(upwards, waiting, segment);
        next = more;
    }
    upwards + behind.saturating_sub(waiting)
}

/// Whether a segment is kept before what is left, but where it is `..`.
fn is_name_kept(segment: &[u8], left: Option<&[u8]>, behind: u64) -> bool
    requires few { behind < 2 ^ 63 }
    ensures { result ≡ is_name_kept behind segment.now (segments_left (octets_of left.entry)) }
{
    !is_same(segment) && !is_up(segment) && surplus(left, behind) == 0
}

/// Writes a segment, with `/` before it where it isn't the first.
fn put_segment<S: OctetSink>(begun: bool, segment: &[u8], sink: &mut S) -> Put
    ensures { Puts S.stands_for S.refusals S.makes sink.old sink.new (led begun (segment.now ∷ [])) result }
{
    if begun {
        put_pieces(&[b"/".as_slice(), segment], sink)
    } else {
        put_pieces(&[segment], sink)
    }
}

/// The same where the segment is kept, and nothing else. `begun` is then true.
fn put_kept<S: OctetSink>(kept: bool, segment: &[u8], begun: &mut bool, sink: &mut S) -> Put
    ensures written { Puts S.stands_for S.refusals S.makes sink.old sink.new (led begun.old (cond kept (segment.now ∷ []) [])) result }
    ensures begun { begun.new ≡ (begun.old || kept) }
{
    if !kept {
        return Put::Done;
    }
    let had_begun = *begun;
    *begun = true;
    put_segment(had_begun, segment, sink)
}

/// Writes the segments of a path that are kept, where so many `..` come behind it that no segment of it has met.
fn put_names<S: OctetSink>(path: &[u8], behind: u64, begun: &mut bool, sink: &mut S) -> Put
    requires few { behind < 2 ^ 63 }
    ensures written { Puts S.stands_for S.refusals S.makes sink.old sink.new (led begun.old (names_kept behind (segments path.now)))
        result }
    ensures begun { result ≡ Done → begun.new ≡ (begun.old || is_any (names_kept behind (segments path.now))) }
{
    let mut next = Some(path);
    while let Some(rest) = next {
        let (segment, more) = cut_segment(rest);
        let kept = is_name_kept(segment, more, behind);
        if let Put::Refused = put_kept(kept, segment, begun, sink) {
            return Put::Refused;
        }
        next = more;
    }
    Put::Done
}

/// Writes this many `..`.
fn put_upwards<S: OctetSink>(count: u64, sink: &mut S) -> Put
    ensures { Puts S.stands_for S.refusals S.makes sink.old sink.new (led false (replicate count (codes ".."))) result }
{
    for up in 0..count {
        if let Put::Refused = put_segment(up != 0, b"..", sink) {
            return Put::Refused;
        }
    }
    Put::Done
}

/// How many `..` a path begins with that is cleaned: none where it begins with `/`.
fn upwards_first(absolute: bool, path: &[u8], behind: u64) -> u64
    requires few { behind < 2 ^ 63 }
    ensures { result ≡ cond absolute 0 (surplus behind (segments path.now)) }
{
    if absolute {
        0
    } else {
        surplus(Some(path), behind)
    }
}

/// Writes `/` where asked for.
fn put_slash_if<S: OctetSink>(wanted: bool, sink: &mut S) -> Put
    ensures { Puts S.stands_for S.refusals S.makes sink.old sink.new (cond wanted (codes "/") []) result }
{
    if wanted {
        put_pieces(&[b"/".as_slice()], sink)
    } else {
        Put::Done
    }
}

/// Whether `/` closes a path, where it has a segment or not.
pub(crate) fn closes(begun: bool, path: &[u8]) -> bool
    ensures { result ≡ (begun && is_open path.now) }
{
    begun && is_open(path)
}

/// Writes the cleaned path of the segments of two texts, one after the other.
pub(crate) fn put_cleaned<S: OctetSink>(
    absolute: bool,
    first: &[u8],
    second: &[u8],
    sink: &mut S,
) -> Put
    ensures { Puts S.stands_for S.refusals S.makes sink.old sink.new
        (cleaned absolute (is_open second.now) (segments first.now ++ segments second.now)) result }
{
    let behind = surplus(Some(second), 0);
    let upwards = upwards_first(absolute, first, behind);
    let mut begun = upwards != 0;
    if let Put::Refused = put_slash_if(absolute, sink) {
        return Put::Refused;
    }
    if let Put::Refused = put_upwards(upwards, sink) {
        return Put::Refused;
    }
    if let Put::Refused = put_names(first, behind, &mut begun, sink) {
        return Put::Refused;
    }
    if let Put::Refused = put_names(second, 0, &mut begun, sink) {
        return Put::Refused;
    }
    let closing = closes(begun, second);
    put_slash_if(closing, sink)
}
