//! The name of a file in a URL's path.

ghost use Rattle.std.specs.Prelude.{◌≡◌, ◌++◌, ◌<◌, ◌∷◌, true, false, IfOk, IfSome, MatchOption, length, string_bytes};
ghost use Rattle.std.specs.List.{list_all};
ghost use Rattle.std.specs.Option.{option_copied};
ghost use Rattle.percent_encoding.specs.Percent.{percent_decode};
ghost use Rattle.uri_refs.specs.Cuts.{segments};
ghost use Rattle.uri_refs.specs.Code.Cuts.{segments_behind};
ghost use Rattle.uri_refs.specs.Names as spec;
ghost use Rattle.uri_refs.specs.Answers.{Gives};
ghost use Rattle.uri_refs.specs.Code.Answers.{Adds};

use crate::refusal::UriRefusal;
use percent_encoding::percent_decode;
use sig_base::{NoMemory, place_of};
use std::alloc::Global;

/// Whether an octet may stand in a part of a name.
fn is_name_octet(octet: u8) -> bool
    ensures { result ≡ spec.is_name_octet octet }
{
    octet != b'/' && octet != b'\\' && octet != 0
}

fn are_name_octets(part: &[u8]) -> bool
    ensures { result ≡ list_all spec.is_name_octet part.now }
{
    part.iter().all(|octet| is_name_octet(*octet))
}

/// Whether a text may be part of a name.
fn is_plain_part(part: &[u8]) -> bool
    ensures { result ≡ spec.is_plain_part part.now }
{
    !part.is_empty() && part != b".".as_slice() && part != b"..".as_slice() && are_name_octets(part)
}

/// A decoded segment as text, if it may be part of a name.
fn name_part(part: &[u8]) -> Option<&str>
    ensures { MatchOption result (spec.is_name_part part.now ≡ false)
        (λ text. (text.now ≡ part.now) × (spec.is_name_part part.now ≡ true)) }
{
    let Ok(text) = str::from_utf8(part) else {
        return None;
    };
    if is_plain_part(part) {
        Some(text)
    } else {
        None
    }
}

fn decoded(alloc: Global, segment: &[u8]) -> Result<Vec<u8>, NoMemory>
    ensures { IfOk result (λ octets. octets.items ≡ percent_decode segment.now) }
{
    let mut octets = Vec::new(alloc);
    percent_decode(segment).append_to(&mut octets)?;
    Ok(octets)
}

/// Adds to a name the part that a segment spells.
fn add_part(alloc: Global, segment: &[u8], name: &mut String) -> Result<(), UriRefusal>
    ensures { Adds result (string_bytes name.old) (string_bytes name.new) (spec.part_of segment.now) }
{
    let octets = decoded(alloc, segment)?;
    match name_part(&octets) {
        Some(part) => match name.push_str(part) {
            Ok(()) => Ok(()),
            Err(_) => Err(UriRefusal::Memory),
        },
        None => Err(UriRefusal::BadSegment),
    }
}

/// The first segment of a path, and what follows its slash, where one does.
fn first_segment(path: &[u8]) -> (&[u8], Option<&[u8]>)
    ensures segments { segments path.now ≡ result.0.now ∷ segments_behind (option_copied result.1) }
    ensures shorter { IfSome result.1 (λ rest. length rest.now < length path.now) }
{
    let end = place_of(path, b'/');
    if end == path.len() {
        (path, None)
    } else {
        (&path[..end], Some(&path[end + 1..]))
    }
}

/// The name that a path spells.
pub(crate) fn name_of(alloc: Global, path: &[u8]) -> Result<String, UriRefusal>
    ensures { Gives string_bytes result (spec.name_of path.now) }
{
    let mut name = String::new(alloc);
    let mut rest = path;
    loop {
        let (segment, behind) = first_segment(rest);
        add_part(alloc, segment, &mut name)?;
        match behind {
            Some(path) => {
                match name.push_str("/") {
                    Ok(()) => {}
                    Err(_) => return Err(UriRefusal::Memory),
                }
                rest = path;
            }
            None => return Ok(name),
        }
    }
}
