//! The lines of Manifests.
ghost use Rattle.std.specs.Prelude.{◌≡◌, ◌++◌, IfOk, OnOk, codes, string_bytes};
ghost use Rattle.std.specs.List.{flat_map};
ghost use Rattle.xmldsig.specs.Texts.{entry_words, field_words, manifest_line, manifest_words, reference_words};

use crate::refusals::{bare, field_words, reference_words};
use core_validate::RefRefusal;
use dsig_fields::FieldRefusal;
use manifests::{ManifestKind, ManifestLine, ManifestLines};
use sig_base::NoMemory;
use std::alloc::Global;

/// The number of an entry, and what is told of it.
fn entry_words(alloc: Global, entry: u32, words: &str) -> Result<String, NoMemory>
    ensures { IfOk result (λ all. string_bytes all ≡ entry_words entry words.now) }
{
    Ok(format!(in alloc; " entry {}{}", entry, words)?)
}

/// The number of an entry that has no view, and why.
fn refused_words(alloc: Global, entry: u32, cause: RefRefusal) -> Result<String, NoMemory>
    ensures { IfOk result (λ all. string_bytes all ≡ entry_words entry (codes " refused" ++ reference_words cause)) }
{
    let words = reference_words(alloc, cause)?;
    Ok(format!(in alloc; " entry {} refused{}", entry, words)?)
}

/// Why the entries of a Manifest can't be read.
fn unread_words(alloc: Global, cause: FieldRefusal) -> Result<String, NoMemory>
    ensures { IfOk result (λ all. string_bytes all ≡ codes " fields" ++ field_words cause) }
{
    let words = field_words(alloc, cause)?;
    Ok(format!(in alloc; " fields{}", words)?)
}

/// What a line tells behind the number of the Reference.
fn manifest_words(alloc: Global, entry: u32, kind: ManifestKind) -> Result<String, NoMemory>
    ensures { IfOk result (λ words. string_bytes words ≡ manifest_words entry kind) }
{
    match kind {
        ManifestKind::Same => entry_words(alloc, entry, " same"),
        ManifestKind::Differs => entry_words(alloc, entry, " differs"),
        ManifestKind::Refused(cause) => refused_words(alloc, entry, cause),
        ManifestKind::ManifestTransforms => bare(alloc, " transforms"),
        ManifestKind::NotManifest => bare(alloc, " not-manifest"),
        ManifestKind::Fields(cause) => unread_words(alloc, cause),
        ManifestKind::TooMany => bare(alloc, " too-many"),
    }
}

/// A line.
fn manifest_line(alloc: Global, line: &ManifestLine) -> Result<String, NoMemory>
    ensures { IfOk result (λ text. string_bytes text ≡ manifest_line line.now) }
{
    let words = manifest_words(alloc, line.entry, line.kind)?;
    Ok(format!(in alloc; "manifest {}{}\n", line.reference, words)?)
}

/// Writes the lines.
pub(crate) fn push_lines(
    alloc: Global,
    lines: &ManifestLines,
    text: &mut String,
) -> Result<(), NoMemory>
    ensures { OnOk result (string_bytes text.new ≡ string_bytes text.old ++ flat_map manifest_line lines.now) }
{
    let _count = lines.len();
    let mut k = 0;
    while let Some(line) = lines.get(k) {
        text.push_str(&manifest_line(alloc, line)?)?;
        k += 1;
    }
    Ok(())
}
