//! The text of a report.
ghost use Rattle.std.specs.Prelude.{◌≡◌, ◌++◌, ◌+◌, OnOk, IfOk, codes, decimal, string_bytes};
ghost use Rattle.std.specs.List.{flat_map};
ghost use Rattle.xmldsig.specs.Texts.{number_word, reference_line, reference_lines, report_text, validated_text};

use crate::ending::Validated;
use crate::manifest_text::push_lines;
use core_validate::Report;
use sig_base::{NoMemory, Numbers, Octets, Views};
use std::alloc::Global;

/// The line of the view of reference number i.
fn reference_line(alloc: Global, i: u64, octets: u64) -> Result<String, NoMemory>
    ensures { IfOk result (λ line. string_bytes line ≡ reference_line i octets) }
{
    Ok(format!(in alloc; "reference {} octets {}\n", i, octets)?)
}

/// A number behind a space.
fn number_word(alloc: Global, i: u64) -> Result<String, NoMemory>
    ensures { IfOk result (λ word. string_bytes word ≡ number_word i) }
{
    Ok(format!(in alloc; " {}", i)?)
}

/// Writes a line for each view.
fn push_references(alloc: Global, lengths: &Numbers, text: &mut String) -> Result<(), NoMemory>
    ensures { OnOk result (string_bytes text.new ≡ string_bytes text.old ++ reference_lines 1 lengths.now) }
{
    for (place, octets) in lengths.as_slice().iter().enumerate() {
        text.push_str(&reference_line(alloc, place as u64 + 1, *octets)?)?;
    }
    Ok(())
}

/// Writes a word for each number.
fn push_numbers(alloc: Global, numbers: &Numbers, text: &mut String) -> Result<(), NoMemory>
    ensures { OnOk result (string_bytes text.new ≡ string_bytes text.old ++ flat_map number_word numbers.now) }
{
    for number in numbers.as_slice() {
        text.push_str(&number_word(alloc, *number)?)?;
    }
    Ok(())
}

/// The text of views.
fn valid_text(alloc: Global, views: &Views) -> Result<String, NoMemory>
    ensures { IfOk result (λ text. string_bytes text ≡ codes "valid\n" ++ reference_lines 1 views.now.lengths) }
{
    let mut text = String::from_str(alloc, "valid\n")?;
    push_references(alloc, &views.lengths, &mut text)?;
    Ok(text)
}

/// The text of digests that differ.
fn digests_text(alloc: Global, numbers: &Numbers) -> Result<String, NoMemory>
    ensures { IfOk result (λ text. string_bytes text ≡ codes "invalid digests" ++ flat_map number_word numbers.now ++ codes "\n") }
{
    let mut text = String::from_str(alloc, "invalid digests")?;
    push_numbers(alloc, numbers, &mut text)?;
    text.push_str("\n")?;
    Ok(text)
}

/// The text of an HMAC that is cut to too few bits.
fn truncation_text(alloc: Global, bits: u32) -> Result<String, NoMemory>
    ensures { IfOk result (λ text. string_bytes text ≡ codes "invalid truncation " ++ decimal bits ++ codes "\n") }
{
    Ok(format!(in alloc; "invalid truncation {}\n", bits)?)
}

/// The text of a report.
fn report_text(alloc: Global, report: &Report) -> Result<String, NoMemory>
    ensures { IfOk result (λ text. string_bytes text ≡ report_text report.now) }
{
    match report {
        Report::Valid(views) => valid_text(alloc, views),
        Report::SignatureDiffers => Ok(String::from_str(alloc, "invalid signature\n")?),
        Report::ShortTruncation(bits) => truncation_text(alloc, *bits),
        Report::DigestsDiffer(numbers) => digests_text(alloc, numbers),
    }
}

/// The text of a report with the lines of Manifests behind it, as it is printed on standard output.
pub(crate) fn text_of(alloc: Global, told: &Validated) -> Result<Octets, NoMemory>
    ensures { IfOk result (λ text. text ≡ validated_text told.now) }
{
    let mut text = report_text(alloc, &told.report)?;
    push_lines(alloc, &told.lines, &mut text)?;
    Ok(Octets::from_vec(text.into_bytes()))
}
