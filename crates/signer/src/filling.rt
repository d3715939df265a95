//! Digests and the signature value are filled into the octets of a template.

ghost use Rattle.std.specs.Prelude.{◌≡◌, ◌<◌, ℕ, List, [], ◌∷◌, ◌++◌, drop, true, length, map, IfOk, OnOk, MatchOption};
ghost use Rattle.std.specs.Borrow.{Bor};
ghost use Rattle.std.specs.List.{flat_map};
ghost use Rattle.xml_doc.specs.Rows.{row_of};
ghost use Rattle.xml_doc.specs.Shape.{row_at};
ghost use Rattle.xml_spans.specs.Spans as spans;
ghost use Rattle.row_spans.specs.RowSpans.{InOrder, written_name};
ghost use Rattle.row_spans.specs.Code.RowSpans.{span_of};
ghost use Rattle.row_spans.specs.Seen.{seen_span};
ghost use Rattle.row_fills.specs.Fillings.{filling, spans_of};
ghost use Rattle.dsig_base64.specs.Loose.{base64_of};
ghost use Rattle.dsig_fields.specs.Fits.{FieldsFit};
ghost use Rattle.signer.specs.Code.Filling as code;
ghost use Rattle.signer.specs.Signed.{digest_fillings, signed};

use digests_hmac::digest;
use dsig_base64::encode_into;
use dsig_fields::{Fields, Reference, ReferenceList};
use row_spans::{Span, write_spans};
use sig_base::{Octets, OctetsList};
use std::alloc::{AllocError, Global};
use xml_doc::{Doc, Row};

/// The pieces, one behind the other.
pub(crate) fn joined(alloc: Global, pieces: &[&[u8]]) -> Result<Vec<u8>, AllocError>
    ensures { IfOk result (λ octets. octets.items ≡ flat_map (λ (piece : Bor (List ℕ)). piece.now) pieces.now) }
{
    let mut octets = Vec::new(alloc);
    for piece in pieces {
        octets.extend_from_slice(piece)?;
    }
    Ok(octets)
}

/// The base64 of some octets.
fn base64_text(alloc: Global, octets: &[u8]) -> Result<Vec<u8>, AllocError>
    ensures { IfOk result (λ text. text.items ≡ base64_of octets.now) }
{
    let mut text = vec![in alloc; 0u8; 4 * ((octets.len() + 2) / 3)]?;
    encode_into(octets, &mut text);
    Ok(text)
}

/// The name of an element as it is written.
fn name_of(alloc: Global, row: &Row<'_>) -> Result<Vec<u8>, AllocError>
    ensures { IfOk result (λ name. name.items ≡ written_name (row_of row.now)) }
{
    if row.prefix_text.is_empty() {
        return joined(alloc, &[row.local_name.as_bytes()]);
    }
    joined(
        alloc,
        &[
            row.prefix_text.as_bytes(),
            b":".as_slice(),
            row.local_name.as_bytes(),
        ],
    )
}

/// A text behind the `>` of a start tag, and its end tag.
fn opened(alloc: Global, row: &Row<'_>, text: &[u8]) -> Result<Vec<u8>, AllocError>
    ensures { IfOk result (λ octets. octets.items ≡ spans.content_with true (written_name (row_of row.now)) text.now) }
{
    let name = name_of(alloc, row)?;
    joined(
        alloc,
        &[
            b">".as_slice(),
            text,
            b"</".as_slice(),
            name.as_slice(),
            b">".as_slice(),
        ],
    )
}

/// The span of an element's content, and a text there.
pub(crate) fn content_span(alloc: Global, row: &Row<'_>, text: Vec<u8>) -> Result<Span, AllocError>
    ensures { IfOk result (λ span. seen_span span ≡ span_of (row_of row.now) text.items) }
{
    let from = row.body_from as usize;
    let until = row.body_until as usize;
    if row.empty_tag {
        let new = opened(alloc, row, &text)?;
        return Ok(Span { from, until, new });
    }
    Ok(Span {
        from,
        until,
        new: text,
    })
}

/// Adds the span of an element, and the base64 of some octets there.
fn add_span(
    alloc: Global,
    doc: &Doc<'_>,
    row: u32,
    octets: &[u8],
    spans: &mut Vec<Span>,
) -> Result<(), AllocError>
    requires { row < length doc.now }
    ensures { OnOk result (map seen_span spans.new.items ≡ map seen_span spans.old.items ++ span_of (row_at doc.now row) (base64_of octets.now) ∷ []) }
{
    let text = base64_text(alloc, octets)?;
    let row = doc.row(row).unwrap();
    spans.push(content_span(alloc, &row, text)?)?;
    Ok(())
}

/// The Reference of that place and its view, while there are both.
pub(crate) fn pair_at<'p>(
    references: &'p ReferenceList,
    views: &'p OctetsList,
    k: usize,
) -> Option<(&'p Reference, &'p Octets)>
    ensures { MatchOption result (code.AreThrough (drop k references.now) (drop k views.now))
        (λ pair. code.BeginWith k references.now views.now pair.0.now pair.1.now) }
{
    let Some(reference) = references.get(k) else {
        return None;
    };
    let Some(view) = views.get(k) else {
        return None;
    };
    Some((reference, view))
}

/// Adds the spans of the DigestValues, and the digests of the views there.
fn add_digests(
    alloc: Global,
    doc: &Doc<'_>,
    fields: &Fields,
    views: &OctetsList,
    spans: &mut Vec<Span>,
) -> Result<(), AllocError>
    requires { FieldsFit doc.now fields.now }
    ensures { OnOk result (map seen_span spans.new.items
        ≡ map seen_span spans.old.items ++ spans_of doc.now (digest_fillings fields.now.references views.now)) }
{
    let mut k = 0;
    while let Some((reference, view)) = pair_at(&fields.references, views, k) {
        let value = digest(reference.digest, view.bytes());
        add_span(alloc, doc, reference.digest_row, value.bytes(), spans)?;
        k += 1;
    }
    Ok(())
}

/// The octets of a template with the digests of these views filled in, and with this signature value.
pub(crate) fn filled(
    alloc: Global,
    octets: &[u8],
    doc: &Doc<'_>,
    fields: &Fields,
    views: &OctetsList,
    value: &[u8],
) -> Result<Octets, AllocError>
    requires fit { FieldsFit doc.now fields.now }
    requires order { InOrder 0 (length octets.now) (spans_of doc.now
        (digest_fillings fields.now.references views.now ++ filling fields.now.value_row (base64_of value.now) value.now ∷ [])) }
    ensures { IfOk result (λ made. made ≡ signed octets.now doc.now fields.now views.now value.now) }
{
    let mut spans = Vec::new(alloc);
    add_digests(alloc, doc, fields, views, &mut spans)?;
    add_span(alloc, doc, fields.value_row, value, &mut spans)?;
    let made = write_spans(alloc, octets, &spans)?;
    Ok(Octets::from_vec(made))
}
