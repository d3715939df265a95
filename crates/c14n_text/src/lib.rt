//! The texts of a canonical form, and what the form of a set of rows is.
//!
//! The calls write texts, attributes and instructions with the references that Canonical XML asks for. The definitions of
//! the whole form stand in `specs/`: `Canon.antt` has the form of a set of rows by one of the rules of `Namespaces.antt`,
//! and `Attributes.antt` the attributes of an element.
//!
//! Sources: Canonical XML 1.0 §2.2 to §2.4; Exclusive XML Canonicalization 1.0 §1.1, §3.
#![tactic(auto)]

ghost use Rattle.std.specs.Prelude.{◌≡◌, ℕ, List, length, map};
ghost use Rattle.sig_base.specs.Puts.{Puts};
ghost use Rattle.std.specs.List.{flat_map};
ghost use Rattle.c14n_text.specs.Pieces.{piece_octets};
ghost use Rattle.c14n_text.specs.Escapes.{pi_octets, text_octets, attribute_octets, escaped, escape_at};
ghost use Rattle.c14n_text.specs.Code.Escapes.{option_bytes};

use sig_base::{OctetSink, Put, put_pieces};

/// Where a text stands: the places escape differently (Canonical XML 1.0 §2.3).
#[derive(Clone, Copy, Debug, PartialEq, Eq)]
pub enum Place {
    /// Between tags.
    Content,
    /// Between the quotes of an attribute, or of a namespace declaration.
    AttributeValue,
}

/// The reference that stands for an octet at this place, where it isn't written as it is.
fn escape_at(place: Place, octet: u8) -> Option<&'static [u8]>
    ensures { option_bytes result ≡ escape_at place octet }
{
    match (place, octet) {
        (_, b'&') => Some(b"&amp;"),
        (_, b'<') => Some(b"&lt;"),
        (_, b'\r') => Some(b"&#xD;"),
        (Place::Content, b'>') => Some(b"&gt;"),
        (Place::AttributeValue, b'"') => Some(b"&quot;"),
        (Place::AttributeValue, b'\t') => Some(b"&#x9;"),
        (Place::AttributeValue, b'\n') => Some(b"&#xA;"),
        _ => None,
    }
}

/// Writes the octets of a text, escaped as its place wants.
fn put_escaped<S: OctetSink>(place: Place, octets: &[u8], sink: &mut S) -> Put
    ensures { Puts S.stands_for S.refusals S.makes sink.old sink.new (escaped place octets.now) result }
{
    let mut from = 0;
    for (i, octet) in octets.iter().enumerate() {
        if let Some(escape) = escape_at(place, *octet) {
            if let Put::Refused = sink.put(&octets[from..i]) {
                return Put::Refused;
            }
            if let Put::Refused = sink.put(escape) {
                return Put::Refused;
            }
            from = i + 1;
        }
    }
    sink.put(&octets[from..])
}

/// A piece of what is written.
#[derive(Clone, Copy)]
pub enum Piece<'a> {
    /// Written as it is.
    Plain(&'a str),
    /// Escaped as text.
    Text(&'a str),
    /// Escaped as an attribute's value.
    Value(&'a str),
    /// The octets of a value, escaped as an attribute's.
    ValueOctets(&'a [u8]),
}

/// Writes one piece.
pub fn put_piece<S: OctetSink>(piece: Piece<'_>, sink: &mut S) -> Put
    ensures { Puts S.stands_for S.refusals S.makes sink.old sink.new (piece_octets piece.entry) result }
{
    match piece {
        Piece::Plain(text) => put_pieces(&[text.as_bytes()], sink),
        Piece::Text(text) => put_escaped(Place::Content, text.as_bytes(), sink),
        Piece::Value(text) => put_escaped(Place::AttributeValue, text.as_bytes(), sink),
        Piece::ValueOctets(octets) => put_escaped(Place::AttributeValue, octets, sink),
    }
}

/// Writes the pieces, one after the other. `Refused` leaves a prefix of them in the sink.
pub fn put_all<S: OctetSink>(pieces: &[Piece<'_>], sink: &mut S) -> Put
    ensures { Puts S.stands_for S.refusals S.makes sink.old sink.new (flat_map piece_octets pieces.now) result }
{
    for piece in pieces {
        if let Put::Refused = put_piece(*piece, sink) {
            return Put::Refused;
        }
    }
    Put::Done
}

/// Writes a text row: `&`, `<`, `>` and CR as references (Canonical XML 1.0 §2.3, "Text Nodes").
///
/// `Refused` comes where the sink refused a piece, and leaves a prefix of the octets in it.
pub fn put_text<S: OctetSink>(text: &str, sink: &mut S) -> Put
    ensures { Puts S.stands_for S.refusals S.makes sink.old sink.new (text_octets text.now) result }
{
    put_escaped(Place::Content, text.as_bytes(), sink)
}

/// Writes a processing instruction: `<?`, the target, a space and the value where that isn't empty, `?>` (Canonical XML 1.0
/// §2.3, "Processing Instruction Nodes").
///
/// `Refused` comes where the sink refused a piece, and leaves a prefix of the octets in it.
pub fn put_pi<'a, S: OctetSink>(target: &'a str, value: &'a str, sink: &mut S) -> Put
    ensures { Puts S.stands_for S.refusals S.makes sink.old sink.new (pi_octets target.now value.now) result }
{
    use Piece::Plain;
    if value.is_empty() {
        put_all(&[Plain("<?"), Plain(target), Plain("?>")], sink)
    } else {
        put_all(
            &[
                Plain("<?"),
                Plain(target),
                Plain(" "),
                Plain(value),
                Plain("?>"),
            ],
            sink,
        )
    }
}

/// Writes an attribute with a space before it: in its value `&`, `<`, `"`, tab, LF and CR are references (Canonical XML 1.0
/// §2.3, "Attribute Nodes"). `prefix` is empty where the name has none.
///
/// `Refused` comes where the sink refused a piece, and leaves a prefix of the octets in it.
pub fn put_attribute<'a, S: OctetSink>(
    prefix: &'a str,
    local: &'a str,
    value: &'a str,
    sink: &mut S,
) -> Put
    ensures { Puts S.stands_for S.refusals S.makes sink.old sink.new (attribute_octets prefix.now local.now value.now) result }
{
    use Piece::{Plain, Value};
    if prefix.is_empty() {
        put_all(
            &[
                Plain(" "),
                Plain(local),
                Plain("=\""),
                Value(value),
                Plain("\""),
            ],
            sink,
        )
    } else {
        put_all(
            &[
                Plain(" "),
                Plain(prefix),
                Plain(":"),
                Plain(local),
                Plain("=\""),
                Value(value),
                Plain("\""),
            ],
            sink,
        )
    }
}

/// The same with the octets of a value.
pub fn put_attribute_octets<'a, S: OctetSink>(
    prefix: &'a str,
    local: &'a str,
    value: &'a [u8],
    sink: &mut S,
) -> Put
    ensures { Puts S.stands_for S.refusals S.makes sink.old sink.new (attribute_octets prefix.now local.now value.now) result }
{
    use Piece::{Plain, ValueOctets};
    if prefix.is_empty() {
        put_all(
            &[
                Plain(" "),
                Plain(local),
                Plain("=\""),
                ValueOctets(value),
                Plain("\""),
            ],
            sink,
        )
    } else {
        put_all(
            &[
                Plain(" "),
                Plain(prefix),
                Plain(":"),
                Plain(local),
                Plain("=\""),
                ValueOctets(value),
                Plain("\""),
            ],
            sink,
        )
    }
}

#[cfg(test)]
mod tests;
