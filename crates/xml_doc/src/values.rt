//! String values.
ghost use Rattle.std.specs.Prelude.{◌≡◌, ◌<◌, length};
ghost use Rattle.std.specs.List.{flat_map};
ghost use Rattle.sig_base.specs.Puts.{Puts};
ghost use Rattle.xml_doc.specs.Values.{string_value};
ghost use Rattle.xml_doc.specs.Code.Kept.{kept_text};

use crate::doc::Doc;
use crate::kept::Common;
use crate::row::Kind;
use sig_base::{OctetSink, Put};

impl<'a> Doc<'a> {
    /// Writes the string value of row `i` (XPath 1.0 §5): of the root or an element the texts below it, joined in
    /// document order, and of another row its value. `Refused` leaves a prefix of it written.
    pub fn string_value_into<S: OctetSink>(&self, i: u32, sink: &mut S) -> Put
        requires { i < length self.now }
        ensures { Puts S.stands_for S.refusals S.makes sink.old sink.new (string_value self.now i) result }
    {
        let row = self.at(i);
        match row.kind {
            Kind::Root | Kind::Element => put_texts(self.subtree(i), sink),
            _ => sink.put(row.value.as_bytes()),
        }
    }
}

/// Writes the characters of a text, and nothing of another row.
fn put_text<S: OctetSink>(row: &Common<'_>, sink: &mut S) -> Put
    ensures { Puts S.stands_for S.refusals S.makes sink.old sink.new (kept_text row.now) result }
{
    match row.kind {
        Kind::Text => sink.put(row.value.as_bytes()),
        _ => Put::Done,
    }
}

/// Writes the texts among these rows, in their order.
fn put_texts<S: OctetSink>(rows: &[Common<'_>], sink: &mut S) -> Put
    ensures { Puts S.stands_for S.refusals S.makes sink.old sink.new (flat_map kept_text rows.now) result }
{
    for row in rows {
        if let Put::Refused = put_text(row, sink) {
            return Put::Refused;
        }
    }
    Put::Done
}
