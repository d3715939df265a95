//! Rows as they are kept: most of them say nothing in some of the fields, so these stand apart.
ghost use Rattle.std.specs.Prelude.{◌≡◌, ◌≤◌, true, length, map, IfOk};
ghost use Rattle.xml_doc.specs.Rows.{row_of};
ghost use Rattle.xml_doc.specs.Code.Kept.{AreOf, Extends, no_rare, put_together, rare_at, rare_in, rare_of};

use crate::row::{Kind, Row};
use sig_base::NoMemory;

/// The fields of a row that most rows fill.
#[derive(Clone, Copy)]
pub(crate) struct Common<'a> {
    pub local_name: &'a str,
    pub value: &'a str,
    pub parent: u32,
    pub last: u32,
    pub body_until: u32,
    /// Where the other fields stand, counted from 1, or 0 where they are empty.
    pub rare: u32,
    pub kind: Kind,
    pub empty_tag: bool,
}

/// The fields that only elements fill, and attributes whose name has a prefix.
#[derive(Clone, Copy)]
pub(crate) struct Rare<'a> {
    pub prefix_text: &'a str,
    pub uri: &'a str,
    pub tag_from: u32,
    pub body_from: u32,
}

impl<'a> Common<'a> {
    /// These fields of a row, whose other ones stand at that place.
    pub(crate) fn of(row: &Row<'a>, rare: u32) -> Common<'a>
        ensures fields { AreOf (row_of row.now) result }
        ensures place { result.rare ≡ rare }
    {
        Common {
            local_name: row.local_name,
            value: row.value,
            parent: row.parent,
            last: row.last,
            body_until: row.body_until,
            rare,
            kind: row.kind,
            empty_tag: row.empty_tag,
        }
    }

    /// The row of these fields and those.
    pub(crate) fn with(&self, rare: Rare<'a>) -> Row<'a>
        ensures { row_of result ≡ put_together (rare_of rare.entry) self.now }
    {
        Row {
            kind: self.kind,
            parent: self.parent,
            last: self.last,
            prefix_text: rare.prefix_text,
            local_name: self.local_name,
            uri: rare.uri,
            value: self.value,
            tag_from: rare.tag_from,
            body_from: rare.body_from,
            body_until: self.body_until,
            empty_tag: self.empty_tag,
        }
    }
}

impl<'a> Rare<'a> {
    /// These fields, all empty.
    fn none() -> Rare<'a>
        ensures { rare_of result ≡ no_rare }
    {
        Rare {
            prefix_text: "",
            uri: "",
            tag_from: 0,
            body_from: 0,
        }
    }

    /// These fields of a row.
    pub(crate) fn of(row: &Row<'a>) -> Rare<'a>
        ensures { rare_of result ≡ rare_in (row_of row.now) }
    {
        Rare {
            prefix_text: row.prefix_text,
            uri: row.uri,
            tag_from: row.tag_from,
            body_from: row.body_from,
        }
    }
}

/// Whether a row says nothing in these fields, as most rows do.
fn has_no_rare(row: &Row<'_>) -> bool
    ensures { result ≡ true → rare_in (row_of row.now) ≡ no_rare }
{
    row.tag_from == 0 && row.body_from == 0 && row.prefix_text.is_empty() && row.uri.is_empty()
}

/// The fields at that place.
pub(crate) fn rare_at<'a>(rares: &[Rare<'a>], place: u32) -> Rare<'a>
    requires { place ≤ length rares.now }
    ensures { rare_of result ≡ rare_at (map rare_of rares.now) place }
{
    if place == 0 {
        Rare::none()
    } else {
        rares[place as usize - 1]
    }
}

/// Adds these fields of a row where one of them says something, and answers where they stand.
pub(crate) fn keep_rare<'a>(rares: &mut Vec<Rare<'a>>, row: &Row<'a>) -> Result<u32, NoMemory>
    ensures kept { IfOk result (λ place. rare_at (map rare_of rares.new.items) place ≡ rare_in (row_of row.now)) }
    ensures placed { IfOk result (λ place. place ≤ length rares.new.items) }
    ensures extends { Extends (map rare_of rares.old.items) (map rare_of rares.new.items) }
{
    if has_no_rare(row) {
        return Ok(0);
    }
    if rares.len() >= u32::MAX as usize {
        return Err(NoMemory);
    }
    rares.push(Rare::of(row))?;
    Ok(rares.len() as u32)
}
