//! The catalog: the files that stand for URLs.
//!
//! A catalog is UTF-8 text in lines. A line ends with LF or CR LF; the last one need not. A line that is empty or begins with
//! `#` spells no entry. Every other line is a URL without query and fragment, one space, and the name of its file: the rest of
//! the line, 1 to 4,096 octets with no control character below the space.

ghost use Rattle.std.specs.Prelude.{◌≡◌, option_map};
ghost use Rattle.std.specs.Option.{option_copied};
ghost use Rattle.url.specs.Parts.{serialize};
ghost use Rattle.url.specs.Parser.{parse_url};
ghost use Rattle.uri_refs.specs.CatalogLines as lines;
ghost use Rattle.uri_refs.specs.Catalogs as spec;
ghost use Rattle.uri_refs.specs.Code.Catalogs as code;

use sig_base::{first_line, have_no_controls, is_skipped};
use std::alloc::{AllocError, AllocFailed, Global};
use std::marker::Model;
use url::{ParseError, Url};

/// How many entries a catalog may have.
const ENTRY_LIMIT: usize = 1024;

/// Why a catalog is refused. Lines are counted from 1, those that spell no entry too. The first line that is refused decides,
/// and at one line the first of these faults.
#[derive(Clone, Copy, Debug, PartialEq, Eq, Drop)]
pub enum CatalogFault {
    /// This line isn't UTF-8, or is neither a catalog line nor one that spells no entry.
    BadLine(u64),
    /// The entry of this line has the URL of the entry of the earlier line.
    Repeated(u64, u64),
    /// There are more than 1,024 entries.
    TooMany,
    /// Memory that was asked for was not given.
    Memory,
}

impl From<AllocError> for CatalogFault {
    ghost use Rattle.uri_refs.specs.declared.catalog.CatalogFault.TheVariants.{Memory};

    ghost from_gives = { λ _ fault. fault ≡ Memory };

    fn from(_: AllocError) -> CatalogFault {
        CatalogFault::Memory
    }
}

impl<T: Drop> From<AllocFailed<T>> for CatalogFault {
    ghost use Rattle.uri_refs.specs.declared.catalog.CatalogFault.TheVariants.{Memory};

    ghost from_gives = { λ _ fault. fault ≡ Memory };

    fn from(_: AllocFailed<T>) -> CatalogFault {
        CatalogFault::Memory
    }
}

/// One entry, with the number of its line.
#[derive(Drop)]
struct Entry {
    line: u64,
    url: Url,
    name: String,
}

impl Model for Entry {
    ghost use Rattle.std.specs.Prelude.{string_bytes};
    ghost use Rattle.url.specs.Parts.{serialize};
    ghost use Rattle.uri_refs.specs.CatalogEntries.{CatalogEntry};

    ghost Value = { CatalogEntry };

    ghost view = { λ e. record { line = e.line; url = serialize e.url; name = string_bytes e.name } };
}

impl Entry {
    /// The number of the entry's line.
    fn line(&self) -> u64
        ensures { result ≡ self.now.line }
    {
        self.line
    }

    /// The text of the URL.
    fn url(&self) -> &str
        ensures { result.now ≡ self.now.url }
    {
        self.url.as_str()
    }

    /// The name of the file.
    fn name(&self) -> &str
        ensures { result.now ≡ self.now.name }
    {
        self.name.as_str()
    }
}

/// The entry of this URL text.
fn entry_of<'k>(entries: &'k [Entry], url: &str) -> Option<&'k Entry>
    ensures { option_copied result ≡ spec.entry_of url.now entries.now }
{
    for entry in entries {
        if entry.url() == url {
            return Some(entry);
        }
    }
    None
}

/// Whether this is the name of a file.
fn is_file_name(name: &[u8]) -> bool
    ensures { result ≡ lines.is_file_name name.now }
{
    1 <= name.len() && name.len() <= 4096 && have_no_controls(name)
}

/// Whether an entry may have the URL.
fn is_entry_url(url: &Url) -> bool
    ensures { result ≡ lines.is_entry_url url.now }
{
    url.fragment().is_none() && url.query().is_none()
}

/// Adds an entry, unless one has its URL or there are as many as a catalog may have.
fn add_entry(
    alloc: Global,
    entries: &mut Vec<Entry>,
    line: u64,
    url: Url,
    name: &str,
) -> Result<(), CatalogFault>
    ensures { code.Changes result entries.new.items
        (spec.added (record { line = line; url = serialize url; name = name.now }) entries.old.items) }
{
    if let Some(earlier) = entry_of(entries, url.as_str()) {
        return Err(CatalogFault::Repeated(line, earlier.line()));
    }
    if entries.len() >= ENTRY_LIMIT {
        return Err(CatalogFault::TooMany);
    }
    let name = String::from_str(alloc, name)?;
    entries.push(Entry { line, url, name })?;
    Ok(())
}

/// Adds the entry of a URL and a name.
fn read_url(
    alloc: Global,
    entries: &mut Vec<Entry>,
    number: u64,
    url: &str,
    name: &str,
) -> Result<(), CatalogFault>
    ensures { code.Changes result entries.new.items (spec.url_read number (parse_url None url.now) name.now entries.old.items) }
{
    match Url::parse(alloc, url) {
        Ok(url) => {
            if is_entry_url(&url) {
                add_entry(alloc, entries, number, url, name)
            } else {
                Err(CatalogFault::BadLine(number))
            }
        }
        Err(ParseError::OutOfMemory | ParseError::Overflow) => Err(CatalogFault::Memory),
        Err(_) => Err(CatalogFault::BadLine(number)),
    }
}

/// Reads one line.
fn read_line(
    alloc: Global,
    entries: &mut Vec<Entry>,
    number: u64,
    line: &[u8],
) -> Result<(), CatalogFault>
    ensures { code.Changes result entries.new.items (spec.line_read number line.now entries.old.items) }
{
    let Ok(text) = str::from_utf8(line) else {
        return Err(CatalogFault::BadLine(number));
    };
    if is_skipped(line) {
        return Ok(());
    }
    let Some((url, name)) = text.split_once(' ') else {
        return Err(CatalogFault::BadLine(number));
    };
    if !is_file_name(name.as_bytes()) {
        return Err(CatalogFault::BadLine(number));
    }
    read_url(alloc, entries, number, url, name)
}

/// The entries of a catalog, in the order of their lines. Contracts see it as the list of them.
#[derive(Drop)]
pub struct Catalog {
    entries: Vec<Entry>,
}

impl Model for Catalog {
    ghost use Rattle.std.specs.Prelude.{List};
    ghost use Rattle.uri_refs.specs.CatalogEntries.{CatalogEntry};

    ghost Value = { List CatalogEntry };

    ghost view = { λ c. c.entries.items };
}

impl Catalog {
    /// Reads a catalog. The first line that is refused decides its fault. No octets are the empty catalog.
    pub fn read(alloc: Global, bytes: &[u8]) -> Result<Catalog, CatalogFault>
        ensures { spec.Answers result (spec.catalog_of bytes.now) }
    {
        let mut entries = Vec::new(alloc);
        let mut rest = bytes;
        let mut number = 1;
        while !rest.is_empty() {
            let (line, left) = first_line(rest);
            read_line(alloc, &mut entries, number, line)?;
            rest = left;
            number += 1;
        }
        Ok(Catalog { entries })
    }

    /// The name of the file that the catalog gives for the URL of this text.
    pub(crate) fn name_of(&self, url: &str) -> Option<&str>
        ensures { option_copied result ≡ option_map (λ entry. entry.name) (spec.entry_of url.now self.now) }
    {
        match entry_of(&self.entries, url) {
            Some(entry) => Some(entry.name()),
            None => None,
        }
    }
}
