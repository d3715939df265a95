//! The files that a job asks for.
ghost use Rattle.std.specs.Prelude.{◌≡◌, ◌≢◌, Err, [], ◌∷◌, encode_utf8_all};
ghost use Rattle.std.specs.Option.{ForSome};
ghost use Rattle.xmldsig.specs.Files as spec;
ghost use Rattle.xmldsig.specs.Code.Stops.{Answers, AsksAll, StopCounts};

use crate::ending::Refusal;
use crate::stop::Stop;
use digests_hmac::KeyTable;
use sig_base::{Octets, Text};
use sig_outside::{Fetch, Folder};
use std::alloc::Global;
use uri_refs::Catalog;
use xml_read::ReadRefusal;

/// The greatest length of a document, in bytes.
const DOCUMENT_LIMIT: u64 = 4_194_304;

/// The greatest length of a key file, in bytes.
const KEYS_LIMIT: u64 = 16_777_216;

/// The greatest length of a catalog, in bytes.
const CATALOG_LIMIT: u64 = 1_048_576;

/// Fetches a file of at most `limit` bytes, or says why there is none.
fn fetch_file<F: Folder>(
    alloc: Global,
    folder: &mut F,
    name: &Text,
    limit: u64,
    absent: Refusal,
    too_long: Refusal,
) -> Result<Octets, Stop>
    ensures held { F.held folder.new ≡ F.held folder.old }
    ensures outcome { ForSome (F.held folder.old)
        (λ files. Answers result (spec.file_outcome (files (encode_utf8_all name.now)) limit absent too_long)) }
    ensures asked { ForSome (F.held folder.old) (λ files. AsksAll result (encode_utf8_all name.now ∷ []) (F.asked folder.old)
        (F.asked folder.new)) }
    ensures cause { StopCounts result (F.faults folder.old) (F.faults folder.new) }
{
    let mut bytes = Vec::new(alloc);
    match folder.fetch(name.as_str(), limit, &mut bytes) {
        Fetch::Found => Ok(Octets::from_vec(bytes)),
        Fetch::Absent => Err(Stop::Refused(absent)),
        Fetch::TooLong => Err(Stop::Refused(too_long)),
        Fetch::Failed => Err(Stop::ReadFault),
        Fetch::NoMemory => Err(Stop::Memory),
    }
}

/// Fetches a document.
pub(crate) fn fetch_document<F: Folder>(
    alloc: Global,
    folder: &mut F,
    name: &Text,
) -> Result<Octets, Stop>
    ensures held { F.held folder.new ≡ F.held folder.old }
    ensures outcome { ForSome (F.held folder.old) (λ files. Answers result (spec.document_outcome name.now files)) }
    ensures asked { ForSome (F.held folder.old) (λ files. AsksAll result (encode_utf8_all name.now ∷ []) (F.asked folder.old)
        (F.asked folder.new)) }
    ensures cause { StopCounts result (F.faults folder.old) (F.faults folder.new) }
{
    fetch_file(
        alloc,
        folder,
        name,
        DOCUMENT_LIMIT,
        Refusal::NoDocument,
        Refusal::Read(ReadRefusal::TooLarge),
    )
}

/// The keys of a key file.
fn read_keys(alloc: Global, bytes: &[u8]) -> Result<KeyTable, Stop>
    ensures outcome { Answers result (spec.keys_read bytes.now) }
    ensures no_fault { result ≢ Err Stop.ReadFault }
{
    match KeyTable::read(alloc, bytes) {
        Ok(keys) => Ok(keys),
        Err(fault) => Err(Stop::by_keys(fault)),
    }
}

/// Fetches a key file, and reads it.
pub(crate) fn fetch_keys<F: Folder>(
    alloc: Global,
    folder: &mut F,
    name: &Text,
) -> Result<KeyTable, Stop>
    ensures held { F.held folder.new ≡ F.held folder.old }
    ensures outcome { ForSome (F.held folder.old) (λ files. Answers result (spec.keys_outcome name.now files)) }
    ensures asked { ForSome (F.held folder.old) (λ files. AsksAll result (encode_utf8_all name.now ∷ []) (F.asked folder.old)
        (F.asked folder.new)) }
    ensures cause { StopCounts result (F.faults folder.old) (F.faults folder.new) }
{
    let file = fetch_file(
        alloc,
        folder,
        name,
        KEYS_LIMIT,
        Refusal::NoKeys,
        Refusal::KeysTooLarge,
    )?;
    read_keys(alloc, file.bytes())
}

/// The catalog that a file spells.
fn read_catalog(alloc: Global, bytes: &[u8]) -> Result<Catalog, Stop>
    ensures outcome { Answers result (spec.catalog_read bytes.now) }
    ensures no_fault { result ≢ Err Stop.ReadFault }
{
    match Catalog::read(alloc, bytes) {
        Ok(catalog) => Ok(catalog),
        Err(fault) => Err(Stop::by_catalog(fault)),
    }
}

/// Fetches a catalog, and reads it.
fn fetch_named_catalog<F: Folder>(
    alloc: Global,
    folder: &mut F,
    name: &Text,
) -> Result<Catalog, Stop>
    ensures held { F.held folder.new ≡ F.held folder.old }
    ensures outcome { ForSome (F.held folder.old) (λ files. Answers result (spec.named_catalog name.now files)) }
    ensures asked { ForSome (F.held folder.old) (λ files. AsksAll result (encode_utf8_all name.now ∷ []) (F.asked folder.old)
        (F.asked folder.new)) }
    ensures cause { StopCounts result (F.faults folder.old) (F.faults folder.new) }
{
    let file = fetch_file(
        alloc,
        folder,
        name,
        CATALOG_LIMIT,
        Refusal::NoCatalog,
        Refusal::CatalogTooLarge,
    )?;
    read_catalog(alloc, file.bytes())
}

/// The catalog, which has no entry where none is named.
pub(crate) fn fetch_catalog<F: Folder>(
    alloc: Global,
    folder: &mut F,
    name: &Option<Text>,
) -> Result<Catalog, Stop>
    ensures held { F.held folder.new ≡ F.held folder.old }
    ensures outcome { ForSome (F.held folder.old) (λ files. Answers result (spec.catalog_outcome name.now files)) }
    ensures asked { ForSome (F.held folder.old) (λ files. AsksAll result (spec.catalog_names name.now) (F.asked folder.old)
        (F.asked folder.new)) }
    ensures cause { StopCounts result (F.faults folder.old) (F.faults folder.new) }
{
    match name {
        Some(name) => fetch_named_catalog(alloc, folder, name),
        None => read_catalog(alloc, &[]),
    }
}
