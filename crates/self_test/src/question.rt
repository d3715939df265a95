//! What a self-test asks.
ghost use Rattle.std.specs.Prelude.{◌≡◌, IfOk};
ghost use Rattle.dsig_fields.specs.Keys.{question_of};
ghost use Rattle.self_test.specs.Question as spec;

use digests_hmac::KeyTable;
use dsig_fields::Question;
use sig_base::NoMemory;
use std::alloc::Global;
use uri_refs::{Base, Catalog, Place};

/// The line of the key file.
const KEY_LINE: &[u8] =
    b"000102030405060708090a0b0c0d0e0f101112131415161718191a1b1c1d1e1f selftest\n";

/// The table of the one key. It can be read, unless memory is wanting.
pub(crate) fn keys(alloc: Global) -> Result<KeyTable, NoMemory>
    ensures { IfOk result (λ keys. keys ≡ spec.keys) }
{
    match KeyTable::read(alloc, KEY_LINE) {
        Ok(keys) => Ok(keys),
        Err(_) => Err(NoMemory),
    }
}

/// The base. It can be read, unless memory is wanting.
fn base(alloc: Global) -> Result<Base, NoMemory>
    ensures { IfOk result (λ base. base ≡ spec.base) }
{
    match Base::read(alloc, "https://folder.invalid/") {
        Ok(base) => Ok(base),
        Err(_) => Err(NoMemory),
    }
}

/// The empty catalog. It can be read, unless memory is wanting.
fn catalog(alloc: Global) -> Result<Catalog, NoMemory>
    ensures { IfOk result (λ catalog. catalog ≡ spec.place.catalog) }
{
    match Catalog::read(alloc, &[]) {
        Ok(catalog) => Ok(catalog),
        Err(_) => Err(NoMemory),
    }
}

/// Where URIs lead.
pub(crate) fn place(alloc: Global) -> Result<Place, NoMemory>
    ensures { IfOk result (λ place. place ≡ spec.place) }
{
    let base = base(alloc)?;
    let catalog = catalog(alloc)?;
    Ok(Place { base, catalog })
}

/// The question: the first Signature, under the only key, with its views kept.
pub(crate) fn ask<'q>(keys: &'q KeyTable, place: &'q Place) -> Question<'q>
    requires keys { keys.now ≡ spec.keys }
    requires place { place.now ≡ spec.place }
    ensures { question_of result ≡ spec.question }
{
    Question {
        index: 1,
        key_name: None,
        keys,
        place,
        keep_views: true,
    }
}
