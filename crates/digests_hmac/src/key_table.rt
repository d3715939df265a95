//! The table of the keys of a key file.
//!
//! A key file is UTF-8 text in lines. A line ends with LF or CR LF; the last one need not. A line that is empty or begins
//! with `#` spells no key. Every other line is 2 to 8,192 hexadecimal digits, an even number of them, one space and the
//! key's name: the rest of the line, 1 to 256 octets with no control character below the space.

ghost use Rattle.std.specs.Prelude.{◌≡◌};
ghost use Rattle.std.specs.Option.{option_copied};
ghost use Rattle.digests_hmac.specs.KeyLines.{octets_of_digits};
ghost use Rattle.digests_hmac.specs.Keys as spec;
ghost use Rattle.digests_hmac.specs.Code.Keys as code;

use crate::keys::{is_key_digits, is_key_name, octets_of_digits};
use sig_base::{first_line, is_skipped};
use std::alloc::{AllocError, AllocFailed, Global};
use std::marker::Model;

/// How many keys a file may hold.
const KEY_LIMIT: usize = 1024;

/// Why a key file is refused. Lines are counted from 1, those that spell no key too. The first line that is refused
/// decides, and at one line the first of these faults.
#[derive(Clone, Copy, Debug, PartialEq, Eq, Drop)]
pub enum KeyFault {
    /// This line isn't UTF-8, or is neither a key line nor one that spells no key.
    BadLine(u64),
    /// The key of this line has the name of the key of the earlier line.
    Repeated(u64, u64),
    /// There are more than 1,024 keys.
    TooMany,
    /// Memory that was asked for was not given.
    Memory,
}

impl From<AllocError> for KeyFault {
    ghost use Rattle.digests_hmac.specs.declared.key_table.KeyFault.TheVariants.{Memory};

    ghost from_gives = { λ _ fault. fault ≡ Memory };

    fn from(_: AllocError) -> KeyFault {
        KeyFault::Memory
    }
}

impl<T: Drop> From<AllocFailed<T>> for KeyFault {
    ghost use Rattle.digests_hmac.specs.declared.key_table.KeyFault.TheVariants.{Memory};

    ghost from_gives = { λ _ fault. fault ≡ Memory };

    fn from(_: AllocFailed<T>) -> KeyFault {
        KeyFault::Memory
    }
}

/// One key, with its name and the number of its line. Contracts see it as the entry of these three.
#[derive(Drop)]
pub struct Key {
    line: u64,
    name: String,
    octets: Vec<u8>,
}

impl Model for Key {
    ghost use Rattle.std.specs.Prelude.{string_bytes};
    ghost use Rattle.digests_hmac.specs.KeyEntries.{KeyEntry};

    ghost Value = { KeyEntry };

    ghost view = { λ k. record { line = k.line; name = string_bytes k.name; octets = k.octets.items } };
}

impl Key {
    /// The number of the key's line, counted from 1.
    pub fn line(&self) -> u64
        ensures { result ≡ self.now.line }
    {
        self.line
    }

    /// The name.
    pub fn name(&self) -> &str
        ensures { result.now ≡ self.now.name }
    {
        self.name.as_str()
    }

    /// The octets of the key, 1 to 4,096 of them.
    pub fn bytes(&self) -> &[u8]
        ensures { result.now ≡ self.now.octets }
    {
        self.octets.as_slice()
    }
}

/// The key of this name.
fn named<'k>(keys: &'k [Key], name: &str) -> Option<&'k Key>
    ensures { option_copied result ≡ spec.named name.now keys.now }
{
    for key in keys {
        if key.name() == name {
            return Some(key);
        }
    }
    None
}

/// Adds a key, unless one has its name or there are as many as a file may hold.
fn add_key(
    alloc: Global,
    keys: &mut Vec<Key>,
    line: u64,
    digits: &[u8],
    name: &str,
) -> Result<(), KeyFault>
    ensures { code.Changes result keys.new.items (spec.added
        (record { line = line; name = name.now; octets = octets_of_digits digits.now }) keys.old.items) }
{
    if let Some(earlier) = named(keys, name) {
        return Err(KeyFault::Repeated(line, earlier.line()));
    }
    if keys.len() >= KEY_LIMIT {
        return Err(KeyFault::TooMany);
    }
    let name = String::from_str(alloc, name)?;
    let octets = octets_of_digits(alloc, digits)?;
    keys.push(Key { line, name, octets })?;
    Ok(())
}

/// Reads one line.
fn read_line(alloc: Global, keys: &mut Vec<Key>, number: u64, line: &[u8]) -> Result<(), KeyFault>
    ensures { code.Changes result keys.new.items (spec.line_read number line.now keys.old.items) }
{
    let Ok(text) = str::from_utf8(line) else {
        return Err(KeyFault::BadLine(number));
    };
    if is_skipped(line) {
        return Ok(());
    }
    let Some((digits, name)) = text.split_once(' ') else {
        return Err(KeyFault::BadLine(number));
    };
    if !is_key_digits(digits.as_bytes()) {
        return Err(KeyFault::BadLine(number));
    }
    if !is_key_name(name.as_bytes()) {
        return Err(KeyFault::BadLine(number));
    }
    add_key(alloc, keys, number, digits.as_bytes(), name)
}

/// The keys of a file, in the order of their lines. Contracts see it as the list of them.
#[derive(Drop)]
pub struct KeyTable {
    keys: Vec<Key>,
}

impl Model for KeyTable {
    ghost use Rattle.std.specs.Prelude.{List};
    ghost use Rattle.digests_hmac.specs.KeyEntries.{KeyEntry};

    ghost Value = { List KeyEntry };

    ghost view = { λ t. t.keys.items };
}

impl KeyTable {
    /// Reads a key file. The first line that is refused decides its fault.
    pub fn read(alloc: Global, bytes: &[u8]) -> Result<KeyTable, KeyFault>
        ensures { spec.Answers result (spec.keys_of bytes.now) }
    {
        let mut keys = Vec::new(alloc);
        let mut rest = bytes;
        let mut number = 1;
        while !rest.is_empty() {
            let (line, left) = first_line(rest);
            read_line(alloc, &mut keys, number, line)?;
            rest = left;
            number += 1;
        }
        Ok(KeyTable { keys })
    }

    /// The key of this name.
    pub fn find(&self, name: &str) -> Option<&Key>
        ensures { option_copied result ≡ spec.named name.now self.now }
    {
        named(&self.keys, name)
    }

    /// The key of a table that has one key.
    pub fn only(&self) -> Option<&Key>
        ensures { option_copied result ≡ spec.only_of self.now }
    {
        match self.keys.as_slice() {
            [key] => Some(key),
            _ => None,
        }
    }
}
