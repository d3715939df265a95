//! The files below the current directory, as a folder.
ghost use Rattle.std.specs.Prelude.{◌≡◌, None, []};
ghost use Rattle.std.specs.Option.{ForSome};
ghost use Rattle.sig_outside.specs.Code.Readings.{ReadsWithin};

use crate::{Fetch, Folder};
use std::alloc::Global;
use std::fs;
use std::io::{ErrorKind, Read};
use std::marker::Model;
use std::rt::Files;

/// The files below the current directory. A name is a path from there.
#[derive(Drop)]
pub struct DirFolder<R: Files + AllocGlobal + Drop> {
    runtime: R,
    faults: u64,
}

impl<R: Files + AllocGlobal + Drop> Model for DirFolder<R> {
    ghost use Rattle.std.specs.Prelude.{ℕ};

    ghost Value = { ℕ };

    ghost view = { λ s. s.faults };
}

impl<R: Files + AllocGlobal + Drop> DirFolder<R> {
    /// A folder that has not failed yet.
    pub fn new(runtime: R) -> DirFolder<R>
        ensures { result ≡ 0 }
    {
        DirFolder { runtime, faults: 0 }
    }
}

/// What reading a file came to.
#[derive(Drop)]
pub(crate) enum Reading {
    Whole(Vec<u8>),
    Absent,
    TooLong,
    Failed,
    NoMemory,
}

/// Reads until a read gives nothing, or until more than `limit` octets came.
pub(crate) fn read_within<F: Read>(alloc: Global, file: &mut F, limit: u64) -> Reading
    ensures { ForSome (F.remaining file.old) (λ octets. ReadsWithin octets limit result) }
{
    let mut octets = Vec::new(alloc);
    let mut piece = [0u8; 4096];
    for _turn in 0..u64::MAX {
        let Ok(count) = file.read(&mut piece) else {
            return Reading::Failed;
        };
        if count == 0 {
            return Reading::Whole(octets);
        }
        if octets.extend_from_slice(&piece[..count]).is_err() {
            return Reading::NoMemory;
        }
        if octets.len() as u64 > limit {
            return Reading::TooLong;
        }
    }
    Reading::Failed
}

/// Reads the file at that path. It is absent only where nothing stands there.
fn read_file<R: Files + AllocGlobal>(runtime: &R, name: &str, limit: u64) -> Reading {
    match fs::open(runtime, name) {
        Ok(mut file) => read_within(runtime.alloc(), &mut file, limit),
        Err(error) => match error.kind() {
            ErrorKind::NotFound => Reading::Absent,
            ErrorKind::OutOfMemory => Reading::NoMemory,
            _ => Reading::Failed,
        },
    }
}

impl<R: Files + AllocGlobal + Drop> Folder for DirFolder<R> {
    ghost held = { λ s. None };

    ghost asked = { λ s. [] };

    ghost faults = { λ s. s };

    fn fetch(&mut self, name: &str, limit: u64, into: &mut Vec<u8>) -> Fetch {
        match read_file(&self.runtime, name, limit) {
            Reading::Whole(octets) => {
                *into = octets;
                Fetch::Found
            }
            Reading::Absent => Fetch::Absent,
            Reading::TooLong => Fetch::TooLong,
            Reading::NoMemory => Fetch::NoMemory,
            Reading::Failed => {
                self.faults = self.faults.saturating_add(1);
                Fetch::Failed
            }
        }
    }
}
