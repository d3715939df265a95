//! The files below the current directory, as a keeper of views.
ghost use Rattle.std.specs.Prelude.{◌≡◌, None};

use crate::{Kept, ViewKeeper};
use std::io::Write;
use std::marker::Model;
use std::rt::Files;
use std::{fs, io};

/// The files below the current directory, written. A name is a path from there, and its missing folders are made.
#[derive(Drop)]
pub struct DirKeeper<R: Files + Drop> {
    runtime: R,
    faults: u64,
}

impl<R: Files + Drop> Model for DirKeeper<R> {
    ghost use Rattle.std.specs.Prelude.{ℕ};

    ghost Value = { ℕ };

    ghost view = { λ s. s.faults };
}

impl<R: Files + Drop> DirKeeper<R> {
    /// A keeper that has not failed yet.
    pub fn new(runtime: R) -> DirKeeper<R>
        ensures { result ≡ 0 }
    {
        DirKeeper { runtime, faults: 0 }
    }
}

/// Writes all octets to a file that has been opened, and closes it.
fn fill<F: Write + Drop>(mut file: F, octets: &[u8]) -> io::Result<()> {
    file.write_all(octets)
}

/// Writes a file, and makes the folders of its path that are missing. Where it can't be written whole it is removed, so that no
/// part of a view is left to be taken for one.
fn write_file<R: Files>(runtime: &R, name: &str, octets: &[u8]) -> io::Result<()> {
    if let Some((dir, _)) = name.rsplit_once('/') {
        fs::create_dir_all(runtime, dir)?;
    }
    let file = fs::File::create(runtime, name)?;
    let written = fill(file, octets);
    if written.is_err() {
        let _ = fs::remove_file(runtime, name);
    }
    written
}

impl<R: Files + Drop> ViewKeeper for DirKeeper<R> {
    ghost pairs = { λ s. None };

    ghost faults = { λ s. s };

    fn take(&mut self, name: &str, bytes: &[u8]) -> Kept {
        match write_file(&self.runtime, name, bytes) {
            Ok(()) => Kept::Done,
            Err(error) => match error.kind() {
                io::ErrorKind::OutOfMemory => Kept::NoMemory,
                _ => {
                    self.faults = self.faults.saturating_add(1);
                    Kept::Failed
                }
            },
        }
    }

    fn faults_now(&self) -> u64 {
        self.faults
    }

    fn entry(&self, _k: usize) -> Option<(&str, &[u8])> {
        None
    }
}
