//! A folder in memory.
ghost use Rattle.std.specs.Prelude.{◌≡◌, ◌≢◌, ◌⊎◌, ◌++◌, [], ◌∷◌, map, Some, Contains, option_map, option_copied, slice_get, OnOk, OnErr};
ghost use Rattle.sig_outside.specs.Counted.{one_more};
ghost use Rattle.sig_outside.specs.Told.{file_in, with_file};
ghost use Rattle.sig_outside.specs.Fetches.{FetchAnswer, Replaces};
ghost use Rattle.sig_outside.specs.Pairs.{pair_of};

use crate::named::{Named, copy_named, is_listed};
use crate::{Fetch, Folder};
use sig_base::NoMemory;
use std::alloc::Global;
use std::marker::Model;

/// A folder in memory, which tells its files. The newest file stands first, and hides an older one
/// of the same name.
#[derive(Drop)]
pub struct MemFolder {
    alloc: Global,
    files: Vec<Named>,
    asked: Vec<String>,
    failing: Vec<u64>,
    calls: u64,
    faults: u64,
}

impl Model for MemFolder {
    ghost use Rattle.sig_outside.specs.MemStates.{FolderState};
    ghost use Rattle.sig_outside.specs.MemViews.{folder_state};

    ghost Value = { FolderState };

    ghost view = { folder_state };
}

impl MemFolder {
    /// A folder that holds nothing.
    pub fn new(alloc: Global) -> MemFolder
        ensures { result ≡ record { files = []; asked = []; failing = []; calls = 0; faults = 0 } }
    {
        MemFolder {
            alloc,
            files: Vec::new(alloc),
            asked: Vec::new(alloc),
            failing: Vec::new(alloc),
            calls: 0,
            faults: 0,
        }
    }

    /// Holds one more file, in place of one of the same name.
    pub fn add(&mut self, name: &str, bytes: &[u8]) -> Result<(), NoMemory>
        ensures ok { OnOk result (self.new ≡ record self.old { files = (name.now, bytes.now) ∷ self.old.files }) }
        ensures held { OnOk result (file_in self.new.files ≡ with_file name.now bytes.now (file_in self.old.files)) }
        ensures err { OnErr result (self.new ≡ self.old) }
    {
        let file = copy_named(self.alloc, name, bytes)?;
        self.files.insert(0, file)?;
        Ok(())
    }

    /// Makes call number `k` of `fetch`, counted from 0, fail.
    pub fn fail_call(&mut self, k: u64) -> Result<(), NoMemory>
        ensures ok { OnOk result (self.new ≡ record self.old { failing = self.old.failing ++ k ∷ [] }) }
        ensures err { OnErr result (self.new ≡ self.old) }
    {
        self.failing.push(k)?;
        Ok(())
    }

    /// Name number `k` of those that were asked for, counted from 0, or `None` past the end.
    pub fn asked_name(&self, k: usize) -> Option<&str>
        ensures { option_map (λ name. name.now) result ≡ slice_get self.now.asked k }
    {
        match self.asked.get(k) {
            Some(name) => Some(name.as_str()),
            None => None,
        }
    }
}

/// The first file of that name.
fn find<'a>(files: &'a [Named], name: &str) -> Option<&'a [u8]>
    ensures { option_copied result ≡ file_in (map pair_of files.now) name.now }
{
    for file in files {
        if file.name.as_str() == name {
            return Some(file.bytes.as_slice());
        }
    }
    None
}

/// Puts a copy of the file into `into`, if it is not too long.
fn hand_over(alloc: Global, file: &[u8], limit: u64, into: &mut Vec<u8>) -> Fetch
    ensures answer { FetchAnswer (Some file.now) limit result into.new.items }
    ensures into { Replaces result into.old.items into.new.items }
    ensures fine { result ≢ Fetch.Failed }
{
    if file.len() as u64 > limit {
        return Fetch::TooLong;
    }
    match file.to_vec(alloc) {
        Ok(copy) => {
            *into = copy;
            Fetch::Found
        }
        Err(_) => Fetch::NoMemory,
    }
}

impl Folder for MemFolder {
    ghost use Rattle.sig_outside.specs.Fetches.{Asks, FetchCounts};

    ghost held = { λ s. Some (file_in s.files) };

    ghost asked = { λ s. s.asked };

    ghost faults = { λ s. s.faults };

    /// Fails only at the calls that are to fail, and there unless memory is wanting.
    fn fetch(&mut self, name: &str, limit: u64, into: &mut Vec<u8>) -> Fetch
        ensures asked { Asks name.now result self.old.asked self.new.asked }
        ensures answer { FetchAnswer (file_in self.old.files name.now) limit result into.new.items }
        ensures into { Replaces result into.old.items into.new.items }
        ensures cause { FetchCounts result self.old.faults self.new.faults }
        ensures listed { result ≡ Fetch.Failed → Contains self.old.failing self.old.calls }
        ensures fails { Contains self.old.failing self.old.calls → (result ≡ Fetch.Failed) ⊎ (result ≡ Fetch.NoMemory) }
        ensures raised { result ≡ Fetch.Failed → self.new.faults ≡ one_more self.old.faults }
        ensures counted { self.new.calls ≡ one_more self.old.calls }
        ensures same { (self.new.files ≡ self.old.files) × (self.new.failing ≡ self.old.failing) }
    {
        let call = self.calls;
        self.calls = call.saturating_add(1);
        let Ok(asked) = String::from_str(self.alloc, name) else {
            return Fetch::NoMemory;
        };
        if self.asked.push(asked).is_err() {
            return Fetch::NoMemory;
        }
        if is_listed(&self.failing, call) {
            self.faults = self.faults.saturating_add(1);
            return Fetch::Failed;
        }
        match find(&self.files, name) {
            Some(file) => hand_over(self.alloc, file, limit, into),
            None => Fetch::Absent,
        }
    }
}
