//! A folder of files, each under a name.
ghost use Rattle.std.specs.Option.{ForSome};
ghost use Rattle.std.specs.Prelude.{◌≡◌, List, ℕ, Option};

/// What a folder answers to a request for a file.
#[derive(Clone, Copy, Debug, PartialEq, Eq)]
pub enum Fetch {
    /// The file was read.
    Found,
    /// No file has the name.
    Absent,
    /// The file is longer than the limit.
    TooLong,
    /// The file could not be read, and the count of faults rose.
    Failed,
    /// Memory was wanting.
    NoMemory,
}

/// A folder of files, each under a name.
pub trait Folder {
    ghost use Rattle.sig_outside.specs.Told.{Held};
    ghost use Rattle.sig_outside.specs.Fetches.{FetchAnswer, Replaces, Asks, FetchCounts};

    /// The octets under each name that is held, where the folder tells them.
    ghost held: { Self → Option Held };

    /// The names that were asked for so far, the first one first, where `held` is told.
    ghost asked: { Self → List (List ℕ) };

    /// How often the folder has failed.
    ghost faults: { Self → ℕ };

    /// Reads the file of that name into `into`, in place of what stood there, if it has at most
    /// `limit` octets. Any answer but `Found` leaves `into` as it was.
    fn fetch(&mut self, name: &str, limit: u64, into: &mut Vec<u8>) -> Fetch
        ensures held { held self.new ≡ held self.old }
        ensures asked { ForSome (held self.old) (λ _. Asks name.now result (asked self.old) (asked self.new)) }
        ensures answer { ForSome (held self.old) (λ files. FetchAnswer (files name.now) limit result into.new.items) }
        ensures into { Replaces result into.old.items into.new.items }
        ensures cause { FetchCounts result (faults self.old) (faults self.new) };
}
