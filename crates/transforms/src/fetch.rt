//! Files of the folder.

ghost use Rattle.std.specs.Prelude.{◌≡◌, ◌∷◌, []};
ghost use Rattle.std.specs.Option.{ForSome};
ghost use Rattle.transforms.specs.Answers.{AsksAll, FaultCounts};
ghost use Rattle.transforms.specs.Code.Answers.{BlamesNoSink, Fetched};
ghost use Rattle.transforms.specs.Start.{file_value};

use crate::refusal::RefRefusal;
use sig_base::Octets;
use sig_outside::{Fetch, Folder};
use std::alloc::Global;

/// The octets that a file may have.
const FILE_LIMIT: u64 = 4_194_304;

/// Fetches a file.
pub(crate) fn fetch_file<F: Folder>(
    alloc: Global,
    name: &str,
    folder: &mut F,
) -> Result<Octets, RefRefusal>
    ensures value { ForSome (F.held folder.old) (λ files. Fetched result (file_value (files name.now))) }
    ensures held { F.held folder.new ≡ F.held folder.old }
    ensures asked { ForSome (F.held folder.old) (λ _. AsksAll result (name.now ∷ []) (F.asked folder.old) (F.asked folder.new)) }
    ensures faults { FaultCounts result (F.faults folder.old) (F.faults folder.new) }
    ensures sink { BlamesNoSink result }
{
    let mut octets = Vec::new(alloc);
    match folder.fetch(name, FILE_LIMIT, &mut octets) {
        Fetch::Found => Ok(Octets::from_vec(octets)),
        Fetch::Absent => Err(RefRefusal::Absent),
        Fetch::TooLong => Err(RefRefusal::TooLong),
        Fetch::Failed => Err(RefRefusal::FetchFailed),
        Fetch::NoMemory => Err(RefRefusal::Memory),
    }
}
