//! Handing views on.
ghost use Rattle.std.specs.Prelude.{◌≡◌, length};
ghost use Rattle.signed_views.specs.Handing.{EachGrew, CountsStand, pairs_of};
ghost use Rattle.signed_views.specs.Given.{handed_to, HandedCause};
ghost use Rattle.signed_views.specs.Code.Given.{given_to, GivenCause};

use crate::names::Names;
use sig_base::Views;
use sig_outside::{Kept, ViewKeeper};

/// How the handing on ended. Both numbers count from 1.
#[derive(Clone, Copy, Debug, PartialEq, Eq)]
pub enum Handed {
    /// Each keeper has each view.
    Done,
    /// That keeper failed at that view.
    Failed {
        /// The number of the view.
        view: u64,
        /// The number of the keeper.
        keeper: u64,
    },
    /// That keeper wanted memory at that view.
    Memory {
        /// The number of the view.
        view: u64,
        /// The number of the keeper.
        keeper: u64,
    },
}

/// How the handing of one pair to each keeper ended. A place counts from 0.
#[derive(Clone, Copy, Debug, PartialEq, Eq)]
enum Given {
    /// Each keeper has it.
    All,
    /// The keeper at that place failed.
    Failed(usize),
    /// The keeper at that place wanted memory.
    NoMemory(usize),
}

/// Hands one pair to each keeper in turn, up to the first that doesn't take it.
fn give<K: ViewKeeper>(keepers: &mut Vec<K>, name: &str, bytes: &[u8]) -> Given
    ensures grew { EachGrew K.pairs (given_to (name.now, bytes.now) result) keepers.old.items keepers.new.items }
    ensures counts { CountsStand K.faults keepers.old.items keepers.new.items }
    ensures cause { GivenCause K.faults result keepers.old.items keepers.new.items }
{
    for place in 0..keepers.len() {
        match keepers[place].take(name, bytes) {
            Kept::Done => {}
            Kept::Failed => return Given::Failed(place),
            Kept::NoMemory => return Given::NoMemory(place),
        }
    }
    Given::All
}

/// Hands view 1 to each keeper in turn, then view 2, up to the first view that a keeper doesn't take.
pub fn hand_on<K: ViewKeeper>(keepers: &mut Vec<K>, names: &Names, views: &Views) -> Handed
    requires { length names.now ≡ length views.now.octets }
    ensures grew { EachGrew K.pairs (handed_to (pairs_of names.now views.now.octets) result) keepers.old.items keepers.new.items }
    ensures counts { CountsStand K.faults keepers.old.items keepers.new.items }
    ensures cause { HandedCause K.faults (length names.now) result keepers.old.items keepers.new.items }
{
    for index in 0..names.len() {
        let Some(name) = names.get(index) else {
            unreachable!();
        };
        let Some(octets) = views.octets.get(index) else {
            unreachable!();
        };
        match give(keepers, name.as_str(), octets.bytes()) {
            Given::All => {}
            Given::Failed(place) => {
                return Handed::Failed {
                    view: index as u64 + 1,
                    keeper: place as u64 + 1,
                };
            }
            Given::NoMemory(place) => {
                return Handed::Memory {
                    view: index as u64 + 1,
                    keeper: place as u64 + 1,
                };
            }
        }
    }
    Handed::Done
}
