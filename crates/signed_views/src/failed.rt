//! Keepers that failed since their faults were counted. A caller that hands views on again goes on without them.
ghost use Rattle.std.specs.Prelude.{◌≡◌, ◌+◌, IfOk, length, map};
ghost use Rattle.signed_views.specs.Stood.{stood_of};

use sig_base::{NoMemory, Numbers};
use sig_outside::ViewKeeper;
use std::alloc::Global;

/// How often each keeper has failed, in the order of the keepers.
pub fn fault_counts<K: ViewKeeper>(alloc: Global, keepers: &[K]) -> Result<Numbers, NoMemory>
    ensures { IfOk result (λ counts. counts ≡ map K.faults keepers.now) }
{
    let mut counts = Numbers::new(alloc);
    for keeper in keepers {
        counts.push(keeper.faults_now())?;
    }
    Ok(counts)
}

/// Drops each keeper whose count is no longer the one in `before`, and tells how many those are. The others stay as they
/// were, in their order. It takes no memory.
pub fn drop_failed<K: ViewKeeper>(keepers: &mut Vec<K>, before: &Numbers) -> u64
    requires { length keepers.old.items ≡ length before.now }
    ensures kept { keepers.new.items ≡ stood_of K.faults keepers.old.items before.now }
    ensures dropped { result + length keepers.new.items ≡ length keepers.old.items }
{
    let counts = before.as_slice();
    let number = keepers.len();
    let mut kept = 0;
    for place in 0..number {
        if keepers[place].faults_now() == counts[place] {
            keepers.swap(kept, place);
            kept += 1;
        }
    }
    keepers.truncate(kept);
    (number - kept) as u64
}
