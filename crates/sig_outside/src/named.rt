//! What the forms in memory have in common: octets under a name, and calls that are to fail.
ghost use Rattle.std.specs.Prelude.{◌≡◌, ◌↔◌, IsTrue, Contains, IfOk, string_bytes};

use sig_base::NoMemory;
use std::alloc::Global;

/// Octets under a name.
#[derive(Drop)]
pub(crate) struct Named {
    pub(crate) name: String,
    pub(crate) bytes: Vec<u8>,
}

/// A copy of the name and the octets.
pub(crate) fn copy_named(alloc: Global, name: &str, bytes: &[u8]) -> Result<Named, NoMemory>
    ensures { IfOk result (λ e. (string_bytes e.name ≡ name.now) × (e.bytes.items ≡ bytes.now)) }
{
    let name = String::from_str(alloc, name)?;
    let bytes = bytes.to_vec(alloc)?;
    Ok(Named { name, bytes })
}

/// Whether call number `call` is one of those that are to fail.
pub(crate) fn is_listed(failing: &Vec<u64>, call: u64) -> bool
    ensures { IsTrue result ↔ Contains failing.now.items call }
{
    failing.contains(&call)
}
