//! Digests (FIPS 180-4), HMAC (RFC 2104) and the keys of a key file.
#![tactic(auto)]

mod hasher;
mod key_table;
mod keys;
pub mod laws;
mod mac;
mod value;

pub use hasher::{DigestSink, digest};
pub use key_table::{Key, KeyFault, KeyTable};
pub use mac::{MacSink, hmac, hmac_matches, output_bits};
pub use value::Digest;

#[cfg(test)]
mod tests;
