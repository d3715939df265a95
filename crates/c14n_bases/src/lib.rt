//! Joining values of `xml:base`.
//!
//! [`join_base`] writes the value that a value gives below a base. The rule is this project's own, after RFC 3986 §5.2:
//! values are texts of any kind, relative ones too, and fragments are dropped. What it gives is `join` of
//! `specs/Join.antt`. [`join_into`] does the same into a buffer, in linear time.
//!
//! [`Joined`] is for many bases, which [`Bases`] prepares once: a value that is joined below one after another grows at its
//! front, so that each base costs about what is put there, and neither its own length nor the value's.
#![tactic(auto)]

mod bases;
mod clean;
mod cut;
mod fill;
mod front;
mod join;
mod joined;
mod kind;
mod place;
mod prepare;
mod value;

pub use bases::Bases;
pub use join::join_base;
pub use joined::Joined;

#[cfg(test)]
mod bases_tests;
#[cfg(test)]
mod tests;
