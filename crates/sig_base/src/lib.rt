//! The base of the engine: small lists, the names of methods, the lines of a text, and sinks of octets.
//!
//! Identifiers are those of XML Signature 1.1 and RFC 6931, compared octet by octet.
//!
//! Every crate that writes octets writes them to an [`OctetSink`], so that a text, its length and its digest are made by
//! one writer.
#![tactic(auto)]

mod characters;
mod lines;
mod lists;
mod memory;
mod method;
mod names;
mod prefixes;
mod sink;
mod sinks;
mod space;

pub use characters::split_first;
pub use lines::{first_line, have_no_controls, is_skipped, place_of};
pub use lists::{Members, Numbers, Octets, OctetsList, PrefixList, Text, Views};
pub use memory::NoMemory;
pub use method::{
    CanonMethod, DigestMethod, FilterKind, MacMethod, canon_method_of, digest_method_of,
    mac_method_of,
};
pub use names::XML_NAME;
pub use prefixes::names_in;
pub use sink::{OctetSink, Put, put_pieces};
pub use sinks::{LenSink, VecSink};
pub use space::is_space;
