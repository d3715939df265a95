//! Numbers and text functions of XPath 1.0 (§3.5, §4.2 and §4.4), with numbers restricted to whole numbers and NaN.
//!
//! Contracts see each text as the list of its characters, so lengths and places count characters and not octets.
#![tactic(auto)]

mod number;
mod scan;
#[cfg(test)]
mod tests;
mod text;

pub use number::{Number, NumberFault, number_of_text, text_of_number};
pub use text::{
    append, concat, contains, normalize_space, starts_with, string_length, substring,
    substring_after, substring_before, translate,
};
