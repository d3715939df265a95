//! Writes the canonical form of a set of rows, row by row and in one walk, with all memory taken before.
//!
//! A [`Renderer`] follows Canonical XML 1.0 or 1.1, or Exclusive XML Canonicalization 1.0. These differ in which namespace
//! rows are written (`namespaces`), which `xml:` attributes are imported (`imports`), and whether values of `xml:base` are
//! joined (`bases`); tags, texts, comments and instructions are the same (`rows`). What the elements above a row mean for it
//! stands on stacks (`stacks`).
#![tactic(auto)]

mod attributes;
mod bases;
mod imports;
mod names;
mod namespaces;
mod nearest;
mod prefixes;
mod renderer;
mod rows;
mod stacks;
mod utilized;
mod walk;

pub use namespaces::Method;
pub use prefixes::Listed;
pub use renderer::{Renderer, write_once};
