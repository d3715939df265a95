//! Reads the characters of an XML document (XML 1.0, fifth edition) into the events of the one tree that they spell.
//!
//! A document in UTF-8 is read from left to right, with a stack of the open elements. [`read_events`] answers the nodes in
//! document order, with the offsets of tags in the document as it was given. Namespaces, limits and rows are for the
//! crates above. A document type declaration is refused.
#![tactic(auto)]

mod attribute;
mod class;
mod content;
mod cursor;
mod declaration;
mod document;
mod event;
mod fault;
mod item;
mod laws;
mod literal;
mod parts;
mod pending;
mod prolog;
mod reference;
mod run;
mod tag;

pub use crate::document::read_events;
pub use crate::event::{Attribute, Event, Instruction, Tag, Text};
pub use crate::fault::SyntaxFault;
pub use crate::laws::{documents_are_read, one_tree, outcomes, parts_are_read};

#[cfg(test)]
mod tests;
