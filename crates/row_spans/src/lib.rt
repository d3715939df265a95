//! Elements that have text alone, by their rows: where their content lies, and what another text there changes.
#![tactic(auto)]

mod laws;
mod write;

pub use crate::laws::{
    a_text_is_read_again, content_lies_at_its_offsets, contents_lie_in_order, offsets_lie_within,
    only_texts_are_text_alone,
};
pub use crate::write::{Span, write_spans};
