//! Several elements that have text alone, each of which gets another text: what is read of the document afterwards.
#![tactic(auto)]

mod laws;

pub use crate::laws::{
    fillings_lie_in_order, forms_in_front_are_the_same, texts_are_read_again,
    texts_in_front_are_read_alike, the_last_text_changes_alone, the_same_texts_change_nothing,
};
