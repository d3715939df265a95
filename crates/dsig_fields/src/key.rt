//! The key that a validation uses.

ghost use Rattle.dsig_fields.specs.Keys as spec;

use crate::fields::Fields;
use digests_hmac::{Key, KeyTable};
use uri_refs::Place;

/// What is asked of a validation.
#[derive(Drop)]
pub struct Question<'q> {
    /// Which Signature of the document, counted from 1 in document order.
    pub index: u32,
    /// The name of the key. Without one the first KeyName of the signature tells it.
    pub key_name: Option<&'q str>,
    /// The keys.
    pub keys: &'q KeyTable,
    /// Where the URIs of References lead.
    pub place: &'q Place,
    /// Whether the views are wanted.
    pub keep_views: bool,
}

/// Why there is no key to validate with.
#[derive(Clone, Copy, Debug, PartialEq, Eq, Drop)]
pub enum KeyChoice {
    /// No name is given, and the table hasn't exactly one key.
    NoKey,
    /// No key has the name that is given.
    UnknownKey,
}

/// The key of the name that the question gives, else of the name in the signature's first KeyName. With no name it is the
/// only key of the table.
pub fn choose_key<'q>(fields: &Fields, question: &Question<'q>) -> Result<&'q Key, KeyChoice>
    ensures { spec.Chooses result (spec.key_of fields.now.key_name (spec.question_of question.now)) }
{
    match question.key_name {
        Some(name) => question.keys.find(name).ok_or(KeyChoice::UnknownKey),
        None => match &fields.key_name {
            Some(name) => question
                .keys
                .find(name.as_str())
                .ok_or(KeyChoice::UnknownKey),
            None => question.keys.only().ok_or(KeyChoice::NoKey),
        },
    }
}
