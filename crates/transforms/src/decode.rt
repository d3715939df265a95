//! Base64 decoding (XML Signature 1.1 §6.6.2).

ghost use Rattle.std.specs.Prelude.{◌≡◌, IfOk};
ghost use Rattle.dsig_base64.specs.Loose.{octets_in};
ghost use Rattle.transforms.specs.Code.Answers.{Gives};
ghost use Rattle.transforms.specs.Steps as spec;

use crate::refusal::RefRefusal;
use dsig_base64::decode_loose;
use sig_base::{NoMemory, Octets};
use std::alloc::Global;

/// The octets that a text spells in base64; `None` where it isn't base64.
fn octets_in(alloc: Global, text: &[u8]) -> Result<Option<Octets>, NoMemory>
    ensures { IfOk result (λ octets. octets ≡ octets_in text.now) }
{
    let mut octets = vec![in alloc; 0u8; 2 * text.len()]?;
    match decode_loose(text, &mut octets) {
        Ok(count) => {
            octets.truncate(count);
            Ok(Some(Octets::from_vec(octets)))
        }
        Err(_) => Ok(None),
    }
}

/// The same, as the step of this number decodes it.
pub(crate) fn decode(alloc: Global, text: &[u8], number: u32) -> Result<Octets, RefRefusal>
    ensures { Gives (λ o. o) result (spec.spelled number (octets_in text.now)) }
{
    match octets_in(alloc, text)? {
        Some(octets) => Ok(octets),
        None => Err(RefRefusal::NotBase64(number)),
    }
}
