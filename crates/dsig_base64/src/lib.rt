//! Base64 as XML signatures have it (RFC 4648 §4): read with white space anywhere, written without.
#![tactic(auto)]

ghost use Rattle.std.specs.Prelude.{◌≡◌, ◌↔◌, ◌≤◌, ◌+◌, ◌*◌, ◌/◌, ◌++◌, IfOk, IsErr, length, take, drop};
ghost use Rattle.base64.specs.Engines.{standard};
ghost use Rattle.base64.specs.GeneralPurpose.{decoded_of};
ghost use Rattle.dsig_base64.specs.Loose.{base64_of, octets_in, without_space};

pub mod laws;

use base64::engine::general_purpose::STANDARD;
use sig_base::is_space;

/// The text isn't base64 with full padding and zero spare bits.
#[derive(Clone, Copy, Debug, PartialEq, Eq, Drop)]
pub struct NotBase64;

/// Writes the text less its white space to the start of `into`, and gives its length.
fn drop_space(text: &[u8], into: &mut [u8]) -> usize
    requires { length text.now ≤ length into.old }
    ensures within { result ≤ length text.now }
    ensures written { take result into.new ≡ without_space text.now }
{
    let mut kept = 0;
    for octet in text {
        if !is_space(*octet) {
            into[kept] = *octet;
            kept += 1;
        }
    }
    kept
}

/// Decodes a text that may hold no white space to the start of `into`, and gives the number of octets.
fn decode_strict(text: &[u8], into: &mut [u8]) -> Result<usize, NotBase64>
    requires { length text.now ≤ length into.old }
    ensures decoded { IfOk result (λ n. (n ≤ length into.new) × (decoded_of standard text.now ≡ Some (take n into.new))) }
    ensures refused { IsErr result ↔ (decoded_of standard text.now ≡ None) }
{
    // The decoder wants room for whole groups, which a text has that is cut into groups of four.
    if text.len() % 4 != 0 {
        return Err(NotBase64);
    }
    match STANDARD.decode_slice_unchecked(text, into) {
        Ok(n) => Ok(n),
        Err(_) => Err(NotBase64),
    }
}

/// Decodes a base64 text that may hold white space anywhere: space, tab, CR and LF are left out.
///
/// `into` is at least twice as long as the text. With `Ok(n)` its first `n` octets are those that the text spells; of
/// its other octets nothing is said, nor of any after `NotBase64`. `NotBase64` comes exactly where the text without its
/// white space isn't base64 with full padding and zero spare bits (RFC 4648 §3.2, §3.5 and §4).
#[tactic(auto, unfolding(crate::specs::Loose::octets_in))]
pub fn decode_loose(text: &[u8], into: &mut [u8]) -> Result<usize, NotBase64>
    requires { 2 * length text.now ≤ length into.old }
    ensures decoded { IfOk result (λ n. (n ≤ length into.new) × (octets_in text.now ≡ Some (take n into.new))) }
    ensures refused { IsErr result ↔ (octets_in text.now ≡ None) }
{
    // The text less its white space goes behind the place of the octets, so that nothing has to be moved.
    let (decoded, left) = into.split_at_mut(text.len());
    let kept = drop_space(text, left);
    decode_strict(&left[..kept], decoded)
}

/// Writes the base64 of the octets, with full padding and no white space, to the start of `into`, and gives its length.
/// The rest of `into` stays as it is. There is room for four octets for each begun group of three.
#[tactic(auto, unfolding(crate::specs::Loose::base64_of))]
pub fn encode_into(bytes: &[u8], into: &mut [u8]) -> usize
    requires { 4 * ((length bytes.now + 2) / 3) ≤ length into.old }
    ensures len { result ≡ length (base64_of bytes.now) }
    ensures written { into.new ≡ base64_of bytes.now ++ drop result into.old }
    ensures size { result ≡ 4 * ((length bytes.now + 2) / 3) }
{
    STANDARD.encode_slice(bytes, into).unwrap()
}

#[cfg(test)]
mod tests {
    use super::*;

    #[test]
    fn texts_of_one_octet(rt: HostRuntime) {
        let mut into = [0u8; 16];
        assert!(rt; decode_loose(b"QQ==", &mut into) == Ok(1));
        assert!(rt; into[0] == 0x41);
        assert!(rt; decode_loose(b"QR==", &mut into) == Err(NotBase64));
        assert!(rt; decode_loose(b"QQ", &mut into) == Err(NotBase64));
        assert!(rt; decode_loose(b"", &mut into) == Ok(0));
        assert!(rt; decode_loose(b"Q Q\n= =", &mut into) == Ok(1));
        assert!(rt; decode_loose(b"Q\x0cQ==", &mut into) == Err(NotBase64));
    }

    #[test]
    fn examples_of_the_standard(rt: HostRuntime) {
        for (octets, text) in [
            ("", ""),
            ("f", "Zg=="),
            ("fo", "Zm8="),
            ("foo", "Zm9v"),
            ("foob", "Zm9vYg=="),
        ] {
            let mut into = [0u8; 16];
            let n = encode_into(octets.as_bytes(), &mut into);
            assert!(rt; &into[..n] == text.as_bytes());
        }
    }
}
