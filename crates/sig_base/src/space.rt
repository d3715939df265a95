//! White space.
ghost use Rattle.std.specs.Prelude.{◌≡◌};
ghost use Rattle.sig_base.specs.Space.{is_space};

/// Whether the octet is white space of XML (XML 1.0 §2.3).
pub fn is_space(octet: u8) -> bool
    ensures { result ≡ is_space octet }
{
    octet == b' ' || octet == b'\t' || octet == b'\r' || octet == b'\n'
}
