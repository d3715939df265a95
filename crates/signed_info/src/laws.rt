//! Laws of the definitions: they need no code, and take no memory.
ghost use Rattle.signed_info.specs.Signed.{ElementsSayTheSame, SignedOctetsFixTheFields};

/// The element that the canonical form of an element is read as says the same (Canonical XML 1.0 §2.3): it stands in row 1, and
/// has the same names, attributes in no namespace, texts and elements, however deep.
pub fn elements_say_the_same()
    ensures { ElementsSayTheSame }
{}

/// The octets that were signed can be read, and whoever reads them finds in them what the signature has of its SignedInfo (XML
/// Signature 1.1 §3.2.2 and §4.4), row numbers aside.
pub fn signed_octets_fix_the_fields()
    ensures { SignedOctetsFixTheFields }
{}
