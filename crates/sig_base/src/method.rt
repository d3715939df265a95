//! The methods that a signature names, and the identifiers by which it names them.
ghost use Rattle.std.specs.Prelude.{◌≡◌};
ghost use Rattle.sig_base.specs.Methods.{canon_method_of, digest_method_of, is_exclusive, mac_method_of};

/// A canonicalization method (XML Signature 1.1 §6.5).
#[derive(Clone, Copy, Debug, PartialEq, Eq, Drop)]
pub enum CanonMethod {
    /// Canonical XML 1.0, without comments.
    C10,
    /// Canonical XML 1.0, with comments.
    C10Comments,
    /// Canonical XML 1.1, without comments.
    C11,
    /// Canonical XML 1.1, with comments.
    C11Comments,
    /// Exclusive XML Canonicalization 1.0, without comments.
    Exc,
    /// Exclusive XML Canonicalization 1.0, with comments.
    ExcComments,
}

impl CanonMethod {
    /// Whether the method takes a PrefixList (Exclusive XML Canonicalization 1.0 §4).
    pub fn is_exclusive(self) -> bool
        ensures { result ≡ is_exclusive self }
    {
        matches!(self, CanonMethod::Exc | CanonMethod::ExcComments)
    }
}

/// A digest method (XML Signature 1.1 §6.2, FIPS 180-4).
#[derive(Clone, Copy, Debug, PartialEq, Eq, Drop)]
pub enum DigestMethod {
    /// SHA-1, of 160 bits.
    Sha1,
    /// SHA-224.
    Sha224,
    /// SHA-256.
    Sha256,
    /// SHA-384.
    Sha384,
    /// SHA-512.
    Sha512,
}

/// A method of message authentication (XML Signature 1.1 §6.3, RFC 2104).
#[derive(Clone, Copy, Debug, PartialEq, Eq, Drop)]
pub enum MacMethod {
    /// HMAC over SHA-1.
    HmacSha1,
    /// HMAC over SHA-224.
    HmacSha224,
    /// HMAC over SHA-256.
    HmacSha256,
    /// HMAC over SHA-384.
    HmacSha384,
    /// HMAC over SHA-512.
    HmacSha512,
}

/// What an XPath filter does to the node set that it is given (XML-Signature XPath Filter 2.0 §3.3).
#[derive(Clone, Copy, Debug, PartialEq, Eq, Drop)]
pub enum FilterKind {
    /// Keeps the nodes that are selected too.
    Intersect,
    /// Takes away the nodes that are selected.
    Subtract,
    /// Adds the nodes that are selected.
    Union,
}

/// The canonicalization method of this identifier (XML Signature 1.1 §6.5). `None` comes exactly where none has it.
pub fn canon_method_of(uri: &str) -> Option<CanonMethod>
    ensures { result ≡ canon_method_of uri.now }
{
    match uri {
        "http://www.w3.org/TR/2001/REC-xml-c14n-20010315" => Some(CanonMethod::C10),
        "http://www.w3.org/TR/2001/REC-xml-c14n-20010315#WithComments" => {
            Some(CanonMethod::C10Comments)
        }
        "http://www.w3.org/2006/12/xml-c14n11" => Some(CanonMethod::C11),
        "http://www.w3.org/2006/12/xml-c14n11#WithComments" => Some(CanonMethod::C11Comments),
        "http://www.w3.org/2001/10/xml-exc-c14n#" => Some(CanonMethod::Exc),
        "http://www.w3.org/2001/10/xml-exc-c14n#WithComments" => Some(CanonMethod::ExcComments),
        _ => None,
    }
}

/// The digest method of this identifier (XML Signature 1.1 §6.2). `None` comes exactly where none has it.
pub fn digest_method_of(uri: &str) -> Option<DigestMethod>
    ensures { result ≡ digest_method_of uri.now }
{
    match uri {
        "http://www.w3.org/2000/09/xmldsig#sha1" => Some(DigestMethod::Sha1),
        "http://www.w3.org/2001/04/xmldsig-more#sha224" => Some(DigestMethod::Sha224),
        "http://www.w3.org/2001/04/xmlenc#sha256" => Some(DigestMethod::Sha256),
        "http://www.w3.org/2001/04/xmldsig-more#sha384" => Some(DigestMethod::Sha384),
        "http://www.w3.org/2001/04/xmlenc#sha512" => Some(DigestMethod::Sha512),
        _ => None,
    }
}

/// The HMAC method of this identifier (XML Signature 1.1 §6.3). `None` comes exactly where none has it.
pub fn mac_method_of(uri: &str) -> Option<MacMethod>
    ensures { result ≡ mac_method_of uri.now }
{
    match uri {
        "http://www.w3.org/2000/09/xmldsig#hmac-sha1" => Some(MacMethod::HmacSha1),
        "http://www.w3.org/2001/04/xmldsig-more#hmac-sha224" => Some(MacMethod::HmacSha224),
        "http://www.w3.org/2001/04/xmldsig-more#hmac-sha256" => Some(MacMethod::HmacSha256),
        "http://www.w3.org/2001/04/xmldsig-more#hmac-sha384" => Some(MacMethod::HmacSha384),
        "http://www.w3.org/2001/04/xmldsig-more#hmac-sha512" => Some(MacMethod::HmacSha512),
        _ => None,
    }
}
