//! The elements that are read, by name.

ghost use Rattle.std.specs.Prelude.{◌≡◌};
ghost use Rattle.dsig_fields.specs.Names as spec;

/// An element that the grammar of signatures names (XML Signature 1.1 §4).
#[derive(Clone, Copy, Debug, PartialEq, Eq, Drop)]
pub enum ElementName {
    /// `Signature`.
    Signature,
    /// `SignedInfo`.
    SignedInfo,
    /// `SignatureValue`.
    SignatureValue,
    /// `KeyInfo`.
    KeyInfo,
    /// `KeyName`.
    KeyName,
    /// `Object`.
    Object,
    /// `CanonicalizationMethod`.
    CanonicalizationMethod,
    /// `SignatureMethod`.
    SignatureMethod,
    /// `HMACOutputLength`.
    HmacOutputLength,
    /// `Reference`.
    Reference,
    /// `Transforms`.
    Transforms,
    /// `Transform`.
    Transform,
    /// `XPath` in the namespace of signatures.
    XPath,
    /// `XPath` in the namespace of XPath Filter 2.0.
    FilterXPath,
    /// `DigestMethod`.
    DigestMethod,
    /// `DigestValue`.
    DigestValue,
    /// `InclusiveNamespaces` in the namespace of Exclusive XML Canonicalization.
    InclusiveNamespaces,
}

impl ElementName {
    /// The namespace name.
    pub fn namespace(self) -> &'static str
        ensures { result.now ≡ spec.namespace_of self }
    {
        match self {
            ElementName::InclusiveNamespaces => "http://www.w3.org/2001/10/xml-exc-c14n#",
            ElementName::FilterXPath => "http://www.w3.org/2002/06/xmldsig-filter2",
            _ => "http://www.w3.org/2000/09/xmldsig#",
        }
    }

    /// The local name.
    pub fn local_name(self) -> &'static str
        ensures { result.now ≡ spec.local_name self }
    {
        match self {
            ElementName::Signature => "Signature",
            ElementName::SignedInfo => "SignedInfo",
            ElementName::SignatureValue => "SignatureValue",
            ElementName::KeyInfo => "KeyInfo",
            ElementName::KeyName => "KeyName",
            ElementName::Object => "Object",
            ElementName::CanonicalizationMethod => "CanonicalizationMethod",
            ElementName::SignatureMethod => "SignatureMethod",
            ElementName::HmacOutputLength => "HMACOutputLength",
            ElementName::Reference => "Reference",
            ElementName::Transforms => "Transforms",
            ElementName::Transform => "Transform",
            ElementName::XPath => "XPath",
            ElementName::FilterXPath => "XPath",
            ElementName::DigestMethod => "DigestMethod",
            ElementName::DigestValue => "DigestValue",
            ElementName::InclusiveNamespaces => "InclusiveNamespaces",
        }
    }
}
