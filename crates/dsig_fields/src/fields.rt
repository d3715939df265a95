//! What the elements of a signature say.

use sig_base::{
    CanonMethod, DigestMethod, FilterKind, MacMethod, Members, Octets, PrefixList, Text,
};

/// A filter of an XPath Filter 2.0 Transform (XML-Signature XPath Filter 2.0 §3.3).
#[derive(Drop)]
pub struct Filter {
    /// What it does to the set.
    pub kind: FilterKind,
    /// The row of the XPath element.
    pub row: u32,
    /// The expression.
    pub text: Text,
}

/// The filters of a Transform, in order: 1 to 16.
pub type FilterList = Members<Filter>;

/// What a Transform does (XML Signature 1.1 §6.6).
#[derive(Drop)]
pub enum Step {
    /// Canonicalization (§6.6.1).
    Canon {
        /// The method.
        method: CanonMethod,
        /// The PrefixList of an exclusive method; empty for another.
        prefixes: PrefixList,
    },
    /// Base64 decoding (§6.6.2).
    Base64,
    /// XPath filtering (§6.6.3).
    XPath {
        /// The row of the XPath element.
        row: u32,
        /// The expression.
        text: Text,
    },
    /// XPath Filter 2.0.
    Filters(FilterList),
    /// The enveloped signature transform (§6.6.4).
    Enveloped,
}

/// The Transforms of a Reference, in order: at most 16.
pub type StepList = Members<Step>;

/// A Reference (XML Signature 1.1 §4.4.3).
#[derive(Drop)]
pub struct Reference {
    /// The row of the Reference element.
    pub row: u32,
    /// The URI.
    pub uri: Text,
    /// Whether the Type says that a Manifest is referred to (§5.1).
    pub manifest: bool,
    /// The Transforms.
    pub steps: StepList,
    /// The digest method.
    pub digest: DigestMethod,
    /// The row of the DigestValue element.
    pub digest_row: u32,
    /// The octets of the DigestValue.
    pub expected: Octets,
}

/// The References of a SignedInfo, in order: 1 to 256.
pub type ReferenceList = Members<Reference>;

/// What a CanonicalizationMethod says (XML Signature 1.1 §4.4.1).
#[derive(Drop)]
pub(crate) struct Canonicalization {
    pub(crate) method: CanonMethod,
    pub(crate) prefixes: PrefixList,
}

/// What a SignatureMethod says (XML Signature 1.1 §4.4.2).
#[derive(Drop)]
pub(crate) struct Authentication {
    pub(crate) mac: MacMethod,
    pub(crate) bits: Option<u32>,
}

/// What a SignedInfo says (XML Signature 1.1 §4.4).
#[derive(Drop)]
pub struct Info {
    /// The canonicalization method (§4.4.1).
    pub canon: CanonMethod,
    /// Its PrefixList, where it is exclusive; empty for another.
    pub prefixes: PrefixList,
    /// The method of message authentication (§4.4.2).
    pub mac: MacMethod,
    /// The HMACOutputLength in bits, where one is given: whole octets, and no more than the HMAC has.
    pub bits: Option<u32>,
    /// The References (§4.4.3).
    pub references: ReferenceList,
}

/// What a Signature says (XML Signature 1.1 §4.1).
#[derive(Drop)]
pub struct Fields {
    /// The row of the Signature element.
    pub signature: u32,
    /// The row of the SignedInfo element.
    pub signed_info: u32,
    /// The row of the SignatureValue element.
    pub value_row: u32,
    /// The canonicalization method of SignedInfo (§4.4.1).
    pub canon: CanonMethod,
    /// Its PrefixList, where it is exclusive; empty for another.
    pub prefixes: PrefixList,
    /// The method of message authentication (§4.4.2).
    pub mac: MacMethod,
    /// The HMACOutputLength in bits, where one is given: whole octets, and no more than the HMAC has.
    pub bits: Option<u32>,
    /// The References (§4.4.3).
    pub references: ReferenceList,
    /// The octets of the SignatureValue.
    pub value: Octets,
    /// The content of the first KeyName, where there is one.
    pub key_name: Option<Text>,
}
