//! The name that the prefix `xml` is bound to.

/// The namespace name of the prefix `xml` (Namespaces in XML 1.0 §3).
pub const XML_NAME: &str = "http://www.w3.org/XML/1998/namespace";
