//! The job that the words of a command line name.

use sig_base::{CanonMethod, DigestMethod, MacMethod, PrefixList, Text};
use uri_refs::Base;

/// What a validation and a signing ask for.
#[derive(Drop)]
pub struct Asked {
    /// The name of the document.
    pub doc: Text,
    /// The name of the key file.
    pub keys: Text,
    /// The name of the key.
    pub key: Option<Text>,
    /// The number of the signature in the document, from 1.
    pub index: u32,
    /// The base to which URIs are joined.
    pub base: Base,
    /// The name of the catalog.
    pub catalog: Option<Text>,
}

/// A command, with the values of its words.
#[derive(Drop)]
pub enum Job {
    /// Validate a signature.
    Validate {
        asked: Asked,
        /// The folder for the views.
        views: Option<Text>,
        /// Whether manifests are checked.
        manifests: bool,
    },
    /// Fill in a template.
    Sign {
        asked: Asked,
    },
    /// Write a canonical form.
    Canon {
        doc: Text,
        method: CanonMethod,
        /// The ID of the element whose subtree is written.
        id: Option<Text>,
        /// The expression that filters the nodes.
        xpath: Option<Text>,
        /// The PrefixList of an exclusive method.
        prefixes: PrefixList,
    },
    /// Put a template of a signature into a document.
    Template {
        doc: Text,
        mac: MacMethod,
        digest: DigestMethod,
        /// The name of the key.
        key: Option<Text>,
    },
    /// Sign and validate a document that is made from a number.
    SelfTest {
        paragraphs: u32,
    },
}
