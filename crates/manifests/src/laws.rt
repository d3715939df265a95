//! Laws of the definitions. Their functions do nothing; what they ensure holds of every argument.

ghost use Rattle.manifests.specs.Laws.{AllAnswered, FewEntries, LinesTell};

/// Each line is true: of the Reference of its number, whose Type says that it refers to a Manifest, and of the entry of its number
/// in the one Manifest element that the Reference covers (XML Signature 1.1 §5.1).
pub fn lines_tell()
    ensures { LinesTell }
{}

/// No line is missing: each Reference whose Type says that it refers to a Manifest has one line of its own, or a line for each
/// entry of the Manifest.
pub fn all_answered()
    ensures { AllAnswered }
{}

/// At most 1,024 lines are of entries; with those of a Manifest that is too many there would be more.
pub fn few_entries()
    ensures { FewEntries }
{}
