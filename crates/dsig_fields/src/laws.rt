//! Laws of the definitions. Their functions do nothing; what they ensure holds of every argument.

ghost use Rattle.dsig_fields.specs.Content.{ReadExactly};
ghost use Rattle.dsig_fields.specs.Same.{InfoSaysTheSame};
ghost use Rattle.dsig_fields.specs.Verdicts.{VerdictsAreOne};

/// The fields of an element are read exactly where its children, comments, instructions and white space aside, are SignedInfo,
/// SignatureValue, an optional KeyInfo and any number of Objects, and these can be read (XML Signature 1.1 §4.1).
pub fn read_exactly()
    ensures { ReadExactly }
{}

/// Where the fields of a SignedInfo can be read, those of an element that says the same can be read too, and are the same but for
/// row numbers (XML Signature 1.1 §4.4). Such an element may stand in another document, and without the comments.
pub fn info_says_the_same()
    ensures { InfoSaysTheSame }
{}

/// The verdict is one: the same octets, SignatureValue, key and views have the same verdict, whatever documents they come from (XML
/// Signature 1.1 §3.2).
pub fn verdicts_are_one()
    ensures { VerdictsAreOne }
{}
