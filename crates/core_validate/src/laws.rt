//! Laws of the definitions. Their functions do nothing; what they ensure holds of every argument.

ghost use Rattle.core_validate.specs.Laws.{HandsOnCompared, OutcomeExactly, ValidExactly};
ghost use Rattle.core_validate.specs.Verdict.{AgreeingReportsAreOne, ReportsAreVerdicts};

/// Where the canonical SignedInfo is within its limit and no view is refused, a validation is valid exactly where the
/// signature and each digest hold (XML Signature 1.1 §3.2), and it hands on the views whose digests were compared.
pub fn valid_exactly()
    ensures { ValidExactly }
{}

/// An outcome that is no refusal is valid exactly where signature validation and reference validation both hold (XML Signature
/// 1.1 §3.2).
pub fn outcome_exactly()
    ensures { OutcomeExactly }
{}

/// What a valid outcome hands on are the views whose digests were compared, in the order of their References.
pub fn hands_on_compared()
    ensures { HandsOnCompared }
{}

/// Each report that core validation comes to is the verdict on the octets that were signed, the SignatureValue, the key and the
/// views of the References: the document counts by nothing else (XML Signature 1.1 §3.2).
pub fn reports_are_verdicts()
    ensures { ReportsAreVerdicts }
{}

/// Two documents whose signatures were made over the same octets, with one SignatureValue, key and list of views, have the same
/// report, whatever else stands in them.
pub fn agreeing_reports_are_one()
    ensures { AgreeingReportsAreOne }
{}
