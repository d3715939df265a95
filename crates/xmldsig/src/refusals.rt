//! The line of a refusal.
ghost use Rattle.std.specs.Prelude.{◌≡◌, ◌++◌, IfOk, codes, string_bytes};
ghost use Rattle.xmldsig.specs.Texts.{catalog_words, eval_words, field_words, key_words, one_numbered, part_words, read_words, reference_words, refusal_line, refusal_words, sign_words, step_words, syntax_words, two_numbered, uri_words, validate_words};

use crate::ending::Refusal;
use core_validate::{RefRefusal, ValidateRefusal};
use digests_hmac::KeyFault;
use dsig_fields::FieldRefusal;
use sig_base::{NoMemory, Octets};
use signer::SignRefusal;
use std::alloc::Global;
use uri_refs::{CatalogFault, UriRefusal};
use xml_read::ReadRefusal;
use xpath_eval::EvalRefusal;
use xpath_syntax::SyntaxRefusal;

/// A word that says all.
pub(crate) fn bare(alloc: Global, word: &str) -> Result<String, NoMemory>
    ensures { IfOk result (λ words. string_bytes words ≡ word.now) }
{
    Ok(String::from_str(alloc, word)?)
}

/// A word and a number.
fn one_numbered(alloc: Global, word: &str, number: u64) -> Result<String, NoMemory>
    ensures { IfOk result (λ words. string_bytes words ≡ one_numbered word.now number) }
{
    Ok(format!(in alloc; "{} {}", word, number)?)
}

/// A word and two numbers.
fn two_numbered(alloc: Global, word: &str, first: u64, second: u64) -> Result<String, NoMemory>
    ensures { IfOk result (λ words. string_bytes words ≡ two_numbered word.now first second) }
{
    Ok(format!(in alloc; "{} {} {}", word, first, second)?)
}

/// The word of a refusal of the reader.
fn read_word(cause: ReadRefusal) -> &'static str
    ensures { result.now ≡ read_words cause }
{
    match cause {
        ReadRefusal::TooLarge => " TooLarge",
        ReadRefusal::Encoding => " Encoding",
        ReadRefusal::DocType => " DocType",
        ReadRefusal::NotWellFormed => " NotWellFormed",
        ReadRefusal::Namespaces => " Namespaces",
        ReadRefusal::TooDeep => " TooDeep",
        ReadRefusal::TooManyRows => " TooManyRows",
        ReadRefusal::Memory => " Memory",
    }
}

/// The words of a fault of the key file.
fn key_words(alloc: Global, fault: KeyFault) -> Result<String, NoMemory>
    ensures { IfOk result (λ words. string_bytes words ≡ key_words fault) }
{
    match fault {
        KeyFault::BadLine(line) => one_numbered(alloc, " KeyBadLine", line),
        KeyFault::Repeated(line, earlier) => two_numbered(alloc, " KeyRepeated", line, earlier),
        KeyFault::TooMany => bare(alloc, " KeyTooMany"),
        KeyFault::Memory => bare(alloc, " Memory"),
    }
}

/// The words of a refusal of the fields.
pub(crate) fn field_words(alloc: Global, cause: FieldRefusal) -> Result<String, NoMemory>
    ensures { IfOk result (λ words. string_bytes words ≡ field_words cause) }
{
    match cause {
        FieldRefusal::Missing(name) => Ok(format!(in alloc; " Missing {}", name.local_name())?),
        FieldRefusal::Extra(row) => one_numbered(alloc, " Extra", row as u64),
        FieldRefusal::NoAlgorithm(row) => one_numbered(alloc, " NoAlgorithm", row as u64),
        FieldRefusal::UnknownMethod(row) => one_numbered(alloc, " UnknownMethod", row as u64),
        FieldRefusal::Xslt(row) => one_numbered(alloc, " Xslt", row as u64),
        FieldRefusal::PublicKey(row) => one_numbered(alloc, " PublicKey", row as u64),
        FieldRefusal::BadLength(row) => one_numbered(alloc, " BadLength", row as u64),
        FieldRefusal::BadBase64(row) => one_numbered(alloc, " BadBase64", row as u64),
        FieldRefusal::BadFilter(row) => one_numbered(alloc, " BadFilter", row as u64),
        FieldRefusal::NoUri(row) => one_numbered(alloc, " NoUri", row as u64),
        FieldRefusal::TooManyReferences => bare(alloc, " TooManyReferences"),
        FieldRefusal::TooManyTransforms(row) => {
            one_numbered(alloc, " TooManyTransforms", row as u64)
        }
        FieldRefusal::TooManyFilters(row) => one_numbered(alloc, " TooManyFilters", row as u64),
        FieldRefusal::Memory => bare(alloc, " Memory"),
    }
}

/// The words of a fault of the catalog.
fn catalog_words(alloc: Global, fault: CatalogFault) -> Result<String, NoMemory>
    ensures { IfOk result (λ words. string_bytes words ≡ catalog_words fault) }
{
    match fault {
        CatalogFault::BadLine(line) => one_numbered(alloc, " CatalogBadLine", line),
        CatalogFault::Repeated(line, earlier) => {
            two_numbered(alloc, " CatalogRepeated", line, earlier)
        }
        CatalogFault::TooMany => bare(alloc, " CatalogTooMany"),
        CatalogFault::Memory => bare(alloc, " Memory"),
    }
}

/// The word of a refusal of a URI.
fn uri_word(cause: UriRefusal) -> &'static str
    ensures { result.now ≡ uri_words cause }
{
    match cause {
        UriRefusal::UnknownPointer => " UnknownPointer",
        UriRefusal::NotUri => " NotUri",
        UriRefusal::HasFragment => " HasFragment",
        UriRefusal::HasQuery => " HasQuery",
        UriRefusal::Foreign => " Foreign",
        UriRefusal::BadSegment => " BadSegment",
        UriRefusal::Memory => " Memory",
    }
}

/// The number of a step, and why it is refused.
fn step_words(alloc: Global, step: u32, word: &str) -> Result<String, NoMemory>
    ensures { IfOk result (λ words. string_bytes words ≡ step_words step word.now) }
{
    Ok(format!(in alloc; " step {}{}", step, word)?)
}

/// The number of a step and that of an expression within it, and why it is refused.
fn part_words(alloc: Global, step: u32, part: u32, words: &str) -> Result<String, NoMemory>
    ensures { IfOk result (λ all. string_bytes all ≡ part_words step part words.now) }
{
    Ok(format!(in alloc; " step {} part {}{}", step, part, words)?)
}

/// The word of an expression that can't be parsed.
fn syntax_word(cause: SyntaxRefusal) -> &'static str
    ensures { result.now ≡ syntax_words cause }
{
    match cause {
        SyntaxRefusal::TooLong => " TooLong",
        SyntaxRefusal::NotXPath => " NotXPath",
        SyntaxRefusal::TooDeep => " TooDeep",
        SyntaxRefusal::Fraction => " Fraction",
        SyntaxRefusal::NumberRange => " NumberRange",
        SyntaxRefusal::Div => " Div",
        SyntaxRefusal::Variable => " Variable",
        SyntaxRefusal::UnknownFunction => " UnknownFunction",
        SyntaxRefusal::Arity => " Arity",
        SyntaxRefusal::UnboundPrefix => " UnboundPrefix",
        SyntaxRefusal::Memory => " Memory",
    }
}

/// The words of an expression that can't be evaluated.
fn eval_words(alloc: Global, cause: EvalRefusal) -> Result<String, NoMemory>
    ensures { IfOk result (λ words. string_bytes words ≡ eval_words cause) }
{
    match cause {
        EvalRefusal::Fraction => bare(alloc, " Fraction"),
        EvalRefusal::NumberRange => bare(alloc, " NumberRange"),
        EvalRefusal::NotNodes => bare(alloc, " NotNodes"),
        EvalRefusal::AmbiguousId(first, second) => {
            two_numbered(alloc, " AmbiguousId", first as u64, second as u64)
        }
        EvalRefusal::HereElsewhere => bare(alloc, " HereElsewhere"),
        EvalRefusal::Memory => bare(alloc, " Memory"),
    }
}

/// The words of an expression of a step that can't be evaluated.
fn evaluation_words(
    alloc: Global,
    step: u32,
    part: u32,
    cause: EvalRefusal,
) -> Result<String, NoMemory>
    ensures { IfOk result (λ words. string_bytes words ≡ part_words step part (eval_words cause)) }
{
    let words = eval_words(alloc, cause)?;
    part_words(alloc, step, part, words.as_str())
}

/// The words of a refusal of a Reference.
pub(crate) fn reference_words(alloc: Global, cause: RefRefusal) -> Result<String, NoMemory>
    ensures { IfOk result (λ words. string_bytes words ≡ reference_words cause) }
{
    match cause {
        RefRefusal::Uri(cause) => bare(alloc, uri_word(cause)),
        RefRefusal::NoSuchId => bare(alloc, " NoSuchId"),
        RefRefusal::AmbiguousId(first, second) => {
            two_numbered(alloc, " AmbiguousId", first as u64, second as u64)
        }
        RefRefusal::Absent => bare(alloc, " Absent"),
        RefRefusal::TooLong => bare(alloc, " TooLong"),
        RefRefusal::Read { step, cause } => step_words(alloc, step, read_word(cause)),
        RefRefusal::Syntax { step, part, cause } => {
            part_words(alloc, step, part, syntax_word(cause))
        }
        RefRefusal::Eval { step, part, cause } => evaluation_words(alloc, step, part, cause),
        RefRefusal::NotBase64(step) => step_words(alloc, step, " NotBase64"),
        RefRefusal::EnvelopedElsewhere(step) => step_words(alloc, step, " EnvelopedElsewhere"),
        RefRefusal::OctetsTooLong(step) => step_words(alloc, step, " OctetsTooLong"),
        RefRefusal::FetchFailed => bare(alloc, " FetchFailed"),
        RefRefusal::SinkRefused => bare(alloc, " SinkRefused"),
        RefRefusal::Memory => bare(alloc, " Memory"),
    }
}

/// The words of a Reference's number and of its refusal.
fn numbered_words(alloc: Global, i: u32, cause: RefRefusal) -> Result<String, NoMemory>
    ensures { IfOk result (λ words. string_bytes words ≡ one_numbered (codes " reference") i ++ reference_words cause) }
{
    let words = reference_words(alloc, cause)?;
    Ok(format!(in alloc; " reference {}{}", i, words)?)
}

/// The words of a refusal of a signature.
fn validate_words(alloc: Global, cause: ValidateRefusal) -> Result<String, NoMemory>
    ensures { IfOk result (λ words. string_bytes words ≡ validate_words cause) }
{
    match cause {
        ValidateRefusal::NoSignature => bare(alloc, " NoSignature"),
        ValidateRefusal::Fields(cause) => field_words(alloc, cause),
        ValidateRefusal::NoKey => bare(alloc, " NoKey"),
        ValidateRefusal::UnknownKey => bare(alloc, " UnknownKey"),
        ValidateRefusal::OctetsTooLong => bare(alloc, " OctetsTooLong"),
        ValidateRefusal::Reference(i, cause) => numbered_words(alloc, i, cause),
        ValidateRefusal::FetchFailed => bare(alloc, " FetchFailed"),
        ValidateRefusal::Memory => bare(alloc, " Memory"),
    }
}

/// Why a template that is filled in can't be read.
fn filled_words(alloc: Global, cause: ReadRefusal) -> Result<String, NoMemory>
    ensures { IfOk result (λ words. string_bytes words ≡ codes " filled" ++ read_words cause) }
{
    Ok(format!(in alloc; " filled{}", read_word(cause))?)
}

/// The words of a refusal of a template.
fn sign_words(alloc: Global, cause: SignRefusal) -> Result<String, NoMemory>
    ensures { IfOk result (λ words. string_bytes words ≡ sign_words cause) }
{
    match cause {
        SignRefusal::Read(cause) => bare(alloc, read_word(cause)),
        SignRefusal::NoSignature => bare(alloc, " NoSignature"),
        SignRefusal::Fields(cause) => field_words(alloc, cause),
        SignRefusal::NoKey => bare(alloc, " NoKey"),
        SignRefusal::UnknownKey => bare(alloc, " UnknownKey"),
        SignRefusal::ShortTruncation(bits) => one_numbered(alloc, " ShortTruncation", bits as u64),
        SignRefusal::NotText(row) => one_numbered(alloc, " NotText", row as u64),
        SignRefusal::Reference(i, cause) => numbered_words(alloc, i, cause),
        SignRefusal::Filled(cause) => filled_words(alloc, cause),
        SignRefusal::OctetsTooLong => bare(alloc, " OctetsTooLong"),
        SignRefusal::CoversItself(i) => one_numbered(alloc, " CoversItself", i as u64),
        SignRefusal::FetchFailed => bare(alloc, " FetchFailed"),
        SignRefusal::Memory => bare(alloc, " Memory"),
    }
}

/// The words of a refusal.
fn refusal_words(alloc: Global, refusal: Refusal) -> Result<String, NoMemory>
    ensures { IfOk result (λ words. string_bytes words ≡ refusal_words refusal) }
{
    match refusal {
        Refusal::NoDocument => bare(alloc, " NoDocument"),
        Refusal::NoKeys => bare(alloc, " NoKeys"),
        Refusal::KeysTooLarge => bare(alloc, " KeysTooLarge"),
        Refusal::Keys(fault) => key_words(alloc, fault),
        Refusal::NoCatalog => bare(alloc, " NoCatalog"),
        Refusal::CatalogTooLarge => bare(alloc, " CatalogTooLarge"),
        Refusal::Catalog(fault) => catalog_words(alloc, fault),
        Refusal::Read(cause) => bare(alloc, read_word(cause)),
        Refusal::Validate(cause) => validate_words(alloc, cause),
        Refusal::Sign(cause) => sign_words(alloc, cause),
        Refusal::Syntax(cause) => bare(alloc, syntax_word(cause)),
        Refusal::Eval(cause) => eval_words(alloc, cause),
        Refusal::NoSuchId => bare(alloc, " NoSuchId"),
        Refusal::AmbiguousId(first, second) => {
            two_numbered(alloc, " AmbiguousId", first as u64, second as u64)
        }
        Refusal::OctetsTooLong => bare(alloc, " OctetsTooLong"),
    }
}

/// The line of a refusal, as it is printed on standard error.
pub(crate) fn line_of(alloc: Global, refusal: Refusal) -> Result<Octets, NoMemory>
    ensures { IfOk result (λ line. line ≡ refusal_line refusal) }
{
    let words = refusal_words(alloc, refusal)?;
    let line = format!(in alloc; "refused{}\n", words)?;
    Ok(Octets::from_vec(line.into_bytes()))
}
