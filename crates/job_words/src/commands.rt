//! The words of each command.
ghost use Rattle.std.specs.Prelude.{◌≡◌, Some, map, option_map, string_bytes};
ghost use Rattle.std.specs.Result.{result_ok};
ghost use Rattle.uri_refs.specs.Bases.{base_of};
ghost use Rattle.job_words.specs.Answers.{Answers};
ghost use Rattle.job_words.specs.Given.{given_by};
ghost use Rattle.job_words.specs.Job as spec;

use crate::fault::WordsFault;
use crate::given::{Given, read};
use crate::job::{Asked, Job};
use crate::options::Takes;
use crate::values::{canon_named, digest_named, is_key_name, mac_named, number_between};
use sig_base::{CanonMethod, DigestMethod, MacMethod, Members, PrefixList, Text, names_in};
use std::alloc::Global;
use uri_refs::{Base, BaseFault};

/// The base where none is given: a URL of no host.
const DEFAULT_BASE: &str = "https://folder.invalid/";

/// The text that is given under a name.
fn text(alloc: Global, given: &Given<'_>, name: &str) -> Result<Option<Text>, WordsFault>
    ensures { Answers result (Some (spec.text_of name.now given.now)) }
{
    match given.value(name) {
        Some(value) => Ok(Some(Text::from_str(alloc, value)?)),
        None => Ok(None),
    }
}

/// The text that must be given under a name.
fn required(alloc: Global, given: &Given<'_>, name: &str) -> Result<Text, WordsFault>
    ensures { Answers result (spec.text_of name.now given.now) }
{
    match given.value(name) {
        Some(value) => Ok(Text::from_str(alloc, value)?),
        None => Err(WordsFault::Usage),
    }
}

/// The name of a key, where it is given.
fn key(alloc: Global, given: &Given<'_>) -> Result<Option<Text>, WordsFault>
    ensures { Answers result (spec.key_in given.now) }
{
    let Some(value) = given.value("key") else {
        return Ok(None);
    };
    if !is_key_name(value) {
        return Err(WordsFault::Usage);
    }
    Ok(Some(Text::from_str(alloc, value)?))
}

/// The number of the signature, 1 where it is not given.
fn index(given: &Given<'_>) -> Result<u32, WordsFault>
    ensures { Answers result (spec.index_in given.now) }
{
    match given.value("index") {
        Some(value) => number_between(1, 1_000_000, value).ok_or(WordsFault::Usage),
        None => Ok(1),
    }
}

/// The base that a text spells.
fn read_base(alloc: Global, text: &str) -> Result<Base, WordsFault>
    ensures { Answers result (result_ok (base_of text.now)) }
{
    match Base::read(alloc, text) {
        Ok(base) => Ok(base),
        Err(BaseFault::NotBase) => Err(WordsFault::Usage),
        Err(BaseFault::Memory) => Err(WordsFault::Memory),
    }
}

/// The base to which URIs are joined.
fn base(alloc: Global, given: &Given<'_>) -> Result<Base, WordsFault>
    ensures { Answers result (spec.base_in given.now) }
{
    match given.value("base") {
        Some(text) => read_base(alloc, text),
        None => read_base(alloc, DEFAULT_BASE),
    }
}

/// What a validation and a signing ask for.
#[tactic(auto, unfolding(crate::specs::Job::asked_in))]
fn asked_in(alloc: Global, given: &Given<'_>) -> Result<Asked, WordsFault>
    ensures { Answers result (spec.asked_in given.now) }
{
    let doc = required(alloc, given, "")?;
    let keys = required(alloc, given, "keys")?;
    let key = key(alloc, given)?;
    let index = index(given)?;
    let base = base(alloc, given)?;
    let catalog = text(alloc, given, "catalog")?;
    Ok(Asked {
        doc,
        keys,
        key,
        index,
        base,
        catalog,
    })
}

/// What the words behind `validate` give.
fn read_validate<'a>(alloc: Global, words: &'a [String]) -> Result<Given<'a>, WordsFault>
    ensures { Answers result (given_by spec.validate_options (map string_bytes words.now)) }
{
    read(
        alloc,
        "validate",
        &[
            ("keys", Takes::Value),
            ("key", Takes::Value),
            ("index", Takes::Value),
            ("base", Takes::Value),
            ("catalog", Takes::Value),
            ("views", Takes::Value),
            ("manifests", Takes::Nothing),
        ],
        words,
    )
}

/// The words of `validate`.
#[tactic(auto, unfolding(crate::specs::Job::validate_job))]
pub(crate) fn validate(alloc: Global, words: &[String]) -> Result<Job, WordsFault>
    ensures { Answers result (spec.validate_job (map string_bytes words.now)) }
{
    let given = read_validate(alloc, words)?;
    let asked = asked_in(alloc, &given)?;
    let views = text(alloc, &given, "views")?;
    let manifests = given.has("manifests");
    Ok(Job::Validate {
        asked,
        views,
        manifests,
    })
}

/// What the words behind `sign` give.
fn read_sign<'a>(alloc: Global, words: &'a [String]) -> Result<Given<'a>, WordsFault>
    ensures { Answers result (given_by spec.asked_options (map string_bytes words.now)) }
{
    read(
        alloc,
        "sign",
        &[
            ("keys", Takes::Value),
            ("key", Takes::Value),
            ("index", Takes::Value),
            ("base", Takes::Value),
            ("catalog", Takes::Value),
        ],
        words,
    )
}

/// The words of `sign`.
#[tactic(auto, unfolding(crate::specs::Job::sign_job))]
pub(crate) fn sign(alloc: Global, words: &[String]) -> Result<Job, WordsFault>
    ensures { Answers result (spec.sign_job (map string_bytes words.now)) }
{
    let given = read_sign(alloc, words)?;
    let asked = asked_in(alloc, &given)?;
    Ok(Job::Sign { asked })
}

/// What the words behind `canon` give.
fn read_canon<'a>(alloc: Global, words: &'a [String]) -> Result<Given<'a>, WordsFault>
    ensures { Answers result (given_by spec.canon_options (map string_bytes words.now)) }
{
    read(
        alloc,
        "canon",
        &[
            ("method", Takes::Value),
            ("id", Takes::Value),
            ("xpath", Takes::Value),
            ("prefixes", Takes::Value),
        ],
        words,
    )
}

/// The method of `canon`, which must be given.
fn method_in(given: &Given<'_>) -> Result<CanonMethod, WordsFault>
    ensures { Answers result (spec.method_in given.now) }
{
    match given.value("method") {
        Some(value) => canon_named(value).ok_or(WordsFault::Usage),
        None => Err(WordsFault::Usage),
    }
}

/// The prefixes of `canon`, which only an exclusive method takes.
fn prefixes_in(
    alloc: Global,
    method: CanonMethod,
    given: &Given<'_>,
) -> Result<PrefixList, WordsFault>
    ensures { Answers result (spec.prefixes_in method given.now) }
{
    let Some(list) = given.value("prefixes") else {
        return Ok(Members::new(alloc));
    };
    if !method.is_exclusive() {
        return Err(WordsFault::Usage);
    }
    Ok(names_in(alloc, list)?)
}

/// The words of `canon`.
#[tactic(auto, unfolding(crate::specs::Job::canon_job))]
pub(crate) fn canon(alloc: Global, words: &[String]) -> Result<Job, WordsFault>
    ensures { Answers result (spec.canon_job (map string_bytes words.now)) }
{
    let given = read_canon(alloc, words)?;
    let doc = required(alloc, &given, "")?;
    let method = method_in(&given)?;
    let prefixes = prefixes_in(alloc, method, &given)?;
    let id = text(alloc, &given, "id")?;
    let xpath = text(alloc, &given, "xpath")?;
    if id.is_some() && xpath.is_some() {
        return Err(WordsFault::Usage);
    }
    Ok(Job::Canon {
        doc,
        method,
        id,
        xpath,
        prefixes,
    })
}

/// What the words behind `template` give.
fn read_template<'a>(alloc: Global, words: &'a [String]) -> Result<Given<'a>, WordsFault>
    ensures { Answers result (given_by spec.template_options (map string_bytes words.now)) }
{
    read(
        alloc,
        "template",
        &[
            ("method", Takes::Value),
            ("digest", Takes::Value),
            ("key", Takes::Value),
        ],
        words,
    )
}

/// The method of `template`, HMAC with SHA-256 where it is not given.
fn mac_in(given: &Given<'_>) -> Result<MacMethod, WordsFault>
    ensures { Answers result (spec.mac_in given.now) }
{
    match given.value("method") {
        Some(value) => mac_named(value).ok_or(WordsFault::Usage),
        None => Ok(MacMethod::HmacSha256),
    }
}

/// The digest method of `template`, SHA-256 where it is not given.
fn digest_in(given: &Given<'_>) -> Result<DigestMethod, WordsFault>
    ensures { Answers result (spec.digest_in given.now) }
{
    match given.value("digest") {
        Some(value) => digest_named(value).ok_or(WordsFault::Usage),
        None => Ok(DigestMethod::Sha256),
    }
}

/// The words of `template`.
#[tactic(auto, unfolding(crate::specs::Job::template_job))]
pub(crate) fn template(alloc: Global, words: &[String]) -> Result<Job, WordsFault>
    ensures { Answers result (spec.template_job (map string_bytes words.now)) }
{
    let given = read_template(alloc, words)?;
    let doc = required(alloc, &given, "")?;
    let mac = mac_in(&given)?;
    let digest = digest_in(&given)?;
    let key = key(alloc, &given)?;
    Ok(Job::Template {
        doc,
        mac,
        digest,
        key,
    })
}

/// The words of `selftest`.
#[tactic(auto, unfolding(crate::specs::Job::selftest_job))]
pub(crate) fn selftest(alloc: Global, words: &[String]) -> Result<Job, WordsFault>
    ensures { Answers result (spec.selftest_job (map string_bytes words.now)) }
{
    let given = read(alloc, "selftest", &[], words)?;
    let word = given.value("").ok_or(WordsFault::Usage)?;
    let paragraphs = number_between(1, 100_000, word).ok_or(WordsFault::Usage)?;
    Ok(Job::SelfTest { paragraphs })
}

/// The job of a command with the words behind it.
fn command_job(alloc: Global, command: &str, words: &[String]) -> Result<Job, WordsFault>
    ensures { Answers result (spec.command_job command.now (map string_bytes words.now)) }
{
    if command == "validate" {
        validate(alloc, words)
    } else if command == "sign" {
        sign(alloc, words)
    } else if command == "canon" {
        canon(alloc, words)
    } else if command == "template" {
        template(alloc, words)
    } else if command == "selftest" {
        selftest(alloc, words)
    } else {
        Err(WordsFault::Usage)
    }
}

/// The job that the words of a command line name. `Usage` comes exactly where they name none.
pub fn job_of(alloc: Global, words: &[String]) -> Result<Job, WordsFault>
    ensures { Answers result (spec.job_of (map string_bytes words.now)) }
{
    match words {
        [] => Err(WordsFault::Usage),
        [command, ..] => command_job(alloc, command, &words[1..]),
    }
}
