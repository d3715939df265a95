//! From the words to an ending: everything but what is printed.
ghost use Rattle.std.specs.Prelude.{◌≡◌, Some, length, map, string_bytes};
ghost use Rattle.core_validate.specs.Answers.{HasFewViews};
ghost use Rattle.job_words.specs.Job.{job_of};
ghost use Rattle.job_words.specs.declared.job.Job.TheVariants as named;
ghost use Rattle.signed_views.specs.Handing.{CountsStand};
ghost use Rattle.xmldsig.specs.Code.Ending.{KeepersHave, OctetsEnd, RefusalEnds, ReportEnds, Settled, ViewCause};
ghost use Rattle.xmldsig.specs.Outcome as spec;
ghost use Rattle.xmldsig.specs.Outside.{asking};

use crate::ending::{Ending, Refusal, Validated};
use crate::form::{Form, find_form};
use crate::refusals::line_of;
use crate::report::text_of;
use crate::sign::make_signed;
use crate::stop::Stop;
use crate::template::make_template;
use crate::testing::make_line;
use crate::validation::find_report;
use core_validate::Report;
use job_words::{Asked, Job, WordsFault, job_of};
use sig_base::{Octets, Text};
use sig_outside::{Folder, ViewKeeper};
use signed_views::{Handed, hand_on, view_names};
use signer::TemplateOptions;
use std::alloc::Global;

/// Makes the text of a report and the names of its views, and then hands the views on. The text and the names are the last
/// memory that a run takes.
fn deliver_report<K: ViewKeeper>(
    alloc: Global,
    told: Validated,
    views: &Option<Text>,
    keepers: &mut Vec<K>,
) -> Ending
    requires { HasFewViews told.report }
    ensures ends { ReportEnds views.now told result }
    ensures keepers { KeepersHave (spec.pairs_for views.now told.report) result K.pairs keepers.old.items keepers.new.items }
    ensures number { length keepers.new.items ≡ length keepers.old.items }
    ensures counts { CountsStand K.faults keepers.old.items keepers.new.items }
    ensures cause { ViewCause K.faults result keepers.old.items keepers.new.items }
{
    let Ok(text) = text_of(alloc, &told) else {
        return Ending::Memory;
    };
    let Some(dir) = views else {
        return Ending::Reported { told, text };
    };
    let Report::Valid(kept) = &told.report else {
        return Ending::Reported { told, text };
    };
    let Ok(names) = view_names(alloc, dir.as_str(), kept.octets.len() as u32) else {
        return Ending::Memory;
    };
    match hand_on(keepers, &names, kept) {
        Handed::Done => Ending::Reported { told, text },
        Handed::Failed { view, keeper } => Ending::ViewFault { view, keeper },
        Handed::Memory { .. } => Ending::Memory,
    }
}

/// Makes the line of a refusal. This is the last memory that a run takes.
fn deliver_refusal(alloc: Global, refusal: Refusal) -> Ending
    ensures { RefusalEnds refusal result }
{
    match line_of(alloc, refusal) {
        Ok(line) => Ending::Refused { refusal, line },
        Err(_) => Ending::Memory,
    }
}

/// Hands on octets, or says why there are none.
fn deliver_octets(alloc: Global, found: Result<Octets, Stop>) -> Ending
    ensures { OctetsEnd found result }
{
    match found {
        Ok(octets) => Ending::Written { octets },
        Err(Stop::Refused(refusal)) => deliver_refusal(alloc, refusal),
        Err(Stop::ReadFault) => Ending::ReadFault,
        Err(Stop::Memory) => Ending::Memory,
    }
}

/// What a validation comes to.
fn settle_validation<F: Folder, K: ViewKeeper>(
    alloc: Global,
    asked: Asked,
    views: Option<Text>,
    manifests: bool,
    folder: &mut F,
    keepers: &mut Vec<K>,
) -> Ending
    ensures { Settled K.pairs K.faults (Some (named.Validate asked views manifests)) (F.held folder.old) result
        (asking F.asked F.faults folder.old) (asking F.asked F.faults folder.new) keepers.old.items keepers.new.items }
{
    match find_report(alloc, asked, views.is_some(), manifests, folder) {
        Ok(told) => deliver_report(alloc, told, &views, keepers),
        Err(Stop::Refused(refusal)) => deliver_refusal(alloc, refusal),
        Err(Stop::ReadFault) => Ending::ReadFault,
        Err(Stop::Memory) => Ending::Memory,
    }
}

/// What a canonical form comes to.
fn settle_form<F: Folder, K: ViewKeeper>(
    alloc: Global,
    doc: Text,
    form: Form,
    folder: &mut F,
    keepers: &mut Vec<K>,
) -> Ending
    ensures { Settled K.pairs K.faults (Some (named.Canon doc form.method form.id form.xpath form.prefixes)) (F.held folder.old) result
        (asking F.asked F.faults folder.old) (asking F.asked F.faults folder.new) keepers.old.items keepers.new.items }
{
    let _ = keepers;
    deliver_octets(alloc, find_form(alloc, &doc, &form, folder))
}

/// What a template that is filled in comes to.
fn settle_signing<F: Folder, K: ViewKeeper>(
    alloc: Global,
    asked: Asked,
    folder: &mut F,
    keepers: &mut Vec<K>,
) -> Ending
    ensures { Settled K.pairs K.faults (Some (named.Sign asked)) (F.held folder.old) result
        (asking F.asked F.faults folder.old) (asking F.asked F.faults folder.new) keepers.old.items keepers.new.items }
{
    let _ = keepers;
    deliver_octets(alloc, make_signed(alloc, asked, folder))
}

/// What a template in a document comes to.
fn settle_template<F: Folder, K: ViewKeeper>(
    alloc: Global,
    doc: Text,
    options: TemplateOptions,
    folder: &mut F,
    keepers: &mut Vec<K>,
) -> Ending
    ensures { Settled K.pairs K.faults (Some (named.Template doc options.mac options.digest options.key_name)) (F.held folder.old) result
        (asking F.asked F.faults folder.old) (asking F.asked F.faults folder.new) keepers.old.items keepers.new.items }
{
    let _ = keepers;
    deliver_octets(alloc, make_template(alloc, &doc, &options, folder))
}

/// What a self-test comes to. It asks the folder for nothing.
fn settle_self_test<F: Folder, K: ViewKeeper>(
    alloc: Global,
    paragraphs: u32,
    folder: &mut F,
    keepers: &mut Vec<K>,
) -> Ending
    ensures { Settled K.pairs K.faults (Some (named.SelfTest paragraphs)) (F.held folder.old) result
        (asking F.asked F.faults folder.old) (asking F.asked F.faults folder.new) keepers.old.items keepers.new.items }
{
    let _ = folder;
    let _ = keepers;
    deliver_octets(alloc, make_line(alloc, paragraphs))
}

/// What a job comes to.
fn settle_job<F: Folder, K: ViewKeeper>(
    alloc: Global,
    job: Job,
    folder: &mut F,
    keepers: &mut Vec<K>,
) -> Ending
    ensures { Settled K.pairs K.faults (Some job) (F.held folder.old) result (asking F.asked F.faults folder.old)
        (asking F.asked F.faults folder.new) keepers.old.items keepers.new.items }
{
    match job {
        Job::Validate {
            asked,
            views,
            manifests,
        } => settle_validation(alloc, asked, views, manifests, folder, keepers),
        Job::Canon {
            doc,
            method,
            id,
            xpath,
            prefixes,
        } => {
            let form = Form {
                method,
                id,
                xpath,
                prefixes,
            };
            settle_form(alloc, doc, form, folder, keepers)
        }
        Job::Sign { asked } => settle_signing(alloc, asked, folder, keepers),
        Job::Template {
            doc,
            mac,
            digest,
            key,
        } => {
            let options = TemplateOptions {
                mac,
                digest,
                key_name: key,
            };
            settle_template(alloc, doc, options, folder, keepers)
        }
        Job::SelfTest { paragraphs } => settle_self_test(alloc, paragraphs, folder, keepers),
    }
}

/// What the words come to.
pub(crate) fn settle<F: Folder, K: ViewKeeper>(
    alloc: Global,
    words: &[String],
    folder: &mut F,
    keepers: &mut Vec<K>,
) -> Ending
    ensures { Settled K.pairs K.faults (job_of (map string_bytes words.now)) (F.held folder.old) result
        (asking F.asked F.faults folder.old) (asking F.asked F.faults folder.new) keepers.old.items keepers.new.items }
{
    match job_of(alloc, words) {
        Ok(job) => settle_job(alloc, job, folder, keepers),
        Err(WordsFault::Usage) => Ending::Usage,
        Err(WordsFault::Memory) => Ending::Memory,
    }
}
