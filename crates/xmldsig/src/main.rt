//! `xmldsig`: validates XML signatures with HMAC keys, and says which part of a document was signed. Signs with such keys, too.
#![tactic(auto)]

mod ending;
mod fault_line;
#[cfg(test)]
mod fault_tests;
mod files;
mod form;
#[cfg(test)]
mod grammar_tests;
#[cfg(test)]
mod line_tests;
mod manifest_check;
#[cfg(test)]
mod manifest_tests;
mod manifest_text;
mod print;
mod refusals;
mod report;
mod settle;
mod sign;
#[cfg(test)]
mod signed_tests;
mod stop;
mod template;
mod testing;
#[cfg(test)]
mod tests;
mod top;
mod validation;
#[cfg(test)]
mod wrapping_tests;

use ending::Status;
use job_words::WordsFault;
use sig_outside::{DirFolder, DirKeeper, Stream, StreamSink, ViewKeeper};
use std::process::ExitCode;
use std::{env, io};
use top::{end_without_words, run};

/// The words behind the program's name. Words that aren't UTF-8 name no job.
fn words_of(rt: HostRuntime) -> Result<Vec<String>, WordsFault> {
    let given = match env::args(&rt) {
        Ok(given) => given,
        Err(error) if error.kind() == io::ErrorKind::OutOfMemory => return Err(WordsFault::Memory),
        Err(_) => return Err(WordsFault::Usage),
    };
    let mut words = Vec::new(rt.alloc());
    for word in given.skip(1) {
        words.push(word)?;
    }
    Ok(words)
}

/// Runs the words over the files below the current directory.
fn work(rt: HostRuntime, out: &mut StreamSink, err: &mut StreamSink) -> Result<Status, WordsFault> {
    let alloc = rt.alloc();
    let words = words_of(rt)?;
    let mut folder = DirFolder::new(rt);
    let mut keepers: Vec<Box<dyn ViewKeeper>> = Vec::new(alloc);
    keepers.push(Box::new(alloc, DirKeeper::new(rt))?)?;
    Ok(run(alloc, &words, &mut folder, &mut keepers, out, err))
}

fn main(rt: HostRuntime) -> ExitCode {
    let mut out = StreamSink::new(rt, Stream::Out);
    let mut err = StreamSink::new(rt, Stream::Err);
    let status = match work(rt, &mut out, &mut err) {
        Ok(status) => status,
        Err(fault) => end_without_words(fault, &mut out, &mut err),
    };
    ExitCode::from(status.code())
}
