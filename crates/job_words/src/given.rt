//! What the words behind a command give, read by clap.
ghost use Rattle.std.specs.Prelude.{◌≡◌, IfOk, false, map, option_map, string_bytes};
ghost use Rattle.clap.specs.Words.{app_of, rule_of};
ghost use Rattle.job_words.specs.Code.Command.{command_of, option_rule, word_rule};
ghost use Rattle.job_words.specs.Given.{given_by, has_name, value_of};
ghost use Rattle.job_words.specs.Answers.{Answers};
ghost use Rattle.job_words.specs.Code.Answers.{named};

use crate::fault::WordsFault;
use crate::options::Takes;
use crate::word::are_lawful;
use clap::error::ErrorKind;
use clap::{Arg, ArgAction, ArgMatches, Command};
use std::alloc::{AllocError, Global};
use std::marker::Model;

/// What the words behind a command give. Contracts see the list of the names, each with its value where it has one; the word
/// that is no option is given under the empty name.
#[derive(Drop)]
pub(crate) struct Given<'a> {
    matches: ArgMatches<'a>,
}

impl<'a> Model for Given<'a> {
    ghost use Rattle.std.specs.Prelude.{List, map};
    ghost use Rattle.clap.specs.Words.{found_of, rows_of};
    ghost use Rattle.job_words.specs.Command.{shown};
    ghost use Rattle.job_words.specs.Given as given;

    ghost Value = { List given.Given };

    ghost view = { λ g. map shown (rows_of (found_of g.matches)) };
}

/// The word that is no option, as clap sees it.
fn word_arg<'a>(alloc: Global) -> Arg<'a>
    ensures rule { rule_of result ≡ word_rule }
    ensures local { result.global ≡ false }
{
    Arg::new(alloc, "").action(ArgAction::Set)
}

/// An option, as clap sees it.
fn option_arg<'a>(alloc: Global, name: &'a str, takes: Takes) -> Arg<'a>
    ensures rule { rule_of result ≡ option_rule (name.now, takes) }
    ensures local { result.global ≡ false }
{
    let values = match takes {
        Takes::Value => 1,
        Takes::Nothing => 0,
    };
    Arg::new(alloc, name)
        .long(name)
        .num_args(values)
        .action(ArgAction::Set)
}

/// A command with these options, as clap sees it.
fn command_of<'a>(
    alloc: Global,
    name: &'a str,
    options: &[(&'a str, Takes)],
) -> Result<Command<'a>, AllocError>
    ensures { IfOk result (λ command. app_of command ≡ command_of name.now (map named options.now)) }
{
    let mut command = Command::new(alloc, name)
        .no_binary_name(true)
        .disable_help_flag(true)
        .disable_version_flag(true)
        .arg(word_arg(alloc))?;
    for (option, takes) in options {
        command = command.arg(option_arg(alloc, *option, *takes))?;
    }
    Ok(command)
}

/// Reads the words behind a command by clap.
pub(crate) fn read<'a>(
    alloc: Global,
    name: &'a str,
    options: &[(&'a str, Takes)],
    words: &'a [String],
) -> Result<Given<'a>, WordsFault>
    ensures { Answers result (given_by (map named options.now) (map string_bytes words.now)) }
{
    if !are_lawful(words) {
        return Err(WordsFault::Usage);
    }
    let command = command_of(alloc, name, options)?;
    match command.try_get_matches_from(words) {
        Ok(matches) => Ok(Given { matches }),
        Err(error) => {
            if error.kind() == ErrorKind::OutOfMemory {
                Err(WordsFault::Memory)
            } else {
                Err(WordsFault::Usage)
            }
        }
    }
}

impl<'a> Given<'a> {
    /// The value that is given under a name.
    pub(crate) fn value(&self, name: &str) -> Option<&'a str>
        ensures { option_map (λ value. value.now) result ≡ value_of name.now self.now }
    {
        self.matches.get_str(name)
    }

    /// Whether a name is given.
    pub(crate) fn has(&self, name: &str) -> bool
        ensures { result ≡ has_name name.now self.now }
    {
        self.matches.contains_id(name)
    }
}
