// The commands as `clap` has them.
ghost use Rattle.std.specs.Prelude.{◌≡◌, [], true, false, map, option_map, IfOk, OnOk, Err};
ghost use Rattle.clap.specs.Words.{app_of, rule_of, with_rule, is_simple_and_free, fault_of, matches_of, rows_of, found_of, first_of, all_of};
ghost use Rattle.command_words.specs.Words as spec;
ghost use Rattle.command_words.specs.declared.words.WordsFault.TheVariants.{Usage};

use crate::words::WordsFault;
use clap::error::ErrorKind;
use clap::{Arg, ArgAction, ArgMatches, Command};
use std::alloc::{AllocError, Global};

// An option with a value.
fn option_arg<'a>(alloc: Global, name: &'a str) -> Arg<'a>
    ensures rule { rule_of result ≡ spec.option_named name.entry.now }
    ensures local { result.global ≡ false }
{
    Arg::new(alloc, name).long(name)
}

/// The command with an option more.
pub fn with_option<'a>(
    alloc: Global,
    command: Command<'a>,
    name: &'a str,
) -> Result<Command<'a>, AllocError>
    ensures { IfOk result (λ c. app_of c ≡ with_rule (app_of command.entry) (spec.option_named name.entry.now)) }
{
    let more = command.arg(option_arg(alloc, name))?;
    Ok(more)
}

// A flag.
fn flag_arg<'a>(alloc: Global, name: &'a str) -> Arg<'a>
    ensures rule { rule_of result ≡ spec.flag_named name.entry.now }
    ensures local { result.global ≡ false }
{
    Arg::new(alloc, name).long(name).action(ArgAction::SetTrue)
}

/// The command with a flag more.
pub fn with_flag<'a>(
    alloc: Global,
    command: Command<'a>,
    name: &'a str,
) -> Result<Command<'a>, AllocError>
    ensures { IfOk result (λ c. app_of c ≡ with_rule (app_of command.entry) (spec.flag_named name.entry.now)) }
{
    let more = command.arg(flag_arg(alloc, name))?;
    Ok(more)
}

// The names of files, one or more.
fn files_arg<'a>(alloc: Global, name: &'a str) -> Arg<'a>
    ensures rule { rule_of result ≡ spec.files_named name.entry.now }
    ensures local { result.global ≡ false }
{
    Arg::new(alloc, name)
        .required(true)
        .action(ArgAction::Append)
}

/// The command with the names of files.
pub fn with_files<'a>(
    alloc: Global,
    command: Command<'a>,
    name: &'a str,
) -> Result<Command<'a>, AllocError>
    ensures { IfOk result (λ c. app_of c ≡ with_rule (app_of command.entry) (spec.files_named name.entry.now)) }
{
    let more = command.arg(files_arg(alloc, name))?;
    Ok(more)
}

/// `drive [--workers N] [--cells N] [--start T] [--global-shadow] [--stats] CONFIG..`
pub fn drive_parser<'a>(alloc: Global) -> Result<Command<'a>, AllocError>
    ensures { IfOk result (λ c. app_of c ≡ spec.drive_app) }
{
    let one = with_option(alloc, Command::new(alloc, "drive"), "workers")?;
    let two = with_option(alloc, one, "cells")?;
    let three = with_option(alloc, two, "start")?;
    let four = with_flag(alloc, three, "global-shadow")?;
    let five = with_flag(alloc, four, "stats")?;
    let command = with_files(alloc, five, "configs")?;
    Ok(command)
}

/// `lookup CONFIG..`
pub fn lookup_parser<'a>(alloc: Global) -> Result<Command<'a>, AllocError>
    ensures { IfOk result (λ c. app_of c ≡ spec.lookup_app) }
{
    let command = with_files(alloc, Command::new(alloc, "lookup"), "configs")?;
    Ok(command)
}

// An option with a value that has to be there.
fn required_arg<'a>(alloc: Global, name: &'a str) -> Arg<'a>
    ensures rule { rule_of result ≡ spec.required_named name.entry.now }
    ensures local { result.global ≡ false }
{
    option_arg(alloc, name).required(true)
}

/// The command with an option more that has to be there.
pub fn with_required<'a>(
    alloc: Global,
    command: Command<'a>,
    name: &'a str,
) -> Result<Command<'a>, AllocError>
    ensures { IfOk result (λ c. app_of c ≡ with_rule (app_of command.entry) (spec.required_named name.entry.now)) }
{
    let more = command.arg(required_arg(alloc, name))?;
    Ok(more)
}

// A word that has to be there.
fn word_arg<'a>(alloc: Global, name: &'a str) -> Arg<'a>
    ensures rule { rule_of result ≡ spec.file_named name.entry.now }
    ensures local { result.global ≡ false }
{
    Arg::new(alloc, name).required(true)
}

/// The command with a word more that has to be there.
pub fn with_word<'a>(
    alloc: Global,
    command: Command<'a>,
    name: &'a str,
) -> Result<Command<'a>, AllocError>
    ensures { IfOk result (λ c. app_of c ≡ with_rule (app_of command.entry) (spec.file_named name.entry.now)) }
{
    let more = command.arg(word_arg(alloc, name))?;
    Ok(more)
}

/// `quota --settings F [--workers N] STREAM..`
pub fn quota_parser<'a>(alloc: Global) -> Result<Command<'a>, AllocError>
    ensures { IfOk result (λ c. app_of c ≡ spec.quota_app) }
{
    let one = with_required(alloc, Command::new(alloc, "quota"), "settings")?;
    let two = with_option(alloc, one, "workers")?;
    let command = with_files(alloc, two, "streams")?;
    Ok(command)
}

/// What a command finds in the words, the first of which is its name; Usage where it refuses them.
pub fn parse<'a>(command: Command<'a>, words: &'a [&'a str]) -> Result<ArgMatches<'a>, WordsFault>
    requires { is_simple_and_free (app_of command) ≡ true }
    ensures rows { IfOk result (λ m. rows_of (found_of m) ≡ matches_of (app_of command.entry) (map (λ w. w.now) words.entry.now)) }
    ensures taken { OnOk result (fault_of (app_of command.entry) (map (λ w. w.now) words.entry.now) ≡ []) }
    ensures usage { result ≡ Err Usage → fault_of (app_of command.entry) (map (λ w. w.now) words.entry.now) ≡ [] → ⊥ }
{
    match command.try_get_matches_from(words) {
        Ok(matches) => Ok(matches),
        Err(error) => {
            if error.kind() == ErrorKind::OutOfMemory {
                Err(WordsFault::OutOfMemory)
            } else {
                Err(WordsFault::Usage)
            }
        }
    }
}

/// The first value of an argument.
pub fn first_in<'a>(matches: &ArgMatches<'a>, id: &str) -> Option<&'a str>
    ensures { option_map (λ t. t.now) result ≡ first_of id.now (rows_of (found_of matches.now)) }
{
    matches.get_str(id)
}

/// All values of an argument.
pub fn all_in<'m, 'a>(matches: &'m ArgMatches<'a>, id: &str) -> Option<&'m [&'a str]>
    ensures { option_map (λ ts. map (λ t. t.now) ts.now) result ≡ all_of id.now (rows_of (found_of matches.now)) }
{
    matches.get_strs(id)
}
