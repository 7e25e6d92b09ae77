// From the words of the program to its command.
ghost use Rattle.std.specs.Prelude.{◌≡◌, ◌≤◌, IfOk, IfSome, Some, None, Err, option_map, true, codes};
ghost use Rattle.std.specs.Str.{bytes_eq};
ghost use Rattle.rate_types.specs.declared.limits.TheConstants.{LATEST_MOMENT, MOST_CELLS, MOST_WORKERS};
ghost use Rattle.command_words.specs.Words as spec;
ghost use Rattle.command_words.specs.declared.words.WordsFault.TheVariants.{Usage};

use crate::command::{Command, QuotaJob, ThreadJob};
use crate::named::{CommandName, read_named};
use crate::number::{count_in, number_in};
use crate::parsers::{all_in, first_in};
use crate::texts::{names_of, word_of};
use clap::ArgMatches;
use rate_types::limits::{DEFAULT_CELLS, DEFAULT_WORKERS, LATEST_MOMENT, MOST_CELLS, MOST_WORKERS};
use rate_types::{Names, OutOfMemory, Seconds, Word};
use std::alloc::{AllocError, Global};
use thiserror::Error;

/// Why the words are no command.
#[derive(Clone, Copy, Debug, PartialEq, Eq, Error)]
pub enum WordsFault {
    /// They name none, or what stands behind its name is refused.
    #[error("usage")]
    Usage,
    /// There was no memory to read them.
    #[error("out of memory")]
    OutOfMemory,
}

impl From<OutOfMemory> for WordsFault {
    ghost use Rattle.std.specs.Prelude.{◌≡◌};
    ghost use Rattle.command_words.specs.declared.words.WordsFault.TheVariants as fault;

    ghost from_gives = { λ _ e. e ≡ fault.OutOfMemory };

    fn from(_: OutOfMemory) -> Self {
        WordsFault::OutOfMemory
    }
}

impl From<AllocError> for WordsFault {
    ghost use Rattle.std.specs.Prelude.{◌≡◌};
    ghost use Rattle.command_words.specs.declared.words.WordsFault.TheVariants as fault;

    ghost from_gives = { λ _ e. e ≡ fault.OutOfMemory };

    fn from(_: AllocError) -> Self {
        WordsFault::OutOfMemory
    }
}

/// Whether a flag was given.
pub fn is_given(text: Option<&str>) -> bool
    ensures { result ≡ spec.is_given (option_map (λ t. t.now) text.entry) }
{
    match text {
        Some(text) => text == "true",
        None => false,
    }
}

// A run by these numbers, where all are there.
fn job_of(
    configs: Names,
    workers: Option<u32>,
    cells: Option<u32>,
    start: Option<u64>,
    global_shadow: bool,
    stats: bool,
) -> Option<Command>
    requires workers { IfSome workers (λ n. (1 ≤ n) × (n ≤ MOST_WORKERS)) }
    requires cells { IfSome cells (λ n. (1 ≤ n) × (n ≤ MOST_CELLS)) }
    requires start { IfSome start (λ n. n ≤ LATEST_MOMENT) }
    ensures job { result ≡ spec.job_of configs workers cells start global_shadow stats }
    ensures range { IfSome result spec.AreInRange }
{
    let Some(workers) = workers else {
        return None;
    };
    let Some(cells) = cells else {
        return None;
    };
    let Some(start) = start else {
        return None;
    };
    Some(Command::Threads(ThreadJob::Drive {
        configs,
        workers,
        cells,
        start: Seconds::capped(start),
        global_shadow,
        stats,
    }))
}

/// The run that these matches ask for.
pub fn drive_job(alloc: Global, matches: &ArgMatches<'_>) -> Result<Command, WordsFault>
    ensures command { IfOk result (λ c. spec.drive_job (spec.rows_in matches.now) ≡ Some c) }
    ensures range { IfOk result spec.AreInRange }
    ensures usage { result ≡ Err Usage → spec.drive_job (spec.rows_in matches.now) ≡ None }
{
    let configs = names_of(alloc, all_in(matches, "configs"))?;
    let workers = count_in(first_in(matches, "workers"), 1, MOST_WORKERS, 1);
    let cells = count_in(first_in(matches, "cells"), 1, MOST_CELLS, DEFAULT_CELLS);
    let start = number_in(first_in(matches, "start"), 0, LATEST_MOMENT, 0);
    let global_shadow = is_given(first_in(matches, "global-shadow"));
    let stats = is_given(first_in(matches, "stats"));
    match job_of(configs, workers, cells, start, global_shadow, stats) {
        Some(job) => Ok(job),
        None => Err(WordsFault::Usage),
    }
}

// A replay by these, where all are there.
fn quota_job_of(settings: Option<Word>, streams: Names, workers: Option<u32>) -> Option<Command>
    ensures job { result ≡ spec.quota_job_of settings streams workers }
    ensures range { IfSome result spec.AreInRange }
{
    let Some(settings) = settings else {
        return None;
    };
    let Some(workers) = workers else {
        return None;
    };
    Some(Command::Quota(QuotaJob {
        settings,
        streams,
        workers,
    }))
}

/// The replay that these matches ask for.
pub fn quota_job(alloc: Global, matches: &ArgMatches<'_>) -> Result<Command, WordsFault>
    ensures command { IfOk result (λ c. spec.quota_job (spec.rows_in matches.now) ≡ Some c) }
    ensures range { IfOk result spec.AreInRange }
    ensures usage { result ≡ Err Usage → spec.quota_job (spec.rows_in matches.now) ≡ None }
{
    let settings = word_of(alloc, first_in(matches, "settings"))?;
    let streams = names_of(alloc, all_in(matches, "streams"))?;
    let workers = count_in(
        first_in(matches, "workers"),
        1,
        MOST_WORKERS,
        DEFAULT_WORKERS,
    );
    match quota_job_of(settings, streams, workers) {
        Some(job) => Ok(job),
        None => Err(WordsFault::Usage),
    }
}

// A command of one word.
fn alone(words: &[Word], command: Command) -> Result<Command, WordsFault>
    ensures command { IfOk result (λ c. spec.alone words.now command ≡ Some c) }
    ensures usage { result ≡ Err Usage → spec.alone words.now command ≡ None }
{
    match words {
        [_] => Ok(command),
        _ => Err(WordsFault::Usage),
    }
}

/// The command that the words name: the first is `drive`, `lookup`, `quota`, `pool`, `audit`, `serve`, `gen`, `--help` or `--version`,
/// and the rest is read by that command.
pub fn read_words(alloc: Global, words: &Names) -> Result<Command, WordsFault>
    ensures command { IfOk result (λ c. spec.command_of words.now ≡ Some c) }
    ensures range { IfOk result spec.AreInRange }
    ensures usage { result ≡ Err Usage → spec.command_of words.now ≡ None }
{
    let words = words.items();
    let Some(first) = words.first() else {
        return Err(WordsFault::Usage);
    };
    let first = first.as_str();
    if first == "drive" {
        return read_named(alloc, CommandName::Drive, words);
    }
    if first == "lookup" {
        return read_named(alloc, CommandName::Lookup, words);
    }
    if first == "quota" {
        return read_named(alloc, CommandName::Quota, words);
    }
    if first == "pool" {
        return read_named(alloc, CommandName::Pool, words);
    }
    if first == "audit" {
        return read_named(alloc, CommandName::Audit, words);
    }
    if first == "serve" {
        return read_named(alloc, CommandName::Serve, words);
    }
    if first == "gen" {
        return read_named(alloc, CommandName::Gen, words);
    }
    if first == "--help" {
        return alone(words, Command::Help);
    }
    if first == "--version" {
        return alone(words, Command::Version);
    }
    Err(WordsFault::Usage)
}
