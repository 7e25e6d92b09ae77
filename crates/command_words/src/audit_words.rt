// The words of `audit`.
ghost use Rattle.std.specs.Prelude.{◌≡◌, ◌≤◌, IfOk, IfSome, Some, None, Err};
ghost use Rattle.rate_types.specs.declared.limits.TheConstants.{LATEST_MOMENT};
ghost use Rattle.clap.specs.Words.{app_of};
ghost use Rattle.command_words.specs.Words as spec;
ghost use Rattle.command_words.specs.declared.words.WordsFault.TheVariants.{Usage};

use crate::command::{AuditJob, Command};
use crate::number::{count_in, number_in};
use crate::parsers::{all_in, first_in, with_files, with_flag, with_option, with_required};
use crate::texts::{names_of, word_of};
use crate::words::{WordsFault, is_given};
use clap::{ArgMatches, Command as Parser};
use rate_types::limits::{DEFAULT_CELLS, LATEST_MOMENT, MOST_CELLS, MOST_WORKERS};
use rate_types::{Names, Seconds, Word};
use std::alloc::{AllocError, Global};

/// `audit --run F [--workers N] [--cells N] [--start T] [--global-shadow] CONFIG..`
pub fn audit_parser<'a>(alloc: Global) -> Result<Parser<'a>, AllocError>
    ensures { IfOk result (λ c. app_of c ≡ spec.audit_app) }
{
    let one = with_required(alloc, Parser::new(alloc, "audit"), "run")?;
    let two = with_option(alloc, one, "workers")?;
    let three = with_option(alloc, two, "cells")?;
    let four = with_option(alloc, three, "start")?;
    let five = with_flag(alloc, four, "global-shadow")?;
    let command = with_files(alloc, five, "configs")?;
    Ok(command)
}

// The judging of a run by these, where all are there.
fn audit_job_of(
    configs: Names,
    run: Option<Word>,
    workers: Option<u32>,
    cells: Option<u32>,
    start: Option<u64>,
    global_shadow: bool,
) -> Option<Command>
    requires { IfSome start (λ n. n ≤ LATEST_MOMENT) }
    ensures job { result ≡ spec.audit_job_of configs run workers cells start global_shadow }
    ensures range { IfSome result spec.AreInRange }
{
    let Some(run) = run else {
        return None;
    };
    let Some(workers) = workers else {
        return None;
    };
    let Some(cells) = cells else {
        return None;
    };
    let Some(start) = start else {
        return None;
    };
    Some(Command::Audit(AuditJob {
        configs,
        run,
        workers,
        cells,
        start: Seconds::capped(start),
        global_shadow,
    }))
}

/// The judging that these matches ask for.
pub fn audit_job(alloc: Global, matches: &ArgMatches<'_>) -> Result<Command, WordsFault>
    ensures command { IfOk result (λ c. spec.audit_job (spec.rows_in matches.now) ≡ Some c) }
    ensures range { IfOk result spec.AreInRange }
    ensures usage { result ≡ Err Usage → spec.audit_job (spec.rows_in matches.now) ≡ None }
{
    let configs = names_of(alloc, all_in(matches, "configs"))?;
    let run = word_of(alloc, first_in(matches, "run"))?;
    let workers = count_in(first_in(matches, "workers"), 1, MOST_WORKERS, 1);
    let cells = count_in(first_in(matches, "cells"), 1, MOST_CELLS, DEFAULT_CELLS);
    let start = number_in(first_in(matches, "start"), 0, LATEST_MOMENT, 0);
    let global_shadow = is_given(first_in(matches, "global-shadow"));
    match audit_job_of(configs, run, workers, cells, start, global_shadow) {
        Some(job) => Ok(job),
        None => Err(WordsFault::Usage),
    }
}
