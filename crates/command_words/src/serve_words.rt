// The words of `serve`.
ghost use Rattle.std.specs.Prelude.{◌≡◌, ◌≤◌, IfOk, IfSome, Some, None, Err, option_map};
ghost use Rattle.rate_types.specs.declared.limits.TheConstants.{MOST_CELLS, MOST_CONNECTIONS};
ghost use Rattle.clap.specs.Words.{app_of};
ghost use Rattle.command_words.specs.Words as spec;
ghost use Rattle.command_words.specs.declared.words.WordsFault.TheVariants.{Usage};

use crate::command::{Command, ServeBy, ServeJob, ThreadJob};
use crate::number::count_in;
use crate::parsers::{all_in, first_in, with_files, with_flag, with_option, with_required};
use crate::texts::names_of;
use crate::words::{WordsFault, is_given};
use clap::{ArgMatches, Command as Parser};
use rate_types::limits::{
    DEFAULT_CELLS, DEFAULT_WORKERS, MOST_CELLS, MOST_CONNECTIONS, MOST_WORKERS,
};
use rate_types::{Names, Word};
use std::alloc::{AllocError, Global};

/// The most connections that are open at a time where one thread serves them.
pub const MOST_TASKS: u32 = 256;

/// `serve --port P --connections N [--workers N | --tasks N] [--cells N] [--global-shadow] [--stats] CONFIG..`
pub fn serve_parser<'a>(alloc: Global) -> Result<Parser<'a>, AllocError>
    ensures { IfOk result (λ c. app_of c ≡ spec.serve_app) }
{
    let one = with_required(alloc, Parser::new(alloc, "serve"), "port")?;
    let two = with_required(alloc, one, "connections")?;
    let three = with_option(alloc, two, "workers")?;
    let four = with_option(alloc, three, "tasks")?;
    let five = with_option(alloc, four, "cells")?;
    let six = with_flag(alloc, five, "global-shadow")?;
    let seven = with_flag(alloc, six, "stats")?;
    let command = with_files(alloc, seven, "configs")?;
    Ok(command)
}

// The number of an option that has to be there.
fn required_in(text: Option<&str>, most: u32) -> Option<u32>
    ensures number { result ≡ spec.required_in most (option_map (λ t. t.now) text.entry) }
    ensures bound { IfSome result (λ n. n ≤ most) }
{
    match text {
        Some(text) => count_in(Some(text), 0, most, 0),
        None => None,
    }
}

// What serves, by the words of `--workers` and `--tasks`, which aren't taken together.
fn serve_by(workers: Option<&str>, tasks: Option<&str>) -> Option<ServeBy>
    ensures by { result ≡ spec.serve_by (option_map (λ t. t.now) workers.entry) (option_map (λ t. t.now) tasks.entry) }
    ensures range { IfSome result spec.IsByInRange }
{
    match (workers, tasks) {
        (workers, None) => {
            let workers = count_in(workers, 1, MOST_WORKERS, DEFAULT_WORKERS)?;
            Some(ServeBy::Workers(workers))
        }
        (None, Some(tasks)) => {
            let tasks = count_in(Some(tasks), 1, MOST_TASKS, 1)?;
            Some(ServeBy::Tasks(tasks))
        }
        (Some(_), Some(_)) => None,
    }
}

// The serving by these, where all are there.
fn serve_job_of(
    configs: Names,
    port: Option<u32>,
    connections: Option<u32>,
    by: Option<ServeBy>,
    cells: Option<u32>,
    global_shadow: bool,
    stats: bool,
) -> Option<Command>
    requires port { IfSome port (λ n. n ≤ 65535) }
    requires connections { IfSome connections (λ n. n ≤ MOST_CONNECTIONS) }
    requires by { IfSome by spec.IsByInRange }
    requires cells { IfSome cells (λ n. (1 ≤ n) × (n ≤ MOST_CELLS)) }
    ensures job { result ≡ spec.serve_job_of configs port connections by cells global_shadow stats }
    ensures range { IfSome result spec.AreInRange }
{
    let Some(port) = port else {
        return None;
    };
    let Some(connections) = connections else {
        return None;
    };
    let Some(by) = by else {
        return None;
    };
    let Some(cells) = cells else {
        return None;
    };
    Some(Command::Threads(ThreadJob::Serve(ServeJob {
        configs,
        by,
        cells,
        global_shadow,
        stats,
        port: port as u16,
        connections,
    })))
}

/// The serving that these matches ask for.
pub fn serve_job(alloc: Global, matches: &ArgMatches<'_>) -> Result<Command, WordsFault>
    ensures command { IfOk result (λ c. spec.serve_job (spec.rows_in matches.now) ≡ Some c) }
    ensures range { IfOk result spec.AreInRange }
    ensures usage { result ≡ Err Usage → spec.serve_job (spec.rows_in matches.now) ≡ None }
{
    let configs = names_of(alloc, all_in(matches, "configs"))?;
    let port = required_in(first_in(matches, "port"), 65_535);
    let connections = required_in(first_in(matches, "connections"), MOST_CONNECTIONS);
    let by = serve_by(first_in(matches, "workers"), first_in(matches, "tasks"));
    let cells = count_in(first_in(matches, "cells"), 1, MOST_CELLS, DEFAULT_CELLS);
    let global_shadow = is_given(first_in(matches, "global-shadow"));
    let stats = is_given(first_in(matches, "stats"));
    match serve_job_of(configs, port, connections, by, cells, global_shadow, stats) {
        Some(job) => Ok(job),
        None => Err(WordsFault::Usage),
    }
}
