// The words of `gen`.
ghost use Rattle.std.specs.Prelude.{◌≡◌, ◌≤◌, false, IfOk, IfSome, Some, None, Err, option_map};
ghost use Rattle.rate_types.specs.declared.limits.TheConstants.{MOST_LINES};
ghost use Rattle.clap.specs.Words.{app_of};
ghost use Rattle.command_words.specs.Words as spec;
ghost use Rattle.command_words.specs.declared.words.WordsFault.TheVariants.{Usage};

use crate::command::{Command, ThreadJob};
use crate::number::{count_in, number_in};
use crate::parsers::{first_in, with_word};
use crate::words::WordsFault;
use clap::{ArgMatches, Command as Parser};
use rate_types::Word;
use rate_types::limits::MOST_LINES;
use std::alloc::{AllocError, Global};

/// `gen NUMBER CHECKS`
pub fn gen_parser<'a>(alloc: Global) -> Result<Parser<'a>, AllocError>
    ensures { IfOk result (λ c. app_of c ≡ spec.gen_app) }
{
    let one = with_word(alloc, Parser::new(alloc, "gen"), "number")?;
    let command = with_word(alloc, one, "checks")?;
    Ok(command)
}

// The number of a load.
fn number_of_load(text: Option<&str>) -> Option<u64>
    ensures { result ≡ spec.required_in 18446744073709551615 (option_map (λ t. t.now) text.entry) }
{
    match text {
        Some(text) => number_in(Some(text), 0, u64::MAX, 0),
        None => None,
    }
}

// How many checks it has.
fn checks_of_load(text: Option<&str>) -> Option<u32>
    ensures number { result ≡ spec.required_in MOST_LINES (option_map (λ t. t.now) text.entry) }
    ensures bound { IfSome result (λ n. n ≤ MOST_LINES) }
{
    match text {
        Some(text) => count_in(Some(text), 0, MOST_LINES, 0),
        None => None,
    }
}

// The load of these numbers, where both are there.
fn gen_job_of(number: Option<u64>, checks: Option<u32>) -> Option<Command>
    requires { IfSome checks (λ n. n ≤ MOST_LINES) }
    ensures job { result ≡ spec.gen_job_of number checks }
    ensures range { IfSome result spec.AreInRange }
{
    let Some(number) = number else {
        return None;
    };
    let Some(checks) = checks else {
        return None;
    };
    Some(Command::Threads(ThreadJob::Gen { number, checks }))
}

/// The load that these matches ask for.
pub fn gen_job(matches: &ArgMatches<'_>) -> Result<Command, WordsFault>
    ensures command { IfOk result (λ c. spec.gen_job (spec.rows_in matches.now) ≡ Some c) }
    ensures range { IfOk result spec.AreInRange }
    ensures usage { result ≡ Err Usage → spec.gen_job (spec.rows_in matches.now) ≡ None }
{
    let number = number_of_load(first_in(matches, "number"));
    let checks = checks_of_load(first_in(matches, "checks"));
    match gen_job_of(number, checks) {
        Some(job) => Ok(job),
        None => Err(WordsFault::Usage),
    }
}
