// The words of `pool`.
ghost use Rattle.std.specs.Prelude.{◌≡◌, false, IfOk, IfSome, Some, None, Err};
ghost use Rattle.clap.specs.Words.{app_of};
ghost use Rattle.command_words.specs.Words as spec;
ghost use Rattle.command_words.specs.declared.words.WordsFault.TheVariants.{Usage};

use crate::command::{Command, PoolJob};
use crate::parsers::{first_in, with_required, with_word};
use crate::texts::word_of;
use crate::words::WordsFault;
use clap::{ArgMatches, Command as Parser};
use rate_types::Word;
use std::alloc::{AllocError, Global};

/// `pool --pools F EVENTS`
pub fn pool_parser<'a>(alloc: Global) -> Result<Parser<'a>, AllocError>
    ensures { IfOk result (λ c. app_of c ≡ spec.pool_app) }
{
    let one = with_required(alloc, Parser::new(alloc, "pool"), "pools")?;
    let command = with_word(alloc, one, "events")?;
    Ok(command)
}

// The answers by these, where both are there.
fn pool_job_of(pools: Option<Word>, events: Option<Word>) -> Option<Command>
    ensures job { result ≡ spec.pool_job_of pools events }
    ensures range { IfSome result spec.AreInRange }
{
    let Some(pools) = pools else {
        return None;
    };
    let Some(events) = events else {
        return None;
    };
    Some(Command::Pool(PoolJob { pools, events }))
}

/// The answers that these matches ask for.
pub fn pool_job(alloc: Global, matches: &ArgMatches<'_>) -> Result<Command, WordsFault>
    ensures command { IfOk result (λ c. spec.pool_job (spec.rows_in matches.now) ≡ Some c) }
    ensures range { IfOk result spec.AreInRange }
    ensures usage { result ≡ Err Usage → spec.pool_job (spec.rows_in matches.now) ≡ None }
{
    let pools = word_of(alloc, first_in(matches, "pools"))?;
    let events = word_of(alloc, first_in(matches, "events"))?;
    match pool_job_of(pools, events) {
        Some(job) => Ok(job),
        None => Err(WordsFault::Usage),
    }
}
