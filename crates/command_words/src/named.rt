// The words of the commands that take some: what `clap` finds in them, and the command that this asks for.
ghost use Rattle.std.specs.Prelude.{◌≡◌, IfOk, Some, None, Err};
ghost use Rattle.clap.specs.Words.{app_of};
ghost use Rattle.command_words.specs.Words as spec;
ghost use Rattle.command_words.specs.Named as named;
ghost use Rattle.command_words.specs.declared.named.CommandName.TheVariants as name;
ghost use Rattle.command_words.specs.declared.words.WordsFault.TheVariants.{Usage};

use crate::audit_words::{audit_job, audit_parser};
use crate::command::Command;
use crate::gen_words::{gen_job, gen_parser};
use crate::parsers::{all_in, drive_parser, lookup_parser, parse, quota_parser};
use crate::pool_words::{pool_job, pool_parser};
use crate::serve_words::{serve_job, serve_parser};
use crate::texts::{names_of, texts_of};
use crate::words::{WordsFault, drive_job, quota_job};
use clap::{ArgMatches, Command as Parser};
use rate_types::Word;
use std::alloc::{AllocError, Global};

/// A command that takes words.
#[derive(Clone, Copy)]
pub enum CommandName {
    Drive,
    Lookup,
    Quota,
    Pool,
    Audit,
    Serve,
    Gen,
}

// What the command of a name takes.
fn parser_of<'a>(alloc: Global, name: CommandName) -> Result<Parser<'a>, AllocError>
    ensures { IfOk result (λ c. app_of c ≡ named.app_named name) }
{
    match name {
        CommandName::Drive => drive_parser(alloc),
        CommandName::Lookup => lookup_parser(alloc),
        CommandName::Quota => quota_parser(alloc),
        CommandName::Pool => pool_parser(alloc),
        CommandName::Audit => audit_parser(alloc),
        CommandName::Serve => serve_parser(alloc),
        CommandName::Gen => gen_parser(alloc),
    }
}

// The look-ups that these matches ask for.
fn lookup_job(alloc: Global, matches: &ArgMatches<'_>) -> Result<Command, WordsFault>
    ensures command { IfOk result (λ c. named.job_named name.Lookup (spec.rows_in matches.now) ≡ Some c) }
    ensures range { IfOk result spec.AreInRange }
    ensures usage { result ≡ Err Usage → named.job_named name.Lookup (spec.rows_in matches.now) ≡ None }
{
    let configs = names_of(alloc, all_in(matches, "configs"))?;
    Ok(Command::Plain(configs))
}

// The command of a name that these matches ask for.
fn job_of_name(
    alloc: Global,
    name: CommandName,
    matches: &ArgMatches<'_>,
) -> Result<Command, WordsFault>
    ensures command { IfOk result (λ c. named.job_named name (spec.rows_in matches.now) ≡ Some c) }
    ensures range { IfOk result spec.AreInRange }
    ensures usage { result ≡ Err Usage → named.job_named name (spec.rows_in matches.now) ≡ None }
{
    match name {
        CommandName::Drive => drive_job(alloc, matches),
        CommandName::Lookup => lookup_job(alloc, matches),
        CommandName::Quota => quota_job(alloc, matches),
        CommandName::Pool => pool_job(alloc, matches),
        CommandName::Audit => audit_job(alloc, matches),
        CommandName::Serve => serve_job(alloc, matches),
        CommandName::Gen => gen_job(matches),
    }
}

/// The words of the command of this name.
pub fn read_named(alloc: Global, name: CommandName, words: &[Word]) -> Result<Command, WordsFault>
    ensures command { IfOk result (λ c. named.words_named name words.now ≡ Some c) }
    ensures range { IfOk result spec.AreInRange }
    ensures usage { result ≡ Err Usage → named.words_named name words.now ≡ None }
{
    let texts = texts_of(alloc, words)?;
    let command = parser_of(alloc, name)?;
    let matches = match parse(command, texts.as_slice()) {
        Ok(matches) => matches,
        Err(fault) => return Err(fault),
    };
    let job = job_of_name(alloc, name, &matches)?;
    Ok(job)
}
