// `audit`: a printed run of a script, judged.
ghost use Rattle.cli_exits.specs.World.{exit_of};
ghost use Rattle.ratelimit_cli.specs.Outside.{IsLater};
ghost use Rattle.ratelimit_cli.specs.Parts.{ExplainsCommand};
ghost use Rattle.command_words.specs.declared.command.Command.TheVariants.{Audit};

use crate::Outside;
use cli_audit::{judge_and_write, read_run_files};
use cli_exits::{Exit, configuration, read_input};
use command_words::AuditJob;
use conn_tasks::PollListen;
use rate_io::{Files, Listen, Sink, Source};
use std::alloc::Global;

/// Judges the run of a job: the steps in their order, up to the first that fails. The configuration files are read, then the run, then the
/// script from the source; the verdict is written as one line. It takes no threads and waits for nobody.
pub fn audit_files<F: Files, S: Source, K: Sink, L: Listen, P: PollListen>(
    alloc: Global,
    job: &AuditJob,
    outside: &mut Outside<F, S, K, L, P>,
) -> Result<(), Exit>
    ensures exit { ExplainsCommand F.Files S.Source K.Sink L.Listen P.PollListen (Audit job.now) (exit_of result) outside.old outside.new }
    ensures later { IsLater F.Files S.Source K.Sink L.Listen P.PollListen outside.old outside.new }
{
    let read = match read_run_files(alloc, &mut outside.files, job) {
        Ok(read) => read,
        Err(exit) => return Err(exit),
    };
    let config = match configuration(alloc, &read.configs) {
        Ok(config) => config,
        Err(exit) => return Err(exit),
    };
    let bytes = match read_input(alloc, &mut outside.source) {
        Ok(bytes) => bytes,
        Err(exit) => return Err(exit),
    };
    judge_and_write(
        alloc,
        job,
        config,
        &bytes,
        read.run.bytes(),
        &mut outside.sink,
    )
}
