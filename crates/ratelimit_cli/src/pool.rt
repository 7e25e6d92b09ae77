// `pool`: recorded reports of clients, answered by pools of quota.
ghost use Rattle.std.specs.Prelude.{◌≡◌, ◌∷◌, [], length, IfOk};
ghost use Rattle.cli_exits.specs.World.{exit_of};
ghost use Rattle.ratelimit_cli.specs.Outside.{IsLater};
ghost use Rattle.ratelimit_cli.specs.Parts.{ExplainsCommand};
ghost use Rattle.command_words.specs.declared.command.Command.TheVariants.{Pool};

use crate::Outside;
use cli_exits::{Exit, read_files};
use cli_quota::{answered, write_answers};
use command_words::PoolJob;
use conn_tasks::PollListen;
use rate_io::{Files, Listen, Sink, Source};
use rate_types::{Blob, Blobs, Names, OutOfMemory};
use std::alloc::Global;
use std::hash::RandomState;

// The names of the files of a job: the pools, then the events.
fn file_names(alloc: Global, job: PoolJob) -> Result<Names, OutOfMemory>
    ensures { IfOk result (λ n. n ≡ job.pools ∷ job.events ∷ []) }
{
    let PoolJob { pools, events } = job;
    let mut names = Vec::new(alloc);
    names.push(pools)?;
    names.push(events)?;
    Ok(Names::of(names))
}

// Two files.
fn both_of(files: Blobs) -> (Blob, Blob)
    requires { length files ≡ 2 }
    ensures { files ≡ result.0 ∷ result.1 ∷ [] }
{
    let mut files = files.into_items();
    let first = files.remove(0);
    let second = files.remove(0);
    (first, second)
}

/// Answers the events of a job by its pools, writes a line for each of their lines, each by one call, and then flushes. Both files
/// are read and all answers made first.
pub fn run_pool<F: Files, S: Source, K: Sink, L: Listen, P: PollListen>(
    alloc: Global,
    seed: &RandomState,
    job: PoolJob,
    outside: &mut Outside<F, S, K, L, P>,
) -> Result<(), Exit>
    ensures exit { ExplainsCommand F.Files S.Source K.Sink L.Listen P.PollListen (Pool job) (exit_of result) outside.old outside.new }
    ensures later { IsLater F.Files S.Source K.Sink L.Listen P.PollListen outside.old outside.new }
{
    let Ok(names) = file_names(alloc, job) else {
        return Err(Exit::OutOfMemory);
    };
    let blobs = match read_files(alloc, &mut outside.files, names.items()) {
        Ok(blobs) => blobs,
        Err(exit) => return Err(exit),
    };
    let (file, events) = both_of(blobs);
    let lines = match answered(alloc, seed, file.bytes(), events.bytes()) {
        Ok(lines) => lines,
        Err(exit) => return Err(exit),
    };
    write_answers(&lines, &mut outside.sink)
}
