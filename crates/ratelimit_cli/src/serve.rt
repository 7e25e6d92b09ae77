// `serve`: connections served by a limiter.
ghost use Rattle.http_serve.specs.Links.{IsUnused};
ghost use Rattle.cli_exits.specs.World.{exit_of};
ghost use Rattle.command_words.specs.Words.{AreInRange};
ghost use Rattle.ratelimit_cli.specs.Outside.{IsLater};
ghost use Rattle.ratelimit_cli.specs.Parts.{ExplainsCommand};
ghost use Rattle.command_words.specs.declared.command.Command.TheVariants.{Threads};
ghost use Rattle.command_words.specs.declared.command.ThreadJob.TheVariants.{Serve};

use crate::Outside;
use cli_exits::{Exit, configuration, read_files};
use cli_serve::{listen_and_serve, poll_and_serve};
use command_words::{ServeBy, ServeJob};
use conn_tasks::PollListen;
use rate_io::{Files, Listen, Sink, Source};
use std::alloc::Global;
use std::hash::RandomState;
use std::sync::Wait;
use std::thread::Threads;

/// Serves the connections of a job by the configuration of its files, all of which are read first: has the port, writes it and flushes,
/// accepts the connections and serves each once, by threads or by tasks on this one, writes how each ended, line by line, each line by
/// one call, and flushes.
pub fn run_serve<R: Threads + Wait + Sync, F: Files, S: Source, K: Sink, L: Listen, P: PollListen>(
    rt: &R,
    alloc: Global,
    seed: RandomState,
    job: ServeJob,
    outside: &mut Outside<F, S, K, L, P>,
) -> Result<(), Exit>
where
    L::Link: Send,
    requires range { AreInRange (Threads (Serve job)) }
    requires unused { IsUnused (L.history outside.old.listen) × IsUnused (P.history outside.old.polls) }
    ensures exit { ExplainsCommand F.Files S.Source K.Sink L.Listen P.PollListen (Threads (Serve job)) (exit_of result)
        outside.old outside.new }
    ensures later { IsLater F.Files S.Source K.Sink L.Listen P.PollListen outside.old outside.new }
{
    let blobs = match read_files(alloc, &mut outside.files, job.configs.items()) {
        Ok(blobs) => blobs,
        Err(exit) => return Err(exit),
    };
    let config = match configuration(alloc, &blobs) {
        Ok(config) => config,
        Err(exit) => return Err(exit),
    };
    match job.by {
        ServeBy::Workers(workers) => listen_and_serve(
            rt,
            alloc,
            seed,
            config,
            &job,
            workers,
            &mut outside.sink,
            &mut outside.listen,
        ),
        ServeBy::Tasks(tasks) => poll_and_serve(
            rt,
            alloc,
            seed,
            config,
            &job,
            tasks,
            &mut outside.sink,
            &mut outside.polls,
        ),
    }
}
