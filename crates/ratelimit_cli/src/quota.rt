// `quota`: recorded streams replayed by a settings file.
ghost use Rattle.std.specs.Prelude.{◌≡◌, ◌<◌, ◌∷◌, length, IfOk};
ghost use Rattle.cli_exits.specs.World.{exit_of};
ghost use Rattle.ratelimit_cli.specs.Outside.{IsLater};
ghost use Rattle.ratelimit_cli.specs.Parts.{ExplainsCommand};
ghost use Rattle.command_words.specs.declared.command.Command.TheVariants.{Quota};

use crate::Outside;
use cli_exits::{Exit, read_files};
use cli_quota::{replayed, write_texts};
use command_words::QuotaJob;
use conn_tasks::PollListen;
use rate_io::{Files, Listen, Sink, Source};
use rate_types::{Blob, Blobs, Names, OutOfMemory, Word};
use std::alloc::Global;
use std::hash::RandomState;
use std::thread::Threads;

// The names of the files of a replay: the settings file, then the streams.
fn file_names(settings: Word, streams: Names) -> Result<Names, OutOfMemory>
    ensures { IfOk result (λ n. n ≡ settings ∷ streams) }
{
    let mut names = streams.into_items();
    names.insert(0, settings)?;
    Ok(Names::of(names))
}

// The first file, and the others.
fn first_of(files: Blobs) -> (Blob, Blobs)
    requires { 0 < length files }
    ensures { files ≡ result.0 ∷ result.1 }
{
    let mut files = files.into_items();
    let first = files.remove(0);
    (first, Blobs::of(files))
}

/// Replays the streams of a job by its settings file, and writes the output of each in the order of the streams, line by
/// line, each line by one call, and then flushes. All files are read first. The hashes of buckets' names go by `seed`.
pub fn run_quota<R: Threads + Sync, F: Files, S: Source, K: Sink, L: Listen, P: PollListen>(
    rt: &R,
    alloc: Global,
    seed: RandomState,
    job: QuotaJob,
    outside: &mut Outside<F, S, K, L, P>,
) -> Result<(), Exit>
    ensures exit { ExplainsCommand F.Files S.Source K.Sink L.Listen P.PollListen (Quota job) (exit_of result) outside.old outside.new }
    ensures later { IsLater F.Files S.Source K.Sink L.Listen P.PollListen outside.old outside.new }
{
    let QuotaJob {
        settings,
        streams,
        workers,
    } = job;
    let Ok(names) = file_names(settings, streams) else {
        return Err(Exit::OutOfMemory);
    };
    let blobs = match read_files(alloc, &mut outside.files, names.items()) {
        Ok(blobs) => blobs,
        Err(exit) => return Err(exit),
    };
    let (file, streams) = first_of(blobs);
    let texts = match replayed(rt, alloc, file.bytes(), seed, &streams, workers) {
        Ok(texts) => texts,
        Err(exit) => return Err(exit),
    };
    write_texts(&texts, &mut outside.sink)
}
