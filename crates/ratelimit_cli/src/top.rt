ghost use Rattle.std.specs.Prelude.{◌≡◌, ◌≤◌, length};
ghost use Rattle.rate_types.specs.declared.limits.TheConstants.{MOST_CELLS, MOST_LINES, MOST_WORKERS};
ghost use Rattle.rate_io.specs.Events.{Grew};
ghost use Rattle.descriptor_tree.specs.Views.{config_view};
ghost use Rattle.http_serve.specs.Links.{IsUnused};
ghost use Rattle.text_lines.specs.Lines.{cut};
ghost use Rattle.cli_exits.specs.World.{exit_of};
ghost use Rattle.ratelimit_cli.specs.Exits.{ExplainsCall, IsExitOf};
ghost use Rattle.ratelimit_cli.specs.Outside.{world_between, listeners_between, IsLater};
ghost use Rattle.ratelimit_cli.specs.Parts.{command_with, ExplainsCommand, IsOfWork};
ghost use Rattle.cli_exits.specs.Parts.{IsOfOutput};

use crate::Outside;
use crate::auditing::audit_files;
use crate::pool::run_pool;
use crate::quota::run_quota;
use crate::serve::run_serve;
use crate::work::Work;
use cli_drive::{drive_and_write, run_gen};
use cli_exits::{Exit, configuration, read_files, read_input, write_text};
use cli_lookup::find_and_write;
use command_words::{Command, HELP, ThreadJob, VERSION, WordsFault, read_words};
use conn_tasks::PollListen;
use descriptor_tree::Config;
use drive_run::Setup;
use rate_io::{Files, Listen, Sink, Source};
use rate_types::{Names, Seconds};
use std::alloc::Global;
use std::hash::RandomState;
use std::sync::Wait;
use std::thread::Threads;
use worker_run::Gate;

// Makes the lines of the output of this work, writes them, and flushes.
fn make_and_write<R: Threads + Wait + Sync, K: Sink, G: Gate>(
    rt: &R,
    alloc: Global,
    work: Work,
    config: Config,
    bytes: &[u8],
    sink: &mut K,
    gate: &G,
) -> Result<(), Exit>
    requires { length (cut bytes.now) ≤ MOST_LINES }
    ensures { Grew (K.history sink.old) (K.history sink.new) (IsOfOutput (IsOfWork work (config_view config) bytes.now) (record {
      written = K.written sink.old;
      after = K.written sink.new;
      faults = (K.faults sink.old, K.faults sink.new);
    }) (exit_of result)) }
{
    match work {
        Work::Lookup => find_and_write(alloc, config, bytes, sink),
        Work::Drive { setup, stats } => {
            drive_and_write(rt, alloc, setup, stats, config, bytes, sink, gate)
        }
    }
}

// Does this work by the configuration files of these names: the steps in their order, up to the first that fails.
fn run_work<
    R: Threads + Wait + Sync,
    F: Files,
    S: Source,
    K: Sink,
    L: Listen,
    P: PollListen,
    G: Gate,
>(
    rt: &R,
    alloc: Global,
    configs: &Names,
    work: Work,
    outside: &mut Outside<F, S, K, L, P>,
    gate: &G,
) -> Result<(), Exit>
    ensures exit { ExplainsCommand F.Files S.Source K.Sink L.Listen P.PollListen (command_with configs.now work) (exit_of result)
        outside.old outside.new }
    ensures later { IsLater F.Files S.Source K.Sink L.Listen P.PollListen outside.old outside.new }
{
    let blobs = match read_files(alloc, &mut outside.files, configs.items()) {
        Ok(blobs) => blobs,
        Err(exit) => return Err(exit),
    };
    let config = match configuration(alloc, &blobs) {
        Ok(config) => config,
        Err(exit) => return Err(exit),
    };
    let bytes = match read_input(alloc, &mut outside.source) {
        Ok(bytes) => bytes,
        Err(exit) => return Err(exit),
    };
    make_and_write(rt, alloc, work, config, &bytes, &mut outside.sink, gate)
}

// The setup of the run that the words name.
fn setup_of(
    workers: u32,
    cells: u32,
    start: Seconds,
    global_shadow: bool,
    seed: RandomState,
) -> Setup
    requires { (1 ≤ workers) × (workers ≤ MOST_WORKERS) × (1 ≤ cells) × (cells ≤ MOST_CELLS) }
    ensures { (result.workers ≡ workers) × (result.cells ≡ cells) × (result.start ≡ start) × (result.global_shadow ≡ global_shadow) }
{
    Setup {
        workers,
        cells,
        start,
        global_shadow,
        seed,
    }
}

// Does the command that the words name.
#[tactic(auto, using(cli_exits::proofs::Histories::stays))]
fn run_command<
    R: Threads + Wait + Sync,
    F: Files,
    S: Source,
    K: Sink,
    L: Listen,
    P: PollListen,
    G: Gate,
>(
    rt: &R,
    alloc: Global,
    seed: RandomState,
    words: &Names,
    outside: &mut Outside<F, S, K, L, P>,
    gate: &G,
) -> Result<(), Exit>
where
    L::Link: Send,
    requires unused { IsUnused (L.history outside.old.listen) × IsUnused (P.history outside.old.polls) }
    ensures exit { ExplainsCall (exit_of result) (world_between F.Files S.Source K.Sink words.now outside.old outside.new)
        (listeners_between L.Listen P.PollListen outside.old outside.new) }
    ensures later { IsLater F.Files S.Source K.Sink L.Listen P.PollListen outside.old outside.new }
{
    match read_words(alloc, words) {
        Ok(Command::Plain(configs)) => {
            run_work(rt, alloc, &configs, Work::Lookup, outside, gate)
        }
        Ok(
            Command::Threads(
                ThreadJob::Drive {
                    configs,
                    workers,
                    cells,
                    start,
                    global_shadow,
                    stats,
                },
            ),
        ) => {
            let setup = setup_of(workers, cells, start, global_shadow, seed);
            run_work(
                rt,
                alloc,
                &configs,
                Work::Drive { setup, stats },
                outside,
                gate,
            )
        }
        Ok(Command::Threads(ThreadJob::Serve(job))) => { run_serve(rt, alloc, seed, job, outside) }
        Ok(Command::Threads(ThreadJob::Gen { number, checks })) => {
            run_gen(rt, alloc, seed, number, checks, &mut outside.sink, gate)
        }
        Ok(Command::Quota(job)) => run_quota(rt, alloc, seed, job, outside),
        Ok(Command::Pool(job)) => run_pool(alloc, &seed, job, outside),
        Ok(Command::Audit(job)) => audit_files(alloc, &job, outside),
        Ok(Command::Help) => write_text(alloc, HELP, &mut outside.sink),
        Ok(Command::Version) => write_text(alloc, VERSION, &mut outside.sink),
        Err(WordsFault::Usage) => Err(Exit::Usage),
        Err(WordsFault::OutOfMemory) => Err(Exit::OutOfMemory),
    }
}

/// Does the command that the words name. `drive` reads configuration files and a script from the source, and writes one
/// record per line of the script, then one total per counter whose window is open at its end, and with `--stats` the numbers of each rule
/// that counted anything; `lookup` reads
/// configuration files and requests, and writes what each of their descriptors finds; `quota` reads a settings file and
/// recorded streams, and writes what a lawful client would have done; `pool` reads pools and recorded reports, and writes the answers of
/// a quota server; `audit` reads configuration files, a printed run and then its script from the source, and writes the verdict on the
/// run; `serve` reads configuration files, accepts connections and answers their requests, and writes its port and how each
/// connection ended; `gen` runs a made-up load and writes its summary; `--help` and `--version` write their text. Each flushes behind
/// its last line, and `serve` behind the port too, so that with `Done` the whole output has reached what stands behind the sink.
///
/// The workers of `drive`, `quota`, `serve` and `gen` are threads. Those of `drive` and `gen` tell `gate` of each line. The hashes of names
/// go by `seed`.
///
/// The order of work is: the words, the files in order, the first refusal of a file, the input, the numbers of lines, the
/// run or the look-ups, the output. Each exit comes where its cause is the first.
pub fn ratelimit<
    R: Threads + Wait + Sync,
    F: Files,
    S: Source,
    K: Sink,
    L: Listen,
    P: PollListen,
    G: Gate,
>(
    rt: &R,
    alloc: Global,
    seed: RandomState,
    words: &Names,
    outside: &mut Outside<F, S, K, L, P>,
    gate: &G,
) -> Exit
where
    L::Link: Send,
    requires unused { IsUnused (L.history outside.old.listen) × IsUnused (P.history outside.old.polls) }
    ensures exit { IsExitOf result (world_between F.Files S.Source K.Sink words.now outside.old outside.new)
        (listeners_between L.Listen P.PollListen outside.old outside.new) }
    ensures later { IsLater F.Files S.Source K.Sink L.Listen P.PollListen outside.old outside.new }
{
    match run_command(rt, alloc, seed, words, outside, gate) {
        Ok(()) => Exit::Done,
        Err(exit) => exit,
    }
}
