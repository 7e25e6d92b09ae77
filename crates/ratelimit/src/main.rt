//! The program: the real files, input, output behind a buffer, sockets and clock, the text of the exit on standard error, and the exit
//! status.
#![tactic(auto)]

ghost use Rattle.std.specs.Prelude.{◌≡◌, ◌⊎◌, IfErr};
ghost use Rattle.std.specs.Process.{exit_status};
ghost use Rattle.cli_exits.specs.Reports.{status_of};
ghost use Rattle.cli_exits.specs.declared.exit.Exit.TheVariants as exits;

use cli_exits::Exit;
use command_words::{WordsFault, read_words};
use mio_links::MioListen;
use rate_io::{HostFiles, ReaderSource, StreamListen, WriterSink};
use rate_types::{Names, Word};
use ratelimit_cli::{Outside, ratelimit};
use std::alloc::Global;
use std::hash::RandomState;
use std::io::BufWriter;
use std::process::ExitCode;
use std::sync::Wait;
use std::thread::Threads;
use std::{env, io};
use worker_run::Open;

// How many bytes of the output wait at most before they are handed to the system.
const MOST_WAITING: usize = 65_536;

fn words_of(rt: &HostRuntime, alloc: Global) -> io::Result<Names> {
    let mut words = Vec::new(alloc);
    for word in env::args(rt)?.skip(1) {
        words.push(Word::of(word))?;
    }
    Ok(Names::of(words))
}

// Does the command of the words over the real files, input, output, sockets and clock, with threads where it takes workers.
fn run<R: Threads + Wait + Sync>(
    rt: &HostRuntime,
    threads: &R,
    alloc: Global,
    seed: RandomState,
) -> io::Result<Exit> {
    let words = words_of(rt, alloc)?;
    let stdout = BufWriter::with_capacity(alloc, MOST_WAITING, rt.stdout())?;
    let mut outside = Outside {
        files: HostFiles::new(rt.clone()?),
        source: ReaderSource::new(rt.stdin()),
        sink: WriterSink::new(stdout),
        listen: StreamListen::new(rt.clone()?),
        polls: MioListen::new(rt.clone()?, alloc),
    };
    Ok(ratelimit(threads, alloc, seed, &words, &mut outside, &Open))
}

// The exit where the words couldn't be had: there was no memory for them, or one of them isn't UTF-8.
fn exit_before(error: io::Error) -> Exit
    ensures { (result ≡ exits.Usage) ⊎ (result ≡ exits.OutOfMemory) }
{
    match error.kind() {
        io::ErrorKind::OutOfMemory => Exit::OutOfMemory,
        _ => Exit::Usage,
    }
}

// Writes the text of an exit to standard error.
fn write_text(rt: &HostRuntime, exit: &Exit) -> io::Result<()> {
    match exit.text(rt.alloc()) {
        Ok(Some(text)) => eprintln!(rt; "{text}"),
        Ok(None) => Ok(()),
        Err(_) => eprintln!(rt; "ratelimit: out of memory"),
    }
}

// Ends with an exit: its text on standard error, and its status, which stands whether or not the text can be written.
fn end(rt: &HostRuntime, exit: &Exit) -> ExitCode
    ensures { exit_status result ≡ status_of exit.now }
{
    let _written = write_text(rt, exit);
    ExitCode::from(exit.status())
}

// The exit of words that are no command, or for which there was no memory.
fn try_words(rt: &HostRuntime, alloc: Global) -> Result<(), Exit>
    ensures { IfErr result (λ exit. (exit ≡ exits.Usage) ⊎ (exit ≡ exits.OutOfMemory)) }
{
    let words = match words_of(rt, alloc) {
        Ok(words) => words,
        Err(error) => return Err(exit_before(error)),
    };
    match read_words(alloc, &words) {
        Ok(_) => Ok(()),
        Err(WordsFault::Usage) => Err(Exit::Usage),
        Err(WordsFault::OutOfMemory) => Err(Exit::OutOfMemory),
    }
}

// Ends a command that can't be begun, since the system gave no random bytes for its hashes. Nothing was read, so this is no fault of
// reading: as where there is no memory, the system hasn't what a command takes, and the line says what that is.
fn end_without_seed(rt: &HostRuntime) -> ExitCode
    ensures { exit_status result ≡ status_of exits.OutOfMemory }
{
    let _written = eprintln!(rt; "ratelimit: no random bytes");
    ExitCode::from(Exit::OutOfMemory.status())
}

fn main(rt: HostRuntime) -> ExitCode {
    let Ok(seed) = RandomState::new(&rt) else {
        return match try_words(&rt, rt.alloc()) {
            Ok(()) => end_without_seed(&rt),
            Err(exit) => end(&rt, &exit),
        };
    };
    match run(&rt, &rt, rt.alloc(), seed) {
        Ok(exit) => end(&rt, &exit),
        Err(error) => end(&rt, &exit_before(error)),
    }
}
