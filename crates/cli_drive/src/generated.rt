// `gen`: a made-up load, and the summary of its run.
ghost use Rattle.std.specs.Prelude.{◌≡◌, ◌≤◌, ◌∷◌, [], IfOk, string_bytes};
ghost use Rattle.rate_types.specs.declared.limits.TheConstants.{MOST_LINES};
ghost use Rattle.rate_io.specs.Events.{Grew};
ghost use Rattle.cli_exits.specs.World.{exit_of};
ghost use Rattle.cli_exits.specs.Parts.{IsOfOutput};
ghost use Rattle.cli_drive.specs.Generated.{load_text};

use crate::load_run::run_load;
use cli_exits::{Exit, write_line};
use rate_io::Sink;
use rate_types::OutOfMemory;
use std::alloc::Global;
use std::hash::RandomState;
use std::sync::Wait;
use std::thread::Threads;
use worker_run::Gate;

// How many workers run a load.
const LOAD_WORKERS: u32 = 4;

// The line of the summary of a load, with its line feed.
fn load_line<R: Threads + Wait + Sync, G: Gate>(
    rt: &R,
    alloc: Global,
    seed: RandomState,
    number: u64,
    checks: u32,
    gate: &G,
) -> Result<String, OutOfMemory>
    requires { checks ≤ MOST_LINES }
    ensures { IfOk result (λ t. string_bytes t ≡ load_text number checks) }
{
    let mut text = run_load(rt, alloc, number, checks, LOAD_WORKERS, seed, gate)?;
    text.push('\n')?;
    Ok(text)
}

/// Runs the load of a number by four workers, writes the line of its summary, and flushes. It asks for no file and reads nothing.
pub fn run_gen<R: Threads + Wait + Sync, K: Sink, G: Gate>(
    rt: &R,
    alloc: Global,
    seed: RandomState,
    number: u64,
    checks: u32,
    sink: &mut K,
    gate: &G,
) -> Result<(), Exit>
    requires { checks ≤ MOST_LINES }
    ensures { Grew (K.history sink.old) (K.history sink.new) (IsOfOutput (λ pieces. pieces ≡ load_text number checks ∷ []) (record {
      written = K.written sink.old;
      after = K.written sink.new;
      faults = (K.faults sink.old, K.faults sink.new);
    }) (exit_of result)) }
{
    let Ok(line) = load_line(rt, alloc, seed, number, checks, gate) else {
        return Err(Exit::OutOfMemory);
    };
    write_line(alloc, line, sink)
}
