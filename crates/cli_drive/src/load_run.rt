// The run of a made-up load.
ghost use Rattle.std.specs.Prelude.{◌≡◌, ◌≤◌, IfOk, string_bytes};
ghost use Rattle.rate_types.specs.declared.limits.TheConstants.{MOST_LINES, MOST_WORKERS};
ghost use Rattle.load_gen.specs.Summary.{summary_of};

use drive_run::{Setup, drive_script};
use load_gen::{Load, load_config, summary};
use rate_types::{OutOfMemory, Seconds};
use std::alloc::Global;
use std::hash::RandomState;
use std::sync::{Arc, Wait};
use std::thread::Threads;
use worker_run::Gate;

// Cells for each worker. Those of the first are as many as there are counters, and another one holds at most 32.
const CELLS: u32 = 64;

/// Runs the load of a number, so many checks, by so many workers, each a thread, and answers the summary of its records, which is that of
/// the load for every number of workers.
pub fn run_load<G: Gate, R: Threads + Wait + Sync>(
    rt: &R,
    alloc: Global,
    number: u64,
    checks: u32,
    workers: u32,
    seed: RandomState,
    gate: &G,
) -> Result<String, OutOfMemory>
    requires checks { checks ≤ MOST_LINES }
    requires workers { (1 ≤ workers) × (workers ≤ MOST_WORKERS) }
    ensures { IfOk result (λ t. string_bytes t ≡ summary_of number checks) }
{
    let load = Load { number, checks };
    let config = load_config(alloc)?;
    let config = Arc::new(alloc, config)?;
    let setup = Setup {
        workers,
        cells: CELLS * workers,
        start: Seconds::capped(0),
        global_shadow: false,
        seed,
    };
    let driven = drive_script(rt, alloc, &load, config, setup, false, gate)?;
    let text = summary(alloc, driven.records)?;
    Ok(text)
}
