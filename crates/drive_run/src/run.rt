ghost use Rattle.std.specs.Prelude.{◌≡◌, ◌≤◌, IfOk, true};
ghost use Rattle.std.specs.Arc.{arc_value};
ghost use Rattle.rate_types.specs.declared.limits.TheConstants.{MOST_CELLS, MOST_WORKERS};
ghost use Rattle.descriptor_tree.specs.Views.{config_view};
ghost use Rattle.counter_cells.specs.Opened.{table_of, setup_of};
ghost use Rattle.rule_stats.specs.Sums.{AreSums};
ghost use Rattle.run_stats.specs.RunStats.{notes_of};
ghost use Rattle.script_run.specs.Run.{IsRun};
ghost use Rattle.script_run.specs.Totals.{AreTotalsOf};

use counter_cells::{CellNaming, OpenedCells};
use descriptor_tree::Config;
use rate_limiter::{Limiter, Limits};
use rate_types::limits::MOST_CLAIMS;
use rate_types::{OutOfMemory, Seconds};
use rls_core::Totals;
use rule_stats::Tally;
use script_lines::ScriptLines;
use script_run::RunJournals;
use std::alloc::Global;
use std::hash::RandomState;
use std::marker::Brand;
use std::sync::{Arc, Wait};
use std::thread::Threads;
use worker_run::{Gate, run_script};

/// How a script is run.
#[derive(Clone, Copy)]
pub struct Setup {
    /// 1 to 64.
    pub workers: u32,
    /// 1 to 1,048,576.
    pub cells: u32,
    pub start: Seconds,
    /// Overall codes are always OK; the statuses aren't changed by it.
    pub global_shadow: bool,
    /// The hashes of names go by it.
    pub seed: RandomState,
    ghost workers_in_range: { (1 ≤ workers) × (workers ≤ MOST_WORKERS) },
    ghost cells_in_range: { (1 ≤ cells) × (cells ≤ MOST_CELLS) },
}

/// The records of a script, the totals of the windows that are open at its end, and the numbers of its answered checks, where they were
/// asked for.
#[derive(Drop)]
pub struct Driven {
    pub records: RunJournals,
    pub totals: Totals,
    pub tally: Tally,
}

// The run of these lines by a limiter on these cells.
fn drive_on<N: CellNaming + Send + Sync, L: ScriptLines, G: Gate, R: Threads + Wait + Sync>(
    rt: &R,
    alloc: Global,
    opened: OpenedCells,
    lines: &L,
    config: Arc<Config>,
    setup: Setup,
    stats: bool,
    gate: &G,
) -> Result<Driven, OutOfMemory>
    requires name { (table_of opened ≡ N.table) × (setup_of opened ≡ N.setup) }
    requires cells { N.setup.cells ≡ setup.cells }
    requires passes { N.setup.passes ≡ setup.workers }
    requires start { N.setup.start ≡ setup.start }
    ensures run { IfOk result
        (λ d. IsRun (config_view (arc_value config)) setup.workers setup.cells setup.start setup.global_shadow (L.lines lines.now)
        d.records) }
    ensures totals { IfOk result (λ d. AreTotalsOf setup.start (L.lines lines.now) d.records d.totals) }
    ensures counted { IfOk result (λ d. stats ≡ true → AreSums (notes_of (L.lines lines.now) d.records) d.tally.versions) }
{
    let limits = Limits {
        claims_max: MOST_CLAIMS,
        global_shadow: setup.global_shadow,
    };
    let (limiter, passes) = Limiter::<N>::make(alloc, config, opened, limits, setup.seed)?;
    let finished = run_script(rt, alloc, limiter, passes, lines, setup.start, stats, gate)?;
    Ok(Driven {
        records: finished.records,
        totals: finished.totals,
        tally: finished.tally,
    })
}

/// The run of a script, whose version 0 is the configuration: its records, the totals at its end, and with `stats` the numbers of its
/// answered checks. Each worker is a thread, and reads the lines that it draws.
pub fn drive_script<L: ScriptLines, G: Gate, R: Threads + Wait + Sync>(
    rt: &R,
    alloc: Global,
    script: &L,
    config: Arc<Config>,
    setup: Setup,
    stats: bool,
    gate: &G,
) -> Result<Driven, OutOfMemory>
    ensures run { IfOk result
        (λ d. IsRun (config_view (arc_value config)) setup.workers setup.cells setup.start setup.global_shadow (L.lines script.now)
        d.records) }
    ensures totals { IfOk result (λ d. AreTotalsOf setup.start (L.lines script.now) d.records d.totals) }
    ensures counted { IfOk result (λ d. stats ≡ true → AreSums (notes_of (L.lines script.now) d.records) d.tally.versions) }
{
    let opened = OpenedCells::make(alloc, setup.cells, setup.workers, setup.start)?;
    drive_on::<Brand, _, _, _>(rt, alloc, opened, script, config, setup, stats, gate)
}
