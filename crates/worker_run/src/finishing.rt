// A script run to its end, and its limiter closed.
ghost use Rattle.std.specs.Prelude.{◌≡◌, ◌≤◌, All, IfOk, map, vec_len, true};
ghost use Rattle.rate_types.specs.declared.limits.TheConstants.{MOST_CLAIMS, MOST_WORKERS};
ghost use Rattle.counter_cells.specs.Steps.{new_passes};
ghost use Rattle.rate_limiter.specs.Passes.{IsNewPass};
ghost use Rattle.rule_stats.specs.Sums.{AreSums};
ghost use Rattle.run_stats.specs.RunStats.{notes_of};
ghost use Rattle.script_run.specs.Run.{IsRun};
ghost use Rattle.script_run.specs.Totals.{AreTotalsOf};
ghost use Rattle.worker_run.specs.Clauses.{first_version};

use crate::gate::Gate;
use crate::running::{Ran, run_lines};
use counter_cells::CellNaming;
use rate_limiter::{Limiter, Pass};
use rate_types::{OutOfMemory, Seconds};
use rls_core::Totals;
use rule_stats::Tally;
use script_lines::ScriptLines;
use script_run::RunJournals;
use std::alloc::Global;
use std::sync::Wait;
use std::thread::Threads;

/// The records of a script, what was charged in the windows that are open at the end, and the numbers of its answered checks, where they
/// were asked for.
#[derive(Drop)]
pub struct Finished {
    pub records: RunJournals,
    pub totals: Totals,
    pub tally: Tally,
}

/// Runs the lines of a script on all passes of a limiter, which have done nothing yet, each in a thread of its own, and closes the
/// limiter. The records are those of a lawful run. With `stats` its answered checks are counted.
pub fn run_script<N: CellNaming + Send + Sync, L: ScriptLines, G: Gate, R: Threads + Wait + Sync>(
    rt: &R,
    alloc: Global,
    limiter: Limiter<N>,
    passes: Vec<Pass<N>>,
    lines: &L,
    start: Seconds,
    stats: bool,
    gate: &G,
) -> Result<Finished, OutOfMemory>
    requires passes { All (λ p. p.limiter ≡ limiter.id) passes.items }
    requires fresh { All (λ p. IsNewPass (first_version passes.items) start p) passes.items }
    requires cells { map (λ p. p.cells) passes.items ≡ new_passes (vec_len passes) start }
    requires start { start ≡ N.setup.start }
    requires claims_max { MOST_CLAIMS ≤ limiter.claims_max }
    requires every { vec_len passes ≡ limiter.passes }
    requires workers { (1 ≤ vec_len passes) × (vec_len passes ≤ MOST_WORKERS) }
    ensures run { IfOk result (λ f. IsRun (first_version passes.items) (vec_len passes) N.setup.cells start limiter.global_shadow
        (L.lines lines.now) f.records) }
    ensures totals { IfOk result (λ f. AreTotalsOf start (L.lines lines.now) f.records f.totals) }
    ensures counted { IfOk result (λ f. stats ≡ true → AreSums (notes_of (L.lines lines.now) f.records) f.tally.versions) }
{
    let Ran {
        records,
        passes,
        tally,
    } = run_lines(rt, alloc, &limiter, passes, lines, start, stats, gate)?;
    let closed = limiter.close(alloc, passes)?;
    Ok(Finished {
        records,
        totals: closed.totals,
        tally,
    })
}
