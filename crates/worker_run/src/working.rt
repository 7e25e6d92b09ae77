// A worker that runs the lines that it draws.
ghost use Rattle.std.specs.Prelude.{◌≡◌, ◌≤◌, ◌<◌, ◌+◌, ◌-◌, ◌++◌, ℕ, List, IfOk, length, map, slice_get, true};
ghost use Rattle.rate_types.specs.declared.limits.TheConstants.{MOST_DESCRIPTORS, MOST_LINES};
ghost use Rattle.descriptor_tree.specs.Trees.{DomainTree};
ghost use Rattle.rate_limiter.specs.Passes.{bounds_of};
ghost use Rattle.line_numbers.specs.Batches.{batches_id, batches_of, lines_in, IsNew};
ghost use Rattle.rule_stats.specs.declared.tally.TheConstants.{MOST_NOTES};
ghost use Rattle.rule_stats.specs.Statistics.{Note};
ghost use Rattle.rule_stats.specs.Sums.{AreSums};
ghost use Rattle.run_stats.specs.RunStats.{notes_shown_by, HasCounted};
ghost use Rattle.worker_run.specs.LineSteps.{IsRecordStep};
ghost use Rattle.worker_run.specs.Journal.{HasWorked};

use crate::gate::Gate;
use crate::lines::run_line;
use crate::tallying::count_line;
use counter_cells::CellNaming;
use json::Scratch;
use line_numbers::{BatchDrawer, Batches};
use rate_limiter::{Limiter, Pass};
use rate_types::{OutOfMemory, Seconds};
use reply_text::Record;
use rls_core::Reply;
use rule_stats::Tally;
use script_lines::ScriptLines;
use script_run::Journal;
use std::alloc::Global;
use std::sync::Wait;

/// A worker: its number, its pass, and what it draws lines with.
#[derive(Drop)]
pub struct Worker<N: CellNaming> {
    pub number: u32,
    pub pass: Pass<N>,
    pub drawer: BatchDrawer,
}

/// A worker that is done: its pass, its drawer, the records of the lines that it drew, in order, and the numbers of the answered checks
/// among them, where they were asked for.
#[derive(Drop)]
pub struct Worked<N: CellNaming> {
    pub pass: Pass<N>,
    pub drawer: BatchDrawer,
    pub journal: Journal,
    pub tally: Tally,
}

/// What all workers of a run share.
pub struct Shared<'a, N: CellNaming, L: ScriptLines, G: Gate> {
    pub limiter: &'a Limiter<N>,
    pub numbers: &'a Batches,
    pub lines: &'a L,
    pub gate: &'a G,
    pub start: Seconds,
    /// For how many records a worker's journal has room at first.
    pub room: usize,
    /// Whether the workers add up the statistics of the rules.
    pub stats: bool,
}

// What a worker keeps from line to line: where a line is read, its reply, and what was counted so far.
#[derive(Drop)]
struct Kept {
    scratch: Scratch,
    reply: Reply,
    tally: Tally,
}

// Reads the line with this number, counted from 0, runs it, and answers its record. Where statistics are asked for, it is counted.
#[inline(always)]
fn run_drawn<N: CellNaming, L: ScriptLines, G: Gate, R: Wait>(
    rt: &R,
    alloc: Global,
    run: &Shared<'_, N, L, G>,
    worker: u32,
    pass: &mut Pass<N>,
    kept: &mut Kept,
    number: u64,
) -> Result<Record, OutOfMemory>
    requires pass { pass.old.limiter ≡ run.now.limiter.now.id }
    requires lines { length (L.lines run.now.lines.now) ≤ MOST_LINES }
    requires number { number < length (L.lines run.now.lines.now) }
    requires room { kept.old.tally.notes + MOST_DESCRIPTORS ≤ MOST_NOTES }
    ensures pass { pass.new.limiter ≡ run.now.limiter.now.id }
    ensures line { IfOk result (λ r. r.line ≡ number + 1) }
    ensures step { IfOk result (λ r. IsRecordStep (bounds_of N.setup.cells run.now.limiter.now) run.now.limiter.now run.now.start worker
        (L.lines run.now.lines.now) pass.old r pass.new) }
    ensures counted { IfOk result (λ r. run.now.stats ≡ true → (notes : List Note) → AreSums notes kept.old.tally.versions
        → AreSums (notes ++ notes_shown_by (slice_get (L.lines run.now.lines.now) (r.line - 1)) r) kept.new.tally.versions) }
    ensures notes { IfOk result (λ r. kept.new.tally.notes ≤ kept.old.tally.notes + MOST_DESCRIPTORS) }
{
    let index = number as usize;
    let number = number as u32 + 1;
    run.gate.before(worker, number);
    let line = run.lines.read(alloc, &mut kept.scratch, index)?;
    let outcome = run_line(
        rt,
        alloc,
        run.limiter,
        pass,
        &line,
        run.start,
        &mut kept.reply,
    )?;
    let record = Record {
        line: number,
        worker,
        version: pass.version(),
        moment: pass.moment(),
        outcome,
    };
    count_line(run.stats, &mut kept.tally, &line, &record)?;
    run.gate.after(worker, &line, &record, pass);
    Ok(record)
}

/// Runs the lines that the worker draws, until there are no more.
pub fn work<N: CellNaming, L: ScriptLines, G: Gate, R: Wait>(
    rt: &R,
    alloc: Global,
    run: &Shared<'_, N, L, G>,
    worker: Worker<N>,
) -> Result<Worked<N>, OutOfMemory>
    requires pass { worker.pass.limiter ≡ run.now.limiter.now.id }
    requires drawer { (batches_of worker.drawer ≡ batches_id run.now.numbers.now) × IsNew worker.drawer }
    requires lines { (length (L.lines run.now.lines.now) ≤ MOST_LINES) × (lines_in run.now.numbers.now ≡ length (L.lines run.now.lines.now)) }
    ensures drawer { IfOk result (λ w. batches_of w.drawer ≡ batches_id run.now.numbers.now) }
    ensures worked { IfOk result (λ w. HasWorked (bounds_of N.setup.cells run.now.limiter.now) run.now.limiter.now run.now.start
        worker.number
        (L.lines run.now.lines.now) worker.pass w.journal w.pass w.drawer) }
    ensures counted { IfOk result (λ w. HasCounted run.now.stats (L.lines run.now.lines.now) w.journal w.tally) }
{
    let Worker {
        number: worker,
        mut pass,
        mut drawer,
    } = worker;
    let mut kept = Kept {
        scratch: Scratch::new(alloc),
        reply: Reply::new(),
        tally: Tally::new(alloc),
    };
    let mut journal = Journal::with_room(alloc, run.room)?;
    'lines: while let Some(number) = run.numbers.draw(&mut drawer) {
        let record = run_drawn(rt, alloc, run, worker, &mut pass, &mut kept, number)?;
        journal.push(record)?;
    }
    Ok(Worked {
        pass,
        drawer,
        journal,
        tally: kept.tally,
    })
}
