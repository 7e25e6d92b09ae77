// Workers in threads of their own.
ghost use Rattle.std.specs.Prelude.{◌≡◌, ◌≤◌, ◌<◌, ◌+◌, ℕ, All, IfOk, Ok, OnOk, length, map, vec_len, vec_capacity, slice_index_or, true};
ghost use Rattle.rate_types.specs.declared.limits.TheConstants.{MOST_LINES, MOST_WORKERS};
ghost use Rattle.rate_limiter.specs.Passes.{bounds_of};
ghost use Rattle.line_numbers.specs.Batches.{batches_id, batches_of, lines_in, drawers_in, IsNew};
ghost use Rattle.rule_stats.specs.Sums.{AreSums};
ghost use Rattle.run_stats.specs.RunStats.{notes_of};
ghost use Rattle.worker_run.specs.Work.{HaveRun};
ghost use Rattle.worker_run.specs.Clauses.{AreInOrder};
ghost use Rattle.std.specs.List.{AllByRecursion};
ghost use Rattle.worker_run.specs.Parts.{IsReady, IsDone, AreWorkers, AreDone};

use crate::gate::Gate;
use crate::working::{Shared, Worked, Worker, work};
use counter_cells::CellNaming;
use line_numbers::{BatchDrawer, Batches};
use rate_limiter::{Limiter, Pass};
use rate_types::{OutOfMemory, Seconds};
use rule_stats::Tally;
use run_stats::merge_tallies;
use script_lines::ScriptLines;
use script_run::{Journal, RunJournals, merge};
use std::alloc::{AllocError, Global};
use std::sync::Wait;
use std::thread::{Threads, map_vec};

// A worker for each pass, numbered from 0.
fn workers_of<N: CellNaming>(
    alloc: Global,
    limiter: &Limiter<N>,
    numbers: &Batches,
    passes: Vec<Pass<N>>,
    mut drawers: Vec<BatchDrawer>,
) -> Result<Vec<Worker<N>>, OutOfMemory>
    requires few { vec_len passes ≤ MOST_WORKERS }
    requires passes { AllByRecursion (λ p. p.limiter ≡ limiter.now.id) passes.items }
    requires drawers { All (λ d. (batches_of d ≡ batches_id numbers.now) × IsNew d) drawers.items }
    requires as_many { vec_len drawers ≡ vec_len passes }
    ensures passes { IfOk result (λ v. map (λ w. w.pass) v.items ≡ passes.items) }
    ensures workers { IfOk result (λ v. AreWorkers limiter.now.id (batches_id numbers.now) 0 v.items) }
{
    let _ = limiter;
    let _ = numbers;
    let mut workers = Vec::with_capacity(alloc, passes.len())?;
    let mut number = 0u32;
    for pass in passes {
        let Some(drawer) = drawers.pop() else {
            unreachable!()
        };
        workers.push_reserved(Worker {
            number,
            pass,
            drawer,
        });
        number += 1;
    }
    Ok(workers)
}

// Runs each worker in a thread of its own, and joins them.
fn work_each<N: CellNaming + Send + Sync, L: ScriptLines, G: Gate, R: Threads + Wait + Sync>(
    rt: &R,
    alloc: Global,
    run: &Shared<'_, N, L, G>,
    workers: Vec<Worker<N>>,
) -> Result<Vec<Result<Worked<N>, OutOfMemory>>, AllocError>
    requires lines { (length (L.lines run.now.lines.now) ≤ MOST_LINES) × (lines_in run.now.numbers.now ≡ length (L.lines run.now.lines.now)) }
    requires ready { All (λ w. IsReady run.now.limiter.now.id (batches_id run.now.numbers.now) w) workers.items }
    ensures len { IfOk result (λ v. vec_len v ≡ vec_len workers) }
    ensures each { IfOk result (λ v. (i : ℕ) (d : _) (e : _) → i < vec_len workers → IfOk (slice_index_or v.items i d)
        (λ w. IsDone run.now.stats (bounds_of N.setup.cells run.now.limiter.now) run.now.limiter.now run.now.start (L.lines run.now.lines.now)
        (batches_id run.now.numbers.now) (slice_index_or workers.items i e) w)) }
{
    map_vec(
        rt,
        workers,
        &|worker: Worker<N>| -> Result<Worked<N>, OutOfMemory>
            requires { (length (L.lines run.now.lines.now) ≤ MOST_LINES) × (lines_in run.now.numbers.now ≡ length (L.lines run.now.lines.now))
                × IsReady run.now.limiter.now.id (batches_id run.now.numbers.now) worker }
            ensures { IfOk result (λ w. IsDone run.entry.now.stats (bounds_of N.setup.cells run.entry.now.limiter.now) run.entry.now.limiter.now
                run.entry.now.start
                (L.lines run.entry.now.lines.now) (batches_id run.entry.now.numbers.now) worker w) }
        { work(rt, alloc, run, worker) },
    )
}

// The workers, where each is done.
fn done_all<N: CellNaming>(
    alloc: Global,
    done: Vec<Result<Worked<N>, OutOfMemory>>,
) -> Result<Vec<Worked<N>>, OutOfMemory>
    ensures same { IfOk result (λ v. map Ok v.items ≡ done.items) }
{
    let mut workers = Vec::with_capacity(alloc, done.len())?;
    for worker in done {
        let worker = worker?;
        workers.push_reserved(worker);
    }
    Ok(workers)
}

// Runs the workers side by side.
fn work_all<N: CellNaming + Send + Sync, L: ScriptLines, G: Gate, R: Threads + Wait + Sync>(
    rt: &R,
    alloc: Global,
    run: &Shared<'_, N, L, G>,
    workers: Vec<Worker<N>>,
) -> Result<Vec<Worked<N>>, OutOfMemory>
    requires lines { (length (L.lines run.now.lines.now) ≤ MOST_LINES) × (lines_in run.now.numbers.now ≡ length (L.lines run.now.lines.now)) }
    requires ready { AllByRecursion (λ w. IsReady run.now.limiter.now.id (batches_id run.now.numbers.now) w) workers.items }
    ensures done { IfOk result (λ v. AreDone run.now.stats (bounds_of N.setup.cells run.now.limiter.now) run.now.limiter.now run.now.start
        (L.lines run.now.lines.now) (batches_id run.now.numbers.now) workers.items v.items) }
{
    let done = work_each(rt, alloc, run, workers)?;
    let workers = done_all(alloc, done)?;
    Ok(workers)
}

/// The passes, the drawers, the journals and the tallies of workers, each in order.
#[derive(Drop)]
struct Parts<N: CellNaming> {
    passes: Vec<Pass<N>>,
    drawers: Vec<BatchDrawer>,
    journals: Vec<Journal>,
    tallies: Vec<Tally>,
}

fn parts_of<N: CellNaming>(alloc: Global, workers: Vec<Worked<N>>) -> Result<Parts<N>, OutOfMemory>
    ensures passes { IfOk result (λ p. p.passes.items ≡ map (λ w. w.pass) workers.items) }
    ensures drawers { IfOk result (λ p. p.drawers.items ≡ map (λ w. w.drawer) workers.items) }
    ensures journals { IfOk result (λ p. p.journals.items ≡ map (λ w. w.journal) workers.items) }
    ensures tallies { IfOk result (λ p. p.tallies.items ≡ map (λ w. w.tally) workers.items) }
{
    let mut passes = Vec::with_capacity(alloc, workers.len())?;
    let mut drawers = Vec::with_capacity(alloc, workers.len())?;
    let mut journals = Vec::with_capacity(alloc, workers.len())?;
    let mut tallies = Vec::with_capacity(alloc, workers.len())?;
    for worker in workers {
        let Worked {
            pass,
            drawer,
            journal,
            tally,
        } = worker;
        passes.push_reserved(pass);
        drawers.push_reserved(drawer);
        journals.push_reserved(journal);
        tallies.push_reserved(tally);
    }
    Ok(Parts {
        passes,
        drawers,
        journals,
        tallies,
    })
}

/// What is left of a run: its records, the passes, and the numbers of its answered checks, where they were asked for.
#[derive(Drop)]
pub struct Ran<N: CellNaming> {
    pub records: RunJournals,
    pub passes: Vec<Pass<N>>,
    pub tally: Tally,
}

/// Runs the lines of a script on these passes, each in a thread of its own: the records of the lines, the passes, and with `stats` the
/// numbers of the answered checks. Checks offer `start`, ticks their number.
pub fn run_lines<N: CellNaming + Send + Sync, L: ScriptLines, G: Gate, R: Threads + Wait + Sync>(
    rt: &R,
    alloc: Global,
    limiter: &Limiter<N>,
    passes: Vec<Pass<N>>,
    lines: &L,
    start: Seconds,
    stats: bool,
    gate: &G,
) -> Result<Ran<N>, OutOfMemory>
    requires passes { All (λ p. p.limiter ≡ limiter.now.id) passes.items }
    requires started { All (λ p. start ≤ p.cells.moment) passes.items }
    requires workers { (1 ≤ vec_len passes) × (vec_len passes ≤ MOST_WORKERS) }
    ensures run { IfOk result (λ r. HaveRun (bounds_of N.setup.cells limiter.now) limiter.now start (L.lines lines.now) passes.items
        r.passes.items r.records) }
    ensures records { IfOk result (λ r. AreInOrder (vec_len passes) start (L.lines lines.now) r.records) }
    ensures passes { IfOk result (λ r. All (λ p. p.limiter ≡ limiter.now.id) r.passes.items) }
    ensures counted { IfOk result (λ r. stats ≡ true → AreSums (notes_of (L.lines lines.now) r.records) r.tally.versions) }
    ensures few { OnOk result (length (L.lines lines.now) ≤ MOST_LINES) }
{
    let count = lines.count();
    let room = count as usize / passes.len();
    let batch = lines.batch();
    let (numbers, drawers) = Batches::make(alloc, u64::from(count), batch, passes.len() as u32)?;
    let workers = workers_of(alloc, limiter, &numbers, passes, drawers)?;
    let run = Shared {
        limiter,
        numbers: &numbers,
        lines,
        gate,
        start,
        room,
        stats,
    };
    let done = work_all(rt, alloc, &run, workers);
    let Shared {
        limiter: _,
        numbers: _,
        lines: _,
        gate: _,
        start: _,
        room: _,
        stats: _,
    } = run;
    let Parts {
        passes,
        drawers,
        journals,
        tallies,
    } = parts_of(alloc, done?)?;
    numbers.close(alloc, drawers)?;
    let records = merge(count, journals);
    let tally = merge_tallies(alloc, &tallies)?;
    Ok(Ran {
        records,
        passes,
        tally,
    })
}
