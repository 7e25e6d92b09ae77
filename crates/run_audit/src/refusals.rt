// Whether refusals have their causes.
ghost use Rattle.std.specs.Prelude.{◌≡◌, ◌↔◌, ◌≤◌, ◌+◌, ◌*◌, ◌-◌, ◌<◌, not, true, IsTrue, IfOk, filter, length, map};
ghost use Rattle.rate_types.specs.declared.limits.TheConstants.{MOST_PINS, MOST_VERSIONS};
ghost use Rattle.rls_core.specs.Reply.{counters_named};
ghost use Rattle.rls_core.specs.Sequential.{IsNumberOf, LacksRoom};
ghost use Rattle.script_run.specs.Named.{AreThere, is_among};
ghost use Rattle.script_run.specs.Refusals.{HasRefusalCause, IsFull, is_named_at, may_be_bound};
ghost use Rattle.script_run.specs.Sequential.{IsInTurn, is_bound};
ghost use Rattle.script_run.specs.Versions.{installs};
ghost use Rattle.script_run.specs.Views.{line_view};
ghost use Rattle.run_audit.specs.Besides.{IsFullBesides};
ghost use Rattle.run_audit.specs.Bound.{AreBound, lacks_cells};
ghost use Rattle.run_audit.specs.ByEnd.{AreEnds, AreFirst};
ghost use Rattle.run_audit.specs.Causes.{IsCaused, RefusalsCaused, is_refusal};
ghost use Rattle.run_audit.specs.VersionAt.{config_at};

use crate::Configs;
use crate::asked::Asked;
use crate::bound::{follow, has_counter, none_bound};
use crate::by_end::{Ended, are_asked, ends_for_refusals};
use crate::configs::index_of;
use crate::connectives::both;
use crate::counters::{counters_named, distinct};
use crate::installs::installs;
use crate::of_record::{moment_of, worker_of};
use rate_types::limits::{MOST_PINS, MOST_VERSIONS};
use rate_types::{CounterKey, OutOfMemory, Request, Seconds};
use reply_text::{Outcome, Record};
use rule_lookup::Index;
use script_run::Line;
use std::alloc::Global;
use std::collections::BTreeSet;

/// A run, as the causes of its refusals see it.
#[derive(Clone, Copy)]
pub struct RunParts<'a> {
    pub configs: &'a Configs,
    pub workers: u32,
    pub cells: u32,
    pub lines: &'a [Line],
    pub records: &'a [Record],
    ghost as_many: { length records.now ≡ length lines.now },
}

// Whether there are so many different counters among these.
fn are_there(alloc: Global, counters: Vec<CounterKey>, number: u64) -> Result<bool, OutOfMemory>
    ensures { IfOk result (λ b. IsTrue b ↔ AreThere (is_among counters.items) number) }
{
    let there = distinct(alloc, counters)?;
    Ok(number <= there as u64)
}

// Whether so many different counters are these.
fn are_so_many(alloc: Global, counters: Vec<CounterKey>, number: u64) -> Result<bool, OutOfMemory>
    ensures { IfOk result (λ b. IsTrue b ↔ IsNumberOf (is_among counters.items) number) }
{
    let there = distinct(alloc, counters)?;
    Ok(number == there as u64)
}

// Whether a check may want so many cells.
fn may_want(
    alloc: Global,
    index: &Index,
    request: &Request,
    moment: Seconds,
    wanted: u32,
) -> Result<bool, OutOfMemory>
    ensures { IfOk result (λ b. IsTrue b ↔ AreThere (is_among (counters_named index.now request.now moment)) wanted) }
{
    let named = counters_named(alloc, index, request, moment)?;
    let there = are_there(alloc, named, wanted as u64)?;
    Ok(there)
}

// Whether so many counters may have cells when a record's line is run.
fn may_live(
    run: &RunParts,
    ends: &[Ended],
    before: &[Line],
    earlier: &[Record],
    rec: &Record,
    live: u32,
) -> bool
    requires { AreFirst (config_at run.now.configs.now) (map line_view run.now.lines.now) run.now.records.now
        (map line_view before.now) earlier.now ends.now }
    ensures { IsTrue result ↔ AreThere (may_be_bound (config_at run.now.configs.now) (map line_view run.now.lines.now)
        run.now.records.now (map line_view before.now) earlier.now rec.now) live }
{
    let worker = worker_of(rec);
    let moment = moment_of(rec);
    let line = before.len();
    are_asked(ends, Asked::Bound { worker, line }, moment, live as u64)
}

// Whether checks of the run name so many counters whose windows aren't over.
fn may_be_named(run: &RunParts, ends: &[Ended], moment: Seconds, number: u64) -> bool
    requires { AreEnds (config_at run.now.configs.now) (map line_view run.now.lines.now) run.now.records.now ends.now }
    ensures { IsTrue result ↔ AreThere (is_named_at (config_at run.now.configs.now) (map line_view run.now.lines.now)
        run.now.records.now moment) number }
{
    are_asked(ends, Asked::Named, moment, number)
}

/// The numbers of a refusal for want of cells.
#[derive(Clone, Copy)]
struct Numbers {
    live: u32,
    held: u32,
    wanted: u32,
}

// Whether these numbers are a cause among so many workers and cells.
fn are_too_many(workers: u32, cells: u32, numbers: Numbers) -> bool
    ensures { IsTrue result ↔ ((cells < numbers.live + numbers.held + numbers.wanted)
        × (1 ≤ numbers.wanted) × (numbers.held ≤ MOST_PINS * (workers - 1))) }
{
    let sum = numbers.live as u64 + numbers.held as u64 + numbers.wanted as u64;
    let full = (cells as u64) < sum;
    let some = numbers.wanted >= 1;
    let holds = numbers.held as u64 <= MOST_PINS as u64 * workers.saturating_sub(1) as u64;
    full && some && holds
}

// Whether a check that found no room had its cause, but for the counters that have cells.
fn is_full_besides(
    alloc: Global,
    run: &RunParts,
    ends: &[Ended],
    request: &Request,
    rec: &Record,
    numbers: Numbers,
) -> Result<bool, OutOfMemory>
    requires { AreEnds (config_at run.now.configs.now) (map line_view run.now.lines.now) run.now.records.now ends.now }
    ensures { IfOk result (λ b. IsTrue b ↔ IsFullBesides (config_at run.now.configs.now) run.now.workers run.now.cells
        (map line_view run.now.lines.now) run.now.records.now request.now rec.now numbers.live numbers.held numbers.wanted) }
{
    let many = are_too_many(run.workers, run.cells, numbers);
    let index = index_of(run.configs, rec);
    let moment = moment_of(rec);
    let number = numbers.live as u64 + numbers.wanted as u64;
    let wants = may_want(alloc, index, request, moment, numbers.wanted)?;
    let names = may_be_named(run, ends, moment, number);
    let first = both(many, wants);
    let stands = both(first, names);
    Ok(stands)
}

// The counters that aren't among the bound ones.
fn without(
    alloc: Global,
    counters: Vec<CounterKey>,
    bound: &BTreeSet<CounterKey>,
) -> Result<Vec<CounterKey>, OutOfMemory>
    ensures { IfOk result (λ v. v.items ≡ filter (λ c. not (is_among bound.now.keys c)) counters.items) }
{
    let mut left = Vec::new(alloc);
    'counters: for counter in counters {
        if !has_counter(bound, &counter) {
            left.push(counter)?;
        }
    }
    Ok(left)
}

// Whether these are so many different counters.
fn are_just(counters: &BTreeSet<CounterKey>, number: u32) -> bool
    ensures { IsTrue result ↔ IsNumberOf (is_among counters.now.keys) number }
{
    let there = counters.len();
    number as u64 == there as u64
}

// Whether, with one worker, the cells didn't suffice in these numbers.
fn lacks_room(
    alloc: Global,
    run: &RunParts,
    bound: &BTreeSet<CounterKey>,
    before: &[Line],
    earlier: &[Record],
    request: &Request,
    rec: &Record,
    numbers: Numbers,
) -> Result<bool, OutOfMemory>
    requires { AreBound (config_at run.now.configs.now) (map line_view before.now) earlier.now rec.now.moment bound.now.keys }
    ensures { IfOk result (λ b. IsTrue b ↔ LacksRoom (config_at run.now.configs.now rec.now.version) run.now.cells request.now
        rec.now.moment
        (is_bound (config_at run.now.configs.now) (map line_view before.now) earlier.now rec.now.moment) numbers.live numbers.wanted) }
{
    let moment = moment_of(rec);
    let index = index_of(run.configs, rec);
    let named = counters_named(alloc, index, request, moment)?;
    let missing = without(alloc, named, bound)?;
    let lives = are_just(bound, numbers.live);
    let wants = are_so_many(alloc, missing, numbers.wanted as u64)?;
    let above = (run.cells as u64) < numbers.live as u64 + numbers.wanted as u64;
    let needs = both(lives, wants);
    let stands = both(needs, above);
    Ok(stands)
}

// Whether a check that found no room had its cause, with one worker in exact numbers, from which the counters that have cells follow.
fn is_full_caused(
    alloc: Global,
    run: &RunParts,
    ends: &[Ended],
    bound: &BTreeSet<CounterKey>,
    before: &[Line],
    earlier: &[Record],
    request: &Request,
    rec: &Record,
    numbers: Numbers,
) -> Result<bool, OutOfMemory>
    requires as_many { length earlier.now ≡ length before.now }
    requires first { AreFirst (config_at run.now.configs.now) (map line_view run.now.lines.now) run.now.records.now
        (map line_view before.now) earlier.now ends.now }
    requires bound { run.now.workers ≡ 1
        → AreBound (config_at run.now.configs.now) (map line_view before.now) earlier.now rec.now.moment bound.now.keys }
    ensures { IfOk result (λ b. IsTrue b ↔ (IsFull (config_at run.now.configs.now) run.now.workers run.now.cells
        (map line_view run.now.lines.now) run.now.records.now (map line_view before.now) earlier.now request.now rec.now
        numbers.live numbers.held numbers.wanted
        × (run.now.workers ≡ 1 → (numbers.held ≡ 0) × LacksRoom (config_at run.now.configs.now rec.now.version) run.now.cells request.now
        rec.now.moment (is_bound (config_at run.now.configs.now) (map line_view before.now) earlier.now rec.now.moment)
        numbers.live numbers.wanted))) }
{
    let besides = is_full_besides(alloc, run, ends, request, rec, numbers)?;
    if run.workers != 1 {
        let lives = may_live(run, ends, before, earlier, rec, numbers.live);
        let full = both(besides, lives);
        return Ok(full);
    }
    let room = lacks_room(alloc, run, bound, before, earlier, request, rec, numbers)?;
    let exact = both(numbers.held == 0, room);
    let stands = both(besides, exact);
    Ok(stands)
}

// Whether a reload that was refused had its cause.
fn is_reload_caused(run: &RunParts, earlier: &[Record], versions: u32) -> bool
    ensures { IsTrue result ↔ (((versions ≡ MOST_VERSIONS) × (installs run.now.records.now + 1 ≡ MOST_VERSIONS))
        × (run.now.workers ≡ 1 → installs earlier.now + 1 ≡ MOST_VERSIONS)) }
{
    let most = MOST_VERSIONS as usize;
    let all = installs(run.records) + 1 == most;
    let exact = run.workers != 1 || installs(earlier) + 1 == most;
    versions == MOST_VERSIONS && all && exact
}

// Whether what came of a line has its cause, where it is a refusal.
fn is_outcome_caused(
    alloc: Global,
    run: &RunParts,
    ends: &[Ended],
    bound: &BTreeSet<CounterKey>,
    before: &[Line],
    earlier: &[Record],
    line: &Line,
    rec: &Record,
    outcome: &Outcome,
) -> Result<bool, OutOfMemory>
    requires as_many { length earlier.now ≡ length before.now }
    requires first { lacks_cells outcome.now ≡ true
        → AreFirst (config_at run.now.configs.now) (map line_view run.now.lines.now) run.now.records.now
        (map line_view before.now) earlier.now ends.now }
    requires bound { run.now.workers ≡ 1 → lacks_cells outcome.now ≡ true
        → AreBound (config_at run.now.configs.now) (map line_view before.now) earlier.now rec.now.moment bound.now.keys }
    ensures { IfOk result (λ b. IsTrue b ↔ (HasRefusalCause (config_at run.now.configs.now) run.now.workers run.now.cells
        (map line_view run.now.lines.now) run.now.records.now (map line_view before.now) earlier.now (line_view line.now) rec.now
        outcome.now
        × (run.now.workers ≡ 1 → is_refusal outcome.now ≡ true → IsInTurn (config_at run.now.configs.now) run.now.cells
        (map line_view before.now) earlier.now (line_view line.now) rec.now outcome.now))) }
{
    match outcome {
        Outcome::Full { live, held, wanted } => match line {
            Line::Check(request) => {
                let numbers = Numbers {
                    live: *live,
                    held: *held,
                    wanted: *wanted,
                };
                is_full_caused(
                    alloc, run, ends, bound, before, earlier, request, rec, numbers,
                )
            }
            Line::Reload(_) => Ok(true),
            Line::Tick(_) => Ok(true),
            Line::Bad(_) => Ok(true),
        },
        Outcome::VersionsFull { versions } => match line {
            Line::Reload(_) => Ok(is_reload_caused(run, earlier, *versions)),
            Line::Check(_) => Ok(true),
            Line::Tick(_) => Ok(true),
            Line::Bad(_) => Ok(true),
        },
        Outcome::Spent { .. } => Ok(false),
        Outcome::Checked(_) => Ok(true),
        Outcome::Ticked(_) => Ok(true),
        Outcome::Installed => Ok(true),
        Outcome::Bad(_) => Ok(true),
    }
}

// Whether a record has its cause, where it shows a refusal.
fn is_caused(
    alloc: Global,
    run: &RunParts,
    ends: &[Ended],
    bound: &BTreeSet<CounterKey>,
    before: &[Line],
    earlier: &[Record],
    line: &Line,
    rec: &Record,
) -> Result<bool, OutOfMemory>
    requires as_many { length earlier.now ≡ length before.now }
    requires first { lacks_cells rec.now.outcome ≡ true
        → AreFirst (config_at run.now.configs.now) (map line_view run.now.lines.now) run.now.records.now
        (map line_view before.now) earlier.now ends.now }
    requires bound { run.now.workers ≡ 1 → lacks_cells rec.now.outcome ≡ true
        → AreBound (config_at run.now.configs.now) (map line_view before.now) earlier.now rec.now.moment bound.now.keys }
    ensures { IfOk result (λ b. IsTrue b ↔ IsCaused (config_at run.now.configs.now) run.now.workers run.now.cells
        (map line_view run.now.lines.now) run.now.records.now (map line_view before.now) earlier.now (line_view line.now) rec.now) }
{
    let caused = is_outcome_caused(
        alloc,
        run,
        ends,
        bound,
        before,
        earlier,
        line,
        rec,
        &rec.outcome,
    )?;
    Ok(caused)
}

/// Whether each refusal has its cause, with one worker in exact numbers.
pub fn refusals_have_causes(alloc: Global, run: &RunParts) -> Result<bool, OutOfMemory>
    ensures { IfOk result (λ b. IsTrue b ↔ RefusalsCaused (config_at run.now.configs.now) run.now.workers run.now.cells
        (map line_view run.now.lines.now) run.now.records.now) }
{
    let lines = run.lines;
    let records = run.records;
    let ends = ends_for_refusals(alloc, run.configs, lines, records)?;
    let mut bound = none_bound(alloc);
    'lines: for i in 0..records.len() {
        let before = &lines[..i];
        let earlier = &records[..i];
        let rec = &records[i];
        follow(
            alloc,
            run.configs,
            run.workers,
            &mut bound,
            before,
            earlier,
            rec,
        )?;
        let line = &lines[i];
        let caused = is_caused(
            alloc,
            run,
            &ends,
            &bound.counters,
            before,
            earlier,
            line,
            rec,
        )?;
        if !caused {
            return Ok(false);
        }
    }
    Ok(true)
}
