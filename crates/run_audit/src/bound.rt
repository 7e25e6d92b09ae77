// The counters that have cells while a run of one worker is gone through.
ghost use Rattle.std.specs.Prelude.{◌≡◌, ◌≤◌, ◌||◌, ℕ, List, [], true, IsTrue, OnOk, filter, length, map, take};
ghost use Rattle.rate_types.specs.Counters.{same_counter};
ghost use Rattle.rate_types.specs.declared.counter_key.CounterKey.{CounterKey};
ghost use Rattle.descriptor_tree.specs.Trees.{DomainTree};
ghost use Rattle.reply_text.specs.declared.record.Record.{Record};
ghost use Rattle.script_run.specs.Named.{is_among, is_open_at};
ghost use Rattle.script_run.specs.ScriptLine.{ScriptLine};
ghost use Rattle.script_run.specs.Views.{line_view};
ghost use Rattle.run_audit.specs.Bound.{AreBound, IsUpTo, KeepBound, lacks_cells};
ghost use Rattle.run_audit.specs.VersionAt.{config_at};

use crate::Configs;
use crate::counters::bound_at;
use crate::of_record::moment_of;
use rate_types::{CounterKey, OutOfMemory, Seconds};
use reply_text::{Outcome, Record};
use script_run::Line;
use std::alloc::Global;
use std::collections::BTreeSet;
use window_keys::end_of;

/// The counters that answered checks of the first lines bound, but for those whose windows were over at a moment.
#[derive(Drop)]
pub struct BoundCounters {
    pub counters: BTreeSet<CounterKey>,
    pub lines: usize,
    pub moment: u64,
}

/// Those of no line.
pub fn none_bound(alloc: Global) -> BoundCounters
    ensures { (configs : ℕ → List DomainTree) → IsUpTo configs [] [] result }
{
    BoundCounters {
        counters: BTreeSet::new(alloc),
        lines: 0,
        moment: 0,
    }
}

/// Whether a counter is in a set.
pub fn has_counter(counters: &BTreeSet<CounterKey>, counter: &CounterKey) -> bool
    ensures { result ≡ is_among counters.now.keys counter.now }
{
    counters.contains(counter)
}

// Adds a counter to a set.
fn put(counters: &mut BTreeSet<CounterKey>, counter: CounterKey) -> Result<(), OutOfMemory>
    ensures { OnOk result ((c : CounterKey) → is_among counters.new.keys c ≡ (same_counter c counter || is_among counters.old.keys c)) }
{
    counters.insert(counter)?;
    Ok(())
}

// Adds counters to a set.
fn put_all(counters: &mut BTreeSet<CounterKey>, more: Vec<CounterKey>) -> Result<(), OutOfMemory>
    ensures { OnOk result ((c : CounterKey) → is_among counters.new.keys c ≡ (is_among counters.old.keys c || is_among more.items c)) }
{
    'more: for counter in more {
        put(counters, counter)?;
    }
    Ok(())
}

// Adds the counters that answered checks bound, from one line on.
fn put_bound(
    alloc: Global,
    configs: &Configs,
    counters: &mut BTreeSet<CounterKey>,
    before: &[Line],
    earlier: &[Record],
    from: usize,
) -> Result<(), OutOfMemory>
    requires as_many { length earlier.now ≡ length before.now }
    requires within { from ≤ length before.now }
    ensures { OnOk result ((m : ℕ)
        → KeepBound (config_at configs.now) (take from (map line_view before.now)) (take from earlier.now) m counters.old.keys
        → KeepBound (config_at configs.now) (map line_view before.now) earlier.now m counters.new.keys) }
{
    'lines: for i in from..before.len() {
        let more = bound_at(alloc, configs, &before[i], &earlier[i])?;
        put_all(counters, more)?;
    }
    Ok(())
}

// Drops the counters whose windows are over.
fn keep_open(counters: &mut BTreeSet<CounterKey>, moment: Seconds)
    ensures { counters.new.keys ≡ filter (is_open_at moment) counters.old.keys }
{
    let now = moment.get();
    counters.retain(|counter| end_of(counter) > now);
}

// Begins anew, where counters were dropped that are open at a moment.
fn go_back(bound: &mut BoundCounters, moment: Seconds)
    ensures moment { bound.new.moment ≤ moment }
    ensures up_to { (configs : ℕ → List DomainTree) (before : List ScriptLine) (earlier : List Record)
        → IsUpTo configs before earlier bound.old → IsUpTo configs before earlier bound.new }
{
    if moment.get() < bound.moment {
        bound.counters.clear();
        bound.lines = 0;
        bound.moment = 0;
    }
}

// Goes on to a line: the counters are those that have cells at its moment.
fn go_on(
    alloc: Global,
    configs: &Configs,
    bound: &mut BoundCounters,
    before: &[Line],
    earlier: &[Record],
    moment: Seconds,
) -> Result<(), OutOfMemory>
    requires as_many { length earlier.now ≡ length before.now }
    requires up_to { IsUpTo (config_at configs.now) (map line_view before.now) earlier.now bound.old }
    ensures up_to { OnOk result (IsUpTo (config_at configs.now) (map line_view before.now) earlier.now bound.new) }
    ensures bound { OnOk result (AreBound (config_at configs.now) (map line_view before.now) earlier.now moment bound.new.counters.keys) }
{
    go_back(bound, moment);
    let from = bound.lines;
    put_bound(alloc, configs, &mut bound.counters, before, earlier, from)?;
    keep_open(&mut bound.counters, moment);
    bound.lines = before.len();
    bound.moment = moment.get();
    Ok(())
}

/// Whether a record shows a check that found no room.
pub fn lacks_cells(rec: &Record) -> bool
    ensures { result ≡ lacks_cells rec.now.outcome }
{
    is_full(&rec.outcome)
}

fn is_full(outcome: &Outcome) -> bool
    ensures { result ≡ lacks_cells outcome.now }
{
    match outcome {
        Outcome::Full { .. } => true,
        _ => false,
    }
}

/// Goes on to a line with one worker, where its check found no room.
pub fn follow(
    alloc: Global,
    configs: &Configs,
    workers: u32,
    bound: &mut BoundCounters,
    before: &[Line],
    earlier: &[Record],
    rec: &Record,
) -> Result<(), OutOfMemory>
    requires as_many { length earlier.now ≡ length before.now }
    requires up_to { IsUpTo (config_at configs.now) (map line_view before.now) earlier.now bound.old }
    ensures up_to { OnOk result (IsUpTo (config_at configs.now) (map line_view before.now) earlier.now bound.new) }
    ensures bound { OnOk result (workers ≡ 1 → lacks_cells rec.now.outcome ≡ true
        → AreBound (config_at configs.now) (map line_view before.now) earlier.now rec.now.moment bound.new.counters.keys) }
{
    if workers != 1 {
        return Ok(());
    }
    let full = lacks_cells(rec);
    if !full {
        return Ok(());
    }
    let moment = moment_of(rec);
    go_on(alloc, configs, bound, before, earlier, moment)?;
    Ok(())
}
