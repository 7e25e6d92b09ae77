// The counters that the checks of a run name, each with who bound it.
ghost use Rattle.std.specs.Prelude.{◌≡◌, ◌&&◌, ◌||◌, IfOk, OnOk, length, map, unwrap_or};
ghost use Rattle.rate_types.specs.Counters.{same_counter};
ghost use Rattle.rate_types.specs.declared.counter_key.CounterKey.{CounterKey};
ghost use Rattle.script_run.specs.Named.{is_among};
ghost use Rattle.script_run.specs.Views.{line_view};
ghost use Rattle.run_audit.specs.Asked.{is_asked, is_told};
ghost use Rattle.run_audit.specs.ByEnd.{binder_at, binder_by, is_asked_of};
ghost use Rattle.run_audit.specs.VersionAt.{config_at};
ghost use Rattle.run_audit.specs.declared.asked.Asked.{Asked};

use crate::Configs;
use crate::binder::{Binder, joined};
use crate::counter_by_end::CounterByEnd;
use crate::counters::tried_at;
use crate::of_record::worker_of;
use rate_types::{CounterKey, OutOfMemory};
use reply_text::{Outcome, Record};
use script_run::Line;
use std::alloc::Global;
use std::collections::BTreeMap;

/// Counters in order of the ends of their windows, with who bound each.
pub type NamedCounters = BTreeMap<CounterByEnd, Binder>;

// Who bound a counter, nobody where it isn't among these.
fn binder_of(counters: &NamedCounters, key: &CounterByEnd) -> Binder
    ensures { result ≡ unwrap_or (binder_at counters.now.entries key.now.counter) Binder.Nobody }
{
    match counters.get(key) {
        Some(binder) => *binder,
        None => Binder::Nobody,
    }
}

// Adds a counter, with who bound it.
fn add(counters: &mut NamedCounters, counter: CounterKey, binder: Binder) -> Result<(), OutOfMemory>
    ensures { OnOk result ((asked : Asked) (c : CounterKey) → is_asked_of asked (binder_at counters.new.entries c)
        ≡ (is_asked_of asked (binder_at counters.old.entries c) || (is_asked asked binder && same_counter c counter))) }
{
    let key = CounterByEnd::of(counter);
    let before = binder_of(counters, &key);
    let now = joined(before, binder);
    counters.insert(key, now)?;
    Ok(())
}

// Adds counters that the same checks bound.
fn add_all(
    counters: &mut NamedCounters,
    more: Vec<CounterKey>,
    binder: Binder,
) -> Result<(), OutOfMemory>
    ensures { OnOk result ((asked : Asked) (c : CounterKey) → is_asked_of asked (binder_at counters.new.entries c)
        ≡ (is_asked_of asked (binder_at counters.old.entries c) || (is_asked asked binder && is_among more.items c))) }
{
    'more: for counter in more {
        add(counters, counter, binder)?;
    }
    Ok(())
}

// Who bound the counters that a record's check names.
fn binder_by(rec: &Record, line: usize) -> Binder
    ensures { result ≡ binder_by rec.now.worker line rec.now.outcome }
{
    let worker = worker_of(rec);
    bound_by(worker, line, &rec.outcome)
}

fn bound_by(worker: u32, line: usize, outcome: &Outcome) -> Binder
    ensures { result ≡ binder_by worker line outcome.now }
{
    match outcome {
        Outcome::Checked(_) => Binder::One {
            worker,
            first: line,
        },
        _ => Binder::Nobody,
    }
}

/// Those that the checks of a run name.
pub fn named_counters(
    alloc: Global,
    configs: &Configs,
    lines: &[Line],
    records: &[Record],
) -> Result<NamedCounters, OutOfMemory>
    requires { length records.now ≡ length lines.now }
    ensures { IfOk result (λ m. (asked : Asked) (c : CounterKey) → is_asked_of asked (binder_at m.entries c)
        ≡ is_told asked (config_at configs.now) (map line_view lines.now) records.now c) }
{
    let mut counters = BTreeMap::new(alloc);
    'lines: for i in 0..lines.len() {
        let rec = &records[i];
        let named = tried_at(alloc, configs, &lines[i], rec)?;
        let binder = binder_by(rec, i);
        add_all(&mut counters, named, binder)?;
    }
    Ok(counters)
}
