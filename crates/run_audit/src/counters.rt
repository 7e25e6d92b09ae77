// The counters that the checks of a run name.
ghost use Rattle.std.specs.Prelude.{◌≡◌, ◌++◌, IfOk, OnOk};
ghost use Rattle.rls_core.specs.Reply.{counter_under, counters_named};
ghost use Rattle.rls_core.specs.Sequential.{IsNumberOf};
ghost use Rattle.script_run.specs.Named.{counters_bound, counters_tried, is_among};
ghost use Rattle.script_run.specs.Views.{line_view};
ghost use Rattle.run_audit.specs.VersionAt.{config_at};

use crate::Configs;
use crate::configs::index_of;
use crate::of_record::moment_of;
use rate_types::{CounterKey, Descriptor, OutOfMemory, Request, Seconds};
use reply_text::{Outcome, Record};
use rls_core::CounterSums;
use rule_lookup::{Found, Index, find_rules};
use script_run::Line;
use std::alloc::Global;
use window_keys::counter_at;

// Adds the counter of a descriptor, where it has a limit.
fn add_counter(
    counters: &mut Vec<CounterKey>,
    request: &Request,
    moment: Seconds,
    descriptor: &Descriptor,
    found: Found,
) -> Result<(), OutOfMemory>
    ensures { OnOk result (counters.new.items ≡ counters.old.items ++ counter_under request.now moment descriptor.now found) }
{
    match found {
        Found::NoRule => Ok(()),
        Found::Unlimited { .. } => Ok(()),
        Found::Limited { unit, .. } => {
            let counter = counter_at(request.domain(), descriptor, unit, moment)?;
            counters.push(counter)?;
            Ok(())
        }
    }
}

/// The counters that a request names at a moment.
pub fn counters_named(
    alloc: Global,
    index: &Index,
    request: &Request,
    moment: Seconds,
) -> Result<Vec<CounterKey>, OutOfMemory>
    ensures { IfOk result (λ v. v.items ≡ counters_named index.now request.now moment) }
{
    let descriptors = request.descriptors();
    let rules = find_rules(index, request.domain(), descriptors);
    let mut counters = Vec::new(alloc);
    'descriptors: for i in 0..descriptors.len() {
        add_counter(&mut counters, request, moment, &descriptors[i], rules[i])?;
    }
    Ok(counters)
}

// The counters that a line's check names.
fn counters_tried(
    alloc: Global,
    index: &Index,
    line: &Line,
    moment: Seconds,
) -> Result<Vec<CounterKey>, OutOfMemory>
    ensures { IfOk result (λ v. v.items ≡ counters_tried index.now (line_view line.now) moment) }
{
    match line {
        Line::Check(request) => counters_named(alloc, index, request, moment),
        Line::Reload(_) => Ok(Vec::new(alloc)),
        Line::Tick(_) => Ok(Vec::new(alloc)),
        Line::Bad(_) => Ok(Vec::new(alloc)),
    }
}

// Those of a line's check, where it was answered.
fn counters_bound(
    alloc: Global,
    index: &Index,
    line: &Line,
    moment: Seconds,
    outcome: &Outcome,
) -> Result<Vec<CounterKey>, OutOfMemory>
    ensures { IfOk result (λ v. v.items ≡ counters_bound index.now (line_view line.now) moment outcome.now) }
{
    match outcome {
        Outcome::Checked(_) => counters_tried(alloc, index, line, moment),
        Outcome::Ticked(_) => Ok(Vec::new(alloc)),
        Outcome::Installed => Ok(Vec::new(alloc)),
        Outcome::Bad(_) => Ok(Vec::new(alloc)),
        Outcome::Full { .. } => Ok(Vec::new(alloc)),
        Outcome::Spent { .. } => Ok(Vec::new(alloc)),
        Outcome::VersionsFull { .. } => Ok(Vec::new(alloc)),
    }
}

/// The counters that a record's check names.
pub fn tried_at(
    alloc: Global,
    configs: &Configs,
    line: &Line,
    rec: &Record,
) -> Result<Vec<CounterKey>, OutOfMemory>
    ensures { IfOk result (λ v. v.items ≡ counters_tried (config_at configs.now rec.now.version) (line_view line.now) rec.now.moment) }
{
    counters_tried(alloc, index_of(configs, rec), line, moment_of(rec))
}

/// Those of a record, where its check was answered.
pub fn bound_at(
    alloc: Global,
    configs: &Configs,
    line: &Line,
    rec: &Record,
) -> Result<Vec<CounterKey>, OutOfMemory>
    ensures { IfOk result (λ v. v.items
        ≡ counters_bound (config_at configs.now rec.now.version) (line_view line.now) rec.now.moment rec.now.outcome) }
{
    counters_bound(
        alloc,
        index_of(configs, rec),
        line,
        moment_of(rec),
        &rec.outcome,
    )
}

/// How many different counters these are.
pub fn distinct(alloc: Global, counters: Vec<CounterKey>) -> Result<usize, OutOfMemory>
    ensures { IfOk result (λ n. IsNumberOf (is_among counters.items) n) }
{
    let mut sums = CounterSums::new(alloc);
    'counters: for counter in counters {
        sums.put(counter, 0)?;
    }
    Ok(sums.len())
}
