// The counters that the checks of a run name, in order of the ends of their windows.
ghost use Rattle.std.specs.Prelude.{◌≡◌, ◌≤◌, ◌<◌, ℕ, true, false, IfOk, count_by, length, map, nat_le, slice_index_or};
ghost use Rattle.std.specs.List.Sorted.{IsNonDecreasingBy, IsStrictlySortedBy};
ghost use Rattle.std.specs.Map.{keys_of};
ghost use Rattle.reply_text.specs.declared.record.Record.{Record};
ghost use Rattle.script_run.specs.Views.{line_view};
ghost use Rattle.run_audit.specs.Bound.{lacks_cells};
ghost use Rattle.run_audit.specs.ByEnd.{AreEnds, ended, is_asked_at};
ghost use Rattle.run_audit.specs.EndOrder.{end_cmp};
ghost use Rattle.run_audit.specs.VersionAt.{config_at};
ghost use Rattle.run_audit.specs.declared.by_end.Ended.{Ended};

use crate::Configs;
use crate::asked::{Asked, is_asked};
use crate::binder::Binder;
use crate::bound::lacks_cells;
use crate::named_counters::{NamedCounters, named_counters};
use rate_types::{OutOfMemory, Seconds};
use reply_text::Record;
use script_run::Line;
use std::alloc::Global;

/// The end of a counter's window, and who bound the counter.
#[derive(Clone, Copy)]
pub struct Ended {
    pub end: u64,
    pub binder: Binder,
}

// The ends of the windows of some counters.
fn ends_of(alloc: Global, counters: &NamedCounters) -> Result<Vec<Ended>, OutOfMemory>
    ensures ends { IfOk result (λ v. v.items ≡ map ended counters.now.entries) }
    ensures ordered { IsStrictlySortedBy end_cmp (keys_of counters.now.entries) }
{
    let mut ends = Vec::new(alloc);
    'counters: for (key, binder) in counters.iter() {
        ends.push(Ended {
            end: key.end,
            binder: *binder,
        })?;
    }
    Ok(ends)
}

// The ends of the windows of the counters that the checks of a run name.
fn by_end(
    alloc: Global,
    configs: &Configs,
    lines: &[Line],
    records: &[Record],
) -> Result<Vec<Ended>, OutOfMemory>
    requires { length records.now ≡ length lines.now }
    ensures { IfOk result (λ v. AreEnds (config_at configs.now) (map line_view lines.now) records.now v.items) }
{
    let counters = named_counters(alloc, configs, lines, records)?;
    let ends = ends_of(alloc, &counters)?;
    Ok(ends)
}

// Whether a check found no room.
fn some_full(records: &[Record]) -> bool
    ensures { result ≡ false → (k : ℕ) (d : Record) → k < length records.now
        → lacks_cells (slice_index_or records.now k d).outcome ≡ false }
{
    'records: for i in 0..records.len() {
        if lacks_cells(&records[i]) {
            return true;
        }
    }
    false
}

/// These ends, which are made only where a check found no room.
pub fn ends_for_refusals(
    alloc: Global,
    configs: &Configs,
    lines: &[Line],
    records: &[Record],
) -> Result<Vec<Ended>, OutOfMemory>
    requires { length records.now ≡ length lines.now }
    ensures { IfOk result (λ v. (k : ℕ) (d : Record) → k < length records.now
        → lacks_cells (slice_index_or records.now k d).outcome ≡ true
        → AreEnds (config_at configs.now) (map line_view lines.now) records.now v.items) }
{
    let full = some_full(records);
    if !full {
        return Ok(Vec::new(alloc));
    }
    let ends = by_end(alloc, configs, lines, records)?;
    Ok(ends)
}

// Whether it is asked for, and its window ends after a moment.
fn is_asked_at(entry: &Ended, asked: Asked, moment: Seconds) -> bool
    ensures { result ≡ is_asked_at asked moment entry.now }
{
    entry.end > moment.get() && is_asked(asked, entry.binder)
}

// How many of the windows end at a moment or before it.
fn over(ends: &[Ended], moment: Seconds) -> usize
    requires { IsNonDecreasingBy (λ (e : Ended). e.end) ends.now }
    ensures within { result ≤ length ends.now }
    ensures over { (k : ℕ) (d : Ended) → k < result → (slice_index_or ends.now k d).end ≤ moment }
{
    let now = moment.get();
    ends.partition_point(|entry| entry.end <= now)
}

/// Whether so many are asked for whose windows end after a moment. They are gone through only until so many are found.
pub fn are_asked(ends: &[Ended], asked: Asked, moment: Seconds, number: u64) -> bool
    requires { IsNonDecreasingBy (λ (e : Ended). e.end) ends.now }
    ensures { result ≡ nat_le number (count_by (is_asked_at asked moment) ends.now) }
{
    let from = over(ends, moment);
    let mut found = 0;
    'ends: for k in from..ends.len() {
        if number <= found {
            return true;
        }
        if is_asked_at(&ends[k], asked, moment) {
            found += 1;
        }
    }
    number <= found
}
