// Which moment a record may have.
ghost use Rattle.std.specs.Prelude.{◌≡◌, ◌↔◌, ◌≤◌, ◌==◌, ◌||◌, IsTrue, IfOk, length, map, nat_lt};
ghost use Rattle.script_run.specs.Lines.{EachLine};
ghost use Rattle.script_run.specs.Moments.{tick_of, IsTimely};
ghost use Rattle.script_run.specs.Views.{line_view};
ghost use Rattle.run_audit.specs.Ticks.{all_in, ticks_in};

use crate::connectives::both;
use crate::of_record::{moment_of, worker_of};
use crate::offers::tick_of;
use crate::ticks::{Ticks, add_tick, all_in, all_ticks_of, ticks_in, ticks_of};
use rate_types::{OutOfMemory, Seconds};
use reply_text::Record;
use script_run::Line;
use std::alloc::Global;
use std::collections::BTreeMap;

fn is_from(start: u64, all: u64, own: u64, sooner: u64, moment: u64) -> bool
    ensures { result ≡ ((moment == start) || (nat_lt own all || nat_lt 0 sooner)) }
{
    moment == start || (own < all || 0 < sooner)
}

// Whether a moment has its source: the start, a tick of another worker, or one of its own worker that isn't later than its line.
fn has_source(
    start: Seconds,
    all: &BTreeMap<u64, u64>,
    own: &Ticks,
    sooner: &Ticks,
    rec: &Record,
) -> bool
    ensures { result ≡ ((rec.now.moment == start)
        || (nat_lt (ticks_in own.now.entries rec.now.moment rec.now.worker) (all_in all.now.entries rec.now.moment)
        || nat_lt 0 (ticks_in sooner.now.entries rec.now.moment rec.now.worker))) }
{
    let worker = worker_of(rec);
    let moment = moment_of(rec).get();
    is_from(
        start.get(),
        all_in(all, moment),
        ticks_in(own, moment, worker),
        ticks_in(sooner, moment, worker),
        moment,
    )
}

// Whether a moment is late enough.
fn is_late_enough(start: Seconds, line: &Line, rec: &Record) -> bool
    ensures { IsTrue result ↔ ((start ≤ rec.now.moment) × (tick_of (line_view line.now) ≤ rec.now.moment)) }
{
    let moment = rec.moment.get();
    let least = start.get() <= moment;
    let ticked = tick_of(line) <= moment;
    both(least, ticked)
}

/// Whether the moment of each record has its source.
pub fn all_timely(
    alloc: Global,
    start: Seconds,
    lines: &[Line],
    records: &[Record],
) -> Result<bool, OutOfMemory>
    requires { length records.now ≡ length lines.now }
    ensures { IfOk result (λ b. IsTrue b ↔ EachLine (map line_view lines.now) records.now
        (λ before earlier l r. IsTimely start (map line_view lines.now) records.now before earlier l r)) }
{
    let all = all_ticks_of(alloc, lines, records)?;
    let own = ticks_of(alloc, lines, records)?;
    let mut sooner = BTreeMap::new(alloc);
    'lines: for i in 0..lines.len() {
        let line = &lines[i];
        let rec = &records[i];
        let worker = worker_of(rec);
        add_tick(&mut sooner, line, worker)?;
        let late = is_late_enough(start, line, rec);
        let source = has_source(start, &all, &own, &sooner, rec);
        let timely = both(late, source);
        if !timely {
            return Ok(false);
        }
    }
    Ok(true)
}
