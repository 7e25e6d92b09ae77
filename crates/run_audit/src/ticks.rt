// How many ticks offered a moment.
ghost use Rattle.std.specs.Prelude.{◌≡◌, ◌+◌, ◌<◌, ◌==◌, ℕ, true, IfOk, length, map, if◌then◌else◌};
ghost use Rattle.script_run.specs.Moments.{offer_of, offers};
ghost use Rattle.script_run.specs.Views.{line_view};
ghost use Rattle.run_audit.specs.Ticks.{all_in, ticks_in};

use crate::of_record::worker_of;
use rate_types::OutOfMemory;
use reply_text::Record;
use script_run::Line;
use std::alloc::Global;
use std::collections::BTreeMap;

/// A moment that a worker offered.
#[derive(Clone, Copy, PartialEq, Eq, PartialOrd, Ord)]
pub struct Ticker {
    pub moment: u64,
    pub worker: u32,
}

/// How many ticks of each worker offered each moment.
pub type Ticks = BTreeMap<Ticker, u64>;

/// How many ticks of a worker offered a moment.
pub fn ticks_in(ticks: &Ticks, moment: u64, worker: u32) -> u64
    ensures { result ≡ ticks_in ticks.now.entries moment worker }
{
    match ticks.get(&Ticker { moment, worker }) {
        Some(number) => *number,
        None => 0,
    }
}

/// How many ticks offered a moment.
pub fn all_in(ticks: &BTreeMap<u64, u64>, moment: u64) -> u64
    ensures { result ≡ all_in ticks.now.entries moment }
{
    match ticks.get(&moment) {
        Some(number) => *number,
        None => 0,
    }
}

/// Counts a line that a worker ran, where it is a tick.
pub fn add_tick(ticks: &mut Ticks, line: &Line, worker: u32) -> Result<(), OutOfMemory>
    requires { (m : ℕ) → ticks_in ticks.old.entries m worker < 18446744073709551615 }
    ensures { IfOk result (λ _. (m : ℕ) (w : ℕ) → ticks_in ticks.new.entries m w
        ≡ ticks_in ticks.old.entries m w + (if worker == w then offer_of m (line_view line.now) else 0)) }
{
    let Line::Tick(now) = line else {
        return Ok(());
    };
    let moment = now.get();
    let number = ticks_in(ticks, moment, worker) + 1;
    ticks.insert(Ticker { moment, worker }, number)?;
    Ok(())
}

/// Counts a line where it is a tick.
pub fn add_to_all(ticks: &mut BTreeMap<u64, u64>, line: &Line) -> Result<(), OutOfMemory>
    requires { (m : ℕ) → all_in ticks.old.entries m < 18446744073709551615 }
    ensures { IfOk result (λ _. (m : ℕ) → all_in ticks.new.entries m ≡ all_in ticks.old.entries m + offer_of m (line_view line.now)) }
{
    let Line::Tick(now) = line else {
        return Ok(());
    };
    let moment = now.get();
    let number = all_in(ticks, moment) + 1;
    ticks.insert(moment, number)?;
    Ok(())
}

/// How many ticks of each worker of a run offered each moment.
pub fn ticks_of(alloc: Global, lines: &[Line], records: &[Record]) -> Result<Ticks, OutOfMemory>
    requires { length records.now ≡ length lines.now }
    ensures { IfOk result (λ t. (m : ℕ) (w : ℕ) → ticks_in t.entries m w
        ≡ offers (λ v. v == w) m (map line_view lines.now) records.now) }
{
    let mut ticks = BTreeMap::new(alloc);
    'lines: for i in 0..lines.len() {
        let worker = worker_of(&records[i]);
        add_tick(&mut ticks, &lines[i], worker)?;
    }
    Ok(ticks)
}

/// How many ticks of a run offered each moment.
pub fn all_ticks_of(
    alloc: Global,
    lines: &[Line],
    records: &[Record],
) -> Result<BTreeMap<u64, u64>, OutOfMemory>
    requires { length records.now ≡ length lines.now }
    ensures { IfOk result (λ t. (m : ℕ) → all_in t.entries m ≡ offers (λ v. true) m (map line_view lines.now) records.now) }
{
    let mut ticks = BTreeMap::new(alloc);
    'lines: for i in 0..lines.len() {
        let _rec = &records[i];
        add_to_all(&mut ticks, &lines[i])?;
    }
    Ok(ticks)
}
