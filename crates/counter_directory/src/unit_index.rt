// Where counters of the present windows are found.
ghost use Rattle.std.specs.Prelude.{◌≡◌, ◌<◌, IfOk, OnOk, vec_len};
ghost use Rattle.counter_directory.specs.Index.{IsNew, AreNew, Turns, TurnEach, FindTheSame, HaveRoom};

use counter_cells::Spot;
use keyed_hash::KeyedState;
use rate_types::{CounterName, OutOfMemory, Seconds, Unit};
use std::alloc::Global;
use std::collections::HashMap;
use std::hash::RandomState;

/// Where the counters of a unit are bound that have a claim in the unit's present window. The window ends at `end`, in
/// seconds.
#[derive(Drop)]
pub(crate) struct UnitIndex {
    pub unit: Unit,
    pub end: u64,
    pub spots: HashMap<CounterName, Spot, KeyedState>,
}

impl UnitIndex {
    // No counter, in the unit's first window.
    fn new(alloc: Global, unit: Unit, hashes: KeyedState) -> UnitIndex
        ensures { (result.unit ≡ unit) × IsNew result }
    {
        UnitIndex {
            unit,
            end: unit.seconds(),
            spots: HashMap::with_hasher(alloc, hashes),
        }
    }

    /// Turns to the window of a moment. Where that is a later one, the counters are dropped.
    pub(crate) fn turn(&mut self, moment: Seconds)
        ensures { Turns moment self.old self.new }
    {
        if self.end <= moment.get() {
            self.spots.clear();
            self.end = window_keys::end(self.unit, moment);
        }
    }
}

/// No counter of any unit, in the first windows. The hashes go by `seed`.
pub(crate) fn unit_indexes(alloc: Global, seed: RandomState) -> Result<Vec<UnitIndex>, OutOfMemory>
    ensures { IfOk result (λ v. (vec_len v ≡ 4) × AreNew v.items) }
{
    let hashes = KeyedState::of(&seed);
    let mut units = Vec::with_capacity(alloc, 4)?;
    units.push_reserved(UnitIndex::new(alloc, Unit::Second, hashes));
    units.push_reserved(UnitIndex::new(alloc, Unit::Minute, hashes));
    units.push_reserved(UnitIndex::new(alloc, Unit::Hour, hashes));
    units.push_reserved(UnitIndex::new(alloc, Unit::Day, hashes));
    Ok(units)
}

/// Turns each to the window of a moment.
pub(crate) fn turn_all(units: &mut Vec<UnitIndex>, moment: Seconds)
    requires four { vec_len units.old ≡ 4 }
    ensures four { vec_len units.new ≡ 4 }
    ensures turned { TurnEach moment units.old.items units.new.items }
{
    for place in 0..4 {
        units[place].turn(moment);
    }
}

/// Room for as many new counters in each.
pub(crate) fn make_room(units: &mut Vec<UnitIndex>, wanted: usize) -> Result<(), OutOfMemory>
    requires four { vec_len units.old ≡ 4 }
    ensures four { vec_len units.new ≡ 4 }
    ensures same { FindTheSame units.old.items units.new.items }
    ensures room { OnOk result (HaveRoom wanted units.new.items) }
{
    for place in 0..4 {
        units[place].spots.reserve(wanted)?;
    }
    Ok(())
}
