ghost use Rattle.std.specs.Prelude.{◌≡◌, ◌++◌, All, IfOk, OnOk, Some, map};
ghost use Rattle.std.specs.HashMap.{get, IsUnique};
ghost use Rattle.rate_types.specs.Counters.{same_name};
ghost use Rattle.counter_directory.specs.Index.{IndexFits};
ghost use Rattle.counter_directory.specs.Open.{open_at, AreOpenClaims};

use crate::claim::Claims;
use crate::keys::key_at;
use crate::unit_index::UnitIndex;
use counter_cells::{CellClaimer, CellNaming, Spot};
use rate_types::{CounterKey, Items, OutOfMemory, Seconds};
use std::alloc::Global;

/// What is left of a directory that is closed.
#[derive(Drop)]
pub struct ClosedDirectory<N: CellNaming> {
    /// All claims, for contracts alone.
    pub claims: Claims,
    pub claimer: CellClaimer<N>,
    /// The moment of the last turn, or 0. The claimer has heard it of the clock.
    pub last: Seconds,
    pub(crate) index: Vec<UnitIndex>,
    ghost found: { IndexFits last claims index.items },
}

/// A counter whose window hasn't ended, and the cell and the number to which a claim binds it.
#[derive(Drop)]
pub struct OpenClaim {
    pub key: CounterKey,
    pub spot: Spot,
}

// Adds the counters of one unit.
fn add_open(unit: &UnitIndex, last: Seconds, list: &mut Vec<OpenClaim>) -> Result<(), OutOfMemory>
    ensures items { OnOk result (list.new.items ≡ list.old.items ++ map (open_at last) unit.now.spots.entries) }
    ensures found { All (λ e. get same_name unit.now.spots e.0 ≡ Some e.1) unit.now.spots.entries }
    ensures unique { IsUnique same_name unit.now.spots }
{
    for (name, spot) in unit.spots.iter() {
        list.push(OpenClaim {
            key: key_at(name.copy()?, last),
            spot: *spot,
        })?;
    }
    Ok(())
}

impl<N: CellNaming> ClosedDirectory<N> {
    /// The claims whose windows haven't ended at the last moment, one for each counter.
    pub fn open_claims(&self, alloc: Global) -> Result<Items<OpenClaim>, OutOfMemory>
        ensures { IfOk result (λ list. AreOpenClaims self.now.last self.now.claims list) }
    {
        let mut list = Vec::new(alloc);
        for unit in &self.index {
            add_open(unit, self.last, &mut list)?;
        }
        Ok(Items::of(list))
    }
}
