ghost use Rattle.std.specs.Prelude.{◌≡◌, []};

use arrayvec::ArrayVec;
use counter_cells::Spot;
use rate_types::Seconds;
use thiserror::Error;

/// What a call has pinned. A caller lends one to each call, so that none is moved.
#[derive(Drop)]
pub struct Acquired {
    /// The moment of the cell pass, in whose windows the counters are.
    pub moment: Seconds,
    /// For each name the cell and the number of its counter, in order. The cell pass has one pin for each.
    pub spots: ArrayVec<Spot, 32>,
}

impl Acquired {
    /// No spots.
    pub fn new() -> Acquired
        ensures { (result.moment ≡ 0) × (result.spots.items ≡ []) }
    {
        Acquired {
            moment: Seconds::capped(0),
            spots: ArrayVec::new(),
        }
    }
}

/// Why a call has pinned nothing. They are tried in the order ClaimsSpent, CountersFull; OutOfMemory may come in place
/// of either. No claim was added.
#[derive(Clone, Copy, Debug, PartialEq, Eq, Error)]
pub enum AcquireFault {
    /// There was no memory for a new claim.
    #[error("out of memory")]
    OutOfMemory,
    /// There are `claims` claims, and with `wanted` more, one for each new counter, there would be more than the most.
    #[error("{claims} claims are made, and {wanted} more would be too many")]
    ClaimsSpent {
        claims: u64,
        wanted: u32,
    },
    /// At the moment `live` cells are bound to windows that haven't ended, `held` cells of windows that have ended were
    /// found pinned, and `wanted` counters are new: these are more than the cells.
    #[error("at second {at} {live} cells are in use, {held} are pinned, and {wanted} more are wanted", at = .moment.get())]
    CountersFull {
        moment: Seconds,
        live: u32,
        held: u32,
        wanted: u32,
    },
}
