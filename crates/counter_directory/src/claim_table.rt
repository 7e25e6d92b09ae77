// What lies behind the lock: the claims, where they are found, and the claimer.
ghost use Rattle.std.specs.Prelude.{◌≡◌, ℕ, ◌-◌, ◌≤◌, ◌<◌};
ghost use Rattle.counter_directory.specs.TableFits.{GatesFit};
ghost use Rattle.counter_directory.specs.Index.{IndexFits};

use crate::cell_pool::CellPool;
use crate::claim::Claim;
use crate::unit_index::UnitIndex;
use counter_cells::{CellClaimer, CellNaming};
use rate_types::limits::MOST_CLAIM_NUMBERS;
use std::boxed::Box;
use told_list::Kept;

mod acquire;
mod bind;
mod find;
mod make;
mod missing;
mod reserve;

/// The claims, where those of the present windows are found, and the claimer of the cells with the name `N`.
#[derive(Drop)]
pub struct ClaimTable<N: CellNaming> {
    pub(crate) pool: CellPool,
    /// One for each unit, in the order of the units.
    pub(crate) index: Vec<UnitIndex>,
    pub(crate) claimer: CellClaimer<N>,
    ghost size: { pool.cells ≡ N.setup.cells },
    ghost heard: { pool.last ≤ claimer.heard },
    ghost gates: { GatesFit claimer pool.cells pool.last pool.next_claim pool.claims pool.reserved.items },
    ghost found: { IndexFits pool.last pool.claims index.items },
}

/// The table as it lies behind the lock: on the heap, so that a turn moves a pointer alone.
#[derive(Drop)]
pub struct KeptTable<N: CellNaming> {
    pub(crate) table: Box<ClaimTable<N>>,
}

impl<N: CellNaming> Kept for KeptTable<N> {
    ghost use Rattle.rate_types.specs.declared.limits.TheConstants.{MOST_CLAIM_NUMBERS};

    type Item = Claim;

    ghost MOST = { MOST_CLAIM_NUMBERS };

    const MOST: u64 = MOST_CLAIM_NUMBERS;

    ghost Fixed = { ℕ };

    ghost fixed = { λ b. b.table.value.pool.most };

    ghost items = { λ b. b.table.value.pool.claims };

    fn len(&self) -> u64 {
        self.table.pool.claims_made()
    }
}
