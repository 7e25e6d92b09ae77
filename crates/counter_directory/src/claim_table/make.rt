ghost use Rattle.std.specs.Prelude.{◌≡◌, ◌≤◌, ◌^◌, [], IfOk, ◌-◌, ◌<◌};
ghost use Rattle.rate_types.specs.declared.limits.TheConstants.{MOST_CLAIM_NUMBERS};

use crate::cell_pool::CellPool;
use crate::claim_table::ClaimTable;
use crate::unit_index::unit_indexes;
use counter_cells::{CellClaimer, CellNaming};
use rate_types::OutOfMemory;
use std::alloc::Global;
use std::hash::RandomState;

impl<N: CellNaming> ClaimTable<N> {
    /// The table over a claimer that has used no claim, with an index whose hashes go by the seed.
    pub(crate) fn make(
        alloc: Global,
        claimer: CellClaimer<N>,
        most: u64,
        seed: RandomState,
    ) -> Result<ClaimTable<N>, OutOfMemory>
        requires most { most ≤ MOST_CLAIM_NUMBERS }
        requires claimer { claimer.used_claims ≡ [] }
        ensures { IfOk result (λ b. (b.pool.claims ≡ []) × (b.pool.most ≡ most)) }
    {
        let pool = CellPool::make(alloc, claimer.cells(), most)?;
        let index = unit_indexes(alloc, seed)?;
        Ok(ClaimTable {
            pool,
            index,
            claimer,
        })
    }
}
