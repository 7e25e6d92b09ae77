ghost use Rattle.std.specs.Prelude.{◌≡◌};

use crate::split::parts_of;
use crate::totals::totals_of;
use crate::{Limiter, Pass};
use config_versions::VersionLog;
use counter_cells::CellNaming;
use counter_directory::Claims;
use rate_types::{OutOfMemory, Seconds};
use rls_core::Totals;
use rule_lookup::Index;
use std::alloc::Global;

/// What is left of a limiter that is closed.
#[derive(Drop)]
pub struct Closed {
    /// The clock's last moment.
    pub moment: Seconds,
    /// All claims, for contracts alone.
    pub claims: Claims,
    /// All versions, for contracts alone.
    pub versions: VersionLog<Index>,
    /// The counters that were charged and whose windows are open at that moment, in key order, each with what was charged on it.
    pub totals: Totals,
}

impl<N: CellNaming> Limiter<N> {
    ghost use Rattle.std.specs.Prelude.{◌≡◌, ℕ, All, IfOk, length, vec_len};
    ghost use mathlib.Core.List.{IsPrefix};
    ghost use Rattle.rate_types.specs.Sums.{total, times};
    ghost use Rattle.told_list.specs.Lists.{IsOwnedOnce};
    ghost use Rattle.counter_cells.specs.Closing.{ticks_of, TicksAreLawful};
    ghost use Rattle.counter_directory.specs.Claims.{IsLawfulClaims};
    ghost use Rattle.rate_limiter.specs.Closing.{cells_of, IsOneLedger, AreSightsInIt, AreItsTotals};

    /// The claims, the versions, the last moment and the totals, for which all passes are given back. The charges of all passes are
    /// one lawful ledger of counters. It waits for nobody. After `OutOfMemory` the limiter and the passes are given up.
    pub fn close(self, alloc: Global, passes: Vec<Pass<N>>) -> Result<Closed, OutOfMemory>
        requires passes { All (λ p. p.limiter ≡ self.id) passes.items }
        requires every { vec_len passes ≡ self.passes }
        ensures claims { IfOk result (λ c. IsLawfulClaims N.setup.cells self.claims_max c.claims) }
        ensures claims_known { IfOk result (λ c. All (λ p. IsPrefix p.claims.known c.claims) passes.items) }
        ensures claims_owned { IfOk result
            (λ c. (n : ℕ) → IsOwnedOnce 0 (length c.claims) n (total (λ p. times n p.claims.own) passes.items)) }
        ensures versions_known { IfOk result (λ c. All (λ p. IsPrefix p.version.view.known c.versions) passes.items) }
        ensures versions_owned { IfOk result
            (λ c. (n : ℕ) → IsOwnedOnce 1 (length c.versions) n (total (λ p. times n p.version.view.own) passes.items)) }
        ensures ticks { IfOk result (λ c. TicksAreLawful N.setup.start c.moment (ticks_of (cells_of passes.items))) }
        ensures ledger { IfOk result (λ c. IsOneLedger c.claims passes.items) }
        ensures sights { IfOk result (λ c. AreSightsInIt c.claims passes.items) }
        ensures totals { IfOk result (λ c. AreItsTotals c.claims passes.items c.moment c.totals) }
    {
        let parts = parts_of(alloc, passes)?;
        let Limiter {
            cells,
            directory,
            versions,
            global_shadow: _,
        } = self;
        let closed_versions = versions.close(alloc, parts.versions)?;
        let closed_directory = directory.close(parts.claims);
        let list = closed_directory.open_claims(alloc)?;
        let closed_cells = cells.close(alloc, parts.cells, closed_directory.claimer)?;
        let totals = totals_of(
            alloc,
            list.into_items(),
            closed_cells.counts.items(),
            closed_cells.moment,
        )?;
        Ok(Closed {
            moment: closed_cells.moment,
            claims: closed_directory.claims,
            versions: closed_versions.versions,
            totals,
        })
    }
}
