ghost use Rattle.std.specs.Prelude.{◌≡◌};

use counter_cells::{CellNaming, OpenedCells};
use descriptor_tree::Config;
use rate_limiter::{Limiter, Limits, Pass};
use rate_types::{OutOfMemory, Seconds};
use std::alloc::Global;
use std::hash::RandomState;
use std::sync::Arc;

/// How many counters are given cells, one after the other, before the program has to be started anew.
pub const SERVED_CLAIMS: u64 = 16_777_216;

/// What a limiter that serves connections is made of.
#[derive(Drop)]
pub struct LimiterParts {
    /// Its configuration.
    pub config: Arc<Config>,
    /// Its cells.
    pub opened: OpenedCells,
    /// Overall codes are always OK.
    pub global_shadow: bool,
    /// Its hashes go by it.
    pub seed: RandomState,
}

impl LimiterParts {
    ghost use Rattle.std.specs.Prelude.{◌≡◌, ◌≤◌, All, IfOk};
    ghost use Rattle.std.specs.Arc.{arc_value};
    ghost use Rattle.rate_types.specs.declared.limits.TheConstants.{MOST_CELLS, MOST_PASSES};
    ghost use Rattle.descriptor_tree.specs.Views.{config_view};
    ghost use Rattle.counter_cells.specs.Opened.{table_of, setup_of};
    ghost use Rattle.http_checks.specs.Made.{IsMade};

    /// Opens so many cells for so many passes, at moment 0.
    pub fn open(
        alloc: Global,
        seed: RandomState,
        config: Config,
        passes: u32,
        cells: u32,
        global_shadow: bool,
    ) -> Result<LimiterParts, OutOfMemory>
        requires passes { (1 ≤ passes) × (passes ≤ MOST_PASSES) }
        requires cells { (1 ≤ cells) × (cells ≤ MOST_CELLS) }
        ensures config { IfOk result (λ p. arc_value p.config ≡ config) }
        ensures cells { IfOk result (λ p. setup_of p.opened ≡ record { cells = cells; passes = passes; start = 0 }) }
        ensures shadow { IfOk result (λ p. p.global_shadow ≡ global_shadow) }
    {
        let opened = OpenedCells::make(alloc, cells, passes, Seconds::capped(0))?;
        let config = Arc::new(alloc, config)?;
        Ok(LimiterParts {
            config,
            opened,
            global_shadow,
            seed,
        })
    }

    /// The limiter, whose cells get the name `N`, with all its passes.
    pub fn make<N: CellNaming>(
        self,
        alloc: Global,
    ) -> Result<(Limiter<N>, Vec<Pass<N>>), OutOfMemory>
        requires name { (table_of self.opened ≡ N.table) × (setup_of self.opened ≡ N.setup) }
        requires passes { (1 ≤ N.setup.passes) × (N.setup.passes ≤ MOST_PASSES) }
        ensures made { IfOk result (λ r. IsMade (config_view (arc_value self.config)) N.setup.start N.setup.passes self.global_shadow
            r.0 r.1.items) }
        ensures limiter { IfOk result (λ r. All (λ p. p.limiter ≡ r.0.id) r.1.items) }
    {
        let LimiterParts {
            config,
            opened,
            global_shadow,
            seed,
        } = self;
        let limits = Limits {
            claims_max: SERVED_CLAIMS,
            global_shadow,
        };
        let (limiter, passes) = Limiter::<N>::make(alloc, config, opened, limits, seed)?;
        Ok((limiter, passes))
    }
}
