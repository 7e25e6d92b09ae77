ghost use Rattle.std.specs.Prelude.{◌≡◌};

use crate::pass_counters::PassCounters;
use crate::scratch::Scratch;
use config_versions::VersionPass;
use counter_cells::CellNaming;
use rate_types::Seconds;
use rule_lookup::Index;
use std::boxed::Box;
use std::marker::Model;

/// What one worker has of a limiter. It goes with the [`Limiter`](crate::Limiter) that it was made with. Between two calls it
/// holds no pin. Contracts see it as a `PassView`.
#[derive(Drop)]
pub struct Pass<N: CellNaming> {
    pub(crate) version: VersionPass<Index>,
    pub(crate) counters: PassCounters<N>,
    pub(crate) refused: u64,
    pub(crate) scratch: Box<Scratch>,
}

impl<N: CellNaming> Model for Pass<N> {
    ghost use Rattle.std.specs.Prelude.{◌≡◌, []};
    ghost use Rattle.config_versions.specs.Passes.{pass_state, versions_of};
    ghost use Rattle.rate_limiter.specs.Passes.{PassView};
    ghost use Rattle.rate_limiter.specs.Counters.{pass_with};
    ghost use Rattle.std.specs.Coded.{codes};
    ghost use Rattle.rule_lookup.specs.Stored.{trees_code};

    ghost Value = { PassView };

    ghost coded = { Prim.hlevel (codes, trees_code) };

    ghost view = { λ p. pass_with (versions_of p.version) (pass_state p.version) p.counters p.refused };

    ghost invariant = { λ p. p.counters.cells.good ≡ [] };
}

impl<N: CellNaming> Pass<N> {
    ghost use Rattle.std.specs.Prelude.{◌≡◌, []};
    ghost use Rattle.rate_limiter.specs.Values.{looks_counted};
    ghost use Rattle.config_versions.specs.Passes.{pass_state, versions_of};
    ghost use Rattle.rate_limiter.specs.Counters.{pass_with};

    pub(crate) fn new(
        version: VersionPass<Index>,
        counters: PassCounters<N>,
        scratch: Box<Scratch>,
    ) -> Pass<N>
        requires bare { counters.cells.good ≡ [] }
        ensures { result ≡ pass_with (versions_of version) (pass_state version) counters 0 }
    {
        Pass {
            version,
            counters,
            refused: 0,
            scratch,
        }
    }

    /// The number of the version at which the pass is.
    pub fn version(&self) -> u32
        ensures { result ≡ self.now.version.version }
    {
        self.version.version()
    }

    /// The moment that the pass's last tick answered, or at first the limiter's start.
    pub fn moment(&self) -> Seconds
        ensures { result ≡ self.now.cells.moment }
    {
        self.counters.moment()
    }

    /// How many looks at counts the pass has made. The count stops at the greatest u64.
    pub fn looks(&self) -> u64
        ensures { result ≡ looks_counted self.now.cells }
    {
        self.counters.looks()
    }

    /// How many checks of the pass were refused for want of cells or of claims. The count stops at the greatest u64.
    pub fn refused(&self) -> u64
        ensures { result ≡ self.now.refused }
    {
        self.refused
    }
}
