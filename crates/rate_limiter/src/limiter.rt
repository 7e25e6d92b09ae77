ghost use Rattle.std.specs.Prelude.{◌≡◌};

use config_versions::Versions;
use counter_cells::{CellNaming, Cells};
use counter_directory::Directory;
use rule_lookup::Index;
use std::marker::Model;

/// What a limiter is made for, beside its cells and its passes.
#[derive(Clone, Copy, Debug, PartialEq, Eq)]
pub struct Limits {
    /// The most claims that are ever made: 1 to 2^40.
    pub claims_max: u64,
    /// Overall codes are always OK; the statuses aren't changed by it.
    pub global_shadow: bool,
}

/// A limiter on the cells with the name `N`, which many workers use at once. Contracts see it as a `LimiterView`.
#[derive(Drop)]
pub struct Limiter<N: CellNaming> {
    pub(crate) cells: Cells<N>,
    pub(crate) directory: Directory<N>,
    pub(crate) versions: Versions<Index>,
    pub(crate) global_shadow: bool,
}

impl<N: CellNaming> Model for Limiter<N> {
    ghost use Rattle.std.specs.Prelude.{◌≡◌};
    ghost use Rattle.rate_limiter.specs.Passes.{LimiterView};
    ghost use Rattle.config_versions.specs.Passes.{pass_count, versions_id};

    ghost Value = { LimiterView };

    ghost view = { λ l. record {
      id = record { claims = l.directory.list_id; versions = versions_id l.versions };
      passes = l.directory.passes;
      claims_max = l.directory.claims_max;
      global_shadow = l.global_shadow;
    } };

    ghost invariant = { λ l. (l.directory.passes ≡ N.setup.passes) × (pass_count l.versions ≡ N.setup.passes) };
}
