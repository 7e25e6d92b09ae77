ghost use Rattle.std.specs.Prelude.{◌≡◌};

use crate::{Limiter, Pass};
use counter_cells::CellNaming;
use rate_types::{OutOfMemory, Seconds};
use std::sync::Wait;

impl<N: CellNaming> Limiter<N> {
    ghost use Rattle.std.specs.Prelude.{◌≡◌, ◌+◌, ◌<◌, [], OnOk, OnErr, MatchOption};
    ghost use Rattle.counter_cells.specs.Steps.{ticked};
    ghost use Rattle.rate_limiter.specs.Passes.{KeepsAllButVersion, KeepsAllButTicks};
    ghost use Rattle.rate_limiter.specs.PassStep.{HasRenewed, HasOffered};
    ghost use Rattle.rate_limiter.specs.Versions.{HasStayed};
    ghost use Rattle.config_versions.specs.PassState.{HasLoaded, IsVersion};

    /// Offers a moment to the clock. The answer is the pass's moment afterwards: at least `now`, and no earlier than before.
    /// It waits for nobody.
    pub fn tick(&self, pass: &mut Pass<N>, now: Seconds) -> Seconds
        ensures answer { result ≡ pass.new.cells.moment }
        ensures ticked { pass.new.cells ≡ ticked result now pass.old.cells }
        ensures offered { HasOffered now pass.old.cells pass.new.cells }
        ensures rest { KeepsAllButTicks pass.old pass.new }
    {
        pass.counters.tick(&self.cells, now)
    }

    // Brings the pass to the newest version where one load shows that it is behind.
    pub(crate) fn renew<R: Wait>(&self, rt: &R, pass: &mut Pass<N>) -> Result<(), OutOfMemory>
        requires pass { pass.old.limiter ≡ self.now.id }
        ensures renewed { OnOk result (HasRenewed pass.old.version pass.new.version) }
        ensures stayed { OnErr result (HasStayed pass.old.version pass.new.version) }
        ensures rest { KeepsAllButVersion pass.old pass.new }
        ensures bare { pass.new.cells.good ≡ [] }
    {
        if self.versions.is_behind(&mut pass.version).is_none() {
            return Ok(());
        }
        self.versions.refresh(rt, &mut pass.version)
    }

    // The number of the newest version, where one load shows that the pass is behind it.
    pub(crate) fn newer_version(&self, pass: &mut Pass<N>) -> Option<u32>
        requires pass { pass.old.limiter ≡ self.now.id }
        ensures answer { MatchOption result (pass.new.version.view.shown ≡ pass.old.version.version + 1)
            (λ n. (n + 1 ≡ pass.new.version.view.shown) × (pass.old.version.version < n)) }
        ensures loaded { HasLoaded pass.old.version pass.new.version }
        ensures at { IsVersion pass.new.version.view.known pass.new.version.version pass.new.version.index }
        ensures rest { KeepsAllButVersion pass.old pass.new }
    {
        self.versions.is_behind(&mut pass.version)
    }
}
