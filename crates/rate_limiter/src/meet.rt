ghost use Rattle.std.specs.Prelude.{◌≡◌};

use crate::{Limiter, Pass};
use counter_cells::CellNaming;
use rate_types::OutOfMemory;
use std::sync::Wait;

impl<N: CellNaming> Limiter<N> {
    ghost use Rattle.std.specs.Prelude.{◌≡◌, OnOk};
    ghost use Rattle.rate_limiter.specs.Passes.{KeepsAllButVersion, KeepsAllButTicks};
    ghost use Rattle.rate_limiter.specs.Versions.{HasRisen};
    ghost use Rattle.rate_limiter.specs.Ticks.{HasTickedAlone};
    ghost use Rattle.rate_limiter.specs.Meeting.{HasMet};

    // Brings the pass to the newest version, or leaves it where it is for want of memory.
    fn catch_up<R: Wait>(&self, rt: &R, pass: &mut Pass<N>) -> Result<(), OutOfMemory>
        requires pass { pass.old.limiter ≡ self.now.id }
        ensures risen { HasRisen pass.old.version pass.new.version }
        ensures rest { KeepsAllButVersion pass.old pass.new }
    {
        self.versions.refresh(rt, &mut pass.version)
    }

    // Ticks with the pass's own moment.
    fn tick_alone(&self, pass: &mut Pass<N>)
        ensures ticked { HasTickedAlone pass.old.cells pass.new.cells }
        ensures rest { KeepsAllButTicks pass.old pass.new }
    {
        let now = pass.counters.moment();
        pass.counters.tick(&self.cells, now);
    }

    // Brings two passes to one version.
    fn meet_versions<R: Wait>(
        &self,
        rt: &R,
        one: &mut Pass<N>,
        other: &mut Pass<N>,
    ) -> Result<(), OutOfMemory>
        requires one { one.old.limiter ≡ self.now.id }
        requires other { other.old.limiter ≡ self.now.id }
        ensures one { HasRisen one.old.version one.new.version × KeepsAllButVersion one.old one.new }
        ensures other { HasRisen other.old.version other.new.version × KeepsAllButVersion other.old other.new }
        ensures same { OnOk result (one.new.version.version ≡ other.new.version.version) }
    {
        for _round in rt.forever() {
            self.catch_up(rt, one)?;
            self.catch_up(rt, other)?;
            if one.version() == other.version() {
                return Ok(());
            }
        }
        unreachable!()
    }

    // Brings two passes to one moment.
    fn meet_moments<R: Wait>(&self, rt: &R, one: &mut Pass<N>, other: &mut Pass<N>)
        ensures one { HasTickedAlone one.old.cells one.new.cells × KeepsAllButTicks one.old one.new }
        ensures other { HasTickedAlone other.old.cells other.new.cells × KeepsAllButTicks other.old other.new }
        ensures same { one.new.cells.moment ≡ other.new.cells.moment }
    {
        for _round in rt.forever() {
            self.tick_alone(one);
            self.tick_alone(other);
            if one.moment() == other.moment() {
                return;
            }
        }
        unreachable!()
    }

    /// Brings two passes to one version and one moment, none of which is below what either had. Nothing is offered to the clock.
    /// It may wait for other calls on this limiter. After `OutOfMemory` versions may have risen, and none has fallen.
    pub fn meet<R: Wait>(
        &self,
        rt: &R,
        one: &mut Pass<N>,
        other: &mut Pass<N>,
    ) -> Result<(), OutOfMemory>
        requires one { one.old.limiter ≡ self.now.id }
        requires other { other.old.limiter ≡ self.now.id }
        ensures one { HasMet one.old one.new }
        ensures other { HasMet other.old other.new }
        ensures version { OnOk result (one.new.version.version ≡ other.new.version.version) }
        ensures moment { OnOk result (one.new.cells.moment ≡ other.new.cells.moment) }
    {
        self.meet_versions(rt, one, other)?;
        self.meet_moments(rt, one, other);
        Ok(())
    }
}
