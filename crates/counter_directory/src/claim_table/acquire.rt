// One call of `acquire` under the lock.
ghost use Rattle.std.specs.Prelude.{◌≡◌, ◌≤◌, [], length};
ghost use Rattle.rate_types.specs.declared.limits.TheConstants.{MOST_PINS};
ghost use Rattle.counter_directory.specs.Claims.{last_of};
ghost use Rattle.counter_directory.specs.Acquired.{Acquires};
ghost use Rattle.counter_directory.specs.Acquiring.{OnlyTicked};
ghost use Rattle.counter_directory.specs.Answered.{answered};

use crate::acquired::{AcquireFault, Acquired};
use crate::claim_table::ClaimTable;
use crate::pins::pin_all;
use crate::sought_name::SoughtName;
use crate::ticks::tick_up;
use counter_cells::{CellNaming, CellPass, Cells};
use rate_types::Seconds;
use std::sync::Wait;

impl<N: CellNaming> ClaimTable<N> {
    // Ticks the cell pass until its moment is at least that of the last turn.
    fn tick<R: Wait>(&mut self, rt: &R, cells: &Cells<N>, cell_pass: &mut CellPass<N>) -> Seconds
        ensures same { (self.new.pool ≡ self.old.pool) × (self.new.index ≡ self.old.index)
            × (self.new.claimer.used_claims ≡ self.old.claimer.used_claims) }
        ensures ticked { OnlyTicked cell_pass.old cell_pass.new }
        ensures moment { (result ≡ cell_pass.new.moment) × (self.old.pool.last ≤ result) }
        ensures heard { result ≤ self.new.claimer.heard }
    {
        tick_up(rt, cells, cell_pass, &mut self.claimer, self.pool.last)
    }

    // Ticks the cell pass, binds the counters of the names at its moment and pins their cells, or says why not. The
    // moment and the spots of the pins are written to `acquired`.
    pub(crate) fn acquire<R: Wait>(
        &mut self,
        rt: &R,
        cells: &Cells<N>,
        cell_pass: &mut CellPass<N>,
        names: &[SoughtName<'_>],
        most_held: usize,
        acquired: &mut Acquired,
    ) -> Result<(), AcquireFault>
        requires cell_pass { cell_pass.old.good ≡ [] }
        requires names { length names.now ≤ MOST_PINS }
        ensures most { self.new.pool.most ≡ self.old.pool.most }
        ensures later { last_of 0 self.old.pool.claims ≤ cell_pass.new.moment }
        ensures did { Acquires (record { cells = N.setup.cells; claims = self.old.pool.most; held = most_held }) names.now cell_pass.old
            (record { used = length self.old.claimer.used_claims; claims = self.old.pool.claims }) (answered result acquired.new)
            cell_pass.new (record { used = length self.new.claimer.used_claims; claims = self.new.pool.claims }) }
    {
        let moment = self.tick(rt, cells, cell_pass);
        if self.expire(moment).is_err() {
            return Err(AcquireFault::OutOfMemory);
        }
        self.bind(rt, cells, cell_pass, names, most_held, &mut acquired.spots)?;
        pin_all(rt, cells, cell_pass, acquired.spots.as_slice());
        acquired.moment = moment;
        Ok(())
    }
}
