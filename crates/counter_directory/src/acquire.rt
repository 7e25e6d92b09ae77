ghost use Rattle.std.specs.Prelude.{◌≡◌, ◌≤◌, [], length};
ghost use Rattle.counter_directory.specs.Claims.{last_of};
ghost use Rattle.counter_directory.specs.Acquired.{Acquires};

use crate::acquired::{AcquireFault, Acquired};
use crate::claim_table::KeptTable;
use crate::sought_name::SoughtName;
use counter_cells::{CellNaming, CellPass, Cells};
use std::sync::Wait;
use told_list::Act;

/// One turn at the lock of the directory.
#[derive(Drop)]
pub(crate) struct Acquire<'a, N: CellNaming, R: Wait> {
    pub rt: &'a R,
    pub cells: &'a Cells<N>,
    pub cell_pass: &'a mut CellPass<N>,
    pub names: &'a [SoughtName<'a>],
    pub most_held: usize,
    /// Where the moment and the spots of the pins are written.
    pub acquired: &'a mut Acquired,
}

impl<'a, N: CellNaming, R: Wait> Act<KeptTable<N>> for Acquire<'a, N, R> {
    ghost use Rattle.rate_types.specs.declared.limits.TheConstants.{MOST_PINS};
    ghost use Rattle.std.specs.Prelude.{◌≡◌, ◌≤◌, [], length};
    ghost use Rattle.counter_directory.specs.Claims.{IsLawfulClaims, last_of};
    ghost use Rattle.counter_directory.specs.Acquired.{Acquires};
    ghost use Rattle.counter_directory.specs.Answered.{answered};

    type Out = Result<(), AcquireFault>;

    ghost ready = { λ p _. (p.cell_pass.now.good ≡ []) × (length p.names.now ≤ MOST_PINS) };

    ghost did = { λ p b r q c. (q.cell_pass.ghost_name ≡ p.cell_pass.ghost_name) × (q.acquired.ghost_name ≡ p.acquired.ghost_name)
        × Acquires (record { cells = N.setup.cells; claims = b.table.value.pool.most; held = p.most_held }) p.names.now p.cell_pass.now
        (record { used = length b.table.value.claimer.used_claims; claims = b.table.value.pool.claims }) (answered r q.acquired.now)
        q.cell_pass.now
        (record { used = length c.table.value.claimer.used_claims; claims = c.table.value.pool.claims })
        × IsLawfulClaims N.setup.cells c.table.value.pool.most c.table.value.pool.claims
        × (last_of 0 b.table.value.pool.claims ≤ q.cell_pass.now.moment) };

    fn act(&mut self, kept: &mut KeptTable<N>) -> Result<(), AcquireFault> {
        kept.table.acquire(
            self.rt,
            self.cells,
            self.cell_pass,
            self.names,
            self.most_held,
            self.acquired,
        )
    }
}
