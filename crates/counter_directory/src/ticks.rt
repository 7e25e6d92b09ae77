ghost use Rattle.std.specs.Prelude.{◌≡◌, ◌≤◌};
ghost use Rattle.counter_cells.specs.Steps.{has_heard};
ghost use Rattle.counter_directory.specs.Acquiring.{OnlyTicked};

use counter_cells::{CellClaimer, CellNaming, CellPass, Cells};
use rate_types::Seconds;
use std::sync::Wait;

/// Ticks with the pass's own moment until the moment is at least this one, and the claimer has heard it of the clock.
pub(crate) fn tick_up<N: CellNaming, R: Wait>(
    rt: &R,
    cells: &Cells<N>,
    cell_pass: &mut CellPass<N>,
    claimer: &mut CellClaimer<N>,
    least: Seconds,
) -> Seconds
    ensures ticked { OnlyTicked cell_pass.old cell_pass.new }
    ensures moment { (result ≡ cell_pass.new.moment) × (least ≤ result) }
    ensures claimer { claimer.new ≡ has_heard claimer.new.heard claimer.old }
    ensures heard { result ≤ claimer.new.heard }
{
    for _round in rt.forever() {
        let now = cell_pass.moment();
        let moment = cells.tick(cell_pass, now);
        let heard = cells.hear(claimer);
        if moment >= least && moment <= heard {
            return moment;
        }
    }
    unreachable!()
}
