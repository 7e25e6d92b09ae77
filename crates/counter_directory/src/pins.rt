ghost use Rattle.std.specs.Prelude.{◌≡◌, ℕ, ◌≤◌, ◌<◌, [], ◌∷◌, All, length};
ghost use Rattle.rate_types.specs.declared.limits.TheConstants.{MOST_PINS};
ghost use Rattle.counter_cells.specs.Views.{good_on};
ghost use Rattle.counter_directory.specs.Spots.{spots_on, LeavesAllButPins};
ghost use Rattle.counter_directory.specs.Acquired.{PinsAfterMisses};

use counter_cells::{CellNaming, CellPass, Cells, Pin, Spot};
use std::sync::Wait;

// Pins the cell under the number. A pin that missed is tried again.
fn pin_one<N: CellNaming, R: Wait>(
    rt: &R,
    cells: &Cells<N>,
    cell_pass: &mut CellPass<N>,
    spot: Spot,
)
    requires cell { spot.cell < N.setup.cells }
    requires room { length cell_pass.old.good < MOST_PINS }
    ensures { PinsAfterMisses (spot ∷ []) cell_pass.old cell_pass.new }
{
    for _round in rt.forever() {
        if let Pin::Pinned = cells.pin(cell_pass, spot) {
            return;
        }
    }
}

/// Pins each of the spots, in order.
pub(crate) fn pin_all<N: CellNaming, R: Wait>(
    rt: &R,
    cells: &Cells<N>,
    cell_pass: &mut CellPass<N>,
    spots: &[Spot],
)
    requires cells { All (λ s. s.cell < N.setup.cells) spots.now }
    requires room { (cell_pass.old.good ≡ []) × (length spots.now ≤ MOST_PINS) }
    ensures { PinsAfterMisses spots.now cell_pass.old cell_pass.new }
{
    for wanted in spots {
        pin_one(rt, cells, cell_pass, *wanted);
    }
}

/// Gives back the pins on these spots, which are all that the pass has. It takes no memory and waits for nobody.
pub fn give_back<N: CellNaming>(cells: &Cells<N>, cell_pass: &mut CellPass<N>, spots: &[Spot])
    requires cells { All (λ s. s.cell < N.setup.cells) spots.now }
    requires pins { (cell : ℕ) → good_on cell cell_pass.old ≡ spots_on cell spots.now }
    ensures none { cell_pass.new.good ≡ [] }
    ensures rest { LeavesAllButPins cell_pass.old cell_pass.new }
{
    for spot in spots {
        cells.unpin(cell_pass, spot.cell);
    }
}
