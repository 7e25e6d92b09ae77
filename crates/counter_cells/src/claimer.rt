ghost use Rattle.std.specs.Prelude.{◌≡◌, ◌≤◌, length, true};
ghost use Rattle.counter_cells.specs.Seats.{IsClaimer, IsBareSeatOf};

use crate::naming::CellNaming;
use crate::rule::CellSeat;
use rate_types::limits::MOST_CELLS;
use std::marker::{Model, PhantomData};

/// The right to take cells under new claims. There is one for all cells of a table. Contracts see it as what it knows.
#[derive(Drop)]
pub struct CellClaimer<N: CellNaming> {
    pub(crate) seat: CellSeat,
    cells: u32,
    of: PhantomData<N>,
}

impl<N: CellNaming> Model for CellClaimer<N> {
    ghost use Rattle.rate_types.specs.declared.limits.TheConstants.{MOST_CELLS};
    ghost use Rattle.counter_cells.specs.declared.view.CellView.{CellView};

    ghost Value = { CellView };

    ghost use Rattle.std.specs.Prelude.{◌≡◌, ◌≤◌};
    ghost use Rattle.counter_cells.specs.Seats.{IsClaimer, IsBareSeatOf};

    ghost view = { λ c. c.seat.me.0 };

    ghost invariant = { λ c. IsBareSeatOf N.table c.seat × IsClaimer N.setup c.seat.me.0 × (c.cells ≡ N.setup.cells)
        × (c.cells ≤ MOST_CELLS) };
}

impl<N: CellNaming> CellClaimer<N> {
    pub(crate) fn new(seat: CellSeat, cells: u32) -> CellClaimer<N>
        requires seat { IsBareSeatOf N.table seat × IsClaimer N.setup seat.me.0 }
        requires cells { (cells ≡ N.setup.cells) × (cells ≤ MOST_CELLS) }
        ensures { result ≡ seat.me.0 }
    {
        CellClaimer {
            seat,
            cells,
            of: PhantomData,
        }
    }

    /// How many cells there are: 1 to 1,048,576.
    pub fn cells(&self) -> u32
        ensures cells { (result ≡ N.setup.cells) × (result ≤ MOST_CELLS) }
        ensures view { (length self.now.cells ≡ result) × (self.now.claimer ≡ true) }
    {
        self.cells
    }

    pub(crate) fn into_seat(self) -> CellSeat
        ensures seat { IsBareSeatOf N.table result × (result.me.0 ≡ self) }
        ensures claimer { IsClaimer N.setup self }
    {
        let CellClaimer {
            seat,
            cells: _,
            of: _,
        } = self;
        seat
    }
}
