ghost use Rattle.std.specs.Prelude.{◌≡◌, ◌≤◌, length};
ghost use Rattle.counter_cells.specs.Seats.{IsPass, IsBareSeatOf};

use crate::naming::CellNaming;
use crate::rule::CellSeat;
use rate_types::Seconds;
use std::marker::{Model, PhantomData};

/// The right of one thread to tick, pin, look and charge. Contracts see it as what it knows, a `View`.
#[derive(Drop)]
pub struct CellPass<N: CellNaming> {
    pub(crate) seat: CellSeat,
    pub(crate) moment: Seconds,
    pub(crate) pins: u32,
    of: PhantomData<N>,
}

impl<N: CellNaming> Model for CellPass<N> {
    ghost use Rattle.std.specs.Prelude.{◌≡◌, ◌≤◌, length};
    ghost use Rattle.counter_cells.specs.declared.view.CellView.{CellView};

    ghost Value = { CellView };

    ghost use Rattle.counter_cells.specs.Seats.{IsPass, IsBareSeatOf};

    ghost view = { λ p. p.seat.me.0 };

    ghost invariant = { λ p. IsBareSeatOf N.table p.seat × IsPass p.seat.me.0 × (p.moment ≡ p.seat.me.0.moment)
        × (p.pins ≡ length p.seat.me.0.good) };
}

impl<N: CellNaming> CellPass<N> {
    pub(crate) fn new(seat: CellSeat, moment: Seconds) -> CellPass<N>
        requires seat { IsBareSeatOf N.table seat × IsPass seat.me.0 }
        requires moment { (moment ≡ seat.me.0.moment) × (length seat.me.0.good ≡ 0) }
        ensures { result ≡ seat.me.0 }
    {
        CellPass {
            seat,
            moment,
            pins: 0,
            of: PhantomData,
        }
    }

    pub(crate) fn into_seat(self) -> CellSeat
        ensures seat { IsBareSeatOf N.table result × (result.me.0 ≡ self) }
        ensures pass { IsPass self }
    {
        let CellPass {
            seat,
            moment: _,
            pins: _,
            of: _,
        } = self;
        seat
    }

    /// The moment that the last tick answered, or at first the clock's start.
    pub fn moment(&self) -> Seconds
        ensures { result ≡ self.now.moment }
    {
        self.moment
    }

    /// How many pins the pass holds.
    pub fn pins(&self) -> u32
        ensures { result ≡ length self.now.good }
    {
        self.pins
    }
}
