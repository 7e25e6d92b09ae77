// What each kind of step tells the seat that makes it: how its view changes, by the word that the step found.
use crate::view::CellView;
use atomic_table::Play;
use std::marker::{Brand, PhantomData};

/// Raises the clock.
pub(crate) struct Ticks;

impl Play<u8, CellView> for Ticks {
    ghost use Rattle.rate_types.specs.declared.limits.TheConstants.{LATEST_MOMENT};
    ghost use Rattle.std.specs.Prelude.{◌≡◌, ◌≤◌, max};
    ghost use Rattle.counter_cells.specs.Steps.{ticked};

    ghost then = { λ s v n w. (w.0 ≡ ticked (max n s.first) s.first v.0) × (w.1 ≡ v.1) × (v.0.moment ≤ n) × (n ≤ LATEST_MOMENT) };
}

/// Reads the clock, and ticks with the moment that was asked for where the clock isn't earlier.
pub(crate) struct Glances<A>(PhantomData<A>);

impl<A: Asked> Play<u8, CellView> for Glances<A> {
    ghost use Rattle.rate_types.specs.declared.limits.TheConstants.{LATEST_MOMENT};
    ghost use Rattle.std.specs.Prelude.{◌≡◌, ◌≤◌};
    ghost use Rattle.counter_cells.specs.Steps.{glanced};

    ghost then = { λ s v n w. (w.0 ≡ glanced n A.asked v.0) × (w.1 ≡ v.1) × (v.0.moment ≤ n) × (n ≤ LATEST_MOMENT) };
}

/// The claimer reads the clock.
pub(crate) struct Hears;

impl Play<u8, CellView> for Hears {
    ghost use Rattle.rate_types.specs.declared.limits.TheConstants.{LATEST_MOMENT};
    ghost use Rattle.std.specs.Prelude.{◌≡◌, ◌≤◌};
    ghost use Rattle.counter_cells.specs.Steps.{has_heard};

    ghost then = { λ s v n w. (w.0 ≡ has_heard n v.0) × (w.1 ≡ v.1) × (v.0.heard ≤ n) × (n ≤ LATEST_MOMENT) };
}

/// What a step asks for: a pin the claim, a tick the moment.
pub(crate) trait Asked {
    ghost use Rattle.std.specs.Prelude.{ℕ};

    ghost asked: { ℕ };
}

impl Asked for Brand {
    ghost asked = { 0 };
}

/// Takes a pin.
pub(crate) struct Pins<A>(PhantomData<A>);

impl<A: Asked> Play<u8, CellView> for Pins<A> {
    ghost use Rattle.std.specs.Prelude.{◌≡◌};
    ghost use Rattle.counter_cells.specs.WordIndex.{gate_cell};
    ghost use Rattle.counter_cells.specs.Counting.{OwnShown};
    ghost use Rattle.counter_cells.specs.InnerSteps.{pinned};

    ghost then = { λ s v n w. (w.0 ≡ pinned A.asked (gate_cell s.word) n v.0) × (w.1 ≡ v.1) × OwnShown (gate_cell s.word) v.0 n };
}

/// Gives a good pin back.
pub(crate) struct Unpins;

impl Play<u8, CellView> for Unpins {
    ghost use Rattle.std.specs.Prelude.{◌≡◌};
    ghost use Rattle.counter_cells.specs.WordIndex.{gate_cell};
    ghost use Rattle.counter_cells.specs.Steps.{unpinned};

    ghost then = { λ s v n w. (w.0 ≡ unpinned (gate_cell s.word) v.0) × (w.1 ≡ v.1) };
}

/// Gives a stray pin back.
pub(crate) struct UnpinsStray;

impl Play<u8, CellView> for UnpinsStray {
    ghost use Rattle.std.specs.Prelude.{◌≡◌};
    ghost use Rattle.counter_cells.specs.WordIndex.{gate_cell};
    ghost use Rattle.counter_cells.specs.InnerSteps.{stray_unpinned};

    ghost then = { λ s v n w. (w.0 ≡ stray_unpinned (gate_cell s.word) v.0) × (w.1 ≡ v.1) };
}

/// Reads a count under a pin.
pub(crate) struct Looks;

impl Play<u8, CellView> for Looks {
    ghost use Rattle.std.specs.Prelude.{◌≡◌};
    ghost use Rattle.counter_cells.specs.WordIndex.{count_cell};
    ghost use Rattle.counter_cells.specs.Views.{Capped, claim_on};
    ghost use Rattle.counter_cells.specs.Steps.{looked};

    ghost then = { λ s v n w. (w.0 ≡ looked (count_cell s.word) n v.0) × (w.1 ≡ v.1)
        × Capped (claim_on (count_cell s.word) v.0.good) n v.0 };
}

/// Adds hits to a count under a pin.
pub(crate) struct Charges;

impl Play<u8, CellView> for Charges {
    ghost use Rattle.std.specs.Prelude.{◌≡◌, ◌+◌, ◌<◌, ◌^◌};
    ghost use Rattle.counter_cells.specs.WordIndex.{count_cell};
    ghost use Rattle.counter_cells.specs.Views.{Capped, claim_on};
    ghost use Rattle.counter_cells.specs.Steps.{charged};

    ghost then = { λ s v n w. (w.0 ≡ charged (count_cell s.word) n s.first v.0) × (w.1 ≡ v.1)
        × Capped (claim_on (count_cell s.word) v.0.good) n v.0 × (n + s.first < 2 ^ 64) };
}

/// The claimer reads a gate, which shows the claim and the open bit that it knows.
pub(crate) struct Peeks;

impl Play<u8, CellView> for Peeks {
    ghost use Rattle.std.specs.Prelude.{◌≡◌};
    ghost use Rattle.counter_cells.specs.WordIndex.{gate_cell};
    ghost use Rattle.counter_cells.specs.Claiming.{Peeked};

    ghost then = { λ s v n w. Peeked (gate_cell s.word) v.0 n w.0 × (w.1 ≡ v.1) };
}

/// The claimer takes a gate that shows no pin.
pub(crate) struct Reclaims;

impl Play<u8, CellView> for Reclaims {
    ghost use Rattle.std.specs.Prelude.{◌≡◌};
    ghost use Rattle.counter_cells.specs.Gates.{claim_shown};
    ghost use Rattle.counter_cells.specs.WordIndex.{gate_cell};
    ghost use Rattle.counter_cells.specs.Claiming.{Reclaimed};

    ghost then = { λ s v n w. Reclaimed (gate_cell s.word) s.first (claim_shown s.second) v.0 n w.0 × (w.1 ≡ v.1) };
}

/// The claimer sets the count of a cell that it has taken to 0.
pub(crate) struct Resets;

impl Play<u8, CellView> for Resets {
    ghost use Rattle.std.specs.Prelude.{◌≡◌};
    ghost use Rattle.counter_cells.specs.WordIndex.{count_cell};
    ghost use Rattle.counter_cells.specs.Steps.{reset_by};

    ghost then = { λ s v n w. (w.0 ≡ reset_by (count_cell s.word) v.0) × (w.1 ≡ v.1) };
}

/// The claimer opens a gate.
pub(crate) struct Opens;

impl Play<u8, CellView> for Opens {
    ghost use Rattle.std.specs.Prelude.{◌≡◌};
    ghost use Rattle.counter_cells.specs.WordIndex.{gate_cell};
    ghost use Rattle.counter_cells.specs.Steps.{opened_by};

    ghost then = { λ s v n w. (w.0 ≡ opened_by (gate_cell s.word) v.0) × (w.1 ≡ v.1) };
}
