// The rule of the table of cells, and how its first seat is split into the claimer's and those of the passes.
use crate::setup::Setup;
use crate::view::CellView;
use atomic_table::{Join, Seat, Shared, Split, Table, TableRule};
use std::alloc::Global;

/// A seat at the cells, with the view of a pass or of the claimer.
pub(crate) type CellSeat = Seat<u8, CellView>;

/// The words, and what is proved of them.
pub(crate) type CellTable = Table<u8, CellView, Setup, Lawful, Global>;

/// The cells are lawful between any two steps.
pub struct Lawful;

impl TableRule<u8, CellView, Setup> for Lawful {
    ghost use Rattle.counter_cells.specs.Lawful.{AreLawful};
    ghost use Rattle.counter_cells.specs.InnerSteps.{first_claimer};

    ghost holds = { AreLawful };

    ghost first = { first_claimer };
}

/// A pass is split off the claimer, and at closing joined.
pub(crate) struct Passes;

impl Split<CellView> for Passes {
    ghost use Rattle.counter_cells.specs.InnerSteps.{one_less, new_pass};

    ghost left = { one_less };

    ghost right = { new_pass };
}

impl Join<CellView> for Passes {
    ghost use Rattle.counter_cells.specs.Steps.{empty_view};
    ghost use Rattle.counter_cells.specs.InnerSteps.{joined};

    ghost both = { joined };

    ghost spent = { empty_view };
}

/// The claimer's newest Held answer is split off as a note, and a pass takes it in.
pub(crate) struct HeldNotes;

impl Split<CellView> for HeldNotes {
    ghost use Rattle.counter_cells.specs.InnerSteps.{without_newest, held_note};

    ghost left = { without_newest };

    ghost right = { held_note };
}

impl Join<CellView> for HeldNotes {
    ghost use Rattle.counter_cells.specs.Steps.{empty_view};
    ghost use Rattle.counter_cells.specs.InnerSteps.{told_held};

    ghost both = { told_held };

    ghost spent = { empty_view };
}
