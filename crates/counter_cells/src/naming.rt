ghost use Rattle.atomic_table.specs.Seated.{TableId};

use std::marker::Brand;

/// Says which cells a pass and a claimer belong to: all three have one name in their types, so that a pass is used
/// only with the cells that made it. A program picks the name at one call, by `Brand`.
pub trait CellNaming {
    ghost use Rattle.atomic_table.specs.Seated.{TableId};
    ghost use Rattle.counter_cells.specs.declared.setup.Setup.{Setup};

    ghost table: { TableId };

    ghost setup: { Setup };
}

impl CellNaming for Brand {
    ghost use Rattle.counter_cells.specs.Names.{no_table, no_setup};

    ghost table = { no_table };

    ghost setup = { no_setup };
}
