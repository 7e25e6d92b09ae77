ghost use Rattle.std.specs.Prelude.{◌≡◌, ℕ, ◌+◌, ◌-◌, ◌*◌, ◌≤◌, ◌<◌, ◌++◌, [], IfOk, vec_len, vec_capacity};
ghost use Rattle.rate_types.specs.declared.limits.TheConstants.{LATEST_MOMENT, MOST_CELLS, MOST_PASSES};
ghost use Rattle.counter_cells.specs.WordIndex.{words_of, first_words};
ghost use Rattle.counter_cells.specs.Steps.{claimer_left, fresh_pass, new_passes};
ghost use Rattle.counter_cells.specs.InnerSteps.{first_claimer};

use crate::cells::Cells;
use crate::claimer::CellClaimer;
use crate::naming::CellNaming;
use crate::pass::CellPass;
use crate::rule::{CellSeat, CellTable, Passes};
use crate::setup::Setup;
use crate::word_index;
use atomic_table::Table;
use rate_types::{OutOfMemory, Seconds};
use std::alloc::Global;

/// Cells that have no name yet, with the claimer's seat, from which the passes are split off.
#[derive(Drop)]
pub struct OpenedCells {
    table: CellTable,
    claimer: CellSeat,
    cells: u32,
    passes: u32,
    start: Seconds,
    ghost seat: { (claimer.table_id ≡ table.shared.table_id) × (claimer.me ≡ (first_claimer table.shared.key, [])) },
    ghost setup: { table.shared.key ≡ record { cells = cells; passes = passes; start = start } },
    ghost sizes: { (cells ≤ MOST_CELLS) × (passes ≤ MOST_PASSES) },
    ghost words: { (table.shared.table_id.words ≡ words_of cells) × (table.shared.table_id.slots ≡ 0) },
}

// The clock, and gates and counts of 0.
fn words(alloc: Global, cells: u32, start: Seconds) -> Result<Vec<u64>, OutOfMemory>
    requires { cells ≤ MOST_CELLS }
    ensures words { IfOk result (λ v. v.items ≡ first_words cells start) }
    ensures bound { IfOk result (λ _. start ≤ LATEST_MOMENT) }
{
    let mut words = Vec::new(alloc);
    words.push(start.get())?;
    words.resize(word_index::words(cells), 0)?;
    Ok(words)
}

// The pass with the next number down.
fn split<N: CellNaming>(
    table: &CellTable,
    claimer: &mut CellSeat,
    left: u32,
    start: Seconds,
) -> CellPass<N>
    requires table { (table.now.shared.table_id ≡ N.table) × (table.now.shared.key ≡ N.setup) × (N.table.words ≡ words_of N.setup.cells) }
    requires claimer { (claimer.old.table_id ≡ N.table) × (claimer.old.me ≡ (claimer_left N.setup left, [])) }
    requires left { (1 ≤ left) × (start ≡ N.setup.start) }
    ensures claimer { (claimer.new.table_id ≡ N.table) × (claimer.new.me ≡ (claimer_left N.setup (left - 1), [])) }
    ensures pass { result ≡ fresh_pass (left - 1) start }
{
    let _ = left;
    let seat = table.shared.split_seat::<Passes>(claimer);
    CellPass::new(seat, start)
}

// All passes.
fn split_all<N: CellNaming>(
    alloc: Global,
    table: &CellTable,
    claimer: &mut CellSeat,
    passes: u32,
    start: Seconds,
) -> Result<Vec<CellPass<N>>, OutOfMemory>
    requires table { (table.now.shared.table_id ≡ N.table) × (table.now.shared.key ≡ N.setup) × (N.table.words ≡ words_of N.setup.cells) }
    requires claimer { (claimer.old.table_id ≡ N.table) × (claimer.old.me ≡ (claimer_left N.setup passes, [])) }
    requires start { start ≡ N.setup.start }
    ensures claimer { IfOk result (λ _. (claimer.new.table_id ≡ N.table) × (claimer.new.me ≡ (claimer_left N.setup 0, []))) }
    ensures passes { IfOk result (λ v. v.items ≡ new_passes passes start) }
{
    let mut made = Vec::with_capacity(alloc, passes as usize)?;
    for done in 0..passes {
        let pass = split::<N>(table, claimer, passes - done, start);
        made.push_reserved(pass);
    }
    Ok(made)
}

impl OpenedCells {
    ghost use Rattle.std.specs.Prelude.{◌≡◌, ◌≤◌, [], All, IfOk};
    ghost use Rattle.counter_cells.specs.Steps.{claimer_left, new_passes};
    ghost use Rattle.counter_cells.specs.Opened.{table_of, setup_of};

    /// All cells are closed, were never taken and have the count 0; the clock stands at `start`.
    pub fn make(
        alloc: Global,
        cells: u32,
        passes: u32,
        start: Seconds,
    ) -> Result<OpenedCells, OutOfMemory>
        requires cells { (1 ≤ cells) × (cells ≤ MOST_CELLS) }
        requires passes { (1 ≤ passes) × (passes ≤ MOST_PASSES) }
        ensures { IfOk result (λ o. setup_of o ≡ record { cells = cells; passes = passes; start = start }) }
    {
        let setup = Setup {
            cells,
            passes,
            start,
        };
        let words = words(alloc, cells, start)?;
        let (table, claimer) = Table::of_words(alloc, words.as_slice(), &setup)?;
        Ok(OpenedCells {
            table,
            claimer,
            cells,
            passes,
            start,
        })
    }

    /// The cells under a name, with all their passes and the claimer.
    pub fn with_name<N: CellNaming>(
        self,
        alloc: Global,
    ) -> Result<(Cells<N>, Vec<CellPass<N>>, CellClaimer<N>), OutOfMemory>
        requires name { (table_of self ≡ N.table) × (setup_of self ≡ N.setup) }
        ensures passes { IfOk result (λ r. r.1.items ≡ new_passes N.setup.passes N.setup.start) }
        ensures bare { IfOk result (λ r. All (λ p. p.good ≡ []) r.1.items) }
        ensures claimer { IfOk result (λ r. r.2 ≡ claimer_left N.setup 0) }
    {
        let OpenedCells {
            table,
            mut claimer,
            cells,
            passes,
            start,
        } = self;
        let made = split_all::<N>(alloc, &table, &mut claimer, passes, start)?;
        Ok((
            Cells::new(table, cells),
            made,
            CellClaimer::new(claimer, cells),
        ))
    }
}
