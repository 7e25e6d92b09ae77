ghost use Rattle.std.specs.Prelude.{◌≡◌, ℕ, ◌+◌, ◌≤◌, ◌<◌, ◌==◌, [], length, All, IfOk, vec_len, vec_capacity};
ghost use Rattle.std.specs.List.{AllByRecursion};
ghost use Rattle.atomic_table.specs.Table.{Final, Seen};
ghost use Rattle.rate_types.specs.Ledger.{IsLawfulLedger, IsLawfulSight};
ghost use Rattle.counter_cells.specs.Seats.{IsClaimer, IsBareSeatOf};
ghost use Rattle.counter_cells.specs.Ledgers.{ledger_of, sights_of};
ghost use Rattle.counter_cells.specs.Closing.{ticks_of, CountsAreTotals, TicksAreLawful, AreHeldByPasses};
ghost use Rattle.counter_cells.specs.InnerSteps.{all_joined};

use crate::cells::Cells;
use crate::claimer::CellClaimer;
use crate::closed::{ClosedCells, Counts};
use crate::naming::CellNaming;
use crate::pass::CellPass;
use crate::rule::{CellSeat, CellTable, Passes};
use crate::word_index;
use rate_types::{OutOfMemory, Seconds};
use std::alloc::Global;

// Joins the passes to the claimer.
fn join_passes<N: CellNaming>(table: &CellTable, claimer: &mut CellSeat, passes: Vec<CellPass<N>>)
    requires table { (table.now.shared.table_id ≡ N.table) × (1 ≤ N.table.words) }
    requires claimer { IsBareSeatOf N.table claimer.old × IsClaimer N.setup claimer.old.me.0 }
    requires passes { All (λ p. p.good ≡ []) passes.items }
    ensures seat { IsBareSeatOf N.table claimer.new }
    ensures joined { claimer.new.me.0 ≡ all_joined claimer.old.me.0 passes.items }
    ensures numbers { length claimer.new.me.0.numbers ≡ length passes.items }
{
    for pass in passes {
        table.shared.join_seat::<Passes>(claimer, pass.into_seat());
    }
}

impl<N: CellNaming> Cells<N> {
    /// The clock and the counts at the end, where no given pass holds a pin. Where all passes are given, their charges
    /// are a lawful ledger, in which a claim names a counter, their looks are lawful sights in it, and the count of each
    /// open cell is the sum of the hits under its claim. Each cell that the claimer found pinned was pinned by one of
    /// them, and what the claimer heard of the clock is at most its last moment. With `OutOfMemory` the cells and the passes are given up.
    pub fn close(
        self,
        alloc: Global,
        passes: Vec<CellPass<N>>,
        claimer: CellClaimer<N>,
    ) -> Result<ClosedCells, OutOfMemory>
        requires bare { All (λ p. p.good ≡ []) passes.items }
        ensures length { IfOk result (λ c. length c.counts ≡ N.setup.cells) }
        ensures ledger { length passes.items ≡ N.setup.passes → IfOk result (λ _. IsLawfulLedger ◌==◌ (ledger_of passes.items)) }
        ensures sights { length passes.items ≡ N.setup.passes
            → IfOk result (λ _. AllByRecursion (IsLawfulSight ◌==◌ (ledger_of passes.items)) (sights_of passes.items)) }
        ensures counts { length passes.items ≡ N.setup.passes → IfOk result (λ c. CountsAreTotals c.counts claimer passes.items) }
        ensures ticks { length passes.items ≡ N.setup.passes
            → IfOk result (λ c. TicksAreLawful N.setup.start c.moment (ticks_of passes.items)) }
        ensures held { length passes.items ≡ N.setup.passes → IfOk result (λ _. AreHeldByPasses N.setup.cells claimer passes.items) }
        ensures heard { length passes.items ≡ N.setup.passes → IfOk result (λ c. claimer.heard ≤ c.moment) }
    {
        let mut counts = Vec::with_capacity(alloc, self.count as usize)?;
        let Cells {
            table,
            count,
            of: _,
        } = self;
        let mut seat = claimer.into_seat();
        join_passes(&table, &mut seat, passes);
        let closed = table.close_with(seat);
        for cell in 0..count {
            counts.push_reserved(closed.word(word_index::count(cell)));
        }
        let moment = Seconds::capped(closed.word(word_index::CLOCK));
        closed.free();
        Ok(ClosedCells {
            moment,
            counts: Counts::of(counts),
        })
    }
}
