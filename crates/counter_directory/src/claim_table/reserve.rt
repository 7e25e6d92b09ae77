// How cells are reserved for new claims.
ghost use Rattle.std.specs.Prelude.{◌≡◌, ◌+◌, ◌-◌, ◌≤◌, ◌<◌, [], max, false, length, vec_len, MatchBool};
ghost use Rattle.rate_types.specs.declared.limits.TheConstants.{MOST_PINS};
ghost use Rattle.counter_directory.specs.Keeps.{KeepsClaims};
ghost use Rattle.counter_directory.specs.Gates.{HeldSince};
ghost use Rattle.counter_directory.specs.Acquiring.{HasBeenTold};

use crate::claim_table::ClaimTable;
use counter_cells::{CellNaming, CellPass, Cells, Reclaim};
use std::sync::Wait;

impl<N: CellNaming> ClaimTable<N> {
    /// Tries the last expired cell.
    pub(crate) fn try_expired(&mut self, cells: &Cells<N>, cell_pass: &mut CellPass<N>)
        requires some { 0 < vec_len self.old.pool.expired }
        requires room { vec_len self.old.pool.reserved < MOST_PINS }
        requires next_claim { self.old.pool.next_claim < self.old.pool.most }
        ensures keeps { KeepsClaims self.old.pool self.new.pool }
        ensures same { (self.new.pool.fresh ≡ self.old.pool.fresh) × (self.new.index ≡ self.old.index) }
        ensures less { vec_len self.new.pool.expired + 1 ≡ vec_len self.old.pool.expired }
        ensures one { vec_len self.new.pool.reserved + vec_len self.new.pool.held ≡ vec_len self.old.pool.reserved + vec_len
            self.old.pool.held + 1 }
        ensures none_less { (vec_len self.old.pool.reserved ≤ vec_len self.new.pool.reserved)
            × (vec_len self.old.pool.held ≤ vec_len self.new.pool.held) }
        ensures held { HeldSince cell_pass.old cell_pass.new self.old.pool.held.items self.new.pool.held.items }
        ensures told { HasBeenTold cell_pass.old cell_pass.new }
    {
        let cell = self.pool.expired[self.pool.expired.len() - 1];
        match cells.reclaim_for(&mut self.claimer, cell_pass, cell, self.pool.next_claim) {
            Reclaim::Claimed => self.pool.reserve_expired(),
            Reclaim::Held { pins: _ } => self.pool.hold_expired(),
        }
    }

    /// Tries the first cell that was never taken.
    pub(crate) fn try_fresh(&mut self, cells: &Cells<N>, cell_pass: &mut CellPass<N>)
        requires some { self.old.pool.fresh < self.old.pool.cells }
        requires room { vec_len self.old.pool.reserved < MOST_PINS }
        requires next_claim { self.old.pool.next_claim < self.old.pool.most }
        ensures keeps { KeepsClaims self.old.pool self.new.pool }
        ensures same { (self.new.pool.expired ≡ self.old.pool.expired) × (self.new.pool.held ≡ self.old.pool.held)
            × (self.new.index ≡ self.old.index) }
        ensures lens { (vec_len self.old.pool.reserved ≤ vec_len self.new.pool.reserved)
            × (vec_len self.new.pool.reserved ≤ vec_len self.old.pool.reserved + 1) }
        ensures held { HeldSince cell_pass.old cell_pass.new self.old.pool.held.items self.new.pool.held.items }
        ensures told { HasBeenTold cell_pass.old cell_pass.new }
    {
        match cells.reclaim_for(
            &mut self.claimer,
            cell_pass,
            self.pool.fresh,
            self.pool.next_claim,
        ) {
            Reclaim::Claimed => self.pool.reserve_fresh(),
            Reclaim::Held { pins: _ } => {}
        }
    }

    /// Reserves cells until there are as many as are wanted. The cells that were held are tried last. False where no cell
    /// is left to try; then few are held, each found so in this call.
    pub(crate) fn reserve_cells<R: Wait>(
        &mut self,
        rt: &R,
        cells: &Cells<N>,
        cell_pass: &mut CellPass<N>,
        wanted: usize,
        most_held: usize,
    ) -> bool
        requires few { wanted ≤ MOST_PINS }
        requires claims { length self.old.pool.claims + wanted ≤ self.old.pool.most }
        ensures keeps { KeepsClaims self.old.pool self.new.pool }
        ensures same { self.new.index ≡ self.old.index }
        ensures reserved { MatchBool result ((wanted ≤ vec_len self.new.pool.reserved)
            × (vec_len self.new.pool.reserved ≡ max (vec_len self.old.pool.reserved) wanted))
            ((vec_len self.new.pool.reserved < wanted) × (vec_len self.new.pool.expired ≡ 0) × (self.new.pool.cells ≤ self.new.pool.fresh)
            × (vec_len self.new.pool.held ≤ most_held)) }
        ensures held { result ≡ false → HeldSince cell_pass.old cell_pass.new [] self.new.pool.held.items }
        ensures told { HasBeenTold cell_pass.old cell_pass.new }
    {
        let mut has_tried_held = false;
        for _round in rt.forever() {
            if self.pool.reserved.len() >= wanted {
                return true;
            }
            if !self.pool.expired.is_empty() {
                self.try_expired(cells, cell_pass);
            } else if self.pool.fresh < self.pool.cells {
                self.try_fresh(cells, cell_pass);
            } else if has_tried_held && self.pool.held.len() <= most_held {
                return false;
            } else {
                self.pool.retry_held();
                has_tried_held = true;
            }
        }
        unreachable!()
    }
}
