ghost use Rattle.std.specs.Prelude.{◌≡◌, ◌≤◌, [], length, All, vec_len, vec_capacity};
ghost use Rattle.rate_types.specs.declared.limits.TheConstants.{MOST_CLAIM_NUMBERS, MOST_PASSES};
ghost use Rattle.told_list.specs.Tokens.{list_id, first_value, tokens};

use crate::acquire::Acquire;
use crate::acquired::{AcquireFault, Acquired};
use crate::claim_table::{ClaimTable, KeptTable};
use crate::closed::ClosedDirectory;
use crate::pass::{DirectoryPass, passes_of};
use crate::sought_name::SoughtName;
use counter_cells::{CellClaimer, CellNaming, CellPass, Cells};
use rate_types::OutOfMemory;
use rate_types::limits::MOST_PINS;
use std::alloc::Global;
use std::boxed::Box;
use std::hash::RandomState;
use std::marker::Model;
use std::sync::Wait;
use told_list::Told;

/// The claims on the cells with the name `N`, behind their lock. Contracts see it as a `DirectoryView`.
#[derive(Drop)]
pub struct Directory<N: CellNaming> {
    told: Told<KeptTable<N>>,
    passes: u32,
}

impl<N: CellNaming> Model for Directory<N> {
    ghost use Rattle.rate_types.specs.declared.limits.TheConstants.{MOST_PASSES};
    ghost use Rattle.std.specs.Prelude.{◌≡◌, ◌≤◌, []};
    ghost use Rattle.told_list.specs.Tokens.{list_id, first_value, tokens};
    ghost use Rattle.counter_directory.specs.Turns.{DirectoryView};

    ghost Value = { DirectoryView };

    ghost view = { λ d. record {
      list_id = list_id d.told;
      passes = tokens d.told;
      claims_max = (first_value d.told).table.value.pool.most;
    } };

    ghost invariant = { λ d. (d.passes ≡ tokens d.told) × (1 ≤ d.passes) × (d.passes ≤ MOST_PASSES)
        × ((first_value d.told).table.value.pool.claims ≡ []) };
}

impl<N: CellNaming> Directory<N> {
    ghost use Rattle.std.specs.Prelude.{◌≡◌, ◌-◌, ◌*◌, ◌≤◌, ◌<◌, ◌^◌, ℕ, [], length, All, IfOk, OnOk, OnErr, vec_len};
    ghost use Rattle.counter_cells.specs.Views.{good_on};
    ghost use mathlib.Core.List.{IsPrefix};
    ghost use Rattle.rate_types.specs.Sums.{total, times};
    ghost use Rattle.told_list.specs.Lists.{IsOwnedOnce};
    ghost use Rattle.counter_directory.specs.Passes.{list_of, knows, IsFresh};
    ghost use Rattle.counter_directory.specs.Claims.{IsLawfulClaims};
    ghost use Rattle.counter_directory.specs.Gates.{AreOpen};
    ghost use Rattle.counter_directory.specs.Spots.{spots_on};
    ghost use Rattle.counter_directory.specs.Turns.{Turned};
    ghost use Rattle.counter_directory.specs.Answered.{answered};

    /// No claims yet on the claimer's cells, at most `claims_max` of them, 1 to 2^40, and as many passes as the cells have.
    /// The claimer has taken no cell yet. The hashes of the index go by `seed`, so that nobody can choose names that collide.
    pub fn make(
        alloc: Global,
        claimer: CellClaimer<N>,
        claims_max: u64,
        passes: u32,
        seed: RandomState,
    ) -> Result<(Directory<N>, Vec<DirectoryPass<N>>), OutOfMemory>
        requires claimer { claimer.used_claims ≡ [] }
        requires claims_max { (1 ≤ claims_max) × (claims_max ≤ MOST_CLAIM_NUMBERS) }
        requires passes { (1 ≤ passes) × (passes ≤ MOST_PASSES) × (passes ≡ N.setup.passes) }
        ensures directory { IfOk result (λ r. (r.0.passes ≡ passes) × (r.0.claims_max ≡ claims_max)) }
        ensures count { IfOk result (λ r. vec_len r.1 ≡ passes) }
        ensures passes { IfOk result (λ r. All (λ p. (list_of p ≡ r.0.list_id) × IsFresh (knows p)) r.1.items) }
    {
        let table = ClaimTable::make(alloc, claimer, claims_max, seed)?;
        let kept = KeptTable {
            table: Box::new(alloc, table)?,
        };
        let (told, tokens) = Told::make(alloc, kept, passes)?;
        let made = passes_of(alloc, tokens)?;
        Ok((Directory { told, passes }, made))
    }

    /// Pins with `cell_pass`, for each name in order, the cell of its counter in the window of a moment, which becomes
    /// that of the cell pass and isn't earlier than that of the last claim. A counter without a claim gets one. That moment
    /// and the spots of the pins are written to `acquired`; what it held before is dropped. The cell pass holds no pin
    /// before, and after a refusal. It may wait for other calls on this directory.
    pub fn acquire<R: Wait>(
        &self,
        rt: &R,
        pass: &mut DirectoryPass<N>,
        cells: &Cells<N>,
        cell_pass: &mut CellPass<N>,
        names: &[SoughtName<'_>],
        acquired: &mut Acquired,
    ) -> Result<(), AcquireFault>
        requires pass { list_of pass.old ≡ self.now.list_id }
        requires cell_pass { cell_pass.old.good ≡ [] }
        requires names { (1 ≤ length names.now) × (length names.now ≤ MOST_PINS) }
        ensures pass { list_of pass.new ≡ self.now.list_id }
        ensures within { OnOk result (All (λ s. s.cell < N.setup.cells) acquired.new.spots.items) }
        ensures pins { OnOk result ((cell : ℕ) → good_on cell cell_pass.new ≡ spots_on cell acquired.new.spots.items) }
        ensures none { OnErr result (cell_pass.new.good ≡ []) }
        ensures turn { Turned (record { cells = N.setup.cells; claims = self.now.claims_max; held = MOST_PINS * (self.now.passes - 1) })
            names.now cell_pass.old (answered result acquired.new) cell_pass.new (knows pass.old) (knows pass.new) }
    {
        let most_held = MOST_PINS as usize * (self.passes as usize - 1);
        let mut act = Acquire {
            rt,
            cells,
            cell_pass,
            names,
            most_held,
            acquired,
        };
        self.told.with(rt, &mut pass.seen, &mut act)
    }

    /// The claims and the claimer, for which all passes are given back. What each pass knew is a prefix of the claims,
    /// and each claim was made by the call of exactly one of them. It waits for nobody.
    pub fn close(self, passes: Vec<DirectoryPass<N>>) -> ClosedDirectory<N>
        requires passes { All (λ p. list_of p ≡ self.list_id) passes.items }
        requires every { vec_len passes ≡ self.passes }
        ensures lawful { IsLawfulClaims N.setup.cells self.claims_max result.claims }
        ensures open { AreOpen result.claimer result.last result.claims }
        ensures last { result.last ≤ result.claimer.heard }
        ensures prefixes { All (λ p. IsPrefix (knows p).known result.claims) passes.items }
        ensures owned { (n : ℕ) → IsOwnedOnce 0 (length result.claims) n (total (λ p. times n (knows p).own) passes.items) }
    {
        let Directory { told, passes: _ } = self;
        let KeptTable { table } = told.close(passes);
        let ClaimTable {
            pool,
            index,
            claimer,
        } = Box::into_inner(table);
        ClosedDirectory {
            claims: pool.claims,
            claimer,
            last: pool.last,
            index,
        }
    }
}
