// How counters get claims.
ghost use Rattle.std.specs.Prelude.{◌≡◌, ◌+◌, ◌-◌, ◌≤◌, ◌<◌, ℕ, [], vec_len, OnOk, IfOk, length, take};
ghost use Rattle.rate_types.specs.declared.limits.TheConstants.{MOST_PINS};
ghost use Rattle.rate_types.specs.declared.counter_key.CounterKey.{CounterKey as CounterValue};
ghost use Rattle.rate_types.specs.Units.{unit_rank};
ghost use Rattle.window_keys.specs.Counter.{window_end_of};
ghost use Rattle.counter_directory.specs.Claims.{claims_of};
ghost use Rattle.counter_directory.specs.Pool.{BindsLast};
ghost use Rattle.counter_directory.specs.Windows.{ExpiredBelow, FitsRing, KeepsFits, RingsFit};
ghost use Rattle.counter_directory.specs.Index.{HaveRoom};
ghost use Rattle.counter_directory.specs.Keys.{key_at, keys_at, key_count, IsMissing, AddsEach};
ghost use Rattle.counter_directory.specs.Spots.{Bound};
ghost use Rattle.counter_directory.specs.Acquired.{Grows};
ghost use Rattle.counter_directory.specs.Acquiring.{Binds, HasBeenTold, IsUnclaimedAt, IsBoundAt};

use crate::acquired::AcquireFault;
use crate::claim_table::ClaimTable;
use crate::keys::key_at;
use crate::sought_name::SoughtName;
use crate::unit_index::{make_room, turn_all};
use arrayvec::ArrayVec;
use counter_cells::{CellNaming, CellPass, Cells, Spot};
use rate_types::{CounterName, OutOfMemory, Seconds};
use std::sync::Wait;

impl<N: CellNaming> ClaimTable<N> {
    /// Raises the moment.
    pub(crate) fn expire(&mut self, moment: Seconds) -> Result<(), OutOfMemory>
        requires { (self.old.pool.last ≤ moment) × (moment ≤ self.old.claimer.heard) }
        ensures same { (self.new.pool.claims ≡ self.old.pool.claims) × (self.new.pool.reserved ≡ self.old.pool.reserved)
            × (self.new.pool.most ≡ self.old.pool.most) × (self.new.claimer ≡ self.old.claimer) }
        ensures last { self.new.pool.last ≡ moment }
        ensures expired { OnOk result (ExpiredBelow 4 moment self.new.pool.rings.items) }
    {
        turn_all(&mut self.index, moment);
        self.pool.expire(moment)
    }

    /// Room for as many new counters.
    pub(crate) fn make_room(&mut self, wanted: usize) -> Result<(), OutOfMemory>
        ensures same { (self.new.pool ≡ self.old.pool) × (self.new.claimer ≡ self.old.claimer) }
        ensures room { OnOk result (HaveRoom wanted self.new.index.items) }
    {
        make_room(&mut self.index, wanted)
    }

    /// Binds the counter of the name, in the window of the last moment, to the cell that was reserved last, and opens it.
    pub(crate) fn bind_reserved(&mut self, cells: &Cells<N>, name: CounterName)
        requires reserved { 0 < vec_len self.old.pool.reserved }
        requires room { HaveRoom 1 self.old.index.items }
        requires counter { claims_of (key_at self.old.pool.last name) self.old.pool.claims ≡ 0 }
        requires ring { FitsRing (unit_rank name.unit) (window_end_of (key_at self.old.pool.last name)) self.old.pool.rings.items }
        ensures claims { BindsLast self.old.pool.reserved.items self.new.pool.reserved.items self.old.pool.claims
            self.new.pool.claims (key_at self.old.pool.last name) self.old.pool.last }
        ensures rings { KeepsFits (unit_rank name.unit) (window_end_of (key_at self.old.pool.last name)) self.old.pool.rings.items
            self.new.pool.rings.items }
        ensures reserved { vec_len self.new.pool.reserved + 1 ≡ vec_len self.old.pool.reserved }
        ensures room { (n : ℕ) → HaveRoom (n + 1) self.old.index.items → HaveRoom n self.new.index.items }
        ensures same { (self.new.pool.last ≡ self.old.pool.last) × (self.new.pool.most ≡ self.old.pool.most) }
    {
        let spot = self.pool.reserved[self.pool.reserved.len() - 1];
        cells.reset(&mut self.claimer, spot.cell);
        cells.open_cell(&mut self.claimer, spot.cell);
        let unit = usize::from(name.unit.rank());
        let key = key_at(name, self.pool.last);
        let name = self.pool.bind_reserved(key);
        let _ = self.index[unit].spots.insert(name, spot);
    }

    /// Binds the counter of each of the names to a reserved cell. The answer is where the first of them is bound.
    pub(crate) fn bind_all(&mut self, cells: &Cells<N>, missing: Vec<CounterName>) -> Spot
        requires some { 1 ≤ vec_len missing }
        requires reserved { vec_len missing ≤ vec_len self.old.pool.reserved }
        requires room { HaveRoom (vec_len missing) self.old.index.items }
        requires rings { RingsFit self.old.pool.last self.old.pool.rings.items }
        requires new { (q : CounterValue) → (key_count q (keys_at self.old.pool.last missing.items) ≤ 1)
            × (1 ≤ key_count q (keys_at self.old.pool.last missing.items) → claims_of q self.old.pool.claims ≡ 0) }
        ensures adds { AddsEach self.old.pool.claims (keys_at self.old.pool.last missing.items) self.new.pool.claims }
        ensures grows { Grows self.old.pool.last self.old.pool.claims self.new.pool.claims }
        ensures lens { (length self.new.pool.claims ≡ length self.old.pool.claims + vec_len missing)
            × (vec_len self.new.pool.reserved + vec_len missing ≡ vec_len self.old.pool.reserved) }
        ensures same { (self.new.pool.last ≡ self.old.pool.last) × (self.new.pool.most ≡ self.old.pool.most) }
        ensures first { IsBoundAt 0 (keys_at self.old.pool.last missing.items) self.new.pool.claims result }
    {
        let first = self.pool.reserved[self.pool.reserved.len() - 1];
        for name in missing {
            self.bind_reserved(cells, name);
        }
        first
    }

    // Binds the counters of the names that have no claim, of which the first stands at the place `first`, or says why not.
    // The answer is where that one is bound.
    fn bind_missing<R: Wait>(
        &mut self,
        rt: &R,
        cells: &Cells<N>,
        cell_pass: &mut CellPass<N>,
        names: &[SoughtName<'_>],
        first: usize,
        most_held: usize,
    ) -> Result<Spot, AcquireFault>
        requires names { length names.now ≤ MOST_PINS }
        requires first { IsUnclaimedAt first (keys_at self.old.pool.last names.now) self.old.pool.claims }
        requires before { IsMissing self.old.pool.claims (take first (keys_at self.old.pool.last names.now)) [] }
        requires expired { ExpiredBelow 4 self.old.pool.last self.old.pool.rings.items }
        ensures same { (self.new.pool.last ≡ self.old.pool.last) × (self.new.pool.most ≡ self.old.pool.most) }
        ensures did { Binds (record { cells = N.setup.cells; claims = self.old.pool.most; held = most_held }) self.old.pool.last
            (keys_at self.old.pool.last names.now) (record { used = length self.old.claimer.used_claims; claims = self.old.pool.claims })
            result (record { used = length self.new.claimer.used_claims; claims = self.new.pool.claims }) cell_pass.old cell_pass.new }
        ensures told { HasBeenTold cell_pass.old cell_pass.new }
        ensures first { IfOk result (IsBoundAt first (keys_at self.old.pool.last names.now) self.new.pool.claims) }
    {
        let alloc = *self.index.allocator();
        let Ok(missing) = self.missing(alloc, names, first) else {
            return Err(AcquireFault::OutOfMemory);
        };
        let wanted = missing.len() as u32;
        let claims = self.pool.claims_made();
        if claims + u64::from(wanted) > self.pool.most {
            return Err(AcquireFault::ClaimsSpent { claims, wanted });
        }
        if self.make_room(missing.len()).is_err() {
            return Err(AcquireFault::OutOfMemory);
        }
        if !self.reserve_cells(rt, cells, cell_pass, missing.len(), most_held) {
            return Err(AcquireFault::CountersFull {
                moment: self.pool.last,
                live: self.pool.live(),
                held: self.pool.held.len() as u32,
                wanted,
            });
        }
        Ok(self.bind_all(cells, missing))
    }

    /// Finds where the counters of the names are bound, in order, and binds those that have no claim, or says why not.
    pub(crate) fn bind<R: Wait>(
        &mut self,
        rt: &R,
        cells: &Cells<N>,
        cell_pass: &mut CellPass<N>,
        names: &[SoughtName<'_>],
        most_held: usize,
        spots: &mut ArrayVec<Spot, 32>,
    ) -> Result<(), AcquireFault>
        requires names { length names.now ≤ MOST_PINS }
        requires expired { ExpiredBelow 4 self.old.pool.last self.old.pool.rings.items }
        ensures same { (self.new.pool.last ≡ self.old.pool.last) × (self.new.pool.most ≡ self.old.pool.most) }
        ensures did { Binds (record { cells = N.setup.cells; claims = self.old.pool.most; held = most_held }) self.old.pool.last
            (keys_at self.old.pool.last names.now) (record { used = length self.old.claimer.used_claims; claims = self.old.pool.claims })
            result (record { used = length self.new.claimer.used_claims; claims = self.new.pool.claims }) cell_pass.old cell_pass.new }
        ensures told { HasBeenTold cell_pass.old cell_pass.new }
        ensures spots { OnOk result ((length spots.new.items ≡ length names.now)
            × Bound self.new.pool.claims (keys_at self.new.pool.last names.now) spots.new.items) }
    {
        spots.clear();
        if self.find_rest(names, spots) {
            return Ok(());
        }
        let first = self.bind_missing(rt, cells, cell_pass, names, spots.len(), most_held)?;
        spots.push(first);
        if !self.find_rest(names, spots) {
            unreachable!()
        }
        Ok(())
    }
}
