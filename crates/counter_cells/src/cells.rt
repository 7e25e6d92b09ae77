ghost use Rattle.std.specs.Prelude.{◌≡◌, ◌≢◌, ℕ, ◌+◌, ◌*◌, ◌≤◌, ◌<◌, ◌^◌, ◌++◌, length, true, false, []};
ghost use Rattle.rate_types.specs.declared.limits.TheConstants.{LATEST_MOMENT, MOST_CELLS, MOST_CLAIM_NUMBERS, MOST_PINS};
ghost use Rattle.rate_types.specs.Sums.{times};
ghost use Rattle.counter_cells.specs.WordIndex.{words_of};
ghost use Rattle.counter_cells.specs.Views.{most_hits, good_on, good_under, ever_under, small_on, claim_on, cell_or, Capped};
ghost use Rattle.counter_cells.specs.Counting.{OwnShown};
ghost use Rattle.counter_cells.specs.Steps.{ticked, glanced, has_heard, good_pin, missed, unpinned, looked, charged};
ghost use Rattle.counter_cells.specs.Steps.{taken_cell, claimed_by, held_by};
ghost use Rattle.counter_cells.specs.InnerSteps.{pinned, without_newest, newest};
ghost use Rattle.counter_cells.specs.Steps.{reset_by, opened_by};
ghost use Rattle.counter_cells.specs.declared.answers.Pin.TheVariants.{Pinned};
ghost use Rattle.counter_cells.specs.declared.answers.Reclaim.TheVariants.{Claimed};
ghost use Rattle.counter_cells.specs.Answers.{MatchPin, MatchReclaim, IsOther};
ghost use Rattle.counter_cells.specs.Seats.{IsBareSeatOf, IsTaken};

use crate::answers::{Pin, Reclaim, Spot};
use crate::claimer::CellClaimer;
use crate::naming::CellNaming;
use crate::pass::CellPass;
use crate::plays::{
    Asked, Charges, Glances, Hears, Looks, Opens, Peeks, Pins, Reclaims, Resets, Ticks, Unpins,
    UnpinsStray,
};
use crate::rule::{CellSeat, CellTable, HeldNotes};
use crate::{gate, word_index};
use rate_types::Seconds;
use std::marker::{Brand, PhantomData};

mod close;

/// The gates, the counts and the clock. Threads share them by a reference.
#[derive(Drop)]
pub struct Cells<N: CellNaming> {
    pub(crate) table: CellTable,
    pub(crate) count: u32,
    pub(crate) of: PhantomData<N>,
    ghost named: { (table.shared.table_id ≡ N.table) × (table.shared.key ≡ N.setup) },
    ghost size: { (count ≡ N.setup.cells) × (count ≤ MOST_CELLS) },
    ghost words: { (table.shared.table_id.words ≡ words_of count) × (table.shared.table_id.slots ≡ 0) },
}

impl<N: CellNaming> Cells<N> {
    pub(crate) fn new(table: CellTable, count: u32) -> Cells<N>
        requires named { (table.shared.table_id ≡ N.table) × (table.shared.key ≡ N.setup) }
        requires size { (count ≡ N.setup.cells) × (count ≤ MOST_CELLS) }
        requires words { (table.shared.table_id.words ≡ words_of count) × (table.shared.table_id.slots ≡ 0) }
    {
        Cells {
            table,
            count,
            of: PhantomData,
        }
    }

    /// Raises the clock to `now`, where it isn't later already, and answers it: the greater of `now` and the clock.
    pub fn tick(&self, pass: &mut CellPass<N>, now: Seconds) -> Seconds
        ensures ticked { pass.new ≡ ticked result now pass.old }
        ensures greatest { (now ≤ result) × (pass.old.moment ≤ result) }
    {
        let now = now.get();
        let found = self.glance::<Brand>(&mut pass.seat, now);
        if found >= now {
            let moment = Seconds::capped(found);
            pass.moment = moment;
            return moment;
        }
        let words = &self.table.shared;
        let clock = words.fetch_max::<Ticks>(&mut pass.seat, word_index::CLOCK, now);
        let moment = Seconds::capped(clock.max(now));
        pass.moment = moment;
        moment
    }

    // One load of the clock. It is the tick where the clock isn't earlier than `now`.
    fn glance<A: Asked>(&self, seat: &mut CellSeat, now: u64) -> u64
        requires seat { IsBareSeatOf N.table seat.old × (length seat.old.me.0.numbers ≡ 1) }
        requires now { (now ≤ LATEST_MOMENT) × (A.asked ≡ now) }
        ensures seat { IsBareSeatOf N.table seat.new }
        ensures glanced { seat.new.me.0 ≡ glanced result now seat.old.me.0 }
        ensures moment { (seat.old.me.0.moment ≤ result) × (result ≤ LATEST_MOMENT) }
    {
        let words = &self.table.shared;
        words.load::<Glances<A>>(seat, word_index::CLOCK)
    }

    /// The claimer reads the clock. What it heard before is no later.
    pub fn hear(&self, claimer: &mut CellClaimer<N>) -> Seconds
        ensures heard { claimer.new ≡ has_heard result claimer.old }
        ensures later { claimer.old.heard ≤ result }
    {
        let words = &self.table.shared;
        Seconds::capped(words.load::<Hears>(&mut claimer.seat, word_index::CLOCK))
    }

    // The addition of a pin, and the gate's word before it.
    fn take_pin<A: Asked>(&self, seat: &mut CellSeat, spot: Spot) -> u64
        requires seat { IsBareSeatOf N.table seat.old × (length seat.old.me.0.numbers ≡ 1) × (seat.old.me.0.stray ≡ []) }
        requires cell { spot.cell < N.setup.cells }
        requires room { length seat.old.me.0.good < MOST_PINS }
        requires asked { A.asked ≡ spot.claim }
        ensures seat { IsBareSeatOf N.table seat.new }
        ensures pinned { seat.new.me.0 ≡ pinned spot.claim spot.cell result seat.old.me.0 }
        ensures own { OwnShown spot.cell seat.old.me.0 result }
    {
        let words = &self.table.shared;
        words.fetch_add::<Pins<A>>(seat, word_index::gate(spot.cell), gate::PIN)
    }

    /// Pins the cell, where its gate is open under the claim: then it stays so until the pin is given back.
    /// `Other` comes exactly where the addition found the gate closed or with another claim, and shows the gate found.
    /// No pin is held then. All pins of a pass on one cell are under one claim: where it has one, the answer is by
    /// that claim. A closed gate shows no claim under which the pass ever had a pin there.
    pub fn pin(&self, pass: &mut CellPass<N>, spot: Spot) -> Pin
        requires cell { spot.cell < N.setup.cells }
        requires room { length pass.old.good < MOST_PINS }
        ensures pin { MatchPin result (pass.new ≡ good_pin spot.cell spot.claim pass.old)
            (λ claim is_open. (pass.new ≡ missed spot.cell claim is_open pass.old) × IsOther spot.claim claim is_open) }
        ensures held { result ≡ Pinned → 1 ≤ good_on spot.cell pass.new }
        ensures own { (c : ℕ) → 1 ≤ good_under spot.cell c pass.old
            → MatchPin result (c ≡ spot.claim) (λ claim is_open. (claim ≡ c) × (is_open ≡ true)) }
        ensures known { 1 ≤ ever_under spot.cell spot.claim pass.old → MatchPin result (Unit {0}) (λ claim is_open. claim ≢ spot.claim) }
    {
        let word = self.take_pin::<Brand>(&mut pass.seat, spot);
        if gate::shows(word, spot.claim) {
            pass.pins += 1;
            return Pin::Pinned;
        }
        let words = &self.table.shared;
        words.fetch_sub::<UnpinsStray>(&mut pass.seat, word_index::gate(spot.cell), gate::PIN);
        Pin::Other {
            claim: gate::claim_of(word),
            is_open: gate::is_open(word),
        }
    }

    /// Reads the count of a pinned cell. All that the pass knows under the pin's claim is at most what is found. Until
    /// the pass's next charge there, or its last pin there ends, the look is unused and allows one charge.
    pub fn look(&self, pass: &mut CellPass<N>, cell: u32) -> u64
        requires cell { cell < N.setup.cells }
        requires pin { 1 ≤ good_on cell pass.old }
        ensures looked { pass.new ≡ looked cell result pass.old }
        ensures unused { result ≤ most_hits → 1 ≤ small_on cell pass.new }
        ensures capped { Capped (claim_on cell pass.old.good) result pass.old }
    {
        let words = &self.table.shared;
        words.load::<Looks>(&mut pass.seat, word_index::count(cell))
    }

    /// Adds hits to the count of a pinned cell by one atomic addition, and answers the count before. The pass has looked
    /// at the count since its last charge there, and found at most 4,294,967,295.
    /// All that the pass knows under the pin's claim is at most what is found. The count doesn't wrap.
    pub fn charge(&self, pass: &mut CellPass<N>, cell: u32, hits: u32) -> u64
        requires cell { cell < N.setup.cells }
        requires looked { 1 ≤ small_on cell pass.old }
        requires hits { 1 ≤ hits }
        ensures charged { pass.new ≡ charged cell result hits pass.old }
        ensures capped { Capped (claim_on cell pass.old.good) result pass.old }
        ensures sum { result + hits < 2 ^ 64 }
    {
        let words = &self.table.shared;
        words.fetch_add::<Charges>(&mut pass.seat, word_index::count(cell), u64::from(hits))
    }

    /// Gives one pin back.
    pub fn unpin(&self, pass: &mut CellPass<N>, cell: u32)
        requires cell { cell < N.setup.cells }
        requires pin { 1 ≤ good_on cell pass.old }
        ensures unpinned { pass.new ≡ unpinned cell pass.old }
        ensures less { good_on cell pass.old ≡ good_on cell pass.new + 1 }
        ensures others { (j : ℕ) → j ≢ cell
            → (good_on j pass.new ≡ good_on j pass.old) × (claim_on j pass.new.good ≡ claim_on j pass.old.good) }
    {
        let words = &self.table.shared;
        words.fetch_sub::<Unpins>(&mut pass.seat, word_index::gate(cell), gate::PIN);
        pass.pins -= 1;
    }

    /// One try to take the cell under a claim that was never used. `Claimed` leaves the gate closed under it.
    /// `Held` comes exactly where the gate read shows pins.
    pub fn reclaim(&self, claimer: &mut CellClaimer<N>, cell: u32, next: u64) -> Reclaim
        requires cell { cell < N.setup.cells }
        requires next { (next < MOST_CLAIM_NUMBERS) × (times next claimer.old.used_claims ≡ 0) }
        ensures taken { result ≡ Claimed → cell_or claimer.new.cells cell ≡ taken_cell next }
        ensures reclaim { MatchReclaim result (claimer.new ≡ claimed_by cell next claimer.old)
            (λ pins. (claimer.new ≡ held_by cell pins claimer.old) × (1 ≤ pins)) }
    {
        let index = word_index::gate(cell);
        let words = &self.table.shared;
        let word = words.load::<Peeks>(&mut claimer.seat, index);
        let bare = gate::without_pins(word);
        let found = self
            .table
            .shared
            .compare_exchange::<Reclaims>(&mut claimer.seat, index, bare, gate::closed(next));
        if found == bare {
            Reclaim::Claimed
        } else {
            Reclaim::Held {
                pins: gate::pins_of(found),
            }
        }
    }

    /// A reclaim for a pass: where the cell was found pinned, the pass is told of it in place of the claimer.
    pub fn reclaim_for(
        &self,
        claimer: &mut CellClaimer<N>,
        pass: &mut CellPass<N>,
        cell: u32,
        next: u64,
    ) -> Reclaim
        requires cell { cell < N.setup.cells }
        requires next { (next < MOST_CLAIM_NUMBERS) × (times next claimer.old.used_claims ≡ 0) }
        ensures taken { result ≡ Claimed → cell_or claimer.new.cells cell ≡ taken_cell next }
        ensures reclaim { MatchReclaim result ((claimer.new ≡ claimed_by cell next claimer.old) × (pass.new ≡ pass.old))
            (λ pins. (claimer.new ≡ claimer.old) × (pass.new ≡ held_by cell pins pass.old) × (1 ≤ pins)) }
    {
        match self.reclaim(claimer, cell, next) {
            Reclaim::Claimed => Reclaim::Claimed,
            Reclaim::Held { pins } => {
                self.tell_held(claimer, pass);
                Reclaim::Held { pins }
            }
        }
    }

    // The claimer's newest Held answer becomes the pass's.
    fn tell_held(&self, claimer: &mut CellClaimer<N>, pass: &mut CellPass<N>)
        ensures claimer { claimer.new ≡ without_newest claimer.old }
        ensures pass { pass.new ≡ record pass.old { held = pass.old.held ++ newest claimer.old.held } }
    {
        let words = &self.table.shared;
        let note = words.split_seat::<HeldNotes>(&mut claimer.seat);
        words.join_seat::<HeldNotes>(&mut pass.seat, note);
    }

    /// Sets the count of a cell that is taken and not yet open to 0.
    pub fn reset(&self, claimer: &mut CellClaimer<N>, cell: u32)
        requires cell { cell < N.setup.cells }
        requires taken { IsTaken (cell_or claimer.old.cells cell) }
        ensures reset { claimer.new ≡ reset_by cell claimer.old }
        ensures marked { cell_or claimer.new.cells cell ≡ record (cell_or claimer.old.cells cell) { reset = true } }
    {
        let words = &self.table.shared;
        words.store::<Resets>(&mut claimer.seat, word_index::count(cell), 0);
    }

    /// Opens a cell that is taken, not yet open and reset.
    pub fn open_cell(&self, claimer: &mut CellClaimer<N>, cell: u32)
        requires cell { cell < N.setup.cells }
        requires taken { IsTaken (cell_or claimer.old.cells cell) × ((cell_or claimer.old.cells cell).reset ≡ true) }
        ensures opened { claimer.new ≡ opened_by cell claimer.old }
    {
        let words = &self.table.shared;
        words.fetch_or::<Opens>(&mut claimer.seat, word_index::gate(cell), gate::OPEN);
    }
}
