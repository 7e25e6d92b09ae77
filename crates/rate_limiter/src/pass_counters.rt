ghost use Rattle.std.specs.Prelude.{◌≡◌};

use crate::known_counters::KnownCounters;
use arrayvec::ArrayVec;
use counter_cells::{CellNaming, CellPass, Cells, Pin, Spot};
use counter_directory::{DirectoryPass, SoughtName, give_back};
use over_cache::Known;
use rate_types::{Descriptor, OutOfMemory, Request, Seconds, Unit};
use std::marker::Model;

/// What a pass has of the counters: what it knows of their claims, its right to pin their cells, what it knows of them, and how often
/// it has looked. What it knows is always bound by the claims and was seen on the cells. Contracts see it as a `CountersView`.
#[derive(Drop)]
pub(crate) struct PassCounters<N: CellNaming> {
    pub(crate) claims: DirectoryPass<N>,
    pub(crate) cells: CellPass<N>,
    pub(crate) known: KnownCounters,
    pub(crate) looks: u64,
}

impl<N: CellNaming> Model for PassCounters<N> {
    ghost use Rattle.counter_directory.specs.Passes.{knows};
    ghost use Rattle.rate_limiter.specs.Counters.{CountersView, IsConsistent};

    ghost Value = { CountersView };

    ghost view = { λ p. record { claims = p.claims; cells = p.cells; known = p.known } };

    ghost invariant = { λ p. IsConsistent N.setup.cells (knows p.claims).known p.cells p.known p.looks };
}

impl<N: CellNaming> PassCounters<N> {
    ghost use Rattle.std.specs.Prelude.{◌≡◌, ◌≤◌, ◌<◌, ◌+◌, [], length, IsOk, OnOk, OnErr, IfErr, IfSome};
    ghost use Rattle.rate_types.specs.declared.limits.TheConstants.{MOST_PINS};
    ghost use Rattle.window_keys.specs.Counter.{counter_of};
    ghost use Rattle.counter_cells.specs.Steps.{ticked};
    ghost use Rattle.counter_cells.specs.declared.answers.Spot.{Spot as SpotValue};
    ghost use Rattle.counter_directory.specs.Passes.{knows};
    ghost use Rattle.counter_directory.specs.Spots.{LeavesAllButPins};
    ghost use Rattle.over_cache.specs.Entries.{known_of, asked, noted};
    ghost use Rattle.counter_directory.specs.Keys.{key_at};
    ghost use Rattle.rate_limiter.specs.Asked.{IsThere};
    ghost use Rattle.rate_limiter.specs.Counters.{IsPinned, Holds};
    ghost use Rattle.rate_limiter.specs.Known.{key_of, HasMissed, PinsGrow};
    ghost use Rattle.rate_limiter.specs.Pinned.{SameButPins};
    ghost use Rattle.rate_limiter.specs.Sought.{SameKnown, IsOwnSpot};
    ghost use Rattle.rate_limiter.specs.Values.{looks_counted};

    /// Nothing is known, and nothing was looked at.
    pub(crate) fn new(
        claims: DirectoryPass<N>,
        cells: CellPass<N>,
        known: KnownCounters,
    ) -> PassCounters<N>
        requires bare { cells.looks ≡ [] }
        requires claims { (knows claims).known ≡ [] }
        requires known { known ≡ [] }
        ensures { result ≡ record { claims = claims; cells = cells; known = [] } }
    {
        PassCounters {
            claims,
            cells,
            known,
            looks: 0,
        }
    }

    /// The moment that the last tick answered, or at first the clock's start.
    pub(crate) fn moment(&self) -> Seconds
        ensures { result ≡ self.now.cells.moment }
    {
        self.cells.moment()
    }

    /// How many looks at counts were made. The count stops at the greatest u64.
    pub(crate) fn looks(&self) -> u64
        ensures { result ≡ looks_counted self.now.cells }
    {
        self.looks
    }

    /// Offers a moment to the clock, and answers its moment.
    pub(crate) fn tick(&mut self, cells: &Cells<N>, now: Seconds) -> Seconds
        ensures ticked { self.new ≡ record self.old { cells = ticked result now self.old.cells } }
        ensures greatest { (now ≤ result) × (self.old.cells.moment ≤ result) }
    {
        cells.tick(&mut self.cells, now)
    }

    /// What is known of the descriptor's counter under a unit, in the window of the moment.
    pub(crate) fn find(
        &mut self,
        request: &Request,
        descriptor: &Descriptor,
        unit: Unit,
    ) -> Option<Known>
        ensures rest { self.new ≡ record self.old { known = self.new.known } }
        ensures same { SameKnown self.old.known self.new.known }
        ensures found { result
            ≡ known_of (key_of (counter_of request.now.domain descriptor.now unit self.old.cells.moment)) self.old.known }
        ensures order { self.new.known
            ≡ asked (key_of (counter_of request.now.domain descriptor.now unit self.old.cells.moment)) self.old.known }
        ensures own { IfSome result (λ k. IsOwnSpot N.setup.cells self.old.claims.claims.known self.old.cells.pairs
            (counter_of request.now.domain descriptor.now unit self.old.cells.moment) k.spot) }
    {
        let moment = self.cells.moment();
        self.known
            .find(request.domain(), &descriptor.entries, unit, moment)
    }

    /// Notes the spot of the counter of a name, in the window of the moment, so that it is known then.
    pub(crate) fn note(&mut self, name: &SoughtName<'_>, spot: Spot) -> Result<(), OutOfMemory>
        requires own { IsOwnSpot N.setup.cells self.old.claims.claims.known self.old.cells.pairs
            (key_at self.old.cells.moment name.now) spot }
        ensures rest { self.new ≡ record self.old { known = self.new.known } }
        ensures noted { OnOk result
            (self.new.known ≡ noted (key_of (key_at self.old.cells.moment name.now)) spot 0 self.old.known) }
        ensures refused { OnErr result (self.new.known ≡ self.old.known) }
    {
        let moment = self.cells.moment();
        self.known
            .note(name.domain(), name.entries(), name.unit(), moment, spot)
    }

    /// Pins a spot and adds it to those that are held. Or the claim under which the pin found the cell.
    pub(crate) fn pin(
        &mut self,
        cells: &Cells<N>,
        spot: Spot,
        held: &mut ArrayVec<Spot, 32>,
    ) -> Result<(), u64>
        requires there { IsThere N.setup.cells self.old.cells.pairs spot }
        requires room { length held.old.items < MOST_PINS }
        requires count { length self.old.cells.good ≡ length held.old.items }
        requires holds { Holds N.setup.cells held.old.items self.old.cells }
        ensures rest { self.new ≡ record self.old { cells = self.new.cells } }
        ensures same { SameButPins self.old.cells self.new.cells }
        ensures pins { PinsGrow self.old.cells.pairs self.new.cells.pairs }
        ensures holds { Holds N.setup.cells held.new.items self.new.cells }
        ensures count { length self.new.cells.good ≡ length held.new.items }
        ensures few { length held.new.items ≤ length held.old.items + 1 }
        ensures pinned { IsOk result → IsPinned self.new.cells spot }
        ensures others { IsOk result → self.new.cells.others ≡ self.old.cells.others }
        ensures still { (s : SpotValue) → IsPinned self.old.cells s → IsPinned self.new.cells s }
        ensures missed { IfErr result (λ claim. HasMissed spot claim self.old.cells self.new.cells) }
    {
        match cells.pin(&mut self.cells, spot) {
            Pin::Pinned => {
                held.push(spot);
                return Ok(());
            }
            Pin::Other { claim, .. } => return Err(claim),
        }
    }

    /// Gives back all pins, which are those that are held.
    pub(crate) fn give_back(&mut self, cells: &Cells<N>, held: &[Spot])
        requires holds { Holds N.setup.cells held.now self.old.cells }
        ensures rest { self.new ≡ record self.old { cells = self.new.cells } }
        ensures left { LeavesAllButPins self.old.cells self.new.cells }
        ensures bare { self.new.cells.good ≡ [] }
    {
        give_back(cells, &mut self.cells, held);
    }
}
