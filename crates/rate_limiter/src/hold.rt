// The counters of a check are pinned without a turn at the directory, where the pass knows them and their cells are theirs still.
ghost use Rattle.std.specs.Prelude.{◌≡◌, ◌≤◌, [], length, IsOk, OnOk, OnErr, IfErr, false};
ghost use Rattle.std.specs.List.{list_any};
ghost use Rattle.rate_types.specs.declared.limits.TheConstants.{MOST_DESCRIPTORS};
ghost use Rattle.rate_limiter.specs.Asked.{is_to_count, IsFirstMissing, NoneMissing, AreThere, ArePinned, AreHeld, HasMissedAt, IsNotHeld};
ghost use Rattle.rate_limiter.specs.Counters.{Holds};
ghost use Rattle.rate_limiter.specs.Known.{PinsGrow};
ghost use Rattle.rate_limiter.specs.Pinned.{SameButPins};

use crate::Limiter;
use crate::asked::{Asked, is_missing, is_to_count};
use crate::emptied::empty;
use crate::missed::Missed;
use crate::pass_counters::PassCounters;
use crate::plan::ask_each;
use crate::scratch::Scratch;
use arrayvec::ArrayVec;
use counter_cells::{CellNaming, Cells, Spot};
use counter_directory::AcquireFault;
use rate_types::Request;
use std::alloc::Global;
use std::sync::Wait;

// The first place whose counter isn't known.
fn first_missing(asked: &[Asked]) -> Option<u32>
    requires few { length asked.now ≤ MOST_DESCRIPTORS }
    ensures { IsFirstMissing asked.now result }
{
    'asked: for place in 0..asked.len() {
        if is_missing(&asked[place]) {
            return Some(place as u32);
        }
    }
    None
}

// Whether something is to be counted for any of them.
fn any_to_count(asked: &[Asked]) -> bool
    ensures { result ≡ list_any (λ a. is_to_count a.found a.hits a.known) asked.now }
{
    asked.iter().any(is_to_count)
}

// Pins the spot of each counter that is known. Where one misses, those before it are given back.
fn pin_each<N: CellNaming>(
    cells: &Cells<N>,
    counters: &mut PassCounters<N>,
    asked: &[Asked],
    held: &mut ArrayVec<Spot, 32>,
) -> Result<(), Missed>
    requires bare { counters.old.cells.good ≡ [] }
    requires few { length asked.now ≤ MOST_DESCRIPTORS }
    requires known { NoneMissing (length asked.now) asked.now }
    requires there { AreThere N.setup.cells counters.old.cells.pairs asked.now }
    ensures rest { counters.new ≡ record counters.old { cells = counters.new.cells } }
    ensures same { SameButPins counters.old.cells counters.new.cells }
    ensures pins { PinsGrow counters.old.cells.pairs counters.new.cells.pairs }
    ensures holds { OnOk result (Holds N.setup.cells held.new.items counters.new.cells) }
    ensures pinned { OnOk result (ArePinned (length asked.now) asked.now counters.new.cells) }
    ensures bare { OnErr result (counters.new.cells.good ≡ []) }
    ensures missed { IfErr result (λ m. IsNotHeld asked.now m counters.old.cells counters.new.cells) }
{
    empty(held);
    'asked: for place in 0..asked.len() {
        let Some(known) = asked[place].known else {
            continue;
        };
        if let Err(claim) = counters.pin(cells, known.spot, held) {
            counters.give_back(cells, held.as_slice());
            return Err(Missed::Reclaimed {
                place: place as u32,
                claim,
            });
        }
    }
    Ok(())
}

/// Pins the counters of all descriptors that have a limit, where the pass knows each and its cell is the counter's still: then `held`
/// has where. Where nothing is to be counted for any, no cell is asked for. Where a counter isn't known, or a cell isn't the counter's any
/// more, nothing is pinned; a counter that isn't known comes first.
pub(crate) fn hold_known<N: CellNaming>(
    cells: &Cells<N>,
    counters: &mut PassCounters<N>,
    asked: &[Asked],
    held: &mut ArrayVec<Spot, 32>,
) -> Result<(), Missed>
    requires bare { counters.old.cells.good ≡ [] }
    requires few { length asked.now ≤ MOST_DESCRIPTORS }
    requires there { AreThere N.setup.cells counters.old.cells.pairs asked.now }
    ensures rest { counters.new ≡ record counters.old { cells = counters.new.cells } }
    ensures same { SameButPins counters.old.cells counters.new.cells }
    ensures pins { PinsGrow counters.old.cells.pairs counters.new.cells.pairs }
    ensures held { OnOk result (AreHeld N.setup.cells asked.now held.new.items counters.new.cells) }
    ensures bare { OnErr result (counters.new.cells.good ≡ []) }
    ensures missed { IfErr result (λ m. IsNotHeld asked.now m counters.old.cells counters.new.cells) }
    ensures over { NoneMissing (length asked.now) asked.now → list_any (λ a. is_to_count a.found a.hits a.known) asked.now ≡ false
        → IsOk result × (counters.new ≡ counters.old) }
{
    empty(held);
    if let Some(place) = first_missing(asked) {
        return Err(Missed::Unknown { place });
    }
    if !any_to_count(asked) {
        return Ok(());
    }
    pin_each(cells, counters, asked, held)
}

impl<N: CellNaming> Limiter<N> {
    ghost use Rattle.std.specs.Prelude.{◌≡◌, [], length, IsOk, OnOk, IfErr};
    ghost use Rattle.rate_limiter.specs.Asked.{AreAsked, founds};
    ghost use Rattle.rate_limiter.specs.Names.{names_under, name_keys};
    ghost use Rattle.rate_limiter.specs.Passes.{bounds_of};
    ghost use Rattle.rate_limiter.specs.Pinned.{HasHeld, HasNoPins};
    ghost use Rattle.rate_limiter.specs.Sought.{KnowsUnder, AreKnownOver};
    ghost use Rattle.rate_limiter.specs.Used.{HasUsed};

    /// Pins the counters of all descriptors that have a limit: without a turn at the directory where the pass knows each and its cell is
    /// the counter's still; else by the directory, so that the pass knows each then. Nothing is pinned where what the pass has seen leaves
    /// nothing to count.
    pub(crate) fn hold<R: Wait>(
        &self,
        rt: &R,
        alloc: Global,
        counters: &mut PassCounters<N>,
        request: &Request,
        scratch: &mut Scratch,
    ) -> Result<(), AcquireFault>
        requires pass { counters.old.claims.list_id ≡ self.now.id.claims }
        requires bare { counters.old.cells.good ≡ [] }
        requires rules { scratch.old.rules.items ≡ founds scratch.old.asked.items }
        requires asked { AreAsked N.setup.cells request.now counters.old scratch.old.asked.items }
        ensures pass { counters.new.claims.list_id ≡ self.now.id.claims }
        ensures held { OnOk result (HasHeld N.setup.cells request.now (founds scratch.old.asked.items) scratch.new.asked.items
            scratch.new.acquired.spots.items counters.old counters.new) }
        ensures refused { IfErr result (λ f. HasNoPins (bounds_of N.setup.cells self.now)
            (names_under request.now request.now.descriptors (founds scratch.old.asked.items)) f counters.old.cells counters.new.cells
            counters.old.claims.claims counters.new.claims.claims) }
        ensures uses { HasUsed [] (name_keys counters.new.cells.moment
            (names_under request.now request.now.descriptors (founds scratch.old.asked.items))) counters.old.known counters.new.known }
        ensures turns { KnowsUnder (length request.now.descriptors) request.now counters.old.cells.moment counters.old.known
            request.now.descriptors (founds scratch.old.asked.items) → counters.new.cells.others ≡ counters.old.cells.others
            → counters.new.claims.claims ≡ counters.old.claims.claims }
        ensures over { AreKnownOver request.now counters.old.cells.moment counters.old.known request.now.descriptors
            (founds scratch.old.asked.items) → IsOk result × (counters.new.cells ≡ counters.old.cells) }
    {
        let asked = scratch.asked.as_slice();
        if let Ok(()) = hold_known(&self.cells, counters, asked, &mut scratch.acquired.spots) {
            return Ok(());
        }
        let rules = scratch.rules.as_slice();
        match self.acquire(rt, alloc, counters, request, rules, &mut scratch.acquired) {
            Err(fault) => Err(fault),
            Ok(()) => {
                ask_each(counters, request, rules, &mut scratch.asked);
                Ok(())
            }
        }
    }
}
