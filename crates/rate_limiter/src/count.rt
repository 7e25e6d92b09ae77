// Counting on one pinned cell, and noting what was seen there.
ghost use Rattle.std.specs.Prelude.{◌≡◌, ◌≤◌, ◌<◌, ◌⊎◌, ◌^◌, false, true};
ghost use Rattle.window_keys.specs.Counter.{counter_of};
ghost use Rattle.counter_cells.specs.Views.{good_on};
ghost use Rattle.rate_limiter.specs.Asked.{is_over};
ghost use Rattle.rate_limiter.specs.Counted.{CountedAt, HasRaised, value_of};
ghost use Rattle.rate_limiter.specs.Known.{key_of};
ghost use Rattle.rls_core.specs.declared.status.Count.TheVariants.{Seen};
ghost use Rattle.rate_limiter.specs.Values.{HasSeen, looks_counted};

use crate::asked::{Asked, is_over};
use crate::known_counters::KnownCounters;
use crate::pass_counters::PassCounters;
use counter_cells::{CellNaming, CellPass, Cells, Spot};
use over_cache::Known;
use rate_types::{Descriptor, Request, Seconds, Unit};
use rls_core::{Count, Status, status_for};
use rule_lookup::Found;

/// What came of one descriptor.
#[derive(Clone, Copy)]
pub(crate) struct Answered {
    pub status: Status,
    /// Whether the value of its counter was to be noted.
    pub is_noted: bool,
}

// Counts on a cell. Where there are hits and the pass has seen the counter above the limit, that is the answer. Else the cell is pinned:
// it looks, and charges where it finds at most the limit and there are hits.
fn count_at<N: CellNaming>(
    cells: &Cells<N>,
    pass: &mut CellPass<N>,
    looks: &mut u64,
    spot: Spot,
    limit: u32,
    hits: u32,
    seen: u64,
) -> Count
    requires cell { spot.cell < N.setup.cells }
    requires pin { is_over limit hits seen ≡ false → 1 ≤ good_on spot.cell pass.old }
    requires seen { HasSeen spot.claim seen pass.old }
    requires looks { looks.old ≡ looks_counted pass.old }
    ensures done { CountedAt spot limit hits result pass.old pass.new }
    ensures small { value_of hits result < 2 ^ 64 }
    ensures looks { looks.new ≡ looks_counted pass.new }
    ensures over { is_over limit hits seen ≡ true → (result ≡ Seen seen) × (pass.new ≡ pass.old) }
{
    if is_over(limit, hits, seen) {
        return Count::Seen(seen);
    }
    let found = cells.look(pass, spot.cell);
    *looks = looks.saturating_add(1);
    if hits == 0 || found > u64::from(limit) {
        return Count::Seen(found);
    }
    Count::Before(cells.charge(pass, spot.cell, hits))
}

// The value of the counter that a count left.
fn value_after(count: Count, hits: u32) -> u64
    requires small { value_of hits count < 2 ^ 64 }
    ensures value { result ≡ value_of hits count }
{
    match count {
        Count::NoCount => 0,
        Count::Before(before) => before + u64::from(hits),
        Count::Seen(seen) => seen,
    }
}

// Notes the value of the descriptor's counter, unless it is known, or it is at most the limit and none is known: then the next check
// looks anyway. Whether it was to be noted. It takes no memory.
fn note_value(
    known: &mut KnownCounters,
    request: &Request,
    descriptor: &Descriptor,
    unit: Unit,
    moment: Seconds,
    limit: u32,
    before: Known,
    value: u64,
) -> bool
    ensures kept { result ≡ false → (known.new ≡ known.old) × ((before.seen ≡ 0) ⊎ (before.seen ≡ value)) }
    ensures noted { result ≡ true
        → HasRaised (key_of (counter_of request.now.domain descriptor.now unit moment)) before.spot value known.old known.new }
{
    if value == before.seen || (before.seen == 0 && value <= u64::from(limit)) {
        return false;
    }
    known.raise(
        request.domain(),
        &descriptor.entries,
        unit,
        moment,
        before.spot,
        value,
    );
    true
}

impl<N: CellNaming> PassCounters<N> {
    ghost use Rattle.std.specs.Prelude.{◌≡◌, [], false};
    ghost use Rattle.rate_limiter.specs.Asked.{IsReady, known_for};
    ghost use Rattle.rate_limiter.specs.Counted.{IsCounted, HaveRisen};
    ghost use Rattle.rate_limiter.specs.Names.{name_under, name_keys};
    ghost use Rattle.rate_limiter.specs.Used.{HasUsed};

    /// Counts what is asked for a descriptor, notes what it has seen of its counter, and answers its status.
    pub(crate) fn count(
        &mut self,
        cells: &Cells<N>,
        request: &Request,
        descriptor: &Descriptor,
        asked: &Asked,
    ) -> Answered
        requires ready { IsReady N.setup.cells self.old.claims.claims.known request.now self.old.cells descriptor.now asked.now }
        requires known { asked.now.known ≡ known_for request.now self.old.cells.moment self.old.known descriptor.now asked.now.found }
        ensures counted { IsCounted self.old.claims.claims.known request.now self.old.cells.moment descriptor.now asked.now.found
            result.status self.old.cells self.new.cells }
        ensures claims { self.new.claims ≡ self.old.claims }
        ensures risen { HaveRisen self.old.known self.new.known }
        ensures uses { HasUsed [] (name_keys self.old.cells.moment (name_under request.now descriptor.now asked.now.found))
            self.old.known self.new.known }
        ensures same { result.is_noted ≡ false → self.new.known ≡ self.old.known }
    {
        let moment = self.cells.moment();
        let hits = asked.hits;
        let Some(before) = asked.known else {
            return Answered {
                status: status_for(asked.found, moment, hits, Count::NoCount),
                is_noted: false,
            };
        };
        let Found::Limited { limit, unit, .. } = asked.found else {
            unreachable!()
        };
        let count = count_at(
            cells,
            &mut self.cells,
            &mut self.looks,
            before.spot,
            limit,
            hits,
            before.seen,
        );
        let value = value_after(count, hits);
        let is_noted = note_value(
            &mut self.known,
            request,
            descriptor,
            unit,
            moment,
            limit,
            before,
            value,
        );
        let status = status_for(asked.found, moment, hits, count);
        Answered { status, is_noted }
    }
}
