// The counters that are held are counted, and the reply is written.
ghost use Rattle.std.specs.Prelude.{◌≡◌, ◌≤◌, [], false, length};
ghost use mathlib.Core.Option.{some};
ghost use lib.ListN.{get_elem?};
ghost use Rattle.rate_types.specs.declared.request.Descriptor.{Descriptor as DescriptorValue};
ghost use Rattle.rate_types.specs.declared.limits.TheConstants.{MOST_DESCRIPTORS};
ghost use Rattle.rate_limiter.specs.Asked.{known_for, IsReady, AreReady, AreKnown, founds};
ghost use Rattle.rate_limiter.specs.Counted.{AreCounted, HaveRisen};
ghost use Rattle.rate_limiter.specs.Names.{name_under, names_under, name_keys};
ghost use Rattle.rate_limiter.specs.Sought.{SameKnown};
ghost use Rattle.rate_limiter.specs.Used.{HasUsed};

use crate::Limiter;
use crate::asked::Asked;
use crate::emptied::empty;
use crate::overall::finish_reply;
use crate::pass_counters::PassCounters;
use crate::plan::known_for;
use arrayvec::ArrayVec;
use counter_cells::{CellNaming, Cells, Spot};
use rate_types::limits::MOST_DESCRIPTORS;
use rate_types::{Descriptor, Request};
use rls_core::{Reply, Status};

// What is asked for a descriptor, with what the pass knows of its counter by now: that is looked up anew once a value was noted.
fn asked_now<N: CellNaming>(
    counters: &mut PassCounters<N>,
    request: &Request,
    descriptor: &Descriptor,
    asked: &Asked,
    is_noted: bool,
) -> Asked
    requires known { is_noted ≡ false → asked.now.known
        ≡ known_for request.now counters.old.cells.moment counters.old.known descriptor.now asked.now.found }
    ensures rest { counters.new ≡ record counters.old { known = counters.new.known } }
    ensures same { SameKnown counters.old.known counters.new.known }
    ensures kept { is_noted ≡ false → counters.new.known ≡ counters.old.known }
    ensures uses { HasUsed [] (name_keys counters.old.cells.moment (name_under request.now descriptor.now asked.now.found))
        counters.old.known counters.new.known }
    ensures found { result.found ≡ asked.now.found }
    ensures hits { result.hits ≡ asked.now.hits }
    ensures known { result.known
        ≡ known_for request.now counters.old.cells.moment counters.old.known descriptor.now asked.now.found }
{
    if !is_noted {
        return *asked;
    }
    let known = known_for(counters, request, descriptor, asked.found);
    Asked {
        found: asked.found,
        hits: asked.hits,
        known,
    }
}

// Counts what is asked for each descriptor, in order, and writes their statuses. A value that was noted may be of the counter of one of
// the next.
fn count_each<N: CellNaming>(
    cells: &Cells<N>,
    counters: &mut PassCounters<N>,
    request: &Request,
    asked: &[Asked],
    statuses: &mut ArrayVec<Status, MOST_DESCRIPTORS>,
)
    requires count { length asked.now ≡ length request.now.descriptors }
    requires ready { AreReady N.setup.cells counters.old.claims.claims.known request.now counters.old.cells asked.now }
    requires known { AreKnown request.now counters.old asked.now }
    ensures counted { AreCounted counters.old.claims.claims.known request.now counters.old.cells.moment request.now.descriptors
        (founds asked.now) statuses.new.items counters.old.cells counters.new.cells }
    ensures claims { counters.new.claims ≡ counters.old.claims }
    ensures risen { HaveRisen counters.old.known counters.new.known }
    ensures uses { HasUsed [] (name_keys counters.old.cells.moment (names_under request.now request.now.descriptors (founds asked.now)))
        counters.old.known counters.new.known }
{
    empty(statuses);
    let descriptors = request.descriptors();
    let mut is_noted = false;
    'asked: for place in 0..asked.len() {
        let descriptor = &descriptors[place];
        let now = asked_now(counters, request, descriptor, &asked[place], is_noted);
        let answered = counters.count(cells, request, descriptor, &now);
        statuses.push(answered.status);
        is_noted |= answered.is_noted;
    }
}

impl<N: CellNaming> Limiter<N> {
    ghost use Rattle.std.specs.Prelude.{◌≡◌};
    ghost use Rattle.rate_limiter.specs.Asked.{AreAsked, AreHeld, founds};
    ghost use Rattle.rate_limiter.specs.Counted.{HasAnswered};

    /// Writes the reply to a request whose counters are held on the spots: each descriptor is counted, in order, and the pins are given
    /// back.
    pub(crate) fn answer(
        &self,
        counters: &mut PassCounters<N>,
        version: u32,
        request: &Request,
        asked: &[Asked],
        held: &[Spot],
        reply: &mut Reply,
    )
        requires asked { AreAsked N.setup.cells request.now counters.old asked.now }
        requires held { AreHeld N.setup.cells asked.now held.now counters.old.cells }
        ensures { HasAnswered self.now version request.now (founds asked.now) reply.new counters.old counters.new }
    {
        let moment = counters.moment();
        count_each(&self.cells, counters, request, asked, &mut reply.statuses);
        counters.give_back(&self.cells, held);
        finish_reply(reply, version, moment, self.global_shadow);
    }
}
