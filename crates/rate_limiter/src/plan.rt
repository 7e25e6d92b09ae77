// What a check asks for the descriptors of its request.
ghost use Rattle.std.specs.Prelude.{◌≡◌, ◌≤◌, map, length};
ghost use Rattle.rate_types.specs.declared.limits.TheConstants.{MOST_DESCRIPTORS};
ghost use Rattle.rls_core.specs.Reply.{found_for};
ghost use Rattle.rate_limiter.specs.Asked.{known_for, IsOwn, AreAsked, founds};
ghost use Rattle.rate_limiter.specs.Names.{name_under, names_under, name_keys};
ghost use Rattle.rate_limiter.specs.Sought.{SameKnown};
ghost use Rattle.rate_limiter.specs.Used.{asked_each};

use crate::asked::Asked;
use crate::emptied::empty;
use crate::pass_counters::PassCounters;
use crate::scratch::Scratch;
use arrayvec::ArrayVec;
use counter_cells::CellNaming;
use over_cache::Known;
use rate_types::limits::MOST_DESCRIPTORS;
use rate_types::{Descriptor, Request};
use rule_lookup::{Found, Index, find_rules_into};

/// What the pass knows of a descriptor's counter, at its moment, where it has a limit.
pub(crate) fn known_for<N: CellNaming>(
    counters: &mut PassCounters<N>,
    request: &Request,
    descriptor: &Descriptor,
    found: Found,
) -> Option<Known>
    ensures rest { counters.new ≡ record counters.old { known = counters.new.known } }
    ensures same { SameKnown counters.old.known counters.new.known }
    ensures order { counters.new.known ≡ asked_each (name_keys counters.old.cells.moment (name_under request.now descriptor.now found))
        counters.old.known }
    ensures known { result ≡ known_for request.now counters.old.cells.moment counters.old.known descriptor.now found }
    ensures own { IsOwn N.setup.cells counters.old.claims.claims.known counters.old.cells.pairs request.now counters.old.cells.moment
        descriptor.now found result }
{
    match found {
        Found::NoRule => None,
        Found::Unlimited { .. } => None,
        Found::Limited { unit, .. } => counters.find(request, descriptor, unit),
    }
}

/// Writes what is asked for each descriptor, by the rules that they find: its hits, and what the pass knows of its counter by now.
pub(crate) fn ask_each<N: CellNaming>(
    counters: &mut PassCounters<N>,
    request: &Request,
    rules: &[Found],
    asked: &mut ArrayVec<Asked, MOST_DESCRIPTORS>,
)
    requires rules { length rules.now ≡ length request.now.descriptors }
    ensures rest { counters.new ≡ record counters.old { known = counters.new.known } }
    ensures same { SameKnown counters.old.known counters.new.known }
    ensures order { counters.new.known ≡ asked_each
        (name_keys counters.old.cells.moment (names_under request.now request.now.descriptors rules.now)) counters.old.known }
    ensures founds { founds asked.new.items ≡ rules.now }
    ensures asked { AreAsked N.setup.cells request.now counters.new asked.new.items }
{
    let descriptors = request.descriptors();
    empty(asked);
    'descriptors: for place in 0..descriptors.len() {
        let descriptor = &descriptors[place];
        let found = rules[place];
        let hits = descriptor.hits.unwrap_or(request.hits());
        let known = known_for(counters, request, descriptor, found);
        asked.push(Asked { found, hits, known });
    }
}

/// Finds the rules of a request, and writes what is asked for each of its descriptors.
pub(crate) fn plan<N: CellNaming>(
    index: &Index,
    counters: &mut PassCounters<N>,
    request: &Request,
    descriptors: &[Descriptor],
    scratch: &mut Scratch,
)
    requires few { length descriptors.now ≤ MOST_DESCRIPTORS }
    requires all { descriptors.now ≡ request.now.descriptors }
    ensures rest { counters.new ≡ record counters.old { known = counters.new.known } }
    ensures same { SameKnown counters.old.known counters.new.known }
    ensures order { counters.new.known ≡ asked_each
        (name_keys counters.old.cells.moment (names_under request.now request.now.descriptors (founds scratch.new.asked.items)))
        counters.old.known }
    ensures founds { founds scratch.new.asked.items ≡ map (found_for index.now request.now) request.now.descriptors }
    ensures rules { scratch.new.rules.items ≡ founds scratch.new.asked.items }
    ensures asked { AreAsked N.setup.cells request.now counters.new scratch.new.asked.items }
{
    find_rules_into(index, request.domain(), descriptors, &mut scratch.rules);
    let rules = scratch.rules.as_slice();
    ask_each(counters, request, rules, &mut scratch.asked);
}
