ghost use Rattle.std.proofs.Common.{rules};
ghost use Rattle.std.specs.Prelude.{◌≡◌};
ghost use Rattle.std.specs.Cmp.{partial_order_from_own_ties};
ghost use Rattle.std.specs.Cmp.Rules.{comparing};
ghost use Rattle.std.specs.Ordering.{as_partial_cmp};
ghost use Rattle.rate_types.specs.contracts.counter_key.CounterKeyOrd.TheImpl.Laws.{matches_eq-law as counter_ties};
ghost use Rattle.window_keys.specs.Counter.{window_end_of};

use rate_types::CounterKey;
use std::cmp::Ordering;
use window_keys::end_of;

/// A counter that stands by the end of its window, then by itself.
#[derive(Drop)]
pub struct CounterByEnd {
    pub end: u64,
    pub counter: CounterKey,
    ghost is: { end ≡ window_end_of counter },
}

impl CounterByEnd {
    /// A counter with its end.
    pub fn of(counter: CounterKey) -> CounterByEnd
        ensures { result.counter ≡ counter }
    {
        CounterByEnd {
            end: end_of(&counter),
            counter,
        }
    }
}

impl PartialEq for CounterByEnd {
    ghost use Rattle.run_audit.specs.EndOrder.{same_by_end};

    ghost eq = { same_by_end };

    ghost laws = { Prim.search (comparing, rules) depth 20 };

    fn eq(&self, other: &CounterByEnd) -> bool {
        self.end == other.end && self.counter == other.counter
    }
}

impl Eq for CounterByEnd {
    ghost laws = { Prim.search (comparing, rules) depth 20 };
}

impl Ord for CounterByEnd {
    ghost use Rattle.run_audit.specs.EndOrder.{end_cmp};

    ghost cmp = { end_cmp };

    ghost total = { Prim.search (comparing, rules) depth 20 };

    ghost matches_partial_cmp = { Prim.search (comparing, rules) depth 20 };

    ghost matches_eq = { Prim.search (comparing, counter_ties, rules) depth 20 };

    fn cmp(&self, other: &CounterByEnd) -> Ordering {
        self.end
            .cmp(&other.end)
            .then(self.counter.cmp(&other.counter))
    }
}

impl PartialOrd for CounterByEnd {
    ghost use Rattle.run_audit.specs.EndOrder.{end_cmp};

    ghost partial_cmp = { as_partial_cmp end_cmp };

    ghost laws = { partial_order_from_own_ties
        (Prim.search (comparing, counter_ties, rules) depth 20)
        (Prim.search (comparing, counter_ties, rules) depth 20) };

    fn partial_cmp(&self, other: &CounterByEnd) -> Option<Ordering> {
        Some(self.cmp(other))
    }
}
