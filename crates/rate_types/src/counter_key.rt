ghost use Rattle.std.proofs.Common.{rules};
ghost use Rattle.std.specs.Prelude.{◌≡◌, ◌==◌, IfOk};
ghost use Rattle.std.specs.Cmp.{partial_order_from_own_ties};
ghost use Rattle.std.specs.Cmp.Rules.{comparing};
ghost use Rattle.std.specs.Ordering.{as_partial_cmp};
ghost use Rattle.rate_types.specs.Counters.{key_cmp, same_counter};
ghost use Rattle.rate_types.specs.contracts.counter_name.CounterNameOrd.TheImpl.Laws.{matches_eq-law as name_ties};
ghost use Rattle.rate_types.specs.Hashes.{key_writes, key_alike};

use crate::{CounterName, OutOfMemory, Seconds};
use std::cmp::Ordering;
use std::hash::{Hash, Hasher};

/// A counter: a name and the window that starts at `start`, in seconds.
/// Counters are ordered by these, in this order.
#[derive(Clone, Drop)]
pub struct CounterKey {
    pub name: CounterName,
    pub start: Seconds,
}

impl CounterKey {
    /// An equal counter.
    pub fn copy(&self) -> Result<CounterKey, OutOfMemory>
        ensures { IfOk result (λ k. k ≡ self.now) }
    {
        Ok(self.clone()?)
    }
}

impl PartialEq for CounterKey {
    ghost eq = { same_counter };

    ghost laws = { Prim.search (comparing, name_ties, rules) depth 20 };

    fn eq(&self, other: &CounterKey) -> bool {
        self.name == other.name && self.start == other.start
    }
}

impl Eq for CounterKey {
    ghost laws = { Prim.search (comparing, name_ties, rules) depth 20 };
}

impl Ord for CounterKey {
    ghost cmp = { key_cmp };

    ghost total = { Prim.search (comparing, name_ties, rules) depth 20 };

    ghost matches_partial_cmp = { Prim.search (comparing, name_ties, rules) depth 20 };

    ghost matches_eq = { Prim.search (comparing, name_ties, rules) depth 20 };

    fn cmp(&self, other: &CounterKey) -> Ordering {
        self.name
            .cmp(&other.name)
            .then(self.start.cmp(&other.start))
    }
}

impl PartialOrd for CounterKey {
    ghost partial_cmp = { as_partial_cmp key_cmp };

    ghost laws = { partial_order_from_own_ties
        (Prim.search (comparing, name_ties, rules) depth 20)
        (Prim.search (comparing, name_ties, rules) depth 20) };

    fn partial_cmp(&self, other: &CounterKey) -> Option<Ordering> {
        Some(self.cmp(other))
    }
}

impl Hash for CounterKey {
    ghost hash_input = { key_writes };

    ghost respects_eq = { key_alike.fed };

    fn hash<H: Hasher>(&self, state: &mut H) {
        self.name.hash(state);
        self.start.get().hash(state);
    }
}
