ghost use Rattle.std.proofs.Common.{rules};
ghost use Rattle.std.specs.Prelude.{◌≡◌, ◌==◌, IfOk};
ghost use Rattle.std.specs.Cmp.{partial_order_from_own_ties};
ghost use Rattle.std.specs.Cmp.Rules.{comparing};
ghost use Rattle.std.specs.Ordering.{as_partial_cmp};
ghost use Rattle.rate_types.specs.Counters.{name_cmp, same_name};
ghost use Rattle.rate_types.specs.contracts.entries.EntriesOrd.TheImpl.Laws.{matches_eq-law as entries_ties};
ghost use Rattle.rate_types.specs.Hashes.{name_writes, name_alike};

use crate::{Entries, OutOfMemory, Text, Unit};
use std::cmp::Ordering;
use std::hash::{Hash, Hasher};

/// What a counter is called in every window: its domain, the entries with their values, and the unit.
/// Names are ordered by these, in this order.
#[derive(Clone, Drop)]
pub struct CounterName {
    pub domain: Text,
    pub entries: Entries,
    pub unit: Unit,
}

impl CounterName {
    /// An equal name.
    pub fn copy(&self) -> Result<CounterName, OutOfMemory>
        ensures { IfOk result (λ n. n ≡ self.now) }
    {
        Ok(self.clone()?)
    }
}

impl PartialEq for CounterName {
    ghost eq = { same_name };

    ghost laws = { Prim.search (comparing, entries_ties, rules) depth 20 };

    fn eq(&self, other: &CounterName) -> bool {
        self.domain == other.domain
            && self.entries == other.entries
            && self.unit.rank() == other.unit.rank()
    }
}

impl Eq for CounterName {
    ghost laws = { Prim.search (comparing, entries_ties, rules) depth 20 };
}

impl Ord for CounterName {
    ghost cmp = { name_cmp };

    ghost total = { Prim.search (comparing, entries_ties, rules) depth 20 };

    ghost matches_partial_cmp = { Prim.search (comparing, entries_ties, rules) depth 20 };

    ghost matches_eq = { Prim.search (comparing, entries_ties, rules) depth 20 };

    fn cmp(&self, other: &CounterName) -> Ordering {
        let unit = self.unit.rank().cmp(&other.unit.rank());
        let entries = self.entries.cmp(&other.entries);
        self.domain.cmp(&other.domain).then(entries.then(unit))
    }
}

impl PartialOrd for CounterName {
    ghost partial_cmp = { as_partial_cmp name_cmp };

    ghost laws = { partial_order_from_own_ties
        (Prim.search (comparing, entries_ties, rules) depth 20)
        (Prim.search (comparing, entries_ties, rules) depth 20) };

    fn partial_cmp(&self, other: &CounterName) -> Option<Ordering> {
        Some(self.cmp(other))
    }
}

impl Hash for CounterName {
    ghost hash_input = { name_writes };

    ghost respects_eq = { name_alike.fed };

    fn hash<H: Hasher>(&self, state: &mut H) {
        self.domain.hash(state);
        self.entries.hash(state);
        u64::from(self.unit.rank()).hash(state);
    }
}
