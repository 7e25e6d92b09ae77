ghost use Rattle.std.specs.Prelude.{ℕ};
ghost use Rattle.std.specs.List.Sorted.{IsPermutation};
ghost use Rattle.rate_types.specs.declared.counter_key.CounterKey.{CounterKey};
ghost use Rattle.rls_core.specs.Totals.{HaveTotals, AreTotals};

use rate_types::{CounterKey, Items};

/// What was charged on a counter in all.
#[derive(Drop)]
pub struct Total {
    pub key: CounterKey,
    pub charged: u64,
}

/// A list of totals.
pub type Totals = Items<Total>;

/// These totals in key order, which are moved. It takes no memory.
pub fn in_key_order(totals: Vec<Total>) -> Totals
    ensures permutation { IsPermutation totals.items result }
    ensures totals { (charged : CounterKey → ℕ) (moment : ℕ) → HaveTotals charged moment totals.items → AreTotals charged moment result }
{
    let mut ordered = totals;
    ordered.sort_unstable_by(|a, b| a.key.cmp(&b.key));
    Totals::of(ordered)
}
