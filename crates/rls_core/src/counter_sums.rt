ghost use Rattle.std.specs.Prelude.{◌≡◌, ◌<◌, ◌+◌, ℕ, [], length, if◌then◌else◌, Some, OnOk, OnErr};
ghost use Rattle.std.specs.BTreeMap.{is_at, insert_entry};
ghost use Rattle.std.specs.List.Sorted.{IsStrictlySortedBy};
ghost use Rattle.std.specs.Map.{lookup, keys_of};
ghost use Rattle.rate_types.specs.Counters.{key_cmp, same_counter};
ghost use Rattle.rate_types.specs.declared.counter_key.CounterKey.{CounterKey};
ghost use Rattle.window_keys.specs.Counter.{window_end_of};
ghost use Rattle.rls_core.specs.Sums.{AreOpen, has_sum};

use rate_types::{CounterKey, OutOfMemory};
use std::alloc::Global;
use std::collections::BTreeMap;
use std::marker::Model;

/// A sum for each of some counters, in key order. Contracts see the list of the counters with their sums.
#[derive(Drop)]
pub struct CounterSums {
    sums: BTreeMap<CounterKey, u64>,
}

impl Model for CounterSums {
    ghost use Rattle.rls_core.specs.Sums.{Sums};

    ghost Value = { Sums };

    ghost view = { λ s. s.sums.entries };
}

impl CounterSums {
    /// No counter has a sum.
    pub fn new(alloc: Global) -> CounterSums
        ensures { result ≡ [] }
    {
        CounterSums {
            sums: BTreeMap::new(alloc),
        }
    }

    /// How many counters have a sum.
    pub fn len(&self) -> usize
        ensures number { result ≡ length self.now }
        ensures sorted { IsStrictlySortedBy key_cmp (keys_of self.now) }
    {
        self.sums.len()
    }

    /// Gives a counter a sum in place of its last one.
    pub fn put(&mut self, counter: CounterKey, sum: u64) -> Result<(), OutOfMemory>
        ensures entries { OnOk result (self.new ≡ insert_entry key_cmp self.old counter sum) }
        ensures found { OnOk result ((c : CounterKey) → lookup (is_at (key_cmp c)) self.new
            ≡ (if same_counter counter c then Some sum else lookup (is_at (key_cmp c)) self.old)) }
        ensures len { OnOk result (length self.new ≡ length self.old + (if has_sum self.old counter then 0 else 1)) }
        ensures open { OnOk result ((m : ℕ) → m < window_end_of counter → AreOpen m self.old → AreOpen m self.new) }
        ensures err { OnErr result (self.new ≡ self.old) }
    {
        self.sums.insert(counter, sum)?;
        Ok(())
    }
}
