ghost use Rattle.std.specs.Prelude.{◌≡◌, ◌+◌};

use rate_types::CounterKey;
use std::marker::Model;

/// A charge that a status shows, or with 0 hits a sight. Charges are ordered by their counters, by the counts before them and by their
/// hits, in this order.
#[derive(PartialEq, Eq, PartialOrd, Ord, Drop)]
pub struct ShownCharge {
    counter: CounterKey,
    before: u64,
    hits: u32,
}

impl Model for ShownCharge {
    ghost use Rattle.rate_types.specs.Ledger.{Charge};
    ghost use Rattle.rate_types.specs.declared.counter_key.CounterKey.{CounterKey};

    ghost Value = { Charge CounterKey };

    ghost view = { λ c. record { counter = c.counter; before = c.before; hits = c.hits } };

    ghost inverse = { λ c. record { counter = c.counter; before = c.before; hits = c.hits } };
}

impl ShownCharge {
    /// So many hits on a counter on which `before` had been charged.
    pub fn new(counter: CounterKey, before: u64, hits: u32) -> ShownCharge
        ensures { result ≡ record { counter = counter; before = before; hits = hits } }
    {
        ShownCharge {
            counter,
            before,
            hits,
        }
    }

    /// The counter.
    pub fn counter(&self) -> &CounterKey
        ensures { result.now ≡ self.now.counter }
    {
        &self.counter
    }

    /// What had been charged before.
    pub fn before(&self) -> u64
        ensures { result ≡ self.now.before }
    {
        self.before
    }

    /// The hits.
    pub fn hits(&self) -> u32
        ensures { result ≡ self.now.hits }
    {
        self.hits
    }

    /// What had been charged before, and the hits.
    pub fn after(&self) -> u128
        ensures { result ≡ self.now.before + self.now.hits }
    {
        u128::from(self.before) + u128::from(self.hits)
    }
}
