ghost use Rattle.std.specs.Prelude.{◌≡◌, [], ◌∷◌, ◌++◌};

use http_server::Log;
use rate_types::{CounterKey, Seconds};
use std::marker::Model;

/// A counter that was bound to a cell, under a number, at a moment of its window.
#[derive(Drop)]
pub struct Claim {
    pub key: CounterKey,
    pub cell: u32,
    /// The number, below the most claims. No two claims have the same.
    pub claim: u64,
    pub moment: Seconds,
}

/// Claims in the order in which they were made. It is for contracts and proofs alone, which see it as a list, and takes
/// no memory.
#[derive(Drop)]
pub struct Claims {
    log: Log<Claim, ()>,
}

impl Model for Claims {
    ghost use Rattle.std.specs.Prelude.{List, map};
    ghost use Rattle.counter_directory.specs.declared.claim.Claim.{Claim};

    ghost Value = { List Claim };

    ghost view = { λ c. map (λ x. x.0) c.log.items };
}

impl Claims {
    /// No claim.
    pub(crate) fn new() -> Claims
        ensures { result ≡ [] }
    {
        Claims { log: Log::new() }
    }

    /// One more claim.
    pub(crate) fn add(&mut self, claim: &Claim)
        ensures { self.new ≡ self.old ++ claim.now ∷ [] }
    {
        self.log = self.log.and(claim, &());
    }
}
