ghost use Rattle.std.specs.Prelude.{◌≡◌, ◌≤◌, ◌<◌, IfSome, IfNone};

use crate::limits::LATEST_MOMENT;
use std::marker::Model;

/// A moment, or a span of time, in whole milliseconds: at most 1,000,000,000,000.
#[derive(Clone, Copy, Debug, PartialEq, Eq, PartialOrd, Ord, Hash)]
pub struct Millis {
    value: u64,
}

impl Model for Millis {
    ghost use Rattle.std.specs.Prelude.{ℕ, ◌≤◌};
    ghost use Rattle.rate_types.specs.declared.limits.TheConstants.{LATEST_MOMENT};

    ghost Value = { ℕ };

    ghost view = { λ m. m.value };

    ghost invariant = { λ m. m.value ≤ LATEST_MOMENT };

    ghost inverse = { λ n. record { value = n } };
}

impl Millis {
    /// None exactly above 1,000,000,000,000.
    pub fn new(value: u64) -> Option<Millis>
        ensures within { IfSome result (λ m. (m ≡ value) × (value ≤ LATEST_MOMENT)) }
        ensures above { IfNone result (LATEST_MOMENT < value) }
    {
        if value <= LATEST_MOMENT {
            Some(Millis { value })
        } else {
            None
        }
    }

    /// The milliseconds.
    pub fn get(self) -> u64
        ensures value { result ≡ self }
        ensures bound { result ≤ LATEST_MOMENT }
    {
        self.value
    }
}
