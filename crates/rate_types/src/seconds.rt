ghost use Rattle.std.specs.Prelude.{◌≡◌, ◌≤◌, ◌<◌, ℕ, min, IfSome, IfNone};

use crate::limits::LATEST_MOMENT;
use std::marker::Model;

/// A moment, or a span of time, in whole seconds: at most 1,000,000,000,000.
#[derive(Clone, Copy, Debug, PartialEq, Eq, PartialOrd, Ord, Hash)]
pub struct Seconds {
    value: u64,
}

impl Model for Seconds {
    ghost use Rattle.std.specs.Prelude.{ℕ, ◌≤◌};
    ghost use Rattle.rate_types.specs.declared.limits.TheConstants.{LATEST_MOMENT};

    ghost Value = { ℕ };

    ghost view = { λ s. s.value };

    ghost invariant = { λ s. s.value ≤ LATEST_MOMENT };

    ghost inverse = { λ n. record { value = n } };
}

impl Seconds {
    /// None exactly above 1,000,000,000,000.
    pub fn new(value: u64) -> Option<Seconds>
        ensures within { IfSome result (λ s. (s ≡ value) × (value ≤ LATEST_MOMENT)) }
        ensures above { IfNone result (LATEST_MOMENT < value) }
    {
        if value <= LATEST_MOMENT {
            Some(Seconds { value })
        } else {
            None
        }
    }

    /// The smaller of `value` and 1,000,000,000,000.
    pub fn capped(value: u64) -> Seconds
        ensures { result ≡ min value LATEST_MOMENT }
    {
        Seconds {
            value: value.min(LATEST_MOMENT),
        }
    }

    /// The seconds.
    pub fn get(self) -> u64
        ensures value { result ≡ self }
        ensures bound { result ≤ LATEST_MOMENT }
    {
        self.value
    }
}
