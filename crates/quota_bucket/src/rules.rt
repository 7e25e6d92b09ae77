ghost use Rattle.std.specs.Prelude.{◌≡◌};

use crate::strategy::Strategy;
use crate::timed_phase::TimedPhase;
use rate_types::Millis;
use std::num::NonZeroU64;

/// What becomes of a bucket when its assignment expires.
#[derive(Clone, Copy, Debug, PartialEq, Eq)]
pub enum AtExpiry {
    /// It is erased.
    Abandon,
    /// It goes on with this strategy.
    Fallback(Strategy),
    /// It goes on with the assignment that expired.
    Reuse,
}

/// The settings by which a bucket was made, as far as its decisions and reports depend on them.
#[derive(Clone, Copy, Debug, PartialEq, Eq)]
pub struct BucketRules {
    /// Milliseconds between two report moments.
    pub reporting: NonZeroU64,
    /// The strategy before the first assignment.
    pub unassigned: Strategy,
    pub expired: AtExpiry,
    /// How long an expired behaviour lasts, if it ends by itself.
    pub timeout: Option<Millis>,
}

impl AtExpiry {
    ghost use Rattle.quota_bucket.specs.History.{at_expiry, has_fallback};

    /// Whether an expiry begins a new effect.
    pub fn has_fallback(&self) -> bool
        ensures { result ≡ has_fallback self.now }
    {
        matches!(self, AtExpiry::Fallback(_))
    }

    /// The phase after an assignment with this strategy and effect expired at `since`.
    pub fn phase(&self, strategy: Strategy, effect: Millis, since: Millis) -> TimedPhase
        ensures { result ≡ at_expiry self.now strategy effect since }
    {
        match self {
            AtExpiry::Abandon => TimedPhase::Gone,
            AtExpiry::Fallback(fallback) => TimedPhase::Expired {
                strategy: *fallback,
                effect: since,
                since,
            },
            AtExpiry::Reuse => TimedPhase::Expired {
                strategy,
                effect,
                since,
            },
        }
    }
}
