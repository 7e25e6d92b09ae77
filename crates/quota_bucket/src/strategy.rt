ghost use Rattle.std.specs.Prelude.{◌≡◌};
ghost use Rattle.quota_bucket.specs.Strategies.{same_strategy};

use rate_types::{Millis, Unit};

/// How the requests of a bucket are decided: Envoy's `RateLimitStrategy`.
#[derive(Clone, Copy, Debug, PartialEq, Eq)]
pub enum Strategy {
    /// The blanket rule ALLOW_ALL, also that of an absent strategy.
    AllowAll,
    /// The blanket rule DENY_ALL.
    DenyAll,
    /// At most `count` requests in each interval of this length, counted from the effect.
    PerUnit {
        count: u64,
        unit: Unit,
    },
    /// Tokens, one for each request: `max` at first and at most, and `per_fill` more at the end of each interval since
    /// the effect. With an interval of 0, which settings and assignments are refused for, none come.
    TokenBucket {
        max: u32,
        per_fill: u32,
        interval: Millis,
    },
}

impl Strategy {
    /// Whether the two are equal: an assignment with an equal strategy renews the one in force.
    pub fn is_same(&self, other: &Strategy) -> bool
        ensures { result ≡ same_strategy self.now other.now }
    {
        self == other
    }
}
