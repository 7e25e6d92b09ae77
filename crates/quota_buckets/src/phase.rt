ghost use Rattle.std.specs.Prelude.{◌≡◌};

use quota_bucket::{Strategy, TimedPhase};
use rate_types::Millis;

/// The phase of a bucket. `effect` is the moment from which its strategy counts.
#[derive(Clone, Copy, Debug, PartialEq, Eq)]
pub enum Phase {
    /// There is no bucket of this name.
    None,
    /// No assignment came yet.
    NoAssignment,
    /// An assignment is in force.
    Live { strategy: Strategy, effect: Millis },
    /// The assignment expired, and this strategy is in force.
    Expired { strategy: Strategy, effect: Millis },
}

impl Phase {
    ghost use Rattle.quota_buckets.specs.Phases.{phase_of};

    /// The phase as callers see it: without its expiry.
    pub fn of(phase: &TimedPhase) -> Phase
        ensures { result ≡ phase_of phase.now }
    {
        match phase {
            TimedPhase::Gone => Phase::None,
            TimedPhase::Unassigned { .. } => Phase::NoAssignment,
            TimedPhase::Live {
                strategy,
                effect,
                ..
            } => Phase::Live {
                strategy: *strategy,
                effect: *effect,
            },
            TimedPhase::Expired {
                strategy,
                effect,
                ..
            } => Phase::Expired {
                strategy: *strategy,
                effect: *effect,
            },
        }
    }
}
