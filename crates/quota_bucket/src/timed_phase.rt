ghost use Rattle.std.specs.Prelude.{◌≡◌, ◌+◌, option_map};

use crate::moments::reached;
use crate::rules::BucketRules;
use crate::strategy::Strategy;
use rate_types::Millis;

/// The phase of a bucket with its moments, in milliseconds.
#[derive(Clone, Copy, Debug, PartialEq, Eq)]
pub enum TimedPhase {
    /// There is no bucket.
    Gone,
    /// No assignment came yet. The strategy of the settings has effect since the request that made the bucket.
    Unassigned {
        effect: Millis,
    },
    /// An assignment is in force, until the expiry if it has one.
    Live {
        strategy: Strategy,
        effect: Millis,
        expiry: Option<u64>,
    },
    /// The assignment expired, at the moment `since`.
    Expired {
        strategy: Strategy,
        effect: Millis,
        since: Millis,
    },
}

/// A strategy that is in force, and the moment from which it has effect.
#[derive(Clone, Copy, Debug, PartialEq, Eq)]
pub struct InForce {
    pub strategy: Strategy,
    pub effect: Millis,
}

impl TimedPhase {
    ghost use Rattle.quota_bucket.specs.History.{is_gone, in_force, force_for, after_expiry, after_timeout, after_advance};
    ghost use Rattle.quota_bucket.specs.History.{after_request, after_assignment, begins_by_expiry, begins_by_assignment};
    ghost use Rattle.quota_bucket.specs.History.{renewed};

    /// Whether there is no bucket.
    pub fn is_gone(&self) -> bool
        ensures { result ≡ is_gone self.now }
    {
        matches!(self, TimedPhase::Gone)
    }

    /// The strategy in force; None where there is no bucket.
    pub fn in_force(&self, rules: &BucketRules) -> Option<InForce>
        ensures { result ≡ in_force rules.now self.now }
    {
        let (strategy, effect) = match self {
            TimedPhase::Gone => return None,
            TimedPhase::Unassigned { effect } => (rules.unassigned, *effect),
            TimedPhase::Live {
                strategy,
                effect,
                ..
            } => (*strategy, *effect),
            TimedPhase::Expired {
                strategy,
                effect,
                ..
            } => (*strategy, *effect),
        };
        Some(InForce { strategy, effect })
    }

    /// What decides a request at `at` in this phase: the strategy in force, and for the request that makes the bucket that of
    /// its settings, from then on.
    pub fn force_for(&self, rules: &BucketRules, at: Millis) -> InForce
        ensures { result ≡ force_for rules.now self.now at }
    {
        match self.in_force(rules) {
            Some(force) => force,
            None => InForce {
                strategy: rules.unassigned,
                effect: at,
            },
        }
    }

    /// Whether the expiry that an advance to `at` reaches begins a new effect.
    pub fn begins_by_expiry(&self, rules: &BucketRules, at: Millis) -> bool
        ensures { result ≡ begins_by_expiry rules.now self.now at }
    {
        match self {
            TimedPhase::Live {
                expiry: Some(expiry),
                ..
            } => { *expiry <= at.get() && rules.expired.has_fallback() }
            _ => false,
        }
    }

    /// The phase after the expiry, where an advance to `at` reaches it.
    fn after_expiry(&self, rules: &BucketRules, at: Millis) -> TimedPhase
        ensures { result ≡ after_expiry rules.now self.now at }
    {
        match self {
            TimedPhase::Live {
                strategy,
                effect,
                expiry: Some(expiry),
            } => match reached(*expiry, at) {
                None => *self,
                Some(since) => rules.expired.phase(*strategy, *effect, since),
            },
            _ => *self,
        }
    }

    /// The phase after the end of an expired behaviour, where an advance to `at` reaches it.
    fn after_timeout(&self, rules: &BucketRules, at: Millis) -> TimedPhase
        ensures { result ≡ after_timeout rules.now self.now at }
    {
        match self {
            TimedPhase::Expired { since, .. } => match rules.timeout {
                Some(timeout) if since.get() + timeout.get() <= at.get() => TimedPhase::Gone,
                _ => *self,
            },
            _ => *self,
        }
    }

    /// The phase after an advance to `at`: the expiry first, and then the end of the expired behaviour.
    pub fn after_advance(&self, rules: &BucketRules, at: Millis) -> TimedPhase
        ensures { result ≡ after_advance rules.now self.now at }
    {
        self.after_expiry(rules, at).after_timeout(rules, at)
    }

    /// The phase after a request, which makes a bucket that isn't there.
    pub fn after_request(&self, at: Millis) -> TimedPhase
        ensures { result ≡ after_request self.now at }
    {
        match self {
            TimedPhase::Gone => TimedPhase::Unassigned { effect: at },
            _ => *self,
        }
    }

    /// Whether an assignment begins a new effect: any but one that renews an equal one.
    pub fn begins_by_assignment(&self, strategy: &Strategy) -> bool
        ensures { result ≡ begins_by_assignment self.now strategy.now }
    {
        match self {
            TimedPhase::Live { strategy: old, .. } => !old.is_same(strategy),
            _ => true,
        }
    }

    /// The phase after an assignment at `at`, which lasts for its lifetime or for ever.
    pub fn after_assignment(
        &self,
        at: Millis,
        lifetime: Option<Millis>,
        strategy: Strategy,
    ) -> TimedPhase
        ensures { result ≡ after_assignment self.now at lifetime strategy }
    {
        let expiry = expiry_of(at, lifetime);
        if self.is_gone() {
            return TimedPhase::Gone;
        }
        if self.begins_by_assignment(&strategy) {
            return TimedPhase::Live {
                strategy,
                effect: at,
                expiry,
            };
        }
        self.renewed(expiry)
    }

    /// The same assignment with another expiry.
    fn renewed(&self, expires: Option<u64>) -> TimedPhase
        ensures { result ≡ renewed self.now expires }
    {
        match self {
            TimedPhase::Live {
                strategy,
                effect,
                ..
            } => TimedPhase::Live {
                strategy: *strategy,
                effect: *effect,
                expiry: expires,
            },
            _ => *self,
        }
    }
}

/// When an assignment at `at` expires, if it does.
fn expiry_of(at: Millis, lifetime: Option<Millis>) -> Option<u64>
    ensures { result ≡ option_map (λ n. at + n) lifetime }
{
    match lifetime {
        Some(length) => Some(at.get() + length.get()),
        None => None,
    }
}
