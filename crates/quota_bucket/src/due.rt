ghost use Rattle.std.specs.Prelude.{◌≡◌, ◌≤◌, ◌<◌, ◌^◌, ℕ, false};
ghost use Rattle.agenda.specs.Reached.{is_reached};
ghost use Rattle.quota_bucket.specs.Due.{due, phase_due, report_due, timeout_due, IsQuiet};

use crate::bucket_state::BucketState;
use crate::moments::next_report;
use crate::rules::BucketRules;
use crate::timed_phase::TimedPhase;
use agenda::earlier;
use rate_types::Millis;

/// The end of an expired behaviour that began at `since`, if it ends by itself.
fn timeout_due(rules: &BucketRules, since: Millis) -> Option<u64>
    ensures { result ≡ timeout_due since rules.now.timeout }
{
    match rules.timeout {
        Some(timeout) => Some(since.get() + timeout.get()),
        None => None,
    }
}

/// When the phase changes by itself, if it does.
fn phase_due(rules: &BucketRules, phase: &TimedPhase) -> Option<u64>
    ensures { result ≡ phase_due rules.now phase.now }
{
    match phase {
        TimedPhase::Live { expiry, .. } => *expiry,
        TimedPhase::Expired { since, .. } => timeout_due(rules, *since),
        _ => None,
    }
}

impl BucketState {
    ghost use Rattle.quota_bucket.specs.History.{is_gone};
    ghost use Rattle.quota_bucket.specs.declared.bucket_state.Advance.{Advance};

    /// The next moment for a report after `time`, if a request waits for one.
    fn report_due(&self, rules: &BucketRules, time: Millis) -> Option<u64>
        ensures { result ≡ report_due rules.now self.now time }
    {
        if self.waits() {
            next_report(self.first, rules.reporting.get(), time)
        } else {
            None
        }
    }

    /// The first moment after `time` at which an advance changes something, if there is one. A bucket that is there stays as it
    /// is until then, sends no report, and is due at the same moment.
    pub fn due(&self, rules: &BucketRules, time: Millis) -> Option<u64>
        ensures due { result ≡ due rules.now self.now time }
        ensures quiet { (advance : Advance) → advance.from ≡ time → advance.to < 2 ^ 64 → is_reached advance.to result ≡ false
            → is_gone self.now.phase ≡ false → IsQuiet rules.now self.now advance }
        ensures stays { (later : ℕ) → time ≤ later → later < 2 ^ 64 → is_reached later result ≡ false
            → due rules.now self.now later ≡ result }
    {
        earlier(phase_due(rules, &self.phase), self.report_due(rules, time))
    }
}
