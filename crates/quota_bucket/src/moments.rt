ghost use Rattle.std.specs.Prelude.{◌≡◌, ◌<◌, ◌≤◌, ◌-◌, Some, None, nat_le, if◌then◌else◌};
ghost use Rattle.quota_bucket.specs.Reports.{next_report};
ghost use Rattle.quota_bucket.specs.Due.{reachable};

use rate_types::Millis;

/// A moment that an advance up to `at` reaches.
pub fn reached(moment: u64, at: Millis) -> Option<Millis>
    ensures { result ≡ (if (nat_le moment at) then (Some moment) else None) }
{
    let moment = Millis::new(moment)?;
    if moment.get() <= at.get() {
        Some(moment)
    } else {
        None
    }
}

/// The time from one moment to a later one; 0 if it isn't later.
pub fn span(from: Millis, to: Millis) -> Millis
    ensures { result ≡ to - from }
{
    Millis::new(to.get().saturating_sub(from.get())).unwrap()
}

/// The least `first + k * interval`, k at least 1, that is after `time`; none where 64 bits don't hold it.
pub fn next_report(first: Millis, interval: u64, time: Millis) -> Option<u64>
    requires { 0 < interval }
    ensures { result ≡ reachable (next_report first interval time) }
{
    let periods = span(first, time).get() / interval + 1;
    let since_first = periods.checked_mul(interval)?;
    first.get().checked_add(since_first)
}

/// The next report moment after `from`, where an advance up to `to` reaches it.
#[tactic(auto, using(crate::specs::QuietLaws::past_report))]
pub fn reached_report(first: Millis, interval: u64, from: Millis, to: Millis) -> Option<Millis>
    requires { 0 < interval }
    ensures { result ≡ (if (nat_le (next_report first interval from) to) then (Some (next_report first interval from)) else None) }
{
    let moment = next_report(first, interval, from)?;
    reached(moment, to)
}
