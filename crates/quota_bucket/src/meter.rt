ghost use Rattle.std.specs.Prelude.{◌≡◌, ◌/◌};
ghost use Rattle.quota_bucket.specs.Meters.{judged, judged_count, judged_tokens};

use crate::strategy::Strategy;

/// What is kept of the requests since the effect in force began.
#[derive(Clone, Copy, Debug, PartialEq, Eq)]
pub enum Meter {
    /// None that counts.
    Fresh,
    /// In the latest interval, how many were allowed.
    Counted { interval: u64, allowed: u64 },
    /// After the latest request, the tokens that it left.
    Filled { fills: u64, left: u64 },
}

/// An answer, and the meter after it.
#[derive(Clone, Copy)]
pub struct Verdict {
    pub allowed: bool,
    pub meter: Meter,
}

/// How many intervals of a length are over; an interval of 0 is never over.
fn intervals(elapsed: u64, length: u64) -> u64
    ensures { result ≡ elapsed / length }
{
    if length == 0 { 0 } else { elapsed / length }
}

impl Strategy {
    /// Decides a request that comes `elapsed` milliseconds after the effect began.
    pub fn judge(self, meter: Meter, elapsed: u64) -> Verdict
        ensures { result ≡ judged self meter elapsed }
    {
        match self {
            Strategy::AllowAll => Verdict {
                allowed: true,
                meter: Meter::Fresh,
            },
            Strategy::DenyAll => Verdict {
                allowed: false,
                meter: Meter::Fresh,
            },
            Strategy::PerUnit { count, unit } => judge_count(
                meter,
                count,
                intervals(elapsed, 1000 * unit.seconds()),
            ),
            Strategy::TokenBucket {
                max,
                per_fill,
                interval,
            } => { judge_tokens(meter, max, per_fill, intervals(elapsed, interval.get())) }
        }
    }
}

/// Decides by a number of requests for each interval.
fn judge_count(meter: Meter, count: u64, interval: u64) -> Verdict
    ensures { result ≡ judged_count meter count interval }
{
    let before = match meter {
        Meter::Counted {
            interval: latest,
            allowed,
        } if latest == interval => allowed,
        _ => 0,
    };
    let allowed = before < count;
    let after = if allowed { before + 1 } else { before };
    Verdict {
        allowed,
        meter: Meter::Counted {
            interval,
            allowed: after,
        },
    }
}

/// Decides by tokens.
fn judge_tokens(meter: Meter, max: u32, per_fill: u32, fills: u64) -> Verdict
    ensures { result ≡ judged_tokens meter max per_fill fills }
{
    let tokens = match meter {
        Meter::Filled {
            fills: latest,
            left,
        } => {
            let gained = u64::from(per_fill).saturating_mul(fills.saturating_sub(latest));
            left.saturating_add(gained).min(u64::from(max))
        }
        _ => u64::from(max),
    };
    Verdict {
        allowed: tokens >= 1,
        meter: Meter::Filled {
            fills,
            left: tokens.saturating_sub(1),
        },
    }
}
