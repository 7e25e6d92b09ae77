ghost use Rattle.std.specs.Prelude.{◌≡◌, ◌+◌, ◌-◌, Some, IsSome};
ghost use Rattle.rls_core.specs.Status.{status_of, status_at, free_status};
ghost use Rattle.rls_core.specs.declared.status.Count.TheVariants.{Before};

use rate_types::{OwnLimit, RuleId, Seconds, Unit};
use rule_lookup::Found;

/// Whether a descriptor is within its limit (Envoy's `RateLimitResponse.Code`).
#[derive(Clone, Copy, Debug, PartialEq, Eq, Default)]
pub enum Code {
    #[default]
    /// It is within its limit, or has none.
    Ok,
    /// It is over its limit.
    OverLimit,
}

/// What a descriptor found of its counter.
#[derive(Clone, Copy, Debug, PartialEq, Eq, Default)]
pub enum Count {
    /// The descriptor has no counter.
    #[default]
    NoCount,
    /// So much had been charged on it before the descriptor's hits were.
    Before(u64),
    /// So much was seen on it, and the descriptor's hits weren't charged.
    Seen(u64),
}

/// The answer to one descriptor (Envoy's `DescriptorStatus`).
#[derive(Clone, Copy, Debug, PartialEq, Eq, Default)]
pub struct Status {
    pub code: Code,
    pub limit: Option<OwnLimit>,
    /// The hits that are left in the window.
    pub remaining: u32,
    /// The seconds to the end of the window, 0 without a limit.
    pub reset: u64,
    /// The node of the rule, None for a descriptor's own limit and without a rule.
    pub rule: Option<RuleId>,
    pub count: Count,
}

// A limit with its rule.
#[derive(Clone, Copy)]
struct Limit {
    limit: u32,
    unit: Unit,
    shadow: bool,
    rule: Option<RuleId>,
}

fn free_status(remaining: u32, rule: Option<RuleId>) -> Status
    ensures { result ≡ free_status remaining rule }
{
    Status {
        code: Code::Ok,
        limit: None,
        remaining,
        reset: 0,
        rule,
        count: Count::NoCount,
    }
}

fn remaining(limit: u32, value: u64) -> u32
    ensures { result ≡ limit - value }
{
    let limit = u64::from(limit);
    if value < limit {
        (limit - value) as u32
    } else {
        0
    }
}

fn status_at(under: Limit, moment: Seconds, value: u64, count: Count) -> Status
    ensures { result ≡ status_at under.limit under.unit under.shadow under.rule moment value count }
{
    let over = u64::from(under.limit) < value;
    Status {
        code: if over && !under.shadow {
            Code::OverLimit
        } else {
            Code::Ok
        },
        limit: Some(OwnLimit {
            limit: under.limit,
            unit: under.unit,
        }),
        remaining: remaining(under.limit, value),
        reset: window_keys::reset(under.unit, moment),
        rule: under.rule,
        count,
    }
}

// The status under a limit, where hits were charged on what was charged before.
fn status_after(under: Limit, moment: Seconds, before: u64, hits: u32) -> Status
    ensures { result ≡ status_at under.limit under.unit under.shadow under.rule moment (before + hits) (Before before) }
{
    let value = before.saturating_add(u64::from(hits));
    status_at(under, moment, value, Count::Before(before))
}

/// The status of a descriptor, from what its look-up found, its hits and the count of its counter. It takes no memory.
#[inline(always)]
pub fn status_for(found: Found, moment: Seconds, hits: u32, count: Count) -> Status
    requires { IsSome (status_of found moment hits count) }
    ensures { status_of found moment hits count ≡ Some result }
{
    match found {
        Found::NoRule => free_status(0, None),
        Found::Unlimited { rule } => free_status(u32::MAX, Some(rule)),
        Found::Limited {
            limit,
            unit,
            shadow,
            rule,
        } => {
            let under = Limit {
                limit,
                unit,
                shadow,
                rule,
            };
            match count {
                Count::Before(before) => status_after(under, moment, before, hits),
                Count::Seen(seen) => status_at(under, moment, seen, count),
                Count::NoCount => unreachable!(),
            }
        }
    }
}
