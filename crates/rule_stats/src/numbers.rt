// The numbers of a rule, and what one status adds to them.
ghost use Rattle.std.specs.Prelude.{◌≡◌, ◌+◌, ◌-◌, ◌*◌, ◌≤◌, ◌<◌, ◌^◌, min, nat_le};
ghost use Rattle.rule_stats.specs.Statistics as spec;
ghost use Rattle.rule_stats.specs.Statistics.{hits_where, near_from, is_within, is_near, is_over, nothing};
ghost use Rattle.rule_stats.specs.Sums.{plus, IsBelow};

use rls_core::{Code, Count, Status};

/// What a rule counted, in hits: the sums of the hits of its checks, and not the numbers of checks. envoyproxy/ratelimit counts the same
/// under the names that stand behind each.
#[derive(Clone, Copy)]
pub struct RuleNumbers {
    /// All hits (`total_hits`).
    pub total: u64,
    /// The hits with which the counter stood at most at the limit (`within_limit`).
    pub within: u64,
    /// Of these, the hits with which it stood above four fifths of the limit (`near_limit`).
    pub near: u64,
    /// The hits with which it stood above the limit, and those that weren't charged since it was seen above it (`over_limit`).
    pub over: u64,
    /// Of these, the hits that weren't charged (`over_limit_with_local_cache`).
    pub seen: u64,
    /// Of those over the limit, the hits that a shadow rule let pass (`shadow_mode`).
    pub shadow: u64,
}

impl RuleNumbers {
    /// Numbers that count nothing.
    pub fn nothing() -> RuleNumbers
        ensures { result ≡ nothing }
    {
        RuleNumbers {
            total: 0,
            within: 0,
            near: 0,
            over: 0,
            seen: 0,
            shadow: 0,
        }
    }

    /// These numbers and others, each added to its own. They count so few statuses that no sum is too great.
    pub(crate) fn plus(&self, other: &RuleNumbers) -> RuleNumbers
        requires these { IsBelow (2 ^ 26) self.now }
        requires others { IsBelow (2 ^ 26) other.now }
        ensures { result ≡ plus self.now other.now }
    {
        RuleNumbers {
            total: self.total + other.total,
            within: self.within + other.within,
            near: self.near + other.near,
            over: self.over + other.over,
            seen: self.seen + other.seen,
            shadow: self.shadow + other.shadow,
        }
    }
}

// How many of these hits leave the counter at most at a value.
fn hits_up_to(most: u64, before: u64, hits: u32) -> u64
    ensures number { result ≡ hits_where (λ value. nat_le value most) before hits }
    ensures few { result ≤ hits }
{
    u64::from(hits).min(most.saturating_sub(before))
}

// The greatest value of a counter that is not near its limit.
#[tactic(auto, unfolding(crate::specs::Statistics::near_from))]
fn near_from(limit: u32) -> u64
    ensures near { result ≡ near_from limit }
    ensures least { result ≤ limit }
{
    4 * u64::from(limit) / 5
}

// Of hits over the limit, those that pass all the same.
fn let_pass(code: Code, over: u64) -> u64
    ensures { result ≡ spec.let_pass code over }
{
    match code {
        Code::Ok => over,
        Code::OverLimit => 0,
    }
}

// Hits that were charged on a counter which stood at `before`.
fn numbers_charged(limit: u32, code: Code, before: u64, hits: u32) -> RuleNumbers
    ensures { result ≡ spec.numbers_charged limit code before hits }
{
    let within = hits_up_to(u64::from(limit), before, hits);
    let near = within - hits_up_to(near_from(limit), before, hits);
    let over = u64::from(hits) - within;
    RuleNumbers {
        total: u64::from(hits),
        within,
        near,
        over,
        seen: 0,
        shadow: let_pass(code, over),
    }
}

// Hits that weren't charged, since the counter was seen above the limit.
fn numbers_seen(code: Code, hits: u32) -> RuleNumbers
    ensures { result ≡ spec.numbers_seen code hits }
{
    let hits = u64::from(hits);
    RuleNumbers {
        total: hits,
        within: 0,
        near: 0,
        over: hits,
        seen: hits,
        shadow: let_pass(code, hits),
    }
}

/// What a status adds to the numbers of its rule, by the hits of its descriptor: nothing without a limit.
pub fn numbers_of(status: &Status, hits: u32) -> RuleNumbers
    ensures { result ≡ spec.numbers_of status.now hits }
{
    let Some(own) = status.limit else {
        return RuleNumbers::nothing();
    };
    match status.count {
        Count::NoCount => RuleNumbers::nothing(),
        Count::Before(before) => numbers_charged(own.limit, status.code, before, hits),
        Count::Seen(_) => numbers_seen(status.code, hits),
    }
}
