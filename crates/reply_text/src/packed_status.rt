// A status in less memory. Records are many, and nearly each has one status.
ghost use Rattle.std.specs.Prelude.{◌≡◌, ◌≤◌, ◌^◌, IfSome, IfNone};
ghost use Rattle.reply_text.specs.Packed.{count_of, limit_of, unpacked};

use rate_types::{OwnLimit, RuleId, Unit};
use rls_core::{Code, Count, Status};

/// What a status found of its counter, without the number.
#[derive(Clone, Copy)]
pub(crate) enum CountKind {
    NoCount,
    Before,
    Seen,
}

/// A status in 32 bytes, where [`Status`] has 56: its numbers stand side by side, and what tells them behind them.
#[derive(Clone, Copy)]
pub(crate) struct PackedStatus {
    count: u64,
    limit: u32,
    remaining: u32,
    reset: u32,
    rule: Option<RuleId>,
    code: Code,
    unit: Option<Unit>,
    kind: CountKind,
}

// A count as its kind and its number.
fn count_parts(count: Count) -> (CountKind, u64)
    ensures { count_of result.0 result.1 ≡ count }
{
    match count {
        Count::NoCount => (CountKind::NoCount, 0),
        Count::Before(before) => (CountKind::Before, before),
        Count::Seen(seen) => (CountKind::Seen, seen),
    }
}

fn count_of(kind: CountKind, number: u64) -> Count
    ensures { result ≡ count_of kind number }
{
    match kind {
        CountKind::NoCount => Count::NoCount,
        CountKind::Before => Count::Before(number),
        CountKind::Seen => Count::Seen(number),
    }
}

// A limit as its number and its unit, which only a limit has.
fn limit_parts(limit: Option<OwnLimit>) -> (u32, Option<Unit>)
    ensures { limit_of result.0 result.1 ≡ limit }
{
    match limit {
        Some(own) => (own.limit, Some(own.unit)),
        None => (0, None),
    }
}

fn limit_of(limit: u32, unit: Option<Unit>) -> Option<OwnLimit>
    ensures { result ≡ limit_of limit unit }
{
    match unit {
        Some(unit) => Some(OwnLimit { limit, unit }),
        None => None,
    }
}

impl PackedStatus {
    /// A status packed. None where its time to reset has more than 32 bits.
    #[inline(always)]
    pub(crate) fn of(status: &Status) -> Option<PackedStatus>
        ensures same { IfSome result (λ p. unpacked p ≡ status.now) }
        ensures wide { IfNone result (2 ^ 32 ≤ status.now.reset) }
    {
        if status.reset > u64::from(u32::MAX) {
            return None;
        }
        let (kind, count) = count_parts(status.count);
        let (limit, unit) = limit_parts(status.limit);
        Some(PackedStatus {
            count,
            limit,
            remaining: status.remaining,
            reset: status.reset as u32,
            rule: status.rule,
            code: status.code,
            unit,
            kind,
        })
    }

    /// The status.
    #[inline(always)]
    pub(crate) fn unpack(&self) -> Status
        ensures { result ≡ unpacked self.now }
    {
        Status {
            code: self.code,
            limit: limit_of(self.limit, self.unit),
            remaining: self.remaining,
            reset: u64::from(self.reset),
            rule: self.rule,
            count: count_of(self.kind, self.count),
        }
    }
}
