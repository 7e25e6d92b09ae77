// Statuses of a rule.
use rate_types::{OwnLimit, RuleId, Unit};
use rls_core::{Code, Count, Status};

// The status of one hit on a counter of a rule of 5 a minute, by what it found there.
pub fn status(rule: u32, code: Code, count: Count) -> Status {
    Status {
        code,
        limit: Some(OwnLimit {
            limit: 5,
            unit: Unit::Minute,
        }),
        remaining: 0,
        reset: 60,
        rule: Some(RuleId(rule)),
        count,
    }
}

// The code of one hit that found this on such a counter.
pub fn code_after(before: u64) -> Code {
    if before < 5 {
        Code::Ok
    } else {
        Code::OverLimit
    }
}
