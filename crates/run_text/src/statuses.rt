// The answer to a check, as a record shows it.
ghost use Rattle.std.specs.Prelude.{◌≡◌, IfOk, length, map, option_map, zip};
ghost use Rattle.std.specs.Str.{bytes_eq};
ghost use Rattle.serde_json.specs.View.{view};
ghost use Rattle.run_text.specs.Found as found;
ghost use Rattle.run_text.specs.Pairs.{status_at};

use crate::members::{at, items_in, number_before_last, text_of, u32_of, whole_of};
use arrayvec::ArrayVec;
use rate_types::limits::MOST_DESCRIPTORS;
use rate_types::{OutOfMemory, OwnLimit, Seconds, Unit};
use reply_text::Statuses;
use rls_core::{Code, Count, Reply, Status};
use serde_json::Value;
use std::alloc::Global;

fn is_over(name: &str) -> bool
    ensures { result ≡ found.is_over name.now }
{
    name == "OVER_LIMIT"
}

fn code_of(name: &str) -> Code
    ensures { result ≡ found.code_of name.now }
{
    if is_over(name) {
        Code::OverLimit
    } else {
        Code::Ok
    }
}

/// The unit of a name, Day where it is another one's.
pub fn unit_of(name: &str) -> Unit
    ensures { result ≡ found.unit_of name.now }
{
    if name == "SECOND" {
        Unit::Second
    } else if name == "MINUTE" {
        Unit::Minute
    } else if name == "HOUR" {
        Unit::Hour
    } else {
        Unit::Day
    }
}

fn limit_of(value: Option<&Value>) -> Option<OwnLimit>
    ensures { result ≡ found.limit_of (option_map (λ v. view v.now) value.entry) }
{
    let Some(value) = value else {
        return None;
    };
    let limit = u32_of(value.get("requestsPerUnit"));
    let unit = unit_of(text_of(value.get("unit")));
    Some(OwnLimit { limit, unit })
}

// The time to reset, which only a limit has.
fn reset_under(limit: Option<OwnLimit>, value: Option<&Value>) -> u64
    ensures { result ≡ found.reset_under limit (option_map (λ v. view v.now) value.entry) }
{
    match limit {
        Some(_) => number_before_last(text_of(value)),
        None => 0,
    }
}

fn count_in(value: &Value) -> Count
    ensures { result ≡ found.count_in (view value.now) }
{
    match (value.get("before"), value.get("seen")) {
        (Some(before), _) => Count::Before(whole_of(Some(before))),
        (None, Some(seen)) => Count::Seen(whole_of(Some(seen))),
        (None, None) => Count::NoCount,
    }
}

#[tactic(auto, unfolding(crate::specs::Found::status_in, crate::specs::Pairs::status_at))]
fn status_at(count: &Value, value: &Value) -> Status
    ensures { result ≡ status_at count.now value.now }
{
    let code = code_of(text_of(value.get("code")));
    let limit = limit_of(value.get("currentLimit"));
    let remaining = u32_of(value.get("limitRemaining"));
    let reset = reset_under(limit, value.get("durationUntilReset"));
    let count = count_in(count);
    Status {
        code,
        limit,
        remaining,
        reset,
        rule: None,
        count,
    }
}

// Each status with its count.
fn statuses_in(
    alloc: Global,
    counts: &[Value],
    statuses: &[Value],
) -> Result<Vec<Status>, OutOfMemory>
    ensures { IfOk result (λ v. v.items ≡ found.statuses_in (map view counts.now) (map view statuses.now)) }
{
    let mut items = Vec::new(alloc);
    let both = counts.len().min(statuses.len());
    'pairs: for i in 0..both {
        items.push(status_at(&counts[i], &statuses[i]))?;
    }
    Ok(items)
}

// These statuses, where they are as few as a reply has.
fn if_few(statuses: &[Status]) -> ArrayVec<Status, MOST_DESCRIPTORS>
    ensures { result.items ≡ found.if_few statuses.now }
{
    match ArrayVec::try_from(statuses) {
        Ok(few) => few,
        Err(_) => ArrayVec::new(),
    }
}

/// The answer that counts and a reply show.
#[tactic(auto, unfolding(crate::specs::Found::answer_in))]
pub fn answer_in(
    alloc: Global,
    counts: Option<&Value>,
    reply: Option<&Value>,
) -> Result<Statuses, OutOfMemory>
    ensures { IfOk result (λ s. s
        ≡ found.answer_in (option_map (λ v. view v.now) counts.entry) (option_map (λ v. view v.now) reply.entry)) }
{
    let over = is_over(text_of(at(reply, "overallCode")));
    let statuses = statuses_in(alloc, items_in(counts), items_in(at(reply, "statuses")))?;
    let reply = Reply {
        version: 0,
        moment: Seconds::capped(0),
        over,
        statuses: if_few(statuses.as_slice()),
    };
    Statuses::of_reply(alloc, &reply)
}
