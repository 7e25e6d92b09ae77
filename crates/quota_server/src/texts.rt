// The lines that a quota server writes, each with its line feed, put behind what a text holds. After want of memory a first part may
// stand there.
ghost use Rattle.std.specs.Prelude.{◌≡◌, ◌++◌, OnOk, codes, decimal, string_bytes};
ghost use Rattle.quota_stream.specs.Texts.{at_start};
ghost use Rattle.quota_server.specs.Texts as texts;

use crate::grant::Grant;
use json_text::{put_duration, put_number, put_quoted};
use quota_settings::BucketId;
use quota_stream::{put_at_start, put_bucket, put_number_start, put_refused_part};
use rate_types::{Millis, OutOfMemory, Refused, Unit};
use std::alloc::Global;

// A literal and a number, and the end of its quotes before another member.
fn put_before_others(out: &mut String, before: &str, number: u64) -> Result<(), OutOfMemory>
    ensures { OnOk result (string_bytes out.new ≡ string_bytes out.old ++ (before.now ++ decimal number ++ codes "\",")) }
{
    put_number(out, before, number)?;
    out.push_str("\",")?;
    Ok(())
}

#[tactic(auto, unfolding(crate::specs::Texts::count_member))]
fn put_count(out: &mut String, count: u64) -> Result<(), OutOfMemory>
    ensures { OnOk result (string_bytes out.new ≡ string_bytes out.old ++ texts.count_member count) }
{
    if count == 0 {
        return Ok(());
    }
    put_before_others(out, "\"requestsPerTimeUnit\":\"", count)
}

#[tactic(auto, unfolding(crate::specs::Texts::unit_end))]
fn put_unit_end(out: &mut String, unit: Unit) -> Result<(), OutOfMemory>
    ensures { OnOk result (string_bytes out.new ≡ string_bytes out.old ++ texts.unit_end unit) }
{
    out.push_str("\"timeUnit\":\"")?;
    out.push_str(unit.name())?;
    out.push_str("\"}")?;
    Ok(())
}

#[tactic(auto, unfolding(crate::specs::Texts::limit_members))]
fn put_limit(out: &mut String, count: u64, unit: Unit) -> Result<(), OutOfMemory>
    ensures { OnOk result (string_bytes out.new ≡ string_bytes out.old ++ texts.limit_members count unit) }
{
    put_count(out, count)?;
    put_unit_end(out, unit)
}

fn put_strategy(out: &mut String, count: u64, unit: Unit) -> Result<(), OutOfMemory>
    ensures { OnOk result (string_bytes out.new ≡ string_bytes out.old ++ texts.strategy_text count unit) }
{
    out.push_str("{\"requestsPerTimeUnit\":{")?;
    put_limit(out, count, unit)?;
    out.push_str("}")?;
    Ok(())
}

#[tactic(auto, unfolding(crate::specs::Texts::assignment_text, crate::specs::Texts::lifetime_start))]
fn put_assignment(
    out: &mut String,
    count: u64,
    unit: Unit,
    lifetime: Millis,
) -> Result<(), OutOfMemory>
    ensures { OnOk result (string_bytes out.new ≡ string_bytes out.old ++ texts.assignment_text count unit lifetime) }
{
    put_duration(out, "{\"assignmentTimeToLive\":", lifetime)?;
    out.push_str(",\"rateLimitStrategy\":")?;
    put_strategy(out, count, unit)?;
    out.push_str("}")?;
    Ok(())
}

#[tactic(auto, unfolding(crate::specs::Texts::bucket_member))]
fn put_bucket_member(alloc: Global, out: &mut String, bucket: &BucketId) -> Result<(), OutOfMemory>
    ensures { OnOk result (string_bytes out.new ≡ string_bytes out.old ++ texts.bucket_member bucket.now) }
{
    out.push_str("\"bucketId\":{\"bucket\":")?;
    put_bucket(alloc, out, bucket)?;
    out.push_str("}")?;
    Ok(())
}

#[tactic(auto, unfolding(crate::specs::Texts::assignment_end))]
fn put_assignment_end(
    out: &mut String,
    count: u64,
    unit: Unit,
    lifetime: Millis,
) -> Result<(), OutOfMemory>
    ensures { OnOk result (string_bytes out.new ≡ string_bytes out.old ++ texts.assignment_end count unit lifetime) }
{
    out.push_str(",\"quotaAssignmentAction\":")?;
    put_assignment(out, count, unit, lifetime)?;
    out.push_str("}")?;
    Ok(())
}

/// The action on a bucket by which a grant is told.
#[tactic(auto, unfolding(crate::specs::Texts::action_text))]
pub fn put_action(
    alloc: Global,
    out: &mut String,
    bucket: &BucketId,
    grant: Grant,
) -> Result<(), OutOfMemory>
    ensures { OnOk result (string_bytes out.new ≡ string_bytes out.old ++ texts.action_text bucket.now grant) }
{
    match grant {
        Grant::NoPool => {
            out.push_str("{\"abandonAction\":{},")?;
            put_bucket_member(alloc, out, bucket)?;
            out.push_str("}")?;
            Ok(())
        }
        Grant::Share {
            count,
            unit,
            lifetime,
        } => {
            out.push_str("{")?;
            put_bucket_member(alloc, out, bucket)?;
            put_assignment_end(out, count, unit, lifetime)
        }
    }
}

#[tactic(auto, unfolding(crate::specs::Texts::client_part))]
fn put_client(alloc: Global, out: &mut String, client: &str) -> Result<(), OutOfMemory>
    ensures { OnOk result (string_bytes out.new ≡ string_bytes out.old ++ texts.client_part client.now) }
{
    put_quoted(alloc, out, ",\"client\":", client)
}

/// The line of a client's reports, up to its actions.
#[tactic(auto, unfolding(crate::specs::Texts::line_part))]
pub fn put_response_start(
    alloc: Global,
    out: &mut String,
    line: u32,
    at: Millis,
    client: &str,
) -> Result<(), OutOfMemory>
    ensures { OnOk result (string_bytes out.new ≡ string_bytes out.old
        ++ (at_start at ++ texts.client_part client.now ++ texts.line_part line ++ codes ",\"response\":{\"bucketAction\":[")) }
{
    put_at_start(out, at)?;
    put_client(alloc, out, client)?;
    put_number(out, ",\"line\":", u64::from(line))?;
    out.push_str(",\"response\":{\"bucketAction\":[")?;
    Ok(())
}

/// The line of a refused line.
#[tactic(auto, unfolding(crate::specs::Texts::refused_line))]
pub fn put_refused_line(
    alloc: Global,
    out: &mut String,
    line: u32,
    refused: &Refused,
) -> Result<(), OutOfMemory>
    ensures { OnOk result (string_bytes out.new ≡ string_bytes out.old ++ texts.refused_line line refused.now) }
{
    put_number_start(out, line)?;
    put_refused_part(alloc, out, refused)?;
    out.push_str("}\n")?;
    Ok(())
}
