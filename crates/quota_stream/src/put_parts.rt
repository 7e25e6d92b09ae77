// Parts of the lines that are written, put behind what a text holds. After want of memory a first part may stand there.
ghost use Rattle.std.specs.Prelude.{◌≡◌, ◌==◌, ◌++◌, [], if◌then◌else◌, OnOk, codes, decimal, string_bytes};
ghost use Rattle.quota_stream.specs.Texts as texts;

use crate::action_answer::ActionAnswer;
use crate::line_number::LineNumber;
use json_text::{put_duration, put_number, put_quoted};
use quota_buckets::Report;
use quota_lines::Connection;
use quota_settings::{BucketId, Pair};
use rate_types::{Millis, OutOfMemory, Refused};
use std::alloc::Global;

#[tactic(auto, unfolding(crate::specs::Texts::pair_text))]
fn put_pair(alloc: Global, out: &mut String, pair: &Pair) -> Result<(), OutOfMemory>
    ensures { OnOk result (string_bytes out.new ≡ string_bytes out.old ++ texts.pair_text pair.now) }
{
    put_quoted(alloc, out, "", pair.name.as_str())?;
    put_quoted(alloc, out, ":", pair.value.as_str())
}

fn put_next_pair(alloc: Global, out: &mut String, pair: &Pair) -> Result<(), OutOfMemory>
    ensures { OnOk result (string_bytes out.new ≡ string_bytes out.old ++ texts.next_pair pair.now) }
{
    out.push_str(",")?;
    put_pair(alloc, out, pair)
}

fn put_pairs(alloc: Global, out: &mut String, pairs: &[Pair]) -> Result<(), OutOfMemory>
    ensures { OnOk result (string_bytes out.new ≡ string_bytes out.old ++ texts.pairs_text pairs.now) }
{
    let Some((first, rest)) = pairs.split_first() else {
        return Ok(());
    };
    put_pair(alloc, out, first)?;
    'rest: for pair in rest {
        put_next_pair(alloc, out, pair)?;
    }
    Ok(())
}

/// The name of a bucket, as an object.
#[tactic(auto, unfolding(crate::specs::Texts::bucket_text))]
pub fn put_bucket(alloc: Global, out: &mut String, id: &BucketId) -> Result<(), OutOfMemory>
    ensures { OnOk result (string_bytes out.new ≡ string_bytes out.old ++ texts.bucket_text id.now) }
{
    out.push_str("{")?;
    put_pairs(alloc, out, id.items())?;
    out.push_str("}")?;
    Ok(())
}

// The bucket of a request, null where no settings fit it.
fn put_found(alloc: Global, out: &mut String, bucket: &Option<BucketId>) -> Result<(), OutOfMemory>
    ensures { OnOk result (string_bytes out.new ≡ string_bytes out.old ++ texts.found_text bucket.now) }
{
    if let Some(id) = bucket {
        return put_bucket(alloc, out, id);
    }
    out.push_str("null")?;
    Ok(())
}

fn decision_name(allowed: bool) -> &'static str
    ensures { result.now ≡ texts.decision_name allowed }
{
    if allowed { "ALLOW" } else { "DENY" }
}

fn connection_name(connection: Connection) -> &'static str
    ensures { result.now ≡ texts.connection_name connection }
{
    match connection {
        Connection::Lost => "LOST",
        Connection::Up => "UP",
    }
}

fn answer_text(answer: ActionAnswer) -> &'static str
    ensures { result.now ≡ texts.answer_text answer }
{
    match answer {
        ActionAnswer::Assigned => "\"ASSIGNED\"",
        ActionAnswer::Renewed => "\"RENEWED\"",
        ActionAnswer::Abandoned => "\"ABANDONED\"",
        ActionAnswer::NoBucket => "\"NO_BUCKET\"",
    }
}

fn put_next_answer(out: &mut String, answer: ActionAnswer) -> Result<(), OutOfMemory>
    ensures { OnOk result (string_bytes out.new ≡ string_bytes out.old ++ texts.next_answer answer) }
{
    out.push_str(",")?;
    out.push_str(answer_text(answer))?;
    Ok(())
}

// The answers of actions, with commas between them.
fn put_answers(out: &mut String, answers: &[ActionAnswer]) -> Result<(), OutOfMemory>
    ensures { OnOk result (string_bytes out.new ≡ string_bytes out.old ++ texts.answers_text answers.now) }
{
    let Some((first, rest)) = answers.split_first() else {
        return Ok(());
    };
    out.push_str(answer_text(*first))?;
    'rest: for answer in rest {
        put_next_answer(out, *answer)?;
    }
    Ok(())
}

// A literal and a count, and the end of its quotes, unless it is 0.
fn put_count(out: &mut String, before: &str, count: u64) -> Result<(), OutOfMemory>
    ensures { OnOk result (string_bytes out.new
        ≡ string_bytes out.old ++ (if count == 0 then [] else before.now ++ decimal count ++ codes "\"")) }
{
    if count == 0 {
        return Ok(());
    }
    put_number(out, before, count)?;
    out.push_str("\"")?;
    Ok(())
}

#[tactic(auto, unfolding(crate::specs::Texts::allowed_member))]
fn put_allowed(out: &mut String, count: u64) -> Result<(), OutOfMemory>
    ensures { OnOk result (string_bytes out.new ≡ string_bytes out.old ++ texts.allowed_member count) }
{
    put_count(out, ",\"numRequestsAllowed\":\"", count)
}

#[tactic(auto, unfolding(crate::specs::Texts::denied_member))]
fn put_denied(out: &mut String, count: u64) -> Result<(), OutOfMemory>
    ensures { OnOk result (string_bytes out.new ≡ string_bytes out.old ++ texts.denied_member count) }
{
    put_count(out, ",\"numRequestsDenied\":\"", count)
}

#[tactic(auto, unfolding(crate::specs::Texts::elapsed_member))]
fn put_elapsed(out: &mut String, elapsed: Millis) -> Result<(), OutOfMemory>
    ensures { OnOk result (string_bytes out.new ≡ string_bytes out.old ++ texts.elapsed_member elapsed) }
{
    if elapsed.get() == 0 {
        return Ok(());
    }
    put_duration(out, ",\"timeElapsed\":", elapsed)
}

// The members of a report's usage behind its bucket.
fn put_usage_members(out: &mut String, report: &Report) -> Result<(), OutOfMemory>
    ensures { OnOk result (string_bytes out.new ≡ string_bytes out.old ++ texts.usage_members report.now) }
{
    put_allowed(out, report.allowed)?;
    put_denied(out, report.denied)?;
    put_elapsed(out, report.elapsed)
}

#[tactic(auto, unfolding(crate::specs::Texts::usage_text))]
fn put_usage(alloc: Global, out: &mut String, report: &Report) -> Result<(), OutOfMemory>
    ensures { OnOk result (string_bytes out.new ≡ string_bytes out.old ++ texts.usage_text report.now) }
{
    out.push_str("{\"bucketId\":{\"bucket\":")?;
    put_bucket(alloc, out, &report.bucket)?;
    out.push_str("}")?;
    put_usage_members(out, report)?;
    out.push_str("}")?;
    Ok(())
}

#[tactic(auto, unfolding(crate::specs::Texts::usages_text))]
fn put_usages(alloc: Global, out: &mut String, report: &Report) -> Result<(), OutOfMemory>
    ensures { OnOk result (string_bytes out.new ≡ string_bytes out.old ++ texts.usages_text report.now) }
{
    out.push_str("{\"bucketQuotaUsages\":[")?;
    put_usage(alloc, out, report)?;
    out.push_str("]")?;
    Ok(())
}

/// A line that begins with its moment.
#[tactic(auto, unfolding(crate::specs::Texts::at_start))]
pub fn put_at_start(out: &mut String, at: Millis) -> Result<(), OutOfMemory>
    ensures { OnOk result (string_bytes out.new ≡ string_bytes out.old ++ texts.at_start at) }
{
    put_duration(out, "{\"at\":", at)
}

/// A line that begins with its number.
#[tactic(auto, unfolding(crate::specs::Texts::number_start))]
pub fn put_number_start(out: &mut String, line: u32) -> Result<(), OutOfMemory>
    ensures { OnOk result (string_bytes out.new ≡ string_bytes out.old ++ texts.number_start line) }
{
    put_number(out, "{\"line\":", u64::from(line))
}

/// A line that begins with what actions did.
#[tactic(auto, unfolding(crate::specs::Texts::actions_start))]
pub fn put_actions_start(out: &mut String, answers: &[ActionAnswer]) -> Result<(), OutOfMemory>
    ensures { OnOk result (string_bytes out.new ≡ string_bytes out.old ++ texts.actions_start answers.now) }
{
    out.push_str("{\"actions\":[")?;
    put_answers(out, answers)?;
    out.push_str("]")?;
    Ok(())
}

/// The moment of a line, behind others.
#[tactic(auto, unfolding(crate::specs::Texts::at_part))]
pub fn put_at_part(out: &mut String, at: Millis) -> Result<(), OutOfMemory>
    ensures { OnOk result (string_bytes out.new ≡ string_bytes out.old ++ texts.at_part at) }
{
    put_duration(out, ",\"at\":", at)
}

/// The bucket of a request, and whether it is allowed.
#[tactic(auto, unfolding(crate::specs::Texts::decision_part))]
pub fn put_decision_part(
    alloc: Global,
    out: &mut String,
    bucket: &Option<BucketId>,
    allowed: bool,
) -> Result<(), OutOfMemory>
    ensures { OnOk result (string_bytes out.new ≡ string_bytes out.old ++ texts.decision_part bucket.now allowed) }
{
    out.push_str(",\"bucket\":")?;
    put_found(alloc, out, bucket)?;
    out.push_str(",\"decision\":\"")?;
    out.push_str(decision_name(allowed))?;
    out.push_str("\"")?;
    Ok(())
}

/// What happened to the stream.
#[tactic(auto, unfolding(crate::specs::Texts::connection_part))]
pub fn put_connection_part(out: &mut String, connection: Connection) -> Result<(), OutOfMemory>
    ensures { OnOk result (string_bytes out.new ≡ string_bytes out.old ++ texts.connection_part connection) }
{
    out.push_str(",\"connection\":\"")?;
    out.push_str(connection_name(connection))?;
    out.push_str("\"")?;
    Ok(())
}

// The domain of a report, its last member.
#[tactic(auto, unfolding(crate::specs::Texts::domain_end))]
fn put_domain_end(alloc: Global, out: &mut String, domain: &str) -> Result<(), OutOfMemory>
    ensures { OnOk result (string_bytes out.new ≡ string_bytes out.old ++ texts.domain_end domain.now) }
{
    put_quoted(alloc, out, ",\"domain\":", domain)?;
    out.push_str("}")?;
    Ok(())
}

/// A report of one bucket of this domain.
#[tactic(auto, unfolding(crate::specs::Texts::report_part))]
pub fn put_report_part(
    alloc: Global,
    out: &mut String,
    domain: &str,
    report: &Report,
) -> Result<(), OutOfMemory>
    ensures { OnOk result (string_bytes out.new ≡ string_bytes out.old ++ texts.report_part domain.now report.now) }
{
    out.push_str(",\"report\":")?;
    put_usages(alloc, out, report)?;
    put_domain_end(alloc, out, domain)
}

// A literal, and then the place and the number of a refusal.
#[tactic(auto, unfolding(crate::specs::Texts::refusal_text))]
fn put_refusal(
    alloc: Global,
    out: &mut String,
    before: &str,
    refused: &Refused,
) -> Result<(), OutOfMemory>
    ensures { OnOk result (string_bytes out.new ≡ string_bytes out.old ++ (before.now ++ texts.refusal_text refused.now)) }
{
    out.push_str(before)?;
    put_quoted(alloc, out, "{\"at\":", refused.at.as_str())?;
    put_number(out, ",\"number\":", u64::from(refused.number))?;
    out.push_str("}")?;
    Ok(())
}

/// A refusal as a member.
#[tactic(auto, unfolding(crate::specs::Texts::refused_part))]
pub fn put_refused_part(
    alloc: Global,
    out: &mut String,
    refused: &Refused,
) -> Result<(), OutOfMemory>
    ensures { OnOk result (string_bytes out.new ≡ string_bytes out.old ++ texts.refused_part refused.now) }
{
    put_refusal(alloc, out, ",\"refused\":", refused)
}

/// The refusal of a moment before the last one.
#[tactic(auto, unfolding(crate::specs::Texts::time_back_part))]
pub fn put_time_back_part(out: &mut String, last: Millis) -> Result<(), OutOfMemory>
    ensures { OnOk result (string_bytes out.new ≡ string_bytes out.old ++ texts.time_back_part last) }
{
    put_duration(out, ",\"refused\":{\"at\":\"/at\",\"last\":", last)?;
    out.push_str(",\"number\":39}")?;
    Ok(())
}

/// The index of the stream, the end of a line.
#[tactic(auto, unfolding(crate::specs::Texts::stream_end))]
pub fn put_stream_end(out: &mut String, stream: u64) -> Result<(), OutOfMemory>
    ensures { OnOk result (string_bytes out.new ≡ string_bytes out.old ++ texts.stream_end stream) }
{
    put_number(out, ",\"stream\":", stream)?;
    out.push_str("}\n")?;
    Ok(())
}

/// The number of the line, and the end of it.
#[tactic(auto, unfolding(crate::specs::Texts::line_end))]
pub fn put_line_end(out: &mut String, number: LineNumber) -> Result<(), OutOfMemory>
    ensures { OnOk result (string_bytes out.new ≡ string_bytes out.old ++ texts.line_end number) }
{
    put_number(out, ",\"line\":", u64::from(number.line))?;
    put_stream_end(out, number.stream)
}
