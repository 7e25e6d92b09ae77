// The lines that are written, each with its line feed, put behind what a text holds. After want of memory a first part may stand there.
ghost use Rattle.std.specs.Prelude.{◌≡◌, ◌++◌, OnOk, string_bytes};
ghost use Rattle.quota_stream.specs.Texts as texts;

use crate::action_answer::ActionAnswer;
use crate::line_number::LineNumber;
use crate::put_parts::{
    put_actions_start, put_at_part, put_at_start, put_connection_part, put_decision_part,
    put_line_end, put_number_start, put_refused_part, put_report_part, put_stream_end,
    put_time_back_part,
};
use quota_buckets::Report;
use quota_lines::Connection;
use quota_settings::BucketId;
use rate_types::{Millis, OutOfMemory, Refused};
use std::alloc::Global;

/// The line of a request.
#[tactic(auto, unfolding(crate::specs::Texts::decision_line))]
pub fn put_decision_line(
    alloc: Global,
    out: &mut String,
    number: LineNumber,
    at: Millis,
    bucket: &Option<BucketId>,
    allowed: bool,
) -> Result<(), OutOfMemory>
    ensures { OnOk result (string_bytes out.new ≡ string_bytes out.old ++ texts.decision_line number at bucket.now allowed) }
{
    put_at_start(out, at)?;
    put_decision_part(alloc, out, bucket, allowed)?;
    put_line_end(out, number)
}

/// The line of a report of a bucket of this domain.
#[tactic(auto, unfolding(crate::specs::Texts::report_line))]
pub fn put_report_line(
    alloc: Global,
    out: &mut String,
    stream: u64,
    domain: &str,
    report: &Report,
) -> Result<(), OutOfMemory>
    ensures { OnOk result (string_bytes out.new ≡ string_bytes out.old ++ texts.report_line stream domain.now report.now) }
{
    put_at_start(out, report.at)?;
    put_report_part(alloc, out, domain, report)?;
    put_stream_end(out, stream)
}

/// The line of a message of the quota server.
#[tactic(auto, unfolding(crate::specs::Texts::actions_line))]
pub fn put_actions_line(
    out: &mut String,
    number: LineNumber,
    at: Millis,
    answers: &[ActionAnswer],
) -> Result<(), OutOfMemory>
    ensures { OnOk result (string_bytes out.new ≡ string_bytes out.old ++ texts.actions_line number at answers.now) }
{
    put_actions_start(out, answers)?;
    put_at_part(out, at)?;
    put_line_end(out, number)
}

/// The line of a stream that is lost or comes up.
#[tactic(auto, unfolding(crate::specs::Texts::connection_line))]
pub fn put_connection_line(
    out: &mut String,
    number: LineNumber,
    at: Millis,
    connection: Connection,
) -> Result<(), OutOfMemory>
    ensures { OnOk result (string_bytes out.new ≡ string_bytes out.old ++ texts.connection_line number at connection) }
{
    put_at_start(out, at)?;
    put_connection_part(out, connection)?;
    put_line_end(out, number)
}

/// The line of time that passes.
#[tactic(auto, unfolding(crate::specs::Texts::passing_line))]
pub fn put_passing_line(out: &mut String, number: LineNumber, at: Millis) -> Result<(), OutOfMemory>
    ensures { OnOk result (string_bytes out.new ≡ string_bytes out.old ++ texts.passing_line number at) }
{
    put_at_start(out, at)?;
    put_line_end(out, number)
}

/// The line of a refused line.
#[tactic(auto, unfolding(crate::specs::Texts::refused_line))]
pub fn put_refused_line(
    alloc: Global,
    out: &mut String,
    number: LineNumber,
    refused: &Refused,
) -> Result<(), OutOfMemory>
    ensures { OnOk result (string_bytes out.new ≡ string_bytes out.old ++ texts.refused_line number refused.now) }
{
    put_number_start(out, number.line)?;
    put_refused_part(alloc, out, refused)?;
    put_stream_end(out, number.stream)
}

/// The line of one whose moment is before the last one.
#[tactic(auto, unfolding(crate::specs::Texts::time_back_line))]
pub fn put_time_back_line(
    out: &mut String,
    number: LineNumber,
    last: Millis,
) -> Result<(), OutOfMemory>
    ensures { OnOk result (string_bytes out.new ≡ string_bytes out.old ++ texts.time_back_line number last) }
{
    put_number_start(out, number.line)?;
    put_time_back_part(out, last)?;
    put_stream_end(out, number.stream)
}
