// What comes of one line.
ghost use Rattle.std.specs.Prelude.{◌≡◌, ◌++◌, map, option_map, IfOk, OnOk, Some, string_bytes};
ghost use Rattle.std.specs.List.{concat, flat_map};
ghost use Rattle.quota_stream.specs.Outcomes as outcomes;
ghost use Rattle.quota_stream.specs.Texts.{report_line};

use crate::action_answer::ActionAnswer;
use crate::line_number::LineNumber;
use crate::put_lines::{
    put_actions_line, put_connection_line, put_decision_line, put_passing_line, put_refused_line,
    put_report_line, put_time_back_line,
};
use proto_json::FormFault;
use quota_buckets::{AdvanceFault, Assigned, Buckets, Decided, NoBucket, Report};
use quota_lines::{
    BucketAction, Connection, QuotaAction, StreamEvent, StreamLine, read_stream_line,
};
use rate_types::{Millis, OutOfMemory};
use std::alloc::Global;

// Puts the lines of reports.
fn put_reports(
    alloc: Global,
    out: &mut String,
    stream: u64,
    domain: &str,
    reports: &[Report],
) -> Result<(), OutOfMemory>
    ensures { OnOk result (string_bytes out.new ≡ string_bytes out.old ++ flat_map (report_line stream domain.now) reports.now) }
{
    'reports: for report in reports {
        put_report_line(alloc, out, stream, domain, report)?;
    }
    Ok(())
}

// Puts the lines of a request that was decided.
fn put_decided(
    alloc: Global,
    out: &mut String,
    number: LineNumber,
    at: Millis,
    domain: &str,
    decided: &Decided,
) -> Result<(), OutOfMemory>
    ensures { OnOk result (string_bytes out.new ≡ string_bytes out.old ++ concat (outcomes.decided_lines number at domain.now decided.now)) }
{
    put_decision_line(alloc, out, number, at, &decided.bucket, decided.allowed)?;
    if let Some(report) = &decided.report {
        put_report_line(alloc, out, number.stream, domain, report)?;
    }
    Ok(())
}

// What an assignment did.
fn assignment_answer(assigned: Result<Assigned, NoBucket>) -> ActionAnswer
    ensures { result ≡ outcomes.assignment_answer assigned }
{
    match assigned {
        Ok(Assigned::New) => ActionAnswer::Assigned,
        Ok(Assigned::Renewed) => ActionAnswer::Renewed,
        Err(_) => ActionAnswer::NoBucket,
    }
}

// Does an action.
fn act(buckets: &mut Buckets, action: &BucketAction) -> ActionAnswer
    ensures stream { buckets.new ≡ outcomes.after_one action.now.bucket action.now.action buckets.old }
    ensures answer { result ≡ outcomes.one_answer action.now.bucket action.now.action buckets.old }
{
    match action.action() {
        QuotaAction::Assign { lifetime, strategy } => {
            assignment_answer(buckets.assign(action.bucket(), lifetime, strategy))
        }
        QuotaAction::Abandon => match buckets.abandon(action.bucket()) {
            Ok(()) => ActionAnswer::Abandoned,
            Err(_) => ActionAnswer::NoBucket,
        },
    }
}

// Does actions in order.
fn act_all(
    alloc: Global,
    buckets: &mut Buckets,
    actions: &[BucketAction],
) -> Result<Vec<ActionAnswer>, OutOfMemory>
    ensures stream { OnOk result (buckets.new ≡ outcomes.after_actions buckets.old actions.now) }
    ensures answers { IfOk result (λ v. v.items ≡ outcomes.answers_of buckets.old actions.now) }
{
    let mut answers = Vec::new(alloc);
    'actions: for action in actions {
        let answer = act(buckets, action);
        answers.push(answer)?;
    }
    Ok(answers)
}

// Does what happens at the present time, and puts its lines.
fn happen(
    alloc: Global,
    buckets: &mut Buckets,
    out: &mut String,
    number: LineNumber,
    line: &StreamLine,
) -> Result<(), OutOfMemory>
    requires { line.now.at ≡ buckets.old.time }
    ensures stream { OnOk result (buckets.new ≡ (outcomes.happened number line.now.event buckets.old).stream) }
    ensures written { OnOk result (string_bytes out.new
        ≡ string_bytes out.old ++ concat (outcomes.happened number line.now.event buckets.old).written) }
{
    let at = line.at;
    match &line.event {
        StreamEvent::Request(attributes) => {
            let decided = buckets.request(attributes)?;
            put_decided(alloc, out, number, at, buckets.domain().as_str(), &decided)
        }
        StreamEvent::Response(actions) => {
            let answers = act_all(alloc, buckets, actions.items())?;
            put_actions_line(out, number, at, &answers)
        }
        StreamEvent::Connection(connection) => {
            buckets.set_up(*connection == Connection::Up);
            put_connection_line(out, number, at, *connection)
        }
        StreamEvent::Passes => put_passing_line(out, number, at),
    }
}

// A line whose moment isn't before the last one, with the reports that fell due up to it.
fn accept(
    alloc: Global,
    buckets: &mut Buckets,
    out: &mut String,
    number: LineNumber,
    line: &StreamLine,
    reports: &[Report],
) -> Result<(), OutOfMemory>
    requires { line.now.at ≡ buckets.old.time }
    ensures stream { OnOk result (buckets.new ≡ (outcomes.happened number line.now.event buckets.old).stream) }
    ensures written { OnOk result (string_bytes out.new
        ≡ string_bytes out.old ++ concat (map (report_line number.stream buckets.old.settings.domain) reports.now
        ++ (outcomes.happened number line.now.event buckets.old).written)) }
{
    put_reports(
        alloc,
        out,
        number.stream,
        buckets.domain().as_str(),
        reports,
    )?;
    happen(alloc, buckets, out, number, line)
}

// A line whose moment is before the last one.
fn put_not_advanced(
    out: &mut String,
    number: LineNumber,
    fault: AdvanceFault,
) -> Result<(), OutOfMemory>
    ensures { OnOk result (Some (string_bytes out.new)
        ≡ option_map (λ line. string_bytes out.old ++ line) (outcomes.time_back_text number fault)) }
{
    match fault {
        AdvanceFault::TimeBack { last } => put_time_back_line(out, number, last),
        AdvanceFault::OutOfMemory => Err(OutOfMemory),
    }
}

// A line that has no fault of its own.
fn take_line(
    alloc: Global,
    buckets: &mut Buckets,
    out: &mut String,
    number: LineNumber,
    line: &StreamLine,
) -> Result<(), OutOfMemory>
    ensures stream { OnOk result (buckets.new ≡ (outcomes.in_time number line.now buckets.old).stream) }
    ensures written { OnOk result (string_bytes out.new
        ≡ string_bytes out.old ++ concat (outcomes.in_time number line.now buckets.old).written) }
{
    match buckets.advance(line.at) {
        Ok(reports) => accept(alloc, buckets, out, number, line, reports.items()),
        Err(fault) => put_not_advanced(out, number, fault),
    }
}

/// What comes of a line: the lines that are written for it, put behind what a text holds, and the buckets after it. A refused line
/// changes nothing.
#[tactic(auto, unfolding(crate::specs::Outcomes::outcome_of))]
pub fn take_bytes(
    alloc: Global,
    buckets: &mut Buckets,
    out: &mut String,
    number: LineNumber,
    bytes: &[u8],
) -> Result<(), OutOfMemory>
    ensures stream { OnOk result (buckets.new ≡ (outcomes.outcome_of number bytes.now buckets.old).stream) }
    ensures written { OnOk result (string_bytes out.new
        ≡ string_bytes out.old ++ concat (outcomes.outcome_of number bytes.now buckets.old).written) }
{
    match read_stream_line(alloc, bytes) {
        Ok(line) => take_line(alloc, buckets, out, number, &line),
        Err(FormFault::Refused(refused)) => put_refused_line(alloc, out, number, &refused),
        Err(FormFault::OutOfMemory) => Err(OutOfMemory),
    }
}
