// What comes of one line.
ghost use Rattle.std.specs.Prelude.{◌≡◌, ◌++◌, IfOk, OnOk, string_bytes};
ghost use Rattle.quota_server.specs.Outcomes as outcomes;
ghost use Rattle.quota_server.specs.Servers.{AllFit, grant_in, after_grant};
ghost use Rattle.quota_server.specs.Texts.{action_text, next_action, actions_text, response_line};

use crate::server::Server;
use crate::texts::{put_action, put_refused_line, put_response_start};
use proto_json::FormFault;
use quota_pools::{ReportLine, UsageReports, read_report_line};
use quota_settings::BucketId;
use rate_types::refusals::{OTHER_DOMAIN, TIME_BACK};
use rate_types::{OutOfMemory, Place, Refused, Text};
use std::alloc::Global;

// Grants a client its share of a bucket, and puts the action by which it is told.
fn grant(
    alloc: Global,
    server: &mut Server,
    out: &mut String,
    client: &Text,
    bucket: &BucketId,
) -> Result<(), OutOfMemory>
    ensures server { OnOk result (server.new ≡ after_grant client.now bucket.now server.old) }
    ensures written { OnOk result (string_bytes out.new
        ≡ string_bytes out.old ++ action_text bucket.now (grant_in client.now bucket.now server.old)) }
    ensures fit { AllFit server.new }
{
    let grant = server.grant(alloc, client, bucket)?;
    put_action(alloc, out, bucket, grant)
}

// The same behind another one.
fn grant_next(
    alloc: Global,
    server: &mut Server,
    out: &mut String,
    client: &Text,
    bucket: &BucketId,
) -> Result<(), OutOfMemory>
    requires fit { AllFit server.old }
    ensures server { OnOk result (server.new ≡ after_grant client.now bucket.now server.old) }
    ensures written { OnOk result (string_bytes out.new
        ≡ string_bytes out.old ++ next_action (action_text bucket.now (grant_in client.now bucket.now server.old))) }
    ensures fit { AllFit server.new }
{
    out.push_str(",")?;
    grant(alloc, server, out, client, bucket)
}

// Grants a client its share of each bucket in order, and puts the actions by which they are told.
fn grant_all(
    alloc: Global,
    server: &mut Server,
    out: &mut String,
    client: &Text,
    buckets: &[BucketId],
) -> Result<(), OutOfMemory>
    requires fit { AllFit server.old }
    ensures server { OnOk result (server.new ≡ outcomes.after_grants client.now buckets.now server.old) }
    ensures written { OnOk result (string_bytes out.new
        ≡ string_bytes out.old ++ actions_text (outcomes.actions_for client.now buckets.now server.old)) }
    ensures fit { AllFit server.new }
{
    let Some((first, rest)) = buckets.split_first() else {
        return Ok(());
    };
    grant(alloc, server, out, client, first)?;
    'rest: for bucket in rest {
        grant_next(alloc, server, out, client, bucket)?;
    }
    Ok(())
}

// Whether reports name another domain than that of the pools.
fn is_of_other(server: &Server, reports: &UsageReports) -> bool
    ensures { result ≡ outcomes.is_of_other reports.now.domain server.now }
{
    !reports.domain().as_str().is_empty() && reports.domain() != server.domain()
}

// A refusal at a field of the line.
fn refused(alloc: Global, field: &str, number: u32) -> Result<Refused, OutOfMemory>
    ensures { IfOk result (λ r. r ≡ outcomes.refused_at field.now number) }
{
    let at = Place::empty(alloc).child(field)?;
    Ok(Refused { at, number })
}

// Answers the reports of a line at the present time.
#[tactic(auto, unfolding(crate::specs::Texts::response_line, crate::specs::Texts::response_end))]
fn answer(
    alloc: Global,
    server: &mut Server,
    out: &mut String,
    number: u32,
    report: &ReportLine,
) -> Result<(), OutOfMemory>
    requires fit { AllFit server.old }
    ensures server { OnOk result (server.new ≡ outcomes.after_grants report.now.client report.now.reports.buckets server.old) }
    ensures written { OnOk result (string_bytes out.new ≡ string_bytes out.old
        ++ response_line number report.now.at report.now.client
        (outcomes.actions_for report.now.client report.now.reports.buckets server.old)) }
    ensures fit { AllFit server.new }
{
    put_response_start(alloc, out, number, report.at(), report.client().as_str())?;
    grant_all(
        alloc,
        server,
        out,
        report.client(),
        report.reports().buckets(),
    )?;
    out.push_str("]}}\n")?;
    Ok(())
}

// Puts the line of a report that has no fault of its own.
fn take_report(
    alloc: Global,
    server: &mut Server,
    out: &mut String,
    number: u32,
    report: &ReportLine,
) -> Result<(), OutOfMemory>
    requires fit { AllFit server.old }
    ensures server { OnOk result
        (server.new ≡ (outcomes.outcome_by (outcomes.refusal_of report.now server.old) number report.now server.old).server) }
    ensures written { OnOk result (string_bytes out.new ≡ string_bytes out.old
        ++ (outcomes.outcome_by (outcomes.refusal_of report.now server.old) number report.now server.old).written) }
    ensures fit { AllFit server.new }
{
    if is_of_other(server, report.reports()) {
        return put_refused_line(
            alloc,
            out,
            number,
            &refused(alloc, "reports", OTHER_DOMAIN)?,
        );
    }
    if server.advance(report.at()).is_err() {
        return put_refused_line(alloc, out, number, &refused(alloc, "at", TIME_BACK)?);
    }
    answer(alloc, server, out, number, report)
}

/// What comes of a line: the line that is written for it, put behind what a text holds, and the server after it. A refused line changes
/// nothing.
#[tactic(auto, unfolding(crate::specs::Outcomes::outcome_of))]
pub fn take_bytes(
    alloc: Global,
    server: &mut Server,
    out: &mut String,
    number: u32,
    bytes: &[u8],
) -> Result<(), OutOfMemory>
    requires fit { AllFit server.old }
    ensures server { OnOk result (server.new ≡ (outcomes.outcome_of number bytes.now server.old).server) }
    ensures written { OnOk result (string_bytes out.new
        ≡ string_bytes out.old ++ (outcomes.outcome_of number bytes.now server.old).written) }
    ensures fit { AllFit server.new }
{
    match read_report_line(alloc, bytes) {
        Ok(report) => take_report(alloc, server, out, number, &report),
        Err(FormFault::Refused(refused)) => put_refused_line(alloc, out, number, &refused),
        Err(FormFault::OutOfMemory) => Err(OutOfMemory),
    }
}
