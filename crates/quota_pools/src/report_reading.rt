ghost use Rattle.std.specs.Prelude.{◌≡◌, [], Some, unwrap_or};
ghost use Rattle.serde_json.specs.View.{view};
ghost use Rattle.proto_json.specs.Held.{object_of, Takes};
ghost use Rattle.rate_types.specs.Reading.{AnswersReading};
ghost use Rattle.proto_json.specs.Said.{reading_of};
ghost use Rattle.quota_pools.specs.FieldNames as names;
ghost use Rattle.quota_pools.specs.ReadReport as reading;

use crate::field_names::{AT, CLIENT, DOMAIN, REPORTS};
use crate::read_usage::take_usages;
use crate::report_line::{BucketIds, ReportLine, UsageReports};
use proto_json::{Fields, FormFault, parse};
use rate_types::refusals::{NO_CLIENT, NO_TIME, TEXT_TOO_LONG};
use rate_types::{Millis, Place, Refused, Text};
use serde_json::Value;
use std::alloc::Global;

// The reports of their fields.
#[tactic(auto, using(proto_json::specs::Laws::reading_then), unfolding(crate::specs::ReadReport::reports_in))]
fn reports_in(alloc: Global, mut fields: Fields) -> Result<UsageReports, FormFault>
    ensures { AnswersReading (λ r. Some r) result (reading_of (reading.reports_in (object_of fields))) }
{
    let domain = fields.take_short_text(DOMAIN, TEXT_TOO_LONG)?;
    let usages = take_usages(alloc, &mut fields)?;
    let _ = fields.end()?;
    let domain = domain.unwrap_or(Text::empty(alloc));
    let buckets = BucketIds::of(usages.unwrap_or(Vec::new(alloc)));
    Ok(UsageReports::of(domain, buckets))
}

// Takes the reports of a line.
#[tactic(auto, using(proto_json::specs::Laws::take_and_read))]
fn take_reports(alloc: Global, fields: &mut Fields) -> Result<Option<UsageReports>, FormFault>
    ensures { Takes (λ o. o) reading.reports names.reports
        (object_of fields.old) result (object_of fields.new) }
{
    match fields.take_fields(REPORTS)? {
        Some(reports) => {
            let reports = reports_in(alloc, reports)?;
            Ok(Some(reports))
        }
        None => Ok(None),
    }
}

// The line of these values, where its own rules hold.
#[tactic(auto, using(proto_json::specs::Laws::reading_then), unfolding(crate::specs::ReadReport::report_rules))]
fn line_of(
    place: Place,
    at: Option<Millis>,
    client: Text,
    reports: UsageReports,
) -> Result<ReportLine, FormFault>
    ensures { AnswersReading (λ l. Some l) result
        (reading_of (reading.report_rules place at client reports)) }
{
    let Some(at) = at else {
        return Err(FormFault::Refused(Refused {
            at: place,
            number: NO_TIME,
        }));
    };
    if client.as_str().is_empty() {
        return Err(FormFault::Refused(Refused {
            at: place,
            number: NO_CLIENT,
        }));
    }
    Ok(ReportLine::of(at, client, reports))
}

// The line of its fields.
#[tactic(auto, using(proto_json::specs::Laws::reading_then), unfolding(crate::specs::ReadReport::report_in))]
fn line_in(alloc: Global, mut fields: Fields) -> Result<ReportLine, FormFault>
    ensures { AnswersReading (λ l. Some l) result (reading_of (reading.report_in (object_of fields))) }
{
    let at = fields.take_duration(AT)?;
    let client = fields.take_short_text(CLIENT, TEXT_TOO_LONG)?;
    let reports = take_reports(alloc, &mut fields)?;
    let place = fields.end()?;
    let client = client.unwrap_or(Text::empty(alloc));
    let reports = reports.unwrap_or(UsageReports::of(Text::empty(alloc), BucketIds::new(alloc)));
    let line = line_of(place, at, client, reports)?;
    Ok(line)
}

// The line of an object at this place.
#[tactic(auto, using(proto_json::specs::Laws::reading_then), unfolding(crate::specs::ReadReport::report_said))]
fn line_at(alloc: Global, value: Value, place: Place) -> Result<ReportLine, FormFault>
    ensures { AnswersReading (λ l. Some l) result (reading_of (reading.report_said place (view value))) }
{
    let fields = Fields::of(value, place)?;
    let line = line_in(alloc, fields)?;
    Ok(line)
}

/// Reads a line in which a client reports its usage. It answers the line that the bytes spell, or its first fault: 1 BadJson
/// where they are no JSON, 36 NoTime where the moment is absent, 50 NoClient where the client is absent or empty, at a usage 32
/// NoBucketId where its bucket has no name, 37 TooManyParts where it has over 32, and those of attributes and every message.
#[tactic(auto, using(proto_json::specs::Laws::reading_then), unfolding(crate::specs::ReadReport::report_line))]
pub fn read_report_line(alloc: Global, bytes: &[u8]) -> Result<ReportLine, FormFault>
    ensures { AnswersReading (λ l. Some l) result (reading_of (reading.report_line bytes.now)) }
{
    let value = parse(alloc, bytes)?;
    let line = line_at(alloc, value, Place::empty(alloc))?;
    Ok(line)
}
