// The charges and the sights of a run.
ghost use Rattle.std.specs.Prelude.{◌≡◌, ◌++◌, length, map, option_to_list, IfOk, OnOk, OnErr};
ghost use Rattle.rls_core.specs.Reply.{hits_of};
ghost use Rattle.script_run.specs.Views.{line_view};
ghost use Rattle.run_audit.specs.Shown.{shown_by, shown_in, shown_at, shown_of};

use crate::ShownCharge;
use rate_types::{Descriptor, OutOfMemory, Request, Seconds, Unit};
use reply_text::{Outcome, Record};
use rls_core::{Count, Status};
use script_run::Line;
use std::alloc::Global;
use window_keys::counter_at;

/// What of a status is meant: the charge that it shows, or the sight, which stands as a charge of 0 hits.
#[derive(Clone, Copy)]
pub enum Shown {
    Charges,
    Sights,
}

/// The hits of a descriptor: its own where given, else the request's.
pub fn hits_of(request: &Request, descriptor: &Descriptor) -> u32
    ensures { result ≡ hits_of request.now descriptor.now }
{
    descriptor.hits.unwrap_or(request.hits())
}

fn shown_by(
    kind: Shown,
    request: &Request,
    moment: Seconds,
    descriptor: &Descriptor,
    status: &Status,
) -> Result<Option<ShownCharge>, OutOfMemory>
    ensures { IfOk result (λ c. option_to_list c
        ≡ shown_by kind request.now moment descriptor.now status.now.limit status.now.count) }
{
    let Some(own) = status.limit else {
        return Ok(None);
    };
    let (before, hits) = match (kind, status.count) {
        (Shown::Charges, Count::Before(before)) => (before, hits_of(request, descriptor)),
        (Shown::Sights, Count::Seen(seen)) => (seen, 0),
        _ => return Ok(None),
    };
    let counter = counter_at(request.domain(), descriptor, own.unit, moment)?;
    Ok(Some(ShownCharge::new(counter, before, hits)))
}

fn add_status(
    charges: &mut Vec<ShownCharge>,
    kind: Shown,
    request: &Request,
    moment: Seconds,
    descriptor: &Descriptor,
    status: &Status,
) -> Result<(), OutOfMemory>
    ensures { OnOk result (charges.new.items ≡ charges.old.items
        ++ shown_by kind request.now moment descriptor.now status.now.limit status.now.count) }
{
    if let Some(charge) = shown_by(kind, request, moment, descriptor, status)? {
        charges.push(charge)?;
    }
    Ok(())
}

fn add_reply(
    charges: &mut Vec<ShownCharge>,
    kind: Shown,
    request: &Request,
    moment: Seconds,
    statuses: &[Status],
) -> Result<(), OutOfMemory>
    ensures { OnOk result (charges.new.items ≡ charges.old.items
        ++ shown_in kind request.now moment request.now.descriptors statuses.now) }
{
    let descriptors = request.descriptors();
    let number = descriptors.len().min(statuses.len());
    'statuses: for i in 0..number {
        add_status(
            charges,
            kind,
            request,
            moment,
            &descriptors[i],
            &statuses[i],
        )?;
    }
    Ok(())
}

fn add_line(
    charges: &mut Vec<ShownCharge>,
    kind: Shown,
    line: &Line,
    moment: Seconds,
    outcome: &Outcome,
) -> Result<(), OutOfMemory>
    ensures { OnOk result (charges.new.items ≡ charges.old.items ++ shown_at kind (line_view line.now) moment outcome.now) }
{
    match (line, outcome) {
        (Line::Check(request), Outcome::Checked(answer)) => {
            add_reply(charges, kind, request, moment, answer.items().as_slice())
        }
        _ => Ok(()),
    }
}

fn add_record(
    charges: &mut Vec<ShownCharge>,
    kind: Shown,
    line: &Line,
    rec: &Record,
) -> Result<(), OutOfMemory>
    ensures { OnOk result (charges.new.items ≡ charges.old.items ++ shown_at kind (line_view line.now) rec.now.moment rec.now.outcome) }
{
    add_line(charges, kind, line, rec.moment, &rec.outcome)
}

/// Adds what of one kind the lines of a run show.
pub fn add_shown(
    charges: &mut Vec<ShownCharge>,
    kind: Shown,
    lines: &[Line],
    records: &[Record],
) -> Result<(), OutOfMemory>
    requires { length records.now ≡ length lines.now }
    ensures { OnOk result (charges.new.items ≡ charges.old.items ++ shown_of kind (map line_view lines.now) records.now) }
{
    'lines: for i in 0..records.len() {
        add_record(charges, kind, &lines[i], &records[i])?;
    }
    Ok(())
}
