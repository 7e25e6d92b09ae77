ghost use Rattle.std.specs.Prelude.{◌≡◌, ◌↔◌, ◌+◌, ◌∷◌, ◌==◌, ◌||◌, ◌<◌, [], IsTrue, IfOk, length, map, nat_lt, slice_index_or};
ghost use Rattle.rls_core.specs.declared.status.Count.TheVariants.{Before, Seen};
ghost use Rattle.script_run.specs.Values.{AreFair, IsFair, IsFairLine, IsFairStatus, ValuesNeverFall, value_shown, values_of, values_shown};
ghost use Rattle.script_run.specs.Views.{line_view};
ghost use Rattle.run_audit.specs.Known.{Learns};

use crate::gathering::hits_of;
use crate::known::{KnownCounter, KnownValues, learn};
use rate_types::{Descriptor, OutOfMemory, Request, Seconds};
use reply_text::{Outcome, Record};
use rls_core::{Count, Status};
use script_run::Line;
use std::alloc::Global;
use std::collections::BTreeMap;
use window_keys::counter_at;

fn before_is_fair(
    values: &mut KnownValues,
    key: KnownCounter,
    limit: u32,
    before: u64,
    hits: u32,
) -> Result<bool, OutOfMemory>
    ensures { IfOk result (λ b. Learns values.old.entries values.new.entries key.worker b
        (λ known. IsFair known key.counter limit hits (Before before)) (record { counter = key.counter; seen = before + hits } ∷ [])) }
{
    let most = u64::from(limit).min(before);
    let value = u128::from(before) + u128::from(hits);
    let fair = learn(values, key, u128::from(most), value)?;
    Ok(fair)
}

// Whether a value may be seen: it is above the limit, or the hits are 0.
fn may_be_seen(limit: u32, seen: u64, hits: u32) -> bool
    ensures { result ≡ ((hits == 0) || nat_lt limit seen) }
{
    hits == 0 || u64::from(limit) < seen
}

fn seen_is_fair(
    values: &mut KnownValues,
    key: KnownCounter,
    limit: u32,
    seen: u64,
    hits: u32,
) -> Result<bool, OutOfMemory>
    ensures { IfOk result (λ b. Learns values.old.entries values.new.entries key.worker b
        (λ known. IsFair known key.counter limit hits (Seen seen)) (record { counter = key.counter; seen = seen } ∷ [])) }
{
    let may_be_seen = may_be_seen(limit, seen, hits);
    if !may_be_seen {
        return Ok(false);
    }
    let value = u128::from(seen);
    let fair = learn(values, key, value, value)?;
    Ok(fair)
}

fn status_is_fair(
    values: &mut KnownValues,
    worker: u32,
    request: &Request,
    moment: Seconds,
    descriptor: &Descriptor,
    status: &Status,
) -> Result<bool, OutOfMemory>
    ensures { IfOk result (λ b. Learns values.old.entries values.new.entries worker b
        (λ known. IsFairStatus known request.now moment descriptor.now status.now.limit status.now.count)
        (value_shown request.now moment descriptor.now status.now.limit status.now.count)) }
{
    let Some(own) = status.limit else {
        return Ok(true);
    };
    let hits = hits_of(request, descriptor);
    let counter = counter_at(request.domain(), descriptor, own.unit, moment)?;
    let key = KnownCounter { worker, counter };
    match status.count {
        Count::NoCount => Ok(true),
        Count::Before(before) => before_is_fair(values, key, own.limit, before, hits),
        Count::Seen(seen) => seen_is_fair(values, key, own.limit, seen, hits),
    }
}

fn status_at(statuses: &[Status], place: usize) -> &Status
    requires { place < length statuses.now }
    ensures { result.now ≡ slice_index_or statuses.now place result.now }
{
    &statuses[place]
}

fn reply_is_fair(
    values: &mut KnownValues,
    worker: u32,
    request: &Request,
    moment: Seconds,
    statuses: &[Status],
) -> Result<bool, OutOfMemory>
    ensures { IfOk result (λ b. Learns values.old.entries values.new.entries worker b
        (λ known. AreFair known request.now moment request.now.descriptors statuses.now)
        (values_of request.now moment request.now.descriptors statuses.now)) }
{
    let descriptors = request.descriptors();
    let number = descriptors.len().min(statuses.len());
    'statuses: for i in 0..number {
        let status = status_at(statuses, i);
        let fair = status_is_fair(values, worker, request, moment, &descriptors[i], status)?;
        if !fair {
            return Ok(false);
        }
    }
    Ok(true)
}

fn outcome_is_fair(
    values: &mut KnownValues,
    worker: u32,
    line: &Line,
    moment: Seconds,
    outcome: &Outcome,
) -> Result<bool, OutOfMemory>
    ensures { IfOk result (λ b. Learns values.old.entries values.new.entries worker b
        (λ known. IsFairLine known (line_view line.now) moment outcome.now) (values_shown (line_view line.now) moment outcome.now)) }
{
    match (line, outcome) {
        (Line::Check(request), Outcome::Checked(answer)) => {
            reply_is_fair(values, worker, request, moment, answer.items().as_slice())
        }
        _ => Ok(true),
    }
}

fn line_is_fair(values: &mut KnownValues, line: &Line, rec: &Record) -> Result<bool, OutOfMemory>
    ensures { IfOk result (λ b. Learns values.old.entries values.new.entries rec.now.worker b
        (λ known. IsFairLine known (line_view line.now) rec.now.moment rec.now.outcome)
        (values_shown (line_view line.now) rec.now.moment rec.now.outcome)) }
{
    let fair = outcome_is_fair(values, rec.worker, line, rec.moment, &rec.outcome)?;
    Ok(fair)
}

/// Whether along the records of one worker, descriptor by descriptor, the value of a counter never falls.
pub fn values_never_fall(
    alloc: Global,
    lines: &[Line],
    records: &[Record],
) -> Result<bool, OutOfMemory>
    requires { length records.now ≡ length lines.now }
    ensures { IfOk result (λ b. IsTrue b ↔ ValuesNeverFall (map line_view lines.now) records.now) }
{
    let mut values = BTreeMap::new(alloc);
    'lines: for i in 0..records.len() {
        let fair = line_is_fair(&mut values, &lines[i], &records[i])?;
        if !fair {
            return Ok(false);
        }
    }
    Ok(true)
}
