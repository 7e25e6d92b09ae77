ghost use Rattle.std.specs.Prelude.{◌≡◌, ◌≤◌, ◌<◌, ◌++◌, ◌∷◌, [], None, OnOk, IfOk, length, map, replicate, slice_set};
ghost use Rattle.std.specs.HashMap.{get};
ghost use Rattle.quota_settings.specs.Pairs.{same_pairs};
ghost use Rattle.quota_buckets.specs.Slots.{IsIndex, IsAgenda};
ghost use Rattle.quota_buckets.specs.Tables.{slot_at, slot_due, slot_advanced, slot_reports, each_set, reports_at, without_gaps, AllWithin};

use crate::bucket::{Bucket, advance_slot};
use crate::report::Report;
use crate::shared_id::SharedId;
use agenda::Agenda;
use quota_bucket::Advance;
use rate_types::{Millis, OutOfMemory};
use std::alloc::Global;
use std::collections::HashMap;
use std::hash::RandomState;

/// The least number of places of an agenda that have no slot when it is made.
const LEAST_ROOM: usize = 16;

/// The next moment after `time` at which a slot wants work, if there is one.
fn due_of(slot: &Option<Bucket>, time: Millis) -> Option<u64>
    ensures { result ≡ slot_due time slot.now }
{
    match slot {
        Some(bucket) => bucket.due(time),
        None => None,
    }
}

/// An agenda for the slots that aren't empty with room for as many more.
pub fn longer(alloc: Global, slots: &[Option<Bucket>], time: Millis) -> Result<Agenda, OutOfMemory>
    ensures agenda { IfOk result (λ agenda. IsAgenda time agenda (without_gaps slots.now)) }
    ensures room { IfOk result (λ agenda. length (without_gaps slots.now) < length agenda) }
{
    let mut moments = moments_of(alloc, slots, time)?;
    let taken = moments.len();
    add_free(&mut moments, taken)?;
    add_free(&mut moments, LEAST_ROOM)?;
    let agenda = Agenda::of(alloc, moments)?;
    Ok(agenda)
}

/// The next moments of the slots that aren't empty.
fn moments_of(
    alloc: Global,
    slots: &[Option<Bucket>],
    time: Millis,
) -> Result<Vec<Option<u64>>, OutOfMemory>
    ensures { IfOk result (λ moments. moments.items ≡ map (slot_due time) (without_gaps slots.now)) }
{
    let mut moments = Vec::new(alloc);
    for slot in slots {
        add_moment(&mut moments, slot, time)?;
    }
    Ok(moments)
}

/// Adds the next moment of a slot, if it isn't empty.
fn add_moment(
    moments: &mut Vec<Option<u64>>,
    slot: &Option<Bucket>,
    time: Millis,
) -> Result<(), OutOfMemory>
    ensures { OnOk result (moments.new.items ≡ moments.old.items ++ map (slot_due time) (without_gaps (slot.now ∷ []))) }
{
    if let Some(bucket) = slot {
        moments.push(bucket.due(time))?;
    }
    Ok(())
}

/// Adds places that want no work.
#[tactic(auto, using(crate::proofs::Advancing::free_more))]
fn add_free(moments: &mut Vec<Option<u64>>, count: usize) -> Result<(), OutOfMemory>
    ensures { OnOk result (moments.new.items ≡ moments.old.items ++ replicate count None) }
{
    for _ in 0..count {
        moments.push(None)?;
    }
    Ok(())
}

/// The reports that an advance sends of the buckets at some places.
pub fn reports_of(
    alloc: Global,
    slots: &[Option<Bucket>],
    places: &[usize],
    advance: &Advance,
) -> Result<Vec<Report>, OutOfMemory>
    requires { AllWithin (length slots.now) places.now }
    ensures { IfOk result (λ reports. reports.items ≡ reports_at advance.now slots.now places.now) }
{
    let most = places.len().min(slots.len());
    let mut reports = Vec::with_capacity(alloc, most)?;
    for place in places {
        report_of(alloc, &slots[*place], &mut reports, advance)?;
    }
    Ok(reports)
}

/// Adds the report that an advance sends of the bucket of a slot, if it sends one.
fn report_of(
    alloc: Global,
    slot: &Option<Bucket>,
    reports: &mut Vec<Report>,
    advance: &Advance,
) -> Result<(), OutOfMemory>
    ensures { OnOk result (reports.new.items ≡ reports.old.items ++ slot_reports advance.now slot.now) }
{
    match slot {
        Some(bucket) => bucket.report(alloc, reports, advance),
        None => Ok(()),
    }
}

/// Brings the buckets at some places to the moment of an advance, and takes the names of those that are erased out of the
/// index.
pub fn advance_each(
    slots: &mut [Option<Bucket>],
    index: &mut HashMap<SharedId, usize, RandomState>,
    places: &[usize],
    advance: &Advance,
)
    requires within { AllWithin (length slots.old) places.now }
    requires index { IsIndex (get same_pairs index.old) slots.old }
    ensures slots { slots.new ≡ each_set (λ place. slot_advanced advance.now) None slots.old places.now }
    ensures index { IsIndex (get same_pairs index.new) slots.new }
{
    for place in places {
        advance_at(slots, index, *place, advance);
    }
}

/// Brings the bucket at a place to the moment of an advance.
fn advance_at(
    slots: &mut [Option<Bucket>],
    index: &mut HashMap<SharedId, usize, RandomState>,
    place: usize,
    advance: &Advance,
)
    requires within { place < length slots.old }
    requires index { IsIndex (get same_pairs index.old) slots.old }
    ensures slots { slots.new ≡ slice_set slots.old place (slot_advanced advance.now (slot_at slots.old place)) }
    ensures index { IsIndex (get same_pairs index.new) slots.new }
{
    let slot = &mut slots[place];
    if let Some(erased) = advance_slot(slot, advance) {
        index.remove(erased.id());
    }
}

/// Sets the next moments of the buckets at some places.
pub fn plan_each(agenda: &mut Agenda, slots: &[Option<Bucket>], places: &[usize], time: Millis)
    requires slots { AllWithin (length slots.now) places.now }
    requires room { length slots.now ≤ length agenda.old }
    ensures { agenda.new ≡ each_set (λ place _. slot_due time (slot_at slots.now place)) None agenda.old places.now }
{
    for place in places {
        agenda.set(*place, due_of(&slots[*place], time));
    }
}
