// Slots without gaps: the buckets that are there move up into the slots of those that were erased.
ghost use Rattle.std.specs.Prelude.{◌≡◌, ◌<◌, ◌+◌, OnOk, length, is_some, true};
ghost use Rattle.std.specs.HashMap.{get};
ghost use Rattle.quota_settings.specs.Pairs.{same_pairs};
ghost use Rattle.quota_buckets.specs.Slots.{AllThere, AreDistinct, ArePlaced, IsIndex, IsNamed, IsSet, IsTable};
ghost use Rattle.quota_buckets.specs.Tables.{held, without_gaps};

use crate::bucket::Bucket;
use crate::shared_id::SharedId;
use crate::slots::longer;
use agenda::Agenda;
use quota_settings::BucketId;
use rate_types::{Millis, OutOfMemory};
use std::alloc::Global;
use std::collections::HashMap;
use std::hash::RandomState;

/// Whether a slot has a bucket.
fn is_taken(slot: &Option<Bucket>) -> bool
    ensures { result ≡ is_some slot.now }
{
    slot.is_some()
}

/// Takes the empty slots out.
fn close_gaps(slots: &mut Vec<Option<Bucket>>)
    ensures { slots.new.items ≡ without_gaps slots.old.items }
{
    slots.retain(is_taken);
}

/// Sets the place of a name that the index has.
fn set_place(index: &mut HashMap<SharedId, usize, RandomState>, id: &BucketId, place: usize)
    requires { is_some (get same_pairs index.old id.now) ≡ true }
    ensures { IsSet (get same_pairs index.old) (get same_pairs index.new) id.now place }
{
    if let Some(at) = index.get_mut(id) {
        *at = place;
    }
}

/// Sets the place of the bucket in a slot.
fn place_one(
    index: &mut HashMap<SharedId, usize, RandomState>,
    slots: &[Option<Bucket>],
    place: usize,
)
    requires within { place < length slots.now }
    requires distinct { AreDistinct slots.now }
    requires names { IsNamed (get same_pairs index.old) slots.now }
    requires before { ArePlaced place (get same_pairs index.old) slots.now }
    ensures names { IsNamed (get same_pairs index.new) slots.now }
    ensures placed { ArePlaced (place + 1) (get same_pairs index.new) slots.now }
{
    if let Some(bucket) = &slots[place] {
        set_place(index, bucket.id(), place);
    }
}

/// Sets the place of each bucket in the index.
fn place_each(index: &mut HashMap<SharedId, usize, RandomState>, slots: &[Option<Bucket>])
    requires distinct { AreDistinct slots.now }
    requires there { AllThere slots.now }
    requires names { IsNamed (get same_pairs index.old) slots.now }
    ensures { IsIndex (get same_pairs index.new) slots.now }
{
    for place in 0..slots.len() {
        place_one(index, slots, place);
    }
}

/// Makes room for one more slot: where the agenda has no place for it, the empty slots go, and the agenda gets room for as many
/// slots again as are left.
pub fn make_room(
    alloc: Global,
    slots: &mut Vec<Option<Bucket>>,
    index: &mut HashMap<SharedId, usize, RandomState>,
    agenda: &mut Agenda,
    time: Millis,
) -> Result<(), OutOfMemory>
    requires { IsTable time agenda.old (get same_pairs index.old) slots.old.items }
    ensures table { IsTable time agenda.new (get same_pairs index.new) slots.new.items }
    ensures held { held slots.new.items ≡ held slots.old.items }
    ensures room { OnOk result (length slots.new.items < length agenda.new) }
{
    if slots.len() < agenda.len() {
        return Ok(());
    }
    let roomy = longer(alloc, slots, time)?;
    close_gaps(slots);
    place_each(index, slots);
    *agenda = roomy;
    Ok(())
}
