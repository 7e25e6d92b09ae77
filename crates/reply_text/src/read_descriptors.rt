ghost use Rattle.std.specs.Prelude.{◌≡◌, [], Some};
ghost use Rattle.serde_json.specs.View.{view};
ghost use Rattle.rate_types.specs.Reading.{AnswersReading};
ghost use Rattle.proto_json.specs.Said.{reading_of};
ghost use Rattle.proto_json.specs.Held.{object_of, list_of, Takes};
ghost use Rattle.reply_text.specs.FieldNames as names;
ghost use Rattle.reply_text.specs.ReadRequest as reading;

use crate::descriptor_list::DescriptorList;
use crate::entry_list::EntryList;
use crate::field_names::{DESCRIPTORS, HITS_ADDEND};
use crate::read_entries::take_entries;
use crate::read_limit::take_limit;
use proto_json::{Fields, FormFault, Kind, List, read_items};
use rate_types::limits::MOST_DESCRIPTORS;
use rate_types::refusals::{NO_ENTRIES, TOO_MANY_DESCRIPTORS};
use rate_types::{Descriptor, OwnLimit, Place, Refused};
use serde_json::Value;
use std::alloc::Global;

// The descriptor of these entries.
#[tactic(auto, using(proto_json::specs::Laws::reading_then), unfolding(crate::specs::ReadRequest::descriptor_rules))]
fn descriptor_of(
    at: Place,
    entries: EntryList,
    own: Option<OwnLimit>,
    hits: Option<u32>,
) -> Result<Descriptor, FormFault>
    ensures { AnswersReading (λ d. Some d) result (reading_of (reading.descriptor_rules at entries own hits)) }
{
    if entries.is_empty() {
        return Err(FormFault::Refused(Refused {
            at,
            number: NO_ENTRIES,
        }));
    }
    Ok(Descriptor {
        entries: entries.into_entries(),
        own,
        hits,
    })
}

// The descriptor of its fields.
#[tactic(auto, using(proto_json::specs::Laws::reading_then), unfolding(crate::specs::ReadRequest::descriptor_in))]
fn descriptor_in(alloc: Global, mut fields: Fields) -> Result<Descriptor, FormFault>
    ensures { AnswersReading (λ d. Some d) result (reading_of (reading.descriptor_in (object_of fields))) }
{
    let entries = take_entries(alloc, &mut fields)?;
    let own = take_limit(&mut fields)?;
    let hits = fields.take_u32(HITS_ADDEND)?;
    let at = fields.end()?;
    let entries = entries.unwrap_or(EntryList::none(alloc));
    let descriptor = descriptor_of(at, entries, own, hits)?;
    Ok(descriptor)
}

// Reads a descriptor.
#[tactic(auto, using(proto_json::specs::Laws::reading_then), unfolding(proto_json::specs::Kinds::and_read))]
fn read_descriptor(alloc: Global, value: Value, at: Place) -> Result<Descriptor, FormFault>
    ensures { AnswersReading (λ d. Some d) result (reading_of (reading.descriptor at (view value))) }
{
    let fields = Fields::of(value, at)?;
    let descriptor = descriptor_in(alloc, fields)?;
    Ok(descriptor)
}

// The kind of the items of `descriptors`.
struct DescriptorKind;

impl Kind for DescriptorKind {
    ghost use Rattle.reply_text.specs.ReadRequest.{descriptor};

    type Read = Descriptor;

    ghost says = { descriptor };

    fn read(alloc: Global, value: Value, place: Place) -> Result<Descriptor, FormFault> {
        read_descriptor(alloc, value, place)
    }
}

// The descriptors of a list of at most 32 items.
#[tactic(auto, using(crate::proofs::Sizes::items_len_view), unfolding(crate::specs::ReadRequest::descriptors_in))]
fn descriptors_in(alloc: Global, list: List) -> Result<DescriptorList, FormFault>
    ensures { AnswersReading (λ d. Some d) result (reading_of (reading.descriptors_in (list_of list))) }
{
    if list.items.len() > MOST_DESCRIPTORS {
        return Err(FormFault::Refused(Refused {
            at: list.place,
            number: TOO_MANY_DESCRIPTORS,
        }));
    }
    let descriptors = read_items::<DescriptorKind>(alloc, list)?;
    Ok(DescriptorList::of(descriptors))
}

/// Takes a request's descriptors.
#[tactic(auto, using(proto_json::specs::Laws::take_and_read))]
pub fn take_descriptors(
    alloc: Global,
    fields: &mut Fields,
) -> Result<Option<DescriptorList>, FormFault>
    ensures { Takes (λ o. o) reading.descriptors_kind names.descriptors
        (object_of fields.old) result (object_of fields.new) }
{
    match fields.take_list(DESCRIPTORS)? {
        Some(list) => {
            let descriptors = descriptors_in(alloc, list)?;
            Ok(Some(descriptors))
        }
        None => Ok(None),
    }
}
