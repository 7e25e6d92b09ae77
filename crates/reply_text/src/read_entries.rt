ghost use Rattle.std.specs.Prelude.{◌≡◌, [], Some};
ghost use Rattle.serde_json.specs.View.{view};
ghost use Rattle.rate_types.specs.Reading.{AnswersReading};
ghost use Rattle.proto_json.specs.Said.{reading_of};
ghost use Rattle.proto_json.specs.Held.{object_of, list_of, Takes};
ghost use Rattle.reply_text.specs.FieldNames as names;
ghost use Rattle.reply_text.specs.ReadRequest as reading;

use crate::entry_list::EntryList;
use crate::field_names::{ENTRIES, KEY, VALUE};
use proto_json::{Fields, FormFault, Kind, List, read_items};
use rate_types::limits::MOST_ENTRIES;
use rate_types::refusals::{REQUEST_EMPTY_KEY, REQUEST_TEXT_TOO_LONG, TOO_MANY_ENTRIES};
use rate_types::{Entry, Place, Refused, Text};
use serde_json::Value;
use std::alloc::Global;

// The entry of these texts.
#[tactic(auto, using(proto_json::specs::Laws::reading_then), unfolding(crate::specs::ReadRequest::entry_rules))]
fn entry_of(at: Place, key: Text, value: Text) -> Result<Entry, FormFault>
    ensures { AnswersReading (λ e. Some e) result (reading_of (reading.entry_rules at key value)) }
{
    if key.as_str().is_empty() {
        return Err(FormFault::Refused(Refused {
            at,
            number: REQUEST_EMPTY_KEY,
        }));
    }
    Ok(Entry { key, value })
}

// The entry of its fields.
#[tactic(auto, using(proto_json::specs::Laws::reading_then), unfolding(crate::specs::ReadRequest::entry_in))]
fn entry_in(alloc: Global, mut fields: Fields) -> Result<Entry, FormFault>
    ensures { AnswersReading (λ e. Some e) result (reading_of (reading.entry_in (object_of fields))) }
{
    let key = fields.take_short_text(KEY, REQUEST_TEXT_TOO_LONG)?;
    let value = fields.take_short_text(VALUE, REQUEST_TEXT_TOO_LONG)?;
    let at = fields.end()?;
    let key = key.unwrap_or(Text::empty(alloc));
    let value = value.unwrap_or(Text::empty(alloc));
    let entry = entry_of(at, key, value)?;
    Ok(entry)
}

// Reads an entry.
#[tactic(auto, using(proto_json::specs::Laws::reading_then), unfolding(proto_json::specs::Kinds::and_read))]
fn read_entry(alloc: Global, value: Value, at: Place) -> Result<Entry, FormFault>
    ensures { AnswersReading (λ e. Some e) result (reading_of (reading.entry at (view value))) }
{
    let fields = Fields::of(value, at)?;
    let entry = entry_in(alloc, fields)?;
    Ok(entry)
}

// The kind of the items of `entries`.
struct EntryKind;

impl Kind for EntryKind {
    ghost use Rattle.reply_text.specs.ReadRequest.{entry};

    type Read = Entry;

    ghost says = { entry };

    fn read(alloc: Global, value: Value, place: Place) -> Result<Entry, FormFault> {
        read_entry(alloc, value, place)
    }
}

// The entries of a list of at most 32 items.
#[tactic(auto, using(crate::proofs::Sizes::items_len_view, crate::proofs::Keyed::keys_there), unfolding(crate::specs::ReadRequest::entries_in))]
fn entries_in(alloc: Global, list: List) -> Result<EntryList, FormFault>
    ensures { AnswersReading (λ e. Some e) result (reading_of (reading.entries_in (list_of list))) }
{
    if list.items.len() > MOST_ENTRIES {
        return Err(FormFault::Refused(Refused {
            at: list.place,
            number: TOO_MANY_ENTRIES,
        }));
    }
    let entries = read_items::<EntryKind>(alloc, list)?;
    Ok(EntryList::of(entries))
}

/// Takes a descriptor's entries.
#[tactic(auto, using(proto_json::specs::Laws::take_and_read))]
pub fn take_entries(alloc: Global, fields: &mut Fields) -> Result<Option<EntryList>, FormFault>
    ensures { Takes (λ o. o) reading.entries_kind names.entries
        (object_of fields.old) result (object_of fields.new) }
{
    match fields.take_list(ENTRIES)? {
        Some(list) => {
            let entries = entries_in(alloc, list)?;
            Ok(Some(entries))
        }
        None => Ok(None),
    }
}
