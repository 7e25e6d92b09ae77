ghost use Rattle.std.specs.Prelude.{◌≡◌, Some, IfOk, length};
ghost use Rattle.serde_json.specs.View.{view, items_view};
ghost use Rattle.rate_types.specs.Reading.{AnswersReading};
ghost use Rattle.proto_json.specs.Said.{reading_of};
ghost use Rattle.proto_json.specs.Held.{list_of};
ghost use Rattle.proto_json.specs.Lists.{each_item};

use crate::{FormFault, List};
use rate_types::Place;
use serde_json::Value;
use std::alloc::Global;

/// A kind of value: how it is read, wherever it stands in a message.
pub trait Kind {
    ghost use Rattle.std.specs.Prelude.{List, ℕ, Option, Some};
    ghost use Rattle.serde_json.specs.Data.{Data};
    ghost use Rattle.serde_json.specs.View.{view};
    ghost use Rattle.rate_types.specs.Reading.{AnswersReading};
    ghost use Rattle.proto_json.specs.Said.{Said, reading_of};

    /// What is read.
    type Read: Drop;

    /// What a value of this kind says at its place.
    ghost says: { List ℕ → Data → Said (Option Self.Read) };

    /// Reads the value at this place.
    fn read(alloc: Global, value: Value, place: Place) -> Result<Self::Read, FormFault>
        ensures { AnswersReading (λ x. Some x) result (reading_of (says place (view value))) };
}

/// Reads the items of a list, one after the other.
pub fn read_items<K: Kind>(alloc: Global, list: List) -> Result<Vec<K::Read>, FormFault>
    ensures said { AnswersReading (λ v. Some v.items) result (reading_of (each_item K.says (list_of list))) }
    ensures count { IfOk result (λ v. length v.items ≡ length list.items.items) }
{
    let mut found = Vec::new(alloc);
    let mut index = 0u64;
    'items: for value in list.items {
        let at = list.place.item(alloc, index)?;
        let item = match K::read(alloc, value, at) {
            Ok(item) => item,
            Err(fault) => return Err(fault),
        };
        found.push(item)?;
        index += 1;
    }
    Ok(found)
}
