ghost use Rattle.std.specs.Prelude.{Some};
ghost use Rattle.serde_json.specs.View.{view};
ghost use Rattle.proto_json.specs.Held.{name_of, object_of, Takes};
ghost use Rattle.rate_types.specs.Reading.{AnswersReading};
ghost use Rattle.proto_json.specs.Said.{reading_of};
ghost use Rattle.quota_settings_json.specs.ReadAttributes as reading;

use proto_json::{FieldName, Fields, FormFault, NamedMember, ShortText, read_members};
use quota_settings::{Attributes, Pair};
use rate_types::{Place, Text};
use serde_json::Value;
use std::alloc::Global;

// Attributes, by their names.
struct NamedText;

impl NamedMember for NamedText {
    ghost use Rattle.std.specs.Prelude.{refl};
    ghost use Rattle.quota_settings.specs.declared.pair.Pair.{Pair};
    ghost use Rattle.quota_settings_json.specs.ReadAttributes.{pair_named};

    type Kind = ShortText;

    type Member = Pair;

    ghost made = { pair_named };

    ghost label = { λ (p : Pair). p.name };

    fn with(name: Text, value: Text) -> Pair {
        Pair { name, value }
    }

    ghost keeps_name = { λ n v. refl };
}

// The attributes of an object of texts.
#[tactic(auto, using(crate::proofs::Rising::pairs_rise), unfolding(crate::specs::ReadAttributes::pairs_in))]
fn attributes_in(alloc: Global, object: Fields) -> Result<Attributes, FormFault>
    ensures { AnswersReading (λ a. Some a) result (reading_of (reading.pairs_in (object_of object))) }
{
    let pairs = read_members::<NamedText>(alloc, object)?;
    Ok(Attributes::sorted(pairs))
}

/// Takes a field that is an object of texts: its attributes, refused as `read_attributes` says.
#[tactic(auto, using(proto_json::specs::Laws::take_and_read))]
pub fn take_attributes(
    alloc: Global,
    fields: &mut Fields,
    field: FieldName,
) -> Result<Option<Attributes>, FormFault>
    ensures { Takes (λ o. o) reading.attributes (name_of field.entry.0.now field.entry.1.now)
        (object_of fields.old) result (object_of fields.new) }
{
    match fields.take_fields(field)? {
        Some(object) => {
            let attributes = attributes_in(alloc, object)?;
            Ok(Some(attributes))
        }
        None => Ok(None),
    }
}

/// Reads an object of texts, which stands at this place: the attributes, or the first fault of reading them, name by
/// name in the order of the names' bytes. A name of more than 1,024 bytes is refused with 18 TextTooLong at the
/// object, a longer value with 18 and a value that is no text with 5 WrongKind at the name, another value than an
/// object with 2 NotObject.
#[tactic(auto, using(proto_json::specs::Laws::reading_then), unfolding(proto_json::specs::Kinds::and_read))]
pub fn read_attributes(alloc: Global, value: Value, place: Place) -> Result<Attributes, FormFault>
    ensures { AnswersReading (λ a. Some a) result (reading_of (reading.attributes place (view value))) }
{
    let object = Fields::of(value, place)?;
    let attributes = attributes_in(alloc, object)?;
    Ok(attributes)
}
