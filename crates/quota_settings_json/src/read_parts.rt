ghost use Rattle.std.specs.Prelude.{Some};
ghost use Rattle.serde_json.specs.View.{view};
ghost use Rattle.proto_json.specs.Held.{object_of, Takes};
ghost use Rattle.rate_types.specs.Reading.{AnswersReading};
ghost use Rattle.proto_json.specs.Said.{reading_of};
ghost use Rattle.quota_settings_json.specs.FieldNames as names;
ghost use Rattle.quota_settings_json.specs.ReadParts as reading;

use crate::field_names::{ATTRIBUTE, BUCKET_ID_BUILDER, STRING_VALUE};
use crate::part_list::PartList;
use proto_json::{Fields, FormFault, Kind, NamedMember, read_members};
use quota_settings::{Part, PartSource};
use rate_types::refusals::{PART_KIND, TEXT_TOO_LONG};
use rate_types::{Place, Refused, Text};
use serde_json::Value;
use std::alloc::Global;

// Where a part's value comes from, of the two fields that may say so.
fn source_of(
    at: Place,
    text: Option<Text>,
    attribute: Option<Text>,
) -> Result<PartSource, FormFault>
    ensures { AnswersReading (λ s. Some s) result (reading_of (reading.source_rules at text attribute)) }
{
    match (text, attribute) {
        (Some(text), None) => Ok(PartSource::Fixed(text)),
        (None, Some(name)) => Ok(PartSource::Attribute(name)),
        _ => Err(FormFault::Refused(Refused {
            at,
            number: PART_KIND,
        })),
    }
}

// Where a part's value comes from, of its fields.
#[tactic(auto, using(proto_json::specs::Laws::reading_then), unfolding(crate::specs::ReadParts::source_in))]
fn source_in(mut fields: Fields) -> Result<PartSource, FormFault>
    ensures { AnswersReading (λ s. Some s) result (reading_of (reading.source_in (object_of fields))) }
{
    let text = fields.take_short_text(STRING_VALUE, TEXT_TOO_LONG)?;
    let attribute = fields.take_short_text(ATTRIBUTE, TEXT_TOO_LONG)?;
    let at = fields.end()?;
    let source = source_of(at, text, attribute)?;
    Ok(source)
}

// Where a part's value comes from.
#[tactic(auto, using(proto_json::specs::Laws::reading_then), unfolding(proto_json::specs::Kinds::and_read))]
fn read_source(value: Value, at: Place) -> Result<PartSource, FormFault>
    ensures { AnswersReading (λ s. Some s) result (reading_of (reading.source at (view value))) }
{
    let fields = Fields::of(value, at)?;
    let source = source_in(fields)?;
    Ok(source)
}

// The kind of what a part's value comes from.
struct SourceKind;

impl Kind for SourceKind {
    ghost use Rattle.quota_settings_json.specs.ReadParts.{source};

    type Read = PartSource;

    ghost says = { source };

    fn read(_: Global, value: Value, place: Place) -> Result<PartSource, FormFault> {
        read_source(value, place)
    }
}

// The parts of a builder, by their names.
struct NamedPart;

impl NamedMember for NamedPart {
    ghost use Rattle.std.specs.Prelude.{refl};
    ghost use Rattle.quota_settings.specs.Parts.{NamePart};
    ghost use Rattle.quota_settings_json.specs.ReadParts.{part_named};

    type Kind = SourceKind;

    type Member = Part;

    ghost made = { part_named };

    ghost label = { λ (p : NamePart). p.name };

    fn with(name: Text, source: PartSource) -> Part {
        Part::of(name, source)
    }

    ghost keeps_name = { λ n v. refl };
}

// The parts of an object of parts.
#[tactic(auto, using(crate::proofs::Rising::parts_rise), unfolding(crate::specs::ReadParts::parts_in))]
fn parts_in(alloc: Global, object: Fields) -> Result<PartList, FormFault>
    ensures { AnswersReading (λ p. Some p) result (reading_of (reading.parts_in (object_of object))) }
{
    let parts = read_members::<NamedPart>(alloc, object)?;
    Ok(PartList::sorted(parts))
}

// Takes the parts of a builder.
#[tactic(auto, using(proto_json::specs::Laws::take_and_read))]
fn take_parts(alloc: Global, fields: &mut Fields) -> Result<Option<PartList>, FormFault>
    ensures { Takes (λ o. o) reading.parts_kind names.bucket_id_builder
        (object_of fields.old) result (object_of fields.new) }
{
    match fields.take_fields(BUCKET_ID_BUILDER)? {
        Some(object) => {
            let parts = parts_in(alloc, object)?;
            Ok(Some(parts))
        }
        None => Ok(None),
    }
}

// The parts of a builder's fields.
#[tactic(auto, using(proto_json::specs::Laws::reading_then), unfolding(crate::specs::ReadParts::builder_in))]
fn parts_of(alloc: Global, mut fields: Fields) -> Result<PartList, FormFault>
    ensures { AnswersReading (λ p. Some p) result (reading_of (reading.builder_in (object_of fields))) }
{
    let parts = take_parts(alloc, &mut fields)?;
    let _ = fields.end()?;
    Ok(parts.unwrap_or(PartList::none(alloc)))
}

/// Takes the parts of a bucket's name.
#[tactic(auto, using(proto_json::specs::Laws::take_and_read))]
pub fn take_builder(alloc: Global, fields: &mut Fields) -> Result<Option<PartList>, FormFault>
    ensures { Takes (λ o. o) reading.builder names.bucket_id_builder
        (object_of fields.old) result (object_of fields.new) }
{
    match fields.take_fields(BUCKET_ID_BUILDER)? {
        Some(builder) => {
            let parts = parts_of(alloc, builder)?;
            Ok(Some(parts))
        }
        None => Ok(None),
    }
}
