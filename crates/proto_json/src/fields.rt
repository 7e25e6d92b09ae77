ghost use Rattle.std.specs.Prelude.{◌≡◌, ◌≤◌, None, IfOk, IfSome, if◌then◌else◌, option_map, string_bytes};
ghost use Rattle.std.specs.Str.{bytes_eq};
ghost use Rattle.serde_json.specs.Find.{get_member};
ghost use Rattle.serde_json.specs.View.{view, members_view};
ghost use Rattle.rate_types.specs.Places.{child};
ghost use Rattle.rate_types.specs.declared.refused.Refused.{Refused};
ghost use Rattle.rate_types.specs.Reading.{AnswersReading};
ghost use Rattle.proto_json.specs.Said.{reading_of};
ghost use Rattle.proto_json.specs.Held.{object_of, list_of, placed_of, name_of, found_of, Takes};
ghost use Rattle.proto_json.specs.Fields as fields;
ghost use Rattle.proto_json.specs.Kinds as kinds;

use crate::kinds::{duration_refusal, into_items, into_object, into_text, unit_named, whole_of};
use crate::{FieldName, FormFault, List, Placed};
use rate_types::refusals::{NOT_OBJECT, TWO_NAMES, UNKNOWN_FIELD, WRONG_KIND};
use rate_types::{Fault, Millis, Place, Refused, Text, Unit, read_duration};
use serde_json::{Map, Value};

/// What stands in an object for a field, with the spelling that stands there.
#[derive(Drop)]
pub enum Standing {
    /// Neither spelling stands there.
    Absent,
    /// One spelling stands there, with this value.
    Once(&'static str, Value),
    /// Both spellings stand there.
    Twice,
}

/// An object of a message at its place, without the fields that were taken. After a refusal it is only dropped.
///
/// Each take answers None exactly where the field is absent or null. Where both spellings stand in the object, the take
/// is refused with 4 TwoNames at the lowerCamelCase name.
#[derive(Drop)]
pub struct Fields {
    place: Place,
    members: Map<String, Value>,
}

// Takes a member by its name.
fn remove(members: &mut Map<String, Value>, name: &str) -> Option<Value>
    ensures found { option_map view result ≡ get_member name.now (members_view members.old.entries) }
    ensures left { members_view members.new.entries ≡ fields.without name.now (members_view members.old.entries) }
{
    members.remove(name)
}

// Takes the members of two names, which may be one.
#[tactic(auto, using(crate::specs::Laws::get_member_without))]
fn remove_both(
    members: &mut Map<String, Value>,
    camel: &str,
    plain: &str,
) -> (Option<Value>, Option<Value>)
    ensures first { option_map view result.0 ≡ get_member camel.now (members_view members.old.entries) }
    ensures second { option_map view result.1
        ≡ (if bytes_eq camel.now plain.now then None
        else get_member plain.now (members_view members.old.entries)) }
    ensures left { members_view members.new.entries
        ≡ fields.without_both (name_of camel.now plain.now) (members_view members.old.entries) }
{
    if members.is_empty() {
        return (None, None);
    }
    let one = remove(members, camel);
    if camel == plain {
        return (one, None);
    }
    let other = remove(members, plain);
    (one, other)
}

impl Fields {
    /// The fields of an object. Another value is refused with 2 NotObject at its place.
    #[tactic(auto, unfolding(crate::specs::Held::object_of, crate::specs::Kinds::message))]
    pub fn of(value: Value, place: Place) -> Result<Fields, FormFault>
        ensures { AnswersReading (λ f. Some (object_of f)) result (reading_of (kinds.message place (view value))) }
    {
        match into_object(value) {
            Some(members) => Ok(Fields { place, members }),
            None => Err(FormFault::Refused(Refused {
                at: place,
                number: NOT_OBJECT,
            })),
        }
    }

    /// The object's place.
    #[tactic(auto, unfolding(crate::specs::Held::object_of))]
    pub fn place(&self) -> &Place
        ensures { result.now ≡ (object_of self.now).place }
    {
        &self.place
    }

    // Takes what stands for a field.
    #[tactic(auto, unfolding(crate::specs::Held::object_of, crate::specs::Fields::after))]
    fn take(&mut self, camel: &'static str, plain: &'static str) -> Standing
        ensures found { found_of result ≡ fields.find (name_of camel.now plain.now) (object_of self.old).members }
        ensures left { object_of self.new ≡ fields.after (name_of camel.now plain.now) (object_of self.old) }
    {
        match remove_both(&mut self.members, camel, plain) {
            (None, None) => Standing::Absent,
            (Some(value), None) => Standing::Once(camel, value),
            (None, Some(value)) => Standing::Once(plain, value),
            (Some(_), Some(_)) => Standing::Twice,
        }
    }

    // Takes a field's value with the spelling that stands there, where it isn't null.
    #[tactic(auto, unfolding(crate::specs::Fields::standing, crate::specs::Fields::after))]
    fn take_standing(
        &mut self,
        field: FieldName,
    ) -> Result<Option<(&'static str, Value)>, FormFault>
        ensures said { AnswersReading (option_map (λ it. (it.0.now, view it.1))) result
            (reading_of (fields.standing (name_of field.entry.0.now field.entry.1.now) (object_of self.old))) }
        ensures left { object_of self.new
            ≡ fields.after (name_of field.entry.0.now field.entry.1.now) (object_of self.old) }
    {
        let (camel, plain) = field;
        match self.take(camel, plain) {
            Standing::Absent => Ok(None),
            Standing::Once(spelling, value) => match value {
                Value::Null => Ok(None),
                value => Ok(Some((spelling, value))),
            },
            Standing::Twice => Err(self.refused(camel, TWO_NAMES)),
        }
    }

    // The refusal of a field.
    #[tactic(auto, unfolding(crate::specs::Held::object_of))]
    fn refused(&self, spelling: &str, number: u32) -> FormFault
        ensures { (refused : Refused) → result ≡ Fault.Refused refused
            → refused ≡ record { at = child (object_of self.now).place spelling.now; number = number } }
    {
        match self.place.child(spelling) {
            Ok(at) => FormFault::Refused(Refused { at, number }),
            Err(_) => FormFault::OutOfMemory,
        }
    }

    /// A text of any length. Another value is refused with 5 WrongKind.
    #[tactic(auto, using(crate::specs::Laws::take_reads), unfolding(crate::specs::Fields::after, crate::specs::Kinds::text))]
    pub fn take_text(&mut self, field: FieldName) -> Result<Option<String>, FormFault>
        ensures { Takes (option_map string_bytes) kinds.text (name_of field.entry.0.now field.entry.1.now)
            (object_of self.old) result (object_of self.new) }
    {
        let Some((spelling, value)) = self.take_standing(field)? else {
            return Ok(None);
        };
        match into_text(value) {
            Some(text) => Ok(Some(text)),
            None => Err(self.refused(spelling, WRONG_KIND)),
        }
    }

    /// A text of at most 1,024 bytes. A longer one is refused with the number `too_long`, another value with 5 WrongKind.
    #[tactic(auto, using(crate::specs::Laws::take_reads), unfolding(crate::specs::Fields::after, crate::specs::Kinds::short_text))]
    pub fn take_short_text(
        &mut self,
        field: FieldName,
        too_long: u32,
    ) -> Result<Option<Text>, FormFault>
        ensures { Takes (λ o. o) (kinds.short_text too_long) (name_of field.entry.0.now field.entry.1.now)
            (object_of self.old) result (object_of self.new) }
    {
        let Some((spelling, value)) = self.take_standing(field)? else {
            return Ok(None);
        };
        let Some(text) = into_text(value) else {
            return Err(self.refused(spelling, WRONG_KIND));
        };
        match Text::of(text) {
            Some(text) => Ok(Some(text)),
            None => Err(self.refused(spelling, too_long)),
        }
    }

    // A whole number of at most the greatest.
    #[tactic(auto, using(crate::specs::Laws::take_reads), unfolding(crate::specs::Fields::after, crate::specs::Kinds::whole))]
    fn take_whole(&mut self, field: FieldName, greatest: u64) -> Result<Option<u64>, FormFault>
        ensures said { Takes (λ o. o) (kinds.whole greatest) (name_of field.entry.0.now field.entry.1.now)
            (object_of self.old) result (object_of self.new) }
        ensures bound { IfOk result (λ o. IfSome o (λ n. n ≤ greatest)) }
    {
        let Some((spelling, value)) = self.take_standing(field)? else {
            return Ok(None);
        };
        match whole_of(&value, greatest) {
            Ok(n) => Ok(Some(n)),
            Err(refusal) => Err(self.refused(spelling, refusal)),
        }
    }

    /// A uint64, as a JSON number or a text of 1 to 20 digits. Another value is refused with 5 WrongKind, another number
    /// or text with 6 NumberForm, a whole number below 0 or above 2^64 - 1 with 7 NumberRange.
    pub fn take_u64(&mut self, field: FieldName) -> Result<Option<u64>, FormFault>
        ensures { Takes (λ o. o) kinds.uint64 (name_of field.entry.0.now field.entry.1.now)
            (object_of self.old) result (object_of self.new) }
    {
        self.take_whole(field, u64::MAX)
    }

    /// A uint32, likewise: above 4,294,967,295 it is refused with 7 NumberRange.
    pub fn take_u32(&mut self, field: FieldName) -> Result<Option<u32>, FormFault>
        ensures { Takes (λ o. o) kinds.uint32 (name_of field.entry.0.now field.entry.1.now)
            (object_of self.old) result (object_of self.new) }
    {
        match self.take_whole(field, u32::MAX as u64)? {
            Some(n) => Ok(Some(n as u32)),
            None => Ok(None),
        }
    }

    /// A unit by its name in either ASCII case; UNKNOWN is none. Another name is refused with 8 UnknownName, a value that
    /// is no text with 5 WrongKind.
    #[tactic(auto, using(crate::specs::Laws::take_reads), unfolding(crate::specs::Fields::after, crate::specs::Kinds::unit))]
    pub fn take_unit(&mut self, field: FieldName) -> Result<Option<Unit>, FormFault>
        ensures { Takes (λ o. o) kinds.unit (name_of field.entry.0.now field.entry.1.now)
            (object_of self.old) result (object_of self.new) }
    {
        let Some((spelling, value)) = self.take_standing(field)? else {
            return Ok(None);
        };
        let Some(name) = into_text(value) else {
            return Err(self.refused(spelling, WRONG_KIND));
        };
        match unit_named(&name) {
            Ok(unit) => Ok(unit),
            Err(refusal) => Err(self.refused(spelling, refusal)),
        }
    }

    /// A duration, as `34s` or `1.500s`. Another text is refused with 40 BadDuration, 42 DurationTooLong or 41 TooFine,
    /// tried in this order, a value that is no text with 5 WrongKind.
    #[tactic(auto, using(crate::specs::Laws::take_reads), unfolding(crate::specs::Fields::after, crate::specs::Kinds::duration))]
    pub fn take_duration(&mut self, field: FieldName) -> Result<Option<Millis>, FormFault>
        ensures { Takes (λ o. o) kinds.duration (name_of field.entry.0.now field.entry.1.now)
            (object_of self.old) result (object_of self.new) }
    {
        let Some((spelling, value)) = self.take_standing(field)? else {
            return Ok(None);
        };
        let Some(text) = into_text(value) else {
            return Err(self.refused(spelling, WRONG_KIND));
        };
        match read_duration(&text) {
            Ok(millis) => Ok(Some(millis)),
            Err(fault) => Err(self.refused(spelling, duration_refusal(fault))),
        }
    }

    /// Any value, with its place.
    #[tactic(auto, using(crate::specs::Laws::take_reads), unfolding(crate::specs::Held::object_of, crate::specs::Fields::after, crate::specs::Kinds::any))]
    pub fn take_value(&mut self, field: FieldName) -> Result<Option<Placed>, FormFault>
        ensures { Takes (option_map placed_of) kinds.any (name_of field.entry.0.now field.entry.1.now)
            (object_of self.old) result (object_of self.new) }
    {
        match self.take_standing(field)? {
            Some((spelling, value)) => Ok(Some(Placed {
                place: self.place.child(spelling)?,
                value,
            })),
            None => Ok(None),
        }
    }

    /// A truth value. Another value is refused with 5 WrongKind.
    #[tactic(auto, using(crate::specs::Laws::take_reads), unfolding(crate::specs::Fields::after, crate::specs::Kinds::bool))]
    pub fn take_bool(&mut self, field: FieldName) -> Result<Option<bool>, FormFault>
        ensures { Takes (λ o. o) kinds.bool (name_of field.entry.0.now field.entry.1.now)
            (object_of self.old) result (object_of self.new) }
    {
        let Some((spelling, value)) = self.take_standing(field)? else {
            return Ok(None);
        };
        match value.as_bool() {
            Some(b) => Ok(Some(b)),
            None => Err(self.refused(spelling, WRONG_KIND)),
        }
    }

    /// A list of values. Another value is refused with 5 WrongKind.
    #[tactic(auto, using(crate::specs::Laws::take_reads), unfolding(crate::specs::Held::object_of, crate::specs::Fields::after, crate::specs::Kinds::list))]
    pub fn take_list(&mut self, field: FieldName) -> Result<Option<List>, FormFault>
        ensures { Takes (option_map list_of) kinds.list (name_of field.entry.0.now field.entry.1.now)
            (object_of self.old) result (object_of self.new) }
    {
        let Some((spelling, value)) = self.take_standing(field)? else {
            return Ok(None);
        };
        match into_items(value) {
            Some(items) => Ok(Some(List {
                place: self.place.child(spelling)?,
                items,
            })),
            None => Err(self.refused(spelling, WRONG_KIND)),
        }
    }

    /// A message: the fields of an object at its place. Another value is refused with 2 NotObject.
    #[tactic(auto, using(crate::specs::Laws::take_reads), unfolding(crate::specs::Held::object_of, crate::specs::Fields::after, crate::specs::Kinds::message))]
    pub fn take_fields(&mut self, field: FieldName) -> Result<Option<Fields>, FormFault>
        ensures { Takes (option_map object_of) kinds.message (name_of field.entry.0.now field.entry.1.now)
            (object_of self.old) result (object_of self.new) }
    {
        let Some((spelling, value)) = self.take_standing(field)? else {
            return Ok(None);
        };
        match into_object(value) {
            Some(members) => Ok(Some(Fields {
                place: self.place.child(spelling)?,
                members,
            })),
            None => Err(self.refused(spelling, NOT_OBJECT)),
        }
    }

    /// Its members.
    #[tactic(auto, unfolding(crate::specs::Held::object_of))]
    pub fn into_members(self) -> (Place, Map<String, Value>)
        ensures place { result.0 ≡ (object_of self).place }
        ensures members { members_view result.1.entries ≡ (object_of self).members }
    {
        (self.place, self.members)
    }

    /// The object's place, where no field is left. Where one is, the least such name by bytes is refused with 3
    /// UnknownField.
    #[tactic(auto, unfolding(crate::specs::Held::object_of, crate::specs::Fields::ends))]
    pub fn end(self) -> Result<Place, FormFault>
        ensures { AnswersReading (λ p. p) result (reading_of (fields.ends (object_of self))) }
    {
        match self.members.iter().next() {
            None => Ok(self.place),
            Some((name, _)) => Err(self.refused(name, UNKNOWN_FIELD)),
        }
    }
}
