ghost use Rattle.std.specs.Prelude.{◌≡◌, ◌≢◌, ◌≤◌, [], Some, IfOk, length};
ghost use Rattle.std.specs.List.{All};
ghost use Rattle.serde_json.specs.View.{view};
ghost use Rattle.proto_json.specs.Held.{object_of, list_of, Takes};
ghost use Rattle.rate_types.specs.Reading.{AnswersReading};
ghost use Rattle.proto_json.specs.Said.{reading_of};
ghost use Rattle.config_json.specs.FieldNames as names;
ghost use Rattle.config_json.specs.Rules as rules;

use crate::field_names::{NAME, REPLACES};
use crate::replaced::Replaced;
use proto_json::{Fields, FormFault, Kind, List, read_items, read_text};
use rate_types::limits::MOST_REPLACED;
use rate_types::refusals::{TEXT_TOO_LONG, TOO_MANY_REPLACES};
use rate_types::{Place, Refused, Text};
use serde_json::Value;
use std::alloc::Global;

// The name in an object that names a rule.
#[tactic(auto, using(proto_json::specs::Laws::reading_then), unfolding(crate::specs::Rules::named))]
fn read_named(alloc: Global, mut fields: Fields) -> Result<Text, FormFault>
    ensures { AnswersReading (λ t. Some t) result (reading_of (rules.named (object_of fields))) }
{
    let name = fields.take_short_text(NAME, TEXT_TOO_LONG)?;
    let _ = fields.end()?;
    let name = name.unwrap_or(Text::empty(alloc));
    Ok(name)
}

// The name in a value that is such an object.
#[tactic(auto, using(proto_json::specs::Laws::reading_then), unfolding(crate::specs::Rules::object_named, proto_json::specs::Kinds::and_read))]
fn read_object(alloc: Global, value: Value, place: Place) -> Result<Text, FormFault>
    ensures { AnswersReading (λ t. Some t) result (reading_of (rules.object_named place (view value))) }
{
    let fields = Fields::of(value, place)?;
    let name = read_named(alloc, fields)?;
    Ok(name)
}

// The name of a replaced rule.
#[tactic(auto, unfolding(crate::specs::Rules::replaced))]
fn read_replaced(alloc: Global, value: Value, place: Place) -> Result<Text, FormFault>
    ensures { AnswersReading (λ t. Some t) result (reading_of (rules.replaced place (view value))) }
{
    match value {
        Value::Object(members) => read_object(alloc, Value::Object(members), place),
        value => read_text(value, place),
    }
}

// The kind of the items of `replaces`.
struct ReplacedName;

impl Kind for ReplacedName {
    ghost use Rattle.config_json.specs.Rules.{replaced};

    type Read = Text;

    ghost says = { replaced };

    fn read(alloc: Global, value: Value, place: Place) -> Result<Text, FormFault> {
        read_replaced(alloc, value, place)
    }
}

// Whether a name isn't empty.
fn is_there(name: &Text) -> bool
    ensures { result ≡ rules.is_there name.now }
{
    !name.as_str().is_empty()
}

// The names in a list of replaced rules that aren't empty.
#[tactic(auto, using(proto_json::specs::Laws::reading_then, crate::proofs::Replaces::filter_few), unfolding(crate::specs::Rules::names_in))]
fn read_names(alloc: Global, list: List) -> Result<Vec<Text>, FormFault>
    ensures names { AnswersReading (λ v. Some v.items) result (reading_of (rules.names_in (list_of list))) }
    ensures few { IfOk result (λ v. length v.items ≤ length list.items.items) }
    ensures there { IfOk result (λ v. All (λ n. n ≢ []) v.items) }
{
    let mut names = read_items::<ReplacedName>(alloc, list)?;
    names.retain(is_there);
    Ok(names)
}

// The names in a list of at most 32 replaced rules.
#[tactic(auto, using(crate::proofs::Replaces::items_len_view), unfolding(crate::specs::Rules::all_replaced))]
fn read_all(alloc: Global, list: List) -> Result<Replaced, FormFault>
    ensures { AnswersReading (λ r. Some r) result (reading_of (rules.all_replaced (list_of list))) }
{
    if list.items.len() > MOST_REPLACED {
        return Err(FormFault::Refused(Refused {
            at: list.place,
            number: TOO_MANY_REPLACES,
        }));
    }
    let names = read_names(alloc, list)?;
    Ok(Replaced::of(names))
}

/// Takes the names of the rules that a policy replaces.
#[tactic(auto, using(proto_json::specs::Laws::take_and_read))]
pub fn take_replaced(alloc: Global, fields: &mut Fields) -> Result<Option<Replaced>, FormFault>
    ensures { Takes (λ o. o) rules.replaced_kind names.replaces
        (object_of fields.old) result (object_of fields.new) }
{
    match fields.take_list(REPLACES)? {
        Some(list) => {
            let replaced = read_all(alloc, list)?;
            Ok(Some(replaced))
        }
        None => Ok(None),
    }
}
