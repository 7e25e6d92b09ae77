ghost use Rattle.std.specs.Prelude.{◌≡◌, option_map, string_bytes};
ghost use Rattle.std.specs.Str.{str_eq_ignore_ascii_case};
ghost use Rattle.serde_json.specs.Find.{as_str, as_array, as_object};
ghost use Rattle.serde_json.specs.View.{view, items_view, members_view, number_view};
ghost use Rattle.proto_json.specs.Kinds as kinds;

use rate_types::refusals::{
    BAD_DURATION, DURATION_TOO_LONG, NUMBER_FORM, NUMBER_RANGE, TOO_FINE, UNKNOWN_NAME, WRONG_KIND,
};
use rate_types::{DurationFault, Unit, is_numeral};
use serde_json::{Map, Number, Value};

/// The most digits of a whole number that is a text.
pub const LONGEST_NUMERAL: usize = 20;

/// The text of a JSON string, None for any other value.
pub fn into_text(value: Value) -> Option<String>
    ensures { option_map string_bytes result ≡ as_str (view value) }
{
    match value {
        Value::String(text) => Some(text),
        _ => None,
    }
}

/// The items of a JSON array, None for any other value.
pub fn into_items(value: Value) -> Option<Vec<Value>>
    ensures { option_map (λ items. items_view items.items) result ≡ as_array (view value) }
{
    match value {
        Value::Array(items) => Some(items),
        _ => None,
    }
}

/// The members of a JSON object, None for any other value.
pub fn into_object(value: Value) -> Option<Map<String, Value>>
    ensures { option_map (λ m. members_view m.entries) result ≡ as_object (view value) }
{
    match value {
        Value::Object(members) => Some(members),
        _ => None,
    }
}

fn at_most(n: u64, greatest: u64) -> Result<u64, u32>
    ensures { result ≡ kinds.at_most greatest n }
{
    if n > greatest {
        Err(NUMBER_RANGE)
    } else {
        Ok(n)
    }
}

fn whole_number(number: &Number, greatest: u64) -> Result<u64, u32>
    ensures { result ≡ kinds.whole_number greatest (number_view number.now) }
{
    if let Some(n) = number.as_u64() {
        return at_most(n, greatest);
    }
    if number.is_f64() {
        Err(NUMBER_FORM)
    } else {
        Err(NUMBER_RANGE)
    }
}

fn whole_text(text: &str, greatest: u64) -> Result<u64, u32>
    ensures { result ≡ kinds.whole_text greatest text.now }
{
    if !is_numeral(text.as_bytes(), LONGEST_NUMERAL) {
        return Err(NUMBER_FORM);
    }
    match text.parse::<u64>() {
        Ok(n) => at_most(n, greatest),
        Err(_) => Err(NUMBER_RANGE),
    }
}

/// The whole number that a value is, or the refusal.
pub fn whole_of(value: &Value, greatest: u64) -> Result<u64, u32>
    ensures { result ≡ kinds.whole_in greatest (view value.now) }
{
    match value {
        Value::Number(number) => whole_number(number, greatest),
        Value::String(text) => whole_text(text, greatest),
        _ => Err(WRONG_KIND),
    }
}

fn is_named(text: &str, name: &str) -> bool
    ensures { result ≡ str_eq_ignore_ascii_case text.now name.now }
{
    text.eq_ignore_ascii_case(name)
}

/// The unit of this name, or the refusal.
pub fn unit_named(name: &str) -> Result<Option<Unit>, u32>
    ensures { result ≡ kinds.unit_named name.now }
{
    if is_named(name, Unit::Second.name()) {
        Ok(Some(Unit::Second))
    } else if is_named(name, Unit::Minute.name()) {
        Ok(Some(Unit::Minute))
    } else if is_named(name, Unit::Hour.name()) {
        Ok(Some(Unit::Hour))
    } else if is_named(name, Unit::Day.name()) {
        Ok(Some(Unit::Day))
    } else if is_named(name, "UNKNOWN") {
        Ok(None)
    } else {
        Err(UNKNOWN_NAME)
    }
}

/// The refusal of a text that is no duration.
pub fn duration_refusal(fault: DurationFault) -> u32
    ensures { result ≡ kinds.refusal_of fault }
{
    match fault {
        DurationFault::Bad => BAD_DURATION,
        DurationFault::TooFine => TOO_FINE,
        DurationFault::TooLong => DURATION_TOO_LONG,
    }
}
