// What the members of a value show, where they may be missing or of another kind.
ghost use Rattle.std.specs.Prelude.{◌≡◌, ◌<◌, ◌^◌, option_map, fold, map};
ghost use Rattle.serde_json.specs.View.{view};
ghost use Rattle.run_text.specs.Members as members;

use rate_types::Seconds;
use serde_json::Value;

/// The member of a value.
pub fn at<'a>(value: Option<&'a Value>, name: &str) -> Option<&'a Value>
    ensures { option_map (λ v. view v.now) result ≡ members.at name.now (option_map (λ v. view v.now) value.entry) }
{
    match value {
        Some(value) => value.get(name),
        None => None,
    }
}

/// A whole number, else 0.
pub fn whole_of(value: Option<&Value>) -> u64
    ensures { result ≡ members.whole_of (option_map (λ v. view v.now) value.entry) }
{
    match value {
        Some(value) => value.as_u64().unwrap_or(0),
        None => 0,
    }
}

/// A whole number below 2^32, else 0.
pub fn u32_of(value: Option<&Value>) -> u32
    ensures { result ≡ members.u32_of (option_map (λ v. view v.now) value.entry) }
{
    let number = whole_of(value);
    if number < 4_294_967_296 {
        number as u32
    } else {
        0
    }
}

/// A moment, at most the latest one.
pub fn moment_of(value: Option<&Value>) -> Seconds
    ensures { result ≡ members.moment_of (option_map (λ v. view v.now) value.entry) }
{
    Seconds::capped(whole_of(value))
}

/// A text, else the empty one.
pub fn text_of(value: Option<&Value>) -> &str
    ensures { result.now ≡ members.text_of (option_map (λ v. view v.now) value.entry) }
{
    match value {
        Some(value) => value.as_str().unwrap_or(""),
        None => "",
    }
}

fn one_more(number: u64, digit: u8) -> u64
    ensures { result ≡ members.one_more number digit }
{
    number
        .saturating_mul(10)
        .saturating_add(u64::from(digit.saturating_sub(b'0')))
}

fn number_of(digits: &[u8]) -> u64
    ensures { result ≡ fold members.one_more 0 digits.now }
{
    digits
        .iter()
        .fold(0, |number, digit| one_more(number, *digit))
}

/// The number of all digits but for the last byte.
pub fn number_before_last(text: &str) -> u64
    ensures { result ≡ members.number_before_last text.now }
{
    match text.as_bytes() {
        [digits @ .., _] => number_of(digits),
        [] => 0,
    }
}

/// The items of a list.
#[tactic(auto, using(crate::proofs::Lists::listed_back))]
pub fn items_in<'a>(value: Option<&'a Value>) -> &'a [Value]
    ensures { map view result.now ≡ members.items_in (option_map (λ v. view v.now) value.entry) }
{
    match value {
        Some(value) => match value.as_array() {
            Some(items) => items.as_slice(),
            None => &[],
        },
        None => &[],
    }
}
