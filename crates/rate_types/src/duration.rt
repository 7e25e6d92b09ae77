// Durations as texts (the proto3 JSON mapping of `google.protobuf.Duration`), of whole milliseconds.
ghost use Rattle.std.specs.Prelude.{◌≡◌, ◌<◌, ◌≤◌, ◌++◌, IfOk, IfSome, length, option_map, position, string_bytes, true, ◌==◌};
ghost use Rattle.std.specs.List.{list_any, list_all};
ghost use Rattle.std.specs.Char.{is_ascii_digit};
ghost use Rattle.std.specs.Str.Parse.{digits_value};
ghost use Rattle.rate_types.specs.Durations as durations;

use crate::limits::LONGEST_DURATION;
use crate::{Millis, OutOfMemory};
use std::alloc::Global;
use thiserror::Error;

/// Why a text is no duration. They are tried in this order.
#[derive(Clone, Copy, Debug, PartialEq, Eq, Error)]
pub enum DurationFault {
    /// The text isn't 1 to 12 digits, perhaps `.` and 1 to 9 digits, and then `s`.
    #[error("not a duration")]
    Bad,
    /// It is more than 1,000,000,000 seconds.
    #[error("more than {LONGEST_DURATION} seconds")]
    TooLong,
    /// It has a digit other than 0 past the third decimal.
    #[error("finer than a millisecond")]
    TooFine,
}

fn all_digits(bytes: &[u8]) -> bool
    ensures { result ≡ list_all is_ascii_digit bytes.now }
{
    bytes.iter().all(|b| b.is_ascii_digit())
}

fn any_not_zero(bytes: &[u8]) -> bool
    ensures { result ≡ list_any durations.is_not_zero bytes.now }
{
    bytes.iter().any(|b| *b != b'0')
}

/// Whether these bytes are 1 to so many decimal digits.
pub fn is_numeral(bytes: &[u8], most: usize) -> bool
    ensures { result ≡ durations.is_numeral most bytes.now }
{
    !bytes.is_empty() && bytes.len() <= most && all_digits(bytes)
}

fn is_fraction(decimals: Option<&[u8]>) -> bool
    ensures { result ≡ durations.is_fraction (option_map (λ d. d.now) decimals.entry) }
{
    match decimals {
        None => true,
        Some(decimals) => is_numeral(decimals, 9),
    }
}

fn without_unit(bytes: &[u8]) -> Option<&[u8]>
    ensures { option_map (λ d. d.now) result ≡ durations.without_unit bytes.now }
{
    match bytes {
        [front @ .., b's'] => Some(front),
        _ => None,
    }
}

fn is_too_long(seconds: u64, decimals: &[u8]) -> bool
    ensures { result ≡ durations.is_too_long seconds decimals.now }
{
    seconds > LONGEST_DURATION || (seconds == LONGEST_DURATION && any_not_zero(decimals))
}

fn is_too_fine(decimals: &[u8]) -> bool
    ensures { result ≡ durations.is_too_fine decimals.now }
{
    match decimals {
        [_, _, _, past @ ..] => any_not_zero(past),
        _ => false,
    }
}

fn millis_of(decimals: &[u8]) -> u64
    requires { list_all is_ascii_digit decimals.now ≡ true }
    ensures value { result ≡ durations.millis_of decimals.now }
    ensures bound { result < 1000 }
{
    match decimals {
        [] => 0,
        [a] => (*a - b'0') as u64 * 100,
        [a, b] => (*a - b'0') as u64 * 100 + (*b - b'0') as u64 * 10,
        [a, b, c, ..] => { (*a - b'0') as u64 * 100 + (*b - b'0') as u64 * 10 + (*c - b'0') as u64 }
    }
}

fn point_of(text: &[u8]) -> Option<usize>
    ensures place { result ≡ position (λ b. b == 46) text.now }
    ensures within { IfSome result (λ i. i < length text.now) }
{
    text.iter().position(|b| *b == b'.')
}

fn cut_at_point(text: &[u8]) -> (&[u8], Option<&[u8]>)
    ensures before { result.0.now ≡ durations.before_point text.now }
    ensures after { option_map (λ d. d.now) result.1 ≡ durations.after_point text.now }
{
    match point_of(text) {
        None => (text, None),
        Some(point) => {
            let (front, _) = text.split_at(point);
            let (_, decimals) = text.split_at(point + 1);
            (front, Some(decimals))
        }
    }
}

// The number that digits write.
fn number(digits: &[u8]) -> u64
    requires short { length digits.now ≤ 12 }
    requires digits { list_all is_ascii_digit digits.now ≡ true }
    ensures { result ≡ digits_value 10 digits.now }
{
    let mut number = 0u64;
    let mut rest = digits;
    'digits: while let [digit, after @ ..] = rest {
        number = number * 10 + (*digit - b'0') as u64;
        rest = after;
    }
    number
}

#[tactic(auto, unfolding(crate::specs::Durations::span))]
fn span(seconds: u64, decimals: &[u8]) -> Result<Millis, DurationFault>
    requires { list_all is_ascii_digit decimals.now ≡ true }
    ensures { result ≡ durations.span seconds decimals.now }
{
    if is_too_long(seconds, decimals) {
        return Err(DurationFault::TooLong);
    }
    if is_too_fine(decimals) {
        return Err(DurationFault::TooFine);
    }
    match Millis::new(seconds * 1000 + millis_of(decimals)) {
        Some(span) => Ok(span),
        None => Err(DurationFault::TooLong),
    }
}

#[tactic(auto, unfolding(crate::specs::Durations::duration))]
fn duration_of(text: &[u8]) -> Result<Millis, DurationFault>
    ensures { result ≡ durations.duration text.now }
{
    let Some(text) = without_unit(text) else {
        return Err(DurationFault::Bad);
    };
    let (seconds, decimals) = cut_at_point(text);
    if !is_numeral(seconds, 12) || !is_fraction(decimals) {
        return Err(DurationFault::Bad);
    }
    span(number(seconds), decimals.unwrap_or(&[]))
}

/// The duration that a text writes, as `34s` or `1.500s`. It takes no memory.
pub fn read_duration(text: &str) -> Result<Millis, DurationFault>
    ensures { result ≡ durations.duration text.now }
{
    duration_of(text.as_bytes())
}

/// The text of a duration: `34s`, or with three decimals where it isn't whole seconds, as `1.500s`.
#[tactic(auto, unfolding(crate::specs::Durations::duration_text))]
pub fn print_duration(alloc: Global, value: Millis) -> Result<String, OutOfMemory>
    ensures { IfOk result (λ t. string_bytes t ≡ durations.duration_text value) }
{
    let seconds = value.get() / 1000;
    let millis = value.get() % 1000;
    if millis == 0 {
        return Ok(format!(in alloc; "{seconds}s")?);
    }
    let tenths = millis / 100;
    let hundredths = millis / 10 % 10;
    let thousandths = millis % 10;
    Ok(format!(in alloc; "{seconds}.{tenths}{hundredths}{thousandths}s")?)
}
