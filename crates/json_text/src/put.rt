// Values behind what a text holds.
ghost use Rattle.std.specs.Prelude.{◌≡◌, ◌++◌, ◌∷◌, [], ◌+◌, ◌≤◌, ◌<◌, length, OnErr, string_len, string_capacity, decimal, IfSome, IfNone, OnOk, string_bytes};
ghost use Rattle.json.specs.Print.{quoted};
ghost use Rattle.serde_json.specs.Written.{comma_if};
ghost use Rattle.rate_types.specs.Durations.{duration_text};

use crate::plain::any_needs_escape;
use itoa::Buffer;
use rate_types::{Millis, OutOfMemory};
use serde_json::Value;
use std::alloc::Global;

// The text of a number of one digit.
fn digit(number: u64) -> Option<&'static str>
    ensures text { IfSome result (λ text. text.now ≡ decimal number) }
    ensures one { IfSome result (λ text. length text.now ≡ 1) }
    ensures more { IfNone result (10 ≤ number) }
{
    match number {
        0 => Some("0"),
        1 => Some("1"),
        2 => Some("2"),
        3 => Some("3"),
        4 => Some("4"),
        5 => Some("5"),
        6 => Some("6"),
        7 => Some("7"),
        8 => Some("8"),
        9 => Some("9"),
        _ => None,
    }
}

// A number. Most have one digit, which is pushed without a call.
fn put_digits(out: &mut String, number: u64) -> Result<(), OutOfMemory>
    ensures text { OnOk result (string_bytes out.new ≡ string_bytes out.old ++ decimal number) }
    ensures full { OnErr result (string_capacity out.old < string_len out.old + 20) }
    ensures grown { OnOk result (string_len out.new ≤ string_len out.old + 20) }
    ensures capacity { string_capacity out.old ≤ string_capacity out.new }
{
    if let Some(digit) = digit(number) {
        out.push_str(digit)?;
        return Ok(());
    }
    let mut buffer = Buffer::new();
    out.push_str(buffer.format(number))?;
    Ok(())
}

/// A literal, and then a number. It is part of its callers, so that the literal is copied without a call.
#[inline(always)]
pub fn put_number(out: &mut String, before: &str, number: u64) -> Result<(), OutOfMemory>
    ensures text { OnOk result (string_bytes out.new ≡ string_bytes out.old ++ (before.now ++ decimal number)) }
    ensures full { OnErr result (string_capacity out.old < string_len out.old + (length before.now + 20)) }
    ensures grown { OnOk result (string_len out.new ≤ string_len out.old + (length before.now + 20)) }
    ensures capacity { string_capacity out.old ≤ string_capacity out.new }
{
    out.push_str(before)?;
    put_digits(out, number)
}

// A duration: `34s`, or with three decimals where it isn't whole seconds, as `1.500s`.
#[tactic(auto, unfolding(rate_types::specs::Durations::duration_text))]
fn put_span(out: &mut String, value: Millis) -> Result<(), OutOfMemory>
    ensures { OnOk result (string_bytes out.new ≡ string_bytes out.old ++ duration_text value) }
{
    let millis = value.get() % 1000;
    put_digits(out, value.get() / 1000)?;
    if millis == 0 {
        out.push_str("s")?;
        return Ok(());
    }
    put_number(out, ".", millis / 100)?;
    put_digits(out, millis / 10 % 10)?;
    put_digits(out, millis % 10)?;
    out.push_str("s")?;
    Ok(())
}

/// A literal, and then a duration as a JSON string: `"34s"`, or with three decimals where it isn't whole seconds, as `"1.500s"`.
pub fn put_duration(out: &mut String, before: &str, value: Millis) -> Result<(), OutOfMemory>
    ensures { OnOk result (string_bytes out.new ≡ string_bytes out.old ++ (before.now ++ 34 ∷ (duration_text value ++ 34 ∷ []))) }
{
    out.push_str(before)?;
    out.push_str("\"")?;
    put_span(out, value)?;
    out.push_str("\"")?;
    Ok(())
}

// A text as a JSON string, whatever escapes it needs.
fn put_escaped(alloc: Global, out: &mut String, text: &str) -> Result<(), OutOfMemory>
    ensures { OnOk result (string_bytes out.new ≡ string_bytes out.old ++ quoted text.now) }
{
    let value = Value::String(String::from_str(alloc, text)?);
    let quoted = value.to_string(alloc)?;
    out.push_str(&quoted)?;
    Ok(())
}

// A text between quotes.
fn put_plain(out: &mut String, text: &str) -> Result<(), OutOfMemory>
    ensures { OnOk result (string_bytes out.new ≡ string_bytes out.old ++ 34 ∷ (text.now ++ 34 ∷ [])) }
{
    out.push_str("\"")?;
    out.push_str(text)?;
    out.push_str("\"")?;
    Ok(())
}

// A text as a JSON string. One that needs no escape is copied as it is.
#[tactic(auto, using(crate::proofs::Quoting::plain_quoted))]
fn put_text(alloc: Global, out: &mut String, text: &str) -> Result<(), OutOfMemory>
    ensures { OnOk result (string_bytes out.new ≡ string_bytes out.old ++ quoted text.now) }
{
    if any_needs_escape(text.as_bytes()) {
        return put_escaped(alloc, out, text);
    }
    put_plain(out, text)
}

/// A literal, and then a text as a JSON string.
pub fn put_quoted(
    alloc: Global,
    out: &mut String,
    before: &str,
    text: &str,
) -> Result<(), OutOfMemory>
    ensures { OnOk result (string_bytes out.new ≡ string_bytes out.old ++ (before.now ++ quoted text.now)) }
{
    out.push_str(before)?;
    put_text(alloc, out, text)
}

/// A comma, where something stands before.
pub fn put_comma(out: &mut String, later: bool) -> Result<(), OutOfMemory>
    ensures text { OnOk result (string_bytes out.new ≡ string_bytes out.old ++ comma_if later) }
    ensures full { OnErr result (string_capacity out.old < string_len out.old + 1) }
    ensures grown { OnOk result (string_len out.new ≤ string_len out.old + 1) }
    ensures capacity { string_capacity out.old ≤ string_capacity out.new }
{
    if later {
        out.push_str(",")?;
    }
    Ok(())
}
