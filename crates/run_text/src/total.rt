ghost use Rattle.std.specs.Prelude.{◌≡◌, ◌≢◌, IfOk, IfNone, IfSome, Some, None, Ok, map, option_map, string_bytes};
ghost use Rattle.std.specs.Str.{IsUtf8, bytes_eq};
ghost use Rattle.serde_json.specs.Read.{read};
ghost use Rattle.serde_json.specs.View.{view};
ghost use Rattle.rate_types.specs.Entries.{entries_of};
ghost use Rattle.reply_text.specs.Texts as texts;
ghost use Rattle.run_text.specs.FoundTotal as found;
ghost use Rattle.run_text.specs.Reading.{IsTotalText};

use crate::bytes::value_of;
use crate::members::{at, items_in, moment_of, text_of, whole_of};
use crate::statuses::unit_of;
use rate_types::{CounterKey, CounterName, Entries, Entry, OutOfMemory, Text};
use reply_text::total_text;
use rls_core::Total;
use serde_json::Value;
use std::alloc::Global;

// A text where it isn't too long, else the empty one.
fn if_short(alloc: Global, text: &str) -> Result<Text, OutOfMemory>
    ensures { IfOk result (λ t. t ≡ found.if_short text.now) }
{
    let text = String::from_str(alloc, text)?;
    match Text::of(text) {
        Some(text) => Ok(text),
        None => Ok(Text::empty(alloc)),
    }
}

#[tactic(auto, unfolding(crate::specs::FoundTotal::entry_in))]
fn entry_in(alloc: Global, value: &Value) -> Result<Entry, OutOfMemory>
    ensures { IfOk result (λ e. e ≡ found.entry_in (view value.now)) }
{
    let key = if_short(alloc, text_of(value.get("key")))?;
    let value = if_short(alloc, text_of(value.get("value")))?;
    Ok(Entry { key, value })
}

fn entries_of(alloc: Global, values: &[Value]) -> Result<Vec<Entry>, OutOfMemory>
    ensures { IfOk result (λ v. v.items ≡ map found.entry_in (map view values.now)) }
{
    let mut entries = Vec::new(alloc);
    'values: for value in values {
        entries.push(entry_in(alloc, value)?)?;
    }
    Ok(entries)
}

// These entries, where they are a descriptor's.
#[tactic(auto, using(crate::proofs::Built::same_built))]
fn built(entries: Vec<Entry>) -> Option<Entries>
    ensures some { IfSome result (λ e. e ≡ entries.items) }
    ensures none { IfNone result (entries_of entries.items ≢ Ok entries.items) }
{
    match Entries::build(entries) {
        Ok(entries) => Some(entries),
        Err(_) => None,
    }
}

// The counter that a value shows, where its entries are a descriptor's.
#[tactic(auto, unfolding(crate::specs::FoundTotal::counter_in))]
fn counter_in(alloc: Global, value: Option<&Value>) -> Result<Option<CounterKey>, OutOfMemory>
    ensures some { IfOk result (λ o. IfSome o (λ c. c ≡ found.counter_in (option_map (λ v. view v.now) value.entry))) }
    ensures none { IfOk result (λ o. IfNone o (entries_of (found.entries_in (option_map (λ v. view v.now) value.entry))
        ≢ Ok (found.entries_in (option_map (λ v. view v.now) value.entry)))) }
{
    let domain = if_short(alloc, text_of(at(value, "domain")))?;
    let unit = unit_of(text_of(at(value, "unit")));
    let start = moment_of(at(value, "start"));
    let entries = entries_of(alloc, items_in(at(value, "entries")))?;
    let Some(entries) = built(entries) else {
        return Ok(None);
    };
    Ok(Some(CounterKey {
        name: CounterName {
            domain,
            entries,
            unit,
        },
        start,
    }))
}

// The total that a value shows, where its counter's entries are a descriptor's.
#[tactic(auto, unfolding(crate::specs::FoundTotal::total_in, crate::specs::FoundTotal::counter_in))]
fn total_in(alloc: Global, value: &Value) -> Result<Option<Total>, OutOfMemory>
    ensures some { IfOk result (λ o. IfSome o (λ t. t ≡ found.total_in (view value.now))) }
    ensures none { IfOk result (λ o. IfNone o (¬ (found.HasEntries (found.total_in (view value.now))))) }
{
    let charged = whole_of(value.get("charged"));
    match counter_in(alloc, value.get("counter"))? {
        Some(key) => Ok(Some(Total { key, charged })),
        None => Ok(None),
    }
}

// Whether a total has this text.
fn has_text(alloc: Global, total: &Total, bytes: &[u8]) -> Result<bool, OutOfMemory>
    ensures { IfOk result (λ b. b ≡ bytes_eq (texts.total_text_of total.now) bytes.now) }
{
    let text = total_text(alloc, total)?;
    Ok(text.as_bytes() == bytes)
}

// The total that a value shows, where it has this text.
#[tactic(auto, using(crate::proofs::ReadingTotal::totals_read))]
fn read_value(alloc: Global, value: &Value, bytes: &[u8]) -> Result<Option<Total>, OutOfMemory>
    requires { IsUtf8 bytes.now × (read bytes.now ≡ Some (view value.now)) }
    ensures some { IfOk result (λ o. IfSome o (λ t. IsTotalText bytes.now t)) }
    ensures only { IfOk result (λ o. IfSome o (λ t. (u : Total) → IsTotalText bytes.now u → u ≡ t)) }
    ensures none { IfOk result (λ o. IfNone o ((t : Total) → ¬ (IsTotalText bytes.now t))) }
{
    let Some(total) = total_in(alloc, value)? else {
        return Ok(None);
    };
    if has_text(alloc, &total, bytes)? {
        Ok(Some(total))
    } else {
        Ok(None)
    }
}

/// The total whose text these bytes are, and None exactly where they are the text of no total.
#[tactic(auto, using(crate::proofs::ReadingTotal::no_total))]
pub fn read_total(alloc: Global, bytes: &[u8]) -> Result<Option<Total>, OutOfMemory>
    ensures some { IfOk result (λ o. IfSome o (λ t. IsTotalText bytes.now t)) }
    ensures only { IfOk result (λ o. IfSome o (λ t. (u : Total) → IsTotalText bytes.now u → u ≡ t)) }
    ensures none { IfOk result (λ o. IfNone o ((t : Total) → ¬ (IsTotalText bytes.now t))) }
{
    match value_of(alloc, bytes)? {
        Some(value) => read_value(alloc, &value, bytes),
        None => Ok(None),
    }
}
