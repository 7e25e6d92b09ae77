// The texts of totals.
ghost use Rattle.std.specs.Prelude.{◌≡◌, ◌++◌, true, map, IfOk, OnOk, string_bytes};
ghost use Rattle.serde_json.specs.Data.{Items, item, array};
ghost use Rattle.serde_json.specs.View.{items_of};
ghost use Rattle.serde_json.specs.Written.{compact_text, items_text};
ghost use Rattle.reply_text.specs.Texts as texts;

use crate::put_status::put_unit;
use json_text::{put_comma, put_number, put_quoted};
use rate_types::{CounterKey, Entry, OutOfMemory};
use rls_core::Total;
use std::alloc::Global;

// For so many bytes the text of a total has room at first: those of one entry and short texts, and a line feed.
const USUAL_TOTAL: usize = 160;

#[tactic(auto, unfolding(serde_json::proofs::OnLiterals::serde_json_on_literals, crate::specs::Texts::entry_data))]
fn put_entry(alloc: Global, out: &mut String, entry: &Entry) -> Result<(), OutOfMemory>
    ensures { OnOk result (string_bytes out.new ≡ string_bytes out.old ++ compact_text (texts.entry_data entry.now)) }
{
    put_quoted(alloc, out, "{\"key\":", entry.key.as_str())?;
    put_quoted(alloc, out, ",\"value\":", entry.value.as_str())?;
    out.push_str("}")?;
    Ok(())
}

// One more entry of a list, of which more may come.
fn put_next_entry(
    alloc: Global,
    out: &mut String,
    later: bool,
    entry: &Entry,
) -> Result<(), OutOfMemory>
    ensures { OnOk result ((ds : Items) → string_bytes out.new ++ items_text true ds
        ≡ string_bytes out.old ++ items_text later (item (texts.entry_data entry.now) ds)) }
{
    put_comma(out, later)?;
    put_entry(alloc, out, entry)?;
    Ok(())
}

fn put_entries(alloc: Global, out: &mut String, entries: &[Entry]) -> Result<(), OutOfMemory>
    ensures { OnOk result (string_bytes out.new
        ≡ string_bytes out.old ++ compact_text (array (items_of (map texts.entry_data entries.now)))) }
{
    out.push_str("[")?;
    'entries: for index in 0..entries.len() {
        put_next_entry(alloc, out, index > 0, &entries[index])?;
    }
    out.push_str("]")?;
    Ok(())
}

#[tactic(auto, unfolding(serde_json::proofs::OnLiterals::serde_json_on_literals, crate::specs::Texts::counter_data))]
fn put_counter(alloc: Global, out: &mut String, counter: &CounterKey) -> Result<(), OutOfMemory>
    ensures { OnOk result (string_bytes out.new ≡ string_bytes out.old ++ compact_text (texts.counter_data counter.now)) }
{
    put_quoted(alloc, out, "{\"domain\":", counter.name.domain.as_str())?;
    out.push_str(",\"entries\":")?;
    put_entries(alloc, out, counter.name.entries.items())?;
    put_number(out, ",\"start\":", counter.start.get())?;
    out.push_str(",\"unit\":")?;
    put_unit(out, counter.name.unit)?;
    out.push_str("}")?;
    Ok(())
}

/// Writes the text of a total behind what a text holds, without a line feed. After want of memory a first part of it may stand there.
#[tactic(auto, unfolding(serde_json::proofs::OnLiterals::serde_json_on_literals, crate::specs::Texts::total_data))]
pub fn put_total(alloc: Global, out: &mut String, total: &Total) -> Result<(), OutOfMemory>
    ensures { OnOk result (string_bytes out.new ≡ string_bytes out.old ++ texts.total_text_of total.now) }
{
    put_number(out, "{\"charged\":", total.charged)?;
    out.push_str(",\"counter\":")?;
    put_counter(alloc, out, &total.key)?;
    out.push_str("}")?;
    Ok(())
}

/// The text of a total, without a line feed.
pub fn total_text(alloc: Global, total: &Total) -> Result<String, OutOfMemory>
    ensures { IfOk result (λ t. string_bytes t ≡ texts.total_text_of total.now) }
{
    let mut text = String::with_capacity(alloc, USUAL_TOTAL)?;
    put_total(alloc, &mut text, total)?;
    Ok(text)
}
