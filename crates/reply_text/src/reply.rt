// The texts of replies (Envoy's `RateLimitResponse` in the proto3 JSON mapping), and of their counts.
ghost use Rattle.std.specs.Prelude.{◌≡◌, ◌++◌, ◌+◌, ◌*◌, ◌≤◌, ◌<◌, length, OnErr, string_len, string_capacity, true, map, IfOk, OnOk, string_bytes};
ghost use Rattle.serde_json.specs.Data.{Items, item, array};
ghost use Rattle.serde_json.specs.View.{items_of};
ghost use Rattle.serde_json.specs.Written.{compact_text, items_text};
ghost use Rattle.reply_text.specs.Texts as texts;

use crate::Statuses;
use crate::put_status::{put_code, put_count, put_status};
use json_text::put_comma;
use rate_types::OutOfMemory;
use rls_core::{Code, Count, Status};
use std::alloc::Global;

// One more count of a list, of which more may come.
fn put_next_count(out: &mut String, later: bool, count: Count) -> Result<(), OutOfMemory>
    ensures text { OnOk result ((ds : Items) → string_bytes out.new ++ items_text true ds
        ≡ string_bytes out.old ++ items_text later (item (texts.count_data count) ds)) }
    ensures full { OnErr result (string_capacity out.old < string_len out.old + 32) }
    ensures grown { OnOk result (string_len out.new ≤ string_len out.old + 32) }
    ensures capacity { string_capacity out.old ≤ string_capacity out.new }
{
    put_comma(out, later)?;
    put_count(out, count)?;
    Ok(())
}

/// The text of what each status found, in order.
#[tactic(auto, unfolding(crate::specs::Texts::counts_data))]
pub fn put_counts(out: &mut String, statuses: &[Status]) -> Result<(), OutOfMemory>
    ensures text { OnOk result (string_bytes out.new ≡ string_bytes out.old ++ compact_text (texts.counts_data statuses.now)) }
    ensures full { OnErr result (string_capacity out.old < string_len out.old + (2 + 32 * length statuses.now)) }
    ensures grown { OnOk result (string_len out.new ≤ string_len out.old + (2 + 32 * length statuses.now)) }
    ensures capacity { string_capacity out.old ≤ string_capacity out.new }
{
    out.push_str("[")?;
    'statuses: for index in 0..statuses.len() {
        put_next_count(out, index > 0, statuses[index].count)?;
    }
    out.push_str("]")?;
    Ok(())
}

// One more status of a list, of which more may come.
fn put_next_status(out: &mut String, later: bool, status: &Status) -> Result<(), OutOfMemory>
    ensures text { OnOk result ((ds : Items) → string_bytes out.new ++ items_text true ds
        ≡ string_bytes out.old ++ items_text later (item (texts.status_data status.now) ds)) }
    ensures full { OnErr result (string_capacity out.old < string_len out.old + 177) }
    ensures grown { OnOk result (string_len out.new ≤ string_len out.old + 177) }
    ensures capacity { string_capacity out.old ≤ string_capacity out.new }
{
    put_comma(out, later)?;
    put_status(out, status)?;
    Ok(())
}

fn put_statuses(out: &mut String, statuses: &[Status]) -> Result<(), OutOfMemory>
    ensures text { OnOk result (string_bytes out.new
        ≡ string_bytes out.old ++ compact_text (array (items_of (map texts.status_data statuses.now)))) }
    ensures full { OnErr result (string_capacity out.old < string_len out.old + (2 + 177 * length statuses.now)) }
    ensures grown { OnOk result (string_len out.new ≤ string_len out.old + (2 + 177 * length statuses.now)) }
    ensures capacity { string_capacity out.old ≤ string_capacity out.new }
{
    out.push_str("[")?;
    'statuses: for index in 0..statuses.len() {
        put_next_status(out, index > 0, &statuses[index])?;
    }
    out.push_str("]")?;
    Ok(())
}

// The overall code, from whether a status is over its limit.
fn overall_code(over: bool) -> Code
    ensures { result ≡ texts.overall_code over }
{
    if over { Code::OverLimit } else { Code::Ok }
}

/// Writes the text of a reply behind what a text holds. After want of memory a first part of it may stand there.
#[tactic(auto, unfolding(serde_json::proofs::OnLiterals::serde_json_on_literals, crate::specs::Texts::reply_data))]
pub fn put_reply(out: &mut String, answer: &Statuses) -> Result<(), OutOfMemory>
    ensures text { OnOk result (string_bytes out.new ≡ string_bytes out.old ++ texts.reply_text_of answer.now) }
    ensures full { OnErr result (string_capacity out.old < string_len out.old + (42 + 177 * length answer.now.statuses)) }
    ensures grown { OnOk result (string_len out.new ≤ string_len out.old + (42 + 177 * length answer.now.statuses)) }
    ensures capacity { string_capacity out.old ≤ string_capacity out.new }
{
    out.push_str("{\"overallCode\":")?;
    put_code(out, overall_code(answer.over()))?;
    out.push_str(",\"statuses\":")?;
    put_statuses(out, answer.items().as_slice())?;
    out.push_str("}")?;
    Ok(())
}

/// The text of a reply.
pub fn reply_body(alloc: Global, answer: &Statuses) -> Result<String, OutOfMemory>
    ensures { IfOk result (λ t. string_bytes t ≡ texts.reply_text_of answer.now) }
{
    let mut text = String::new(alloc);
    put_reply(&mut text, answer)?;
    Ok(text)
}
