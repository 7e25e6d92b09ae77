// The texts of a status and of its count.
ghost use Rattle.std.specs.Prelude.{◌≡◌, ◌++◌, ◌+◌, ◌≤◌, ◌<◌, OnErr, string_len, string_capacity, ◌==◌, true, OnOk, string_bytes, codes, decimal};
ghost use Rattle.serde_json.specs.Data.{Members, no_members, string};
ghost use Rattle.serde_json.specs.Written.{compact_text, members_text};
ghost use Rattle.rate_types.specs.UnitNames.{unit_name};
ghost use Rattle.reply_text.specs.Texts as texts;

use json_text::put_number;
use rate_types::{OutOfMemory, OwnLimit, Unit};
use rls_core::{Code, Count, Status};

/// The text of what a status found of its counter.
#[tactic(auto, unfolding(serde_json::proofs::OnLiterals::serde_json_on_literals))]
pub fn put_count(out: &mut String, count: Count) -> Result<(), OutOfMemory>
    ensures text { OnOk result (string_bytes out.new ≡ string_bytes out.old ++ compact_text (texts.count_data count)) }
    ensures full { OnErr result (string_capacity out.old < string_len out.old + 31) }
    ensures grown { OnOk result (string_len out.new ≤ string_len out.old + 31) }
    ensures capacity { string_capacity out.old ≤ string_capacity out.new }
{
    match count {
        Count::NoCount => out.push_str("null")?,
        Count::Before(before) => {
            put_number(out, "{\"before\":", before)?;
            out.push_str("}")?;
        }
        Count::Seen(seen) => {
            put_number(out, "{\"seen\":", seen)?;
            out.push_str("}")?;
        }
    }
    Ok(())
}

/// The name of a unit as a JSON string.
#[tactic(auto, unfolding(serde_json::proofs::OnLiterals::serde_json_on_literals))]
pub fn put_unit(out: &mut String, unit: Unit) -> Result<(), OutOfMemory>
    ensures text { OnOk result (string_bytes out.new ≡ string_bytes out.old ++ compact_text (string (unit_name unit))) }
    ensures full { OnErr result (string_capacity out.old < string_len out.old + 8) }
    ensures grown { OnOk result (string_len out.new ≤ string_len out.old + 8) }
    ensures capacity { string_capacity out.old ≤ string_capacity out.new }
{
    match unit {
        Unit::Second => out.push_str("\"SECOND\"")?,
        Unit::Minute => out.push_str("\"MINUTE\"")?,
        Unit::Hour => out.push_str("\"HOUR\"")?,
        Unit::Day => out.push_str("\"DAY\"")?,
    }
    Ok(())
}

/// The name of a code as a JSON string.
#[tactic(auto, unfolding(serde_json::proofs::OnLiterals::serde_json_on_literals))]
pub fn put_code(out: &mut String, code: Code) -> Result<(), OutOfMemory>
    ensures text { OnOk result (string_bytes out.new ≡ string_bytes out.old ++ compact_text (string (texts.code_name code))) }
    ensures full { OnErr result (string_capacity out.old < string_len out.old + 12) }
    ensures grown { OnOk result (string_len out.new ≤ string_len out.old + 12) }
    ensures capacity { string_capacity out.old ≤ string_capacity out.new }
{
    match code {
        Code::Ok => out.push_str("\"OK\"")?,
        Code::OverLimit => out.push_str("\"OVER_LIMIT\"")?,
    }
    Ok(())
}

#[tactic(auto, unfolding(serde_json::proofs::OnLiterals::serde_json_on_literals))]
fn put_limit(out: &mut String, own: OwnLimit) -> Result<(), OutOfMemory>
    ensures text { OnOk result (string_bytes out.new ≡ string_bytes out.old ++ compact_text (texts.limit_data own)) }
    ensures full { OnErr result (string_capacity out.old < string_len out.old + 56) }
    ensures grown { OnOk result (string_len out.new ≤ string_len out.old + 56) }
    ensures capacity { string_capacity out.old ≤ string_capacity out.new }
{
    if own.limit == 0 {
        out.push_str("{\"unit\":")?;
    } else {
        put_number(out, "{\"requestsPerUnit\":", u64::from(own.limit))?;
        out.push_str(",\"unit\":")?;
    }
    put_unit(out, own.unit)?;
    out.push_str("}")?;
    Ok(())
}

#[tactic(auto, using(crate::proofs::Durations::quoted_duration))]
fn put_reset(out: &mut String, reset: u64) -> Result<(), OutOfMemory>
    ensures text { OnOk result (string_bytes out.new ≡ string_bytes out.old ++ compact_text (string (decimal reset ++ codes "s"))) }
    ensures full { OnErr result (string_capacity out.old < string_len out.old + 23) }
    ensures grown { OnOk result (string_len out.new ≤ string_len out.old + 23) }
    ensures capacity { string_capacity out.old ≤ string_capacity out.new }
{
    put_number(out, "\"", reset)?;
    out.push_str("s\"")?;
    Ok(())
}

// The limit and the time to reset, where there is a limit, before other members.
#[tactic(auto, unfolding(serde_json::proofs::OnLiterals::serde_json_on_literals))]
fn put_own(out: &mut String, own: Option<OwnLimit>, reset: u64) -> Result<(), OutOfMemory>
    ensures text { OnOk result ((ms : Members) → string_bytes out.new ++ members_text true ms
        ≡ string_bytes out.old ++ members_text true (texts.limit_members own reset ms)) }
    ensures full { OnErr result (string_capacity out.old < string_len out.old + 117) }
    ensures grown { OnOk result (string_len out.new ≤ string_len out.old + 117) }
    ensures capacity { string_capacity out.old ≤ string_capacity out.new }
{
    if let Some(own) = own {
        out.push_str(",\"currentLimit\":")?;
        put_limit(out, own)?;
        out.push_str(",\"durationUntilReset\":")?;
        put_reset(out, reset)?;
    }
    Ok(())
}

// What remains, unless it is 0, and the end of the status.
#[tactic(auto, unfolding(serde_json::proofs::OnLiterals::serde_json_on_literals))]
fn put_remaining(out: &mut String, remaining: u32) -> Result<(), OutOfMemory>
    ensures text { OnOk result (string_bytes out.new ≡ string_bytes out.old
        ++ members_text true (texts.member_unless (remaining == 0) (codes "limitRemaining") (texts.whole remaining) no_members)) }
    ensures full { OnErr result (string_capacity out.old < string_len out.old + 39) }
    ensures grown { OnOk result (string_len out.new ≤ string_len out.old + 39) }
    ensures capacity { string_capacity out.old ≤ string_capacity out.new }
{
    if remaining != 0 {
        put_number(out, ",\"limitRemaining\":", u64::from(remaining))?;
    }
    out.push_str("}")?;
    Ok(())
}

/// The text of a status.
#[tactic(auto, unfolding(serde_json::proofs::OnLiterals::serde_json_on_literals, crate::specs::Texts::status_data))]
pub fn put_status(out: &mut String, status: &Status) -> Result<(), OutOfMemory>
    ensures text { OnOk result (string_bytes out.new ≡ string_bytes out.old ++ compact_text (texts.status_data status.now)) }
    ensures full { OnErr result (string_capacity out.old < string_len out.old + 176) }
    ensures grown { OnOk result (string_len out.new ≤ string_len out.old + 176) }
    ensures capacity { string_capacity out.old ≤ string_capacity out.new }
{
    out.push_str("{\"code\":")?;
    put_code(out, status.code)?;
    put_own(out, status.limit, status.reset)?;
    put_remaining(out, status.remaining)
}
