// The texts of records.
ghost use Rattle.std.specs.Prelude.{◌≡◌, ◌++◌, ◌+◌, ◌≤◌, ◌<◌, ◌↔◌, true, IfOk, OnOk, OnErr, string_bytes, string_len, string_capacity};
ghost use Rattle.std.specs.Bool.{IsTrue};
ghost use Rattle.serde_json.specs.Data.{Data};
ghost use Rattle.serde_json.specs.Written.{compact_text, members_text};
ghost use Rattle.reply_text.specs.Texts as texts;
ghost use Rattle.reply_text.specs.Short.{IsShort};

use crate::refused::{full_text, refused_text, spent_text, versions_full_text};
use crate::reply::{put_counts, put_reply};
use crate::{Outcome, Record, Statuses};
use json_text::put_number;
use rate_types::OutOfMemory;
use std::alloc::Global;

/// The text of a short record has at most so many bytes.
pub const LONGEST_SHORT_RECORD: usize = 6_871;

// What each record has besides its outcome.
#[derive(Clone, Copy)]
struct Head {
    line: u32,
    moment: u64,
    version: u32,
    worker: u32,
}

// The last two members of a record, and its end.
#[tactic(auto, unfolding(serde_json::proofs::OnLiterals::serde_json_on_literals))]
fn put_worker(out: &mut String, version: u32, worker: u32) -> Result<(), OutOfMemory>
    ensures text { OnOk result (string_bytes out.new ≡ string_bytes out.old ++ members_text true (texts.by_worker version worker)) }
    ensures full { OnErr result (string_capacity out.old < string_len out.old + 62) }
    ensures grown { OnOk result (string_len out.new ≤ string_len out.old + 62) }
    ensures capacity { string_capacity out.old ≤ string_capacity out.new }
{
    put_number(out, ",\"version\":", u64::from(version))?;
    put_number(out, ",\"worker\":", u64::from(worker))?;
    out.push_str("}")?;
    Ok(())
}

#[tactic(auto, unfolding(serde_json::proofs::OnLiterals::serde_json_on_literals, crate::specs::Texts::checked_line_data))]
fn put_checked(out: &mut String, head: Head, answer: &Statuses) -> Result<(), OutOfMemory>
    ensures text { OnOk result (string_bytes out.new ≡ string_bytes out.old
        ++ compact_text (texts.checked_line_data head.line head.moment head.version head.worker (texts.counts_data answer.now.statuses)
        (texts.reply_data answer.now))) }
    ensures full { OnErr result (string_capacity out.old < string_len out.old + LONGEST_SHORT_RECORD) }
    ensures grown { OnOk result (string_len out.new ≤ string_len out.old + LONGEST_SHORT_RECORD) }
    ensures capacity { string_capacity out.old ≤ string_capacity out.new }
{
    out.push_str("{\"counts\":")?;
    put_counts(out, answer.items().as_slice())?;
    put_number(out, ",\"line\":", u64::from(head.line))?;
    put_number(out, ",\"moment\":", head.moment)?;
    out.push_str(",\"reply\":")?;
    put_reply(out, answer)?;
    put_worker(out, head.version, head.worker)
}

#[tactic(auto, unfolding(serde_json::proofs::OnLiterals::serde_json_on_literals, crate::specs::Texts::ticked_line_data))]
fn put_ticked(out: &mut String, head: Head, ticked: u64) -> Result<(), OutOfMemory>
    ensures text { OnOk result (string_bytes out.new ≡ string_bytes out.old
        ++ compact_text (texts.ticked_line_data head.line head.moment head.version head.worker ticked)) }
    ensures full { OnErr result (string_capacity out.old < string_len out.old + 150) }
    ensures grown { OnOk result (string_len out.new ≤ string_len out.old + 150) }
    ensures capacity { string_capacity out.old ≤ string_capacity out.new }
{
    put_number(out, "{\"line\":", u64::from(head.line))?;
    put_number(out, ",\"moment\":", head.moment)?;
    put_number(out, ",\"ticked\":", ticked)?;
    put_worker(out, head.version, head.worker)
}

#[tactic(auto, unfolding(serde_json::proofs::OnLiterals::serde_json_on_literals, crate::specs::Texts::installed_line_data))]
fn put_installed(out: &mut String, head: Head) -> Result<(), OutOfMemory>
    ensures text { OnOk result (string_bytes out.new ≡ string_bytes out.old
        ++ compact_text (texts.installed_line_data head.line head.moment head.version head.worker)) }
    ensures full { OnErr result (string_capacity out.old < string_len out.old + 153) }
    ensures grown { OnOk result (string_len out.new ≤ string_len out.old + 153) }
    ensures capacity { string_capacity out.old ≤ string_capacity out.new }
{
    put_number(out, "{\"installed\":", u64::from(head.version))?;
    put_number(out, ",\"line\":", u64::from(head.line))?;
    put_number(out, ",\"moment\":", head.moment)?;
    put_worker(out, head.version, head.worker)?;
    Ok(())
}

// The record of a refused line, from the text of its reason.
#[tactic(auto, unfolding(serde_json::proofs::OnLiterals::serde_json_on_literals, crate::specs::Texts::refused_line_data))]
fn put_refused(out: &mut String, head: Head, why: &str) -> Result<(), OutOfMemory>
    ensures text { OnOk result ((d : Data) → why.now ≡ compact_text d → string_bytes out.new ≡ string_bytes out.old
        ++ compact_text (texts.refused_line_data head.line head.moment head.version head.worker d)) }
    ensures capacity { string_capacity out.old ≤ string_capacity out.new }
{
    put_number(out, "{\"line\":", u64::from(head.line))?;
    put_number(out, ",\"moment\":", head.moment)?;
    out.push_str(",\"refused\":")?;
    out.push_str(why)?;
    put_worker(out, head.version, head.worker)?;
    Ok(())
}

/// Whether a record is that of an answered check, a tick or an installed configuration, whose text is short.
pub fn is_short(rec: &Record) -> bool
    ensures { IsTrue result ↔ IsShort rec.now.outcome }
{
    match &rec.outcome {
        Outcome::Checked(_) => true,
        Outcome::Ticked(_) => true,
        Outcome::Installed => true,
        _ => false,
    }
}

/// Writes the text of a record behind what a text holds, without a line feed. After want of memory a first part of it may stand there.
/// A short record needs no more memory where the text has room for it.
#[tactic(auto, unfolding(crate::specs::Texts::record_data))]
pub fn put_record(alloc: Global, out: &mut String, rec: &Record) -> Result<(), OutOfMemory>
    ensures text { OnOk result (string_bytes out.new ≡ string_bytes out.old ++ texts.record_text_of rec.now) }
    ensures full { IsShort rec.now.outcome → OnErr result (string_capacity out.old < string_len out.old + LONGEST_SHORT_RECORD) }
    ensures grown { IsShort rec.now.outcome → OnOk result (string_len out.new ≤ string_len out.old + LONGEST_SHORT_RECORD) }
    ensures capacity { string_capacity out.old ≤ string_capacity out.new }
{
    let head = Head {
        line: rec.line,
        moment: rec.moment.get(),
        version: rec.version,
        worker: rec.worker,
    };
    match &rec.outcome {
        Outcome::Checked(answer) => put_checked(out, head, answer),
        Outcome::Ticked(ticked) => put_ticked(out, head, ticked.get()),
        Outcome::Installed => put_installed(out, head),
        Outcome::Bad(refused) => {
            let why = refused_text(alloc, refused)?;
            put_refused(out, head, &why)
        }
        Outcome::Full { live, held, wanted } => {
            let why = full_text(alloc, *live, *held, *wanted)?;
            put_refused(out, head, &why)
        }
        Outcome::Spent { claims, wanted } => {
            let why = spent_text(alloc, *claims, *wanted)?;
            put_refused(out, head, &why)
        }
        Outcome::VersionsFull { versions } => {
            let why = versions_full_text(alloc, *versions)?;
            put_refused(out, head, &why)
        }
    }
}

/// The text of a record, without a line feed.
pub fn record_text(alloc: Global, rec: &Record) -> Result<String, OutOfMemory>
    ensures { IfOk result (λ t. string_bytes t ≡ texts.record_text_of rec.now) }
{
    let mut text = String::new(alloc);
    put_record(alloc, &mut text, rec)?;
    Ok(text)
}
