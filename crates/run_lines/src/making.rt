// Lines that are made before any is written, and the line of a short record.
ghost use Rattle.std.specs.Prelude.{◌≡◌, ◌+◌, ◌≤◌, ◌++◌, true, map, IfOk, OnOk, string_bytes, string_capacity};
ghost use Rattle.reply_text.specs.declared.record_json.TheConstants.{LONGEST_SHORT_RECORD};
ghost use Rattle.run_lines.specs.RunLines.{is_short, record_line, total_line, other_lines, text_line};

use rate_types::OutOfMemory;
use reply_text::{LONGEST_SHORT_RECORD, Record, put_record, record_text, total_text};
use rls_core::Total;
use script_run::RunRecords;
use std::alloc::Global;

/// Whether a record is short.
#[tactic(auto, using(crate::proofs::Shorts::short_is))]
pub fn is_short(rec: &Record) -> bool
    ensures { result ≡ is_short rec.now.outcome }
{
    reply_text::is_short(rec)
}

/// Room for the line of a short record.
pub fn room(alloc: Global) -> Result<String, OutOfMemory>
    ensures { IfOk result (λ t. LONGEST_SHORT_RECORD + 1 ≤ string_capacity t) }
{
    Ok(String::with_capacity(alloc, LONGEST_SHORT_RECORD + 1)?)
}

/// Makes the line of a short record in a text that has room for it.
#[tactic(auto, using(crate::proofs::Shorts::is_short_record))]
pub fn fill(alloc: Global, kept: &mut String, rec: &Record)
    requires short { is_short rec.now.outcome ≡ true }
    requires room { LONGEST_SHORT_RECORD + 1 ≤ string_capacity kept.old }
    ensures line { string_bytes kept.new ≡ record_line rec.now }
    ensures room { LONGEST_SHORT_RECORD + 1 ≤ string_capacity kept.new }
{
    kept.clear();
    let Ok(()) = put_record(alloc, kept, rec) else {
        unreachable!()
    };
    let Ok(()) = kept.push('\n') else {
        unreachable!()
    };
}

// The line of a record.
fn other_line(alloc: Global, rec: &Record) -> Result<String, OutOfMemory>
    ensures { IfOk result (λ t. string_bytes t ≡ record_line rec.now) }
{
    let mut text = record_text(alloc, rec)?;
    text.push('\n')?;
    Ok(text)
}

/// Adds the lines of the records that aren't short.
pub fn push_others(
    alloc: Global,
    made: &mut Vec<String>,
    records: &RunRecords,
) -> Result<(), OutOfMemory>
    ensures { OnOk result (map (λ t. string_bytes t) made.new.items
        ≡ map (λ t. string_bytes t) made.old.items ++ other_lines records.now) }
{
    if records.are_short() {
        return Ok(());
    }
    'records: for index in 0..records.len() {
        let Some(rec) = records.get(index) else {
            unreachable!()
        };
        if !is_short(rec) {
            made.push(other_line(alloc, rec)?)?;
        }
    }
    Ok(())
}

// The line of a total.
fn one_total(alloc: Global, total: &Total) -> Result<String, OutOfMemory>
    ensures { IfOk result (λ t. string_bytes t ≡ total_line total.now) }
{
    let mut text = total_text(alloc, total)?;
    text.push('\n')?;
    Ok(text)
}

/// Adds the lines of totals.
pub fn push_totals(
    alloc: Global,
    made: &mut Vec<String>,
    totals: &[Total],
) -> Result<(), OutOfMemory>
    ensures { OnOk result (map (λ t. string_bytes t) made.new.items
        ≡ map (λ t. string_bytes t) made.old.items ++ map total_line totals.now) }
{
    'totals: for index in 0..totals.len() {
        made.push(one_total(alloc, &totals[index])?)?;
    }
    Ok(())
}

/// Adds the lines of texts, which are moved.
pub fn push_texts(made: &mut Vec<String>, texts: Vec<String>) -> Result<(), OutOfMemory>
    ensures { OnOk result (map (λ t. string_bytes t) made.new.items
        ≡ map (λ t. string_bytes t) made.old.items ++ map text_line (map (λ t. string_bytes t) texts.items)) }
{
    for text in texts {
        let mut line = text;
        line.push('\n')?;
        made.push(line)?;
    }
    Ok(())
}
