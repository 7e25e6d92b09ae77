ghost use Rattle.std.specs.Prelude.{◌≡◌, ◌<◌, IfOk, length, map};
ghost use Rattle.text_lines.specs.Lines.{cut};
ghost use Rattle.run_text.specs.Views.{shown_of};
ghost use Rattle.run_text.specs.Reading.{IsRecordText, IsTotalText};
ghost use Rattle.run_text.specs.ReadTo.{ReadTo, StopsAt};
ghost use Rattle.run_text.specs.Run.{is_ended, IsRunText, IsWrongAt};
ghost use Rattle.run_text.specs.RunAnswers.{AnswersRun};

use crate::{Said, read_record, read_total};
use rate_types::OutOfMemory;
use rls_core::Total;
use std::alloc::Global;
use text_lines::cut_line;

/// What the bytes of a run are.
#[derive(Drop)]
pub enum RunText {
    /// The texts of these records and then of these totals.
    Lines {
        records: Vec<Said>,
        totals: Vec<Total>,
    },
    /// The line, from 1, is the first that is neither, or stands as a record behind a total, or lacks its line feed.
    Wrong {
        line: u64,
    },
}

// Records, and the bytes behind their lines.
#[derive(Drop)]
struct ReadRecords<'a> {
    records: Vec<Said>,
    rest: &'a [u8],
}

// Totals, and the bytes behind their lines.
#[derive(Drop)]
struct ReadTotals<'a> {
    totals: Vec<Total>,
    rest: &'a [u8],
}

// The records that the first lines are.
fn read_records(alloc: Global, bytes: &[u8]) -> Result<ReadRecords<'_>, OutOfMemory>
    ensures read { IfOk result (λ p. ReadTo IsRecordText bytes.now p.rest.now (map shown_of p.records.items)) }
    ensures stops { IfOk result (λ p. 0 < length p.rest.now → StopsAt IsRecordText p.rest.now) }
{
    let mut records = Vec::new(alloc);
    let mut rest = bytes;
    'lines: while rest.len() > 0 {
        let (first, after) = cut_line(rest);
        let Some(said) = read_record(alloc, first)? else {
            return Ok(ReadRecords { records, rest });
        };
        records.push(said)?;
        rest = after;
    }
    Ok(ReadRecords { records, rest })
}

// The totals that the first lines are.
fn read_totals(alloc: Global, bytes: &[u8]) -> Result<ReadTotals<'_>, OutOfMemory>
    ensures read { IfOk result (λ p. ReadTo IsTotalText bytes.now p.rest.now p.totals.items) }
    ensures stops { IfOk result (λ p. 0 < length p.rest.now → StopsAt IsTotalText p.rest.now) }
{
    let mut totals = Vec::new(alloc);
    let mut rest = bytes;
    'lines: while rest.len() > 0 {
        let (first, after) = cut_line(rest);
        let Some(total) = read_total(alloc, first)? else {
            return Ok(ReadTotals { totals, rest });
        };
        totals.push(total)?;
        rest = after;
    }
    Ok(ReadTotals { totals, rest })
}

fn is_ended(bytes: &[u8]) -> bool
    ensures { result ≡ is_ended bytes.now }
{
    match bytes {
        [] => true,
        [.., last] => *last == b'\n',
    }
}

/// The records and the totals whose texts these bytes are, or the first line that keeps them from being the text of a run.
pub fn read_run(alloc: Global, bytes: &[u8]) -> Result<RunText, OutOfMemory>
    ensures { IfOk result (λ r. AnswersRun bytes.now r) }
{
    let head = read_records(alloc, bytes)?;
    let tail = read_totals(alloc, head.rest)?;
    let lines = head.records.len() as u64 + tail.totals.len() as u64;
    if tail.rest.len() > 0 {
        return Ok(RunText::Wrong { line: lines + 1 });
    }
    if !is_ended(bytes) {
        return Ok(RunText::Wrong { line: lines });
    }
    Ok(RunText::Lines {
        records: head.records,
        totals: tail.totals,
    })
}
