ghost use Rattle.std.specs.Prelude.{◌≡◌};

use crate::making::{fill, is_short, push_others, push_texts, push_totals, room};
use rate_types::OutOfMemory;
use rls_core::Total;
use script_run::RunRecords;
use std::alloc::Global;
use std::marker::Model;

/// The lines of a run, for which no more memory is wanted. Contracts see it as the line that was come to last, and the list of those
/// that are left.
#[derive(Drop)]
pub struct RunLines {
    alloc: Global,
    records: RunRecords,
    // The lines that are made: those of the records that aren't short, in order, then those of the totals and of the other texts.
    made: Vec<String>,
    // The line of the last record, where that is short. It has room for any such line.
    kept: String,
    // How many records, and how many lines that are made, were passed.
    passed: usize,
    next: usize,
    // Whether the last line is the kept one.
    is_kept: bool,
}

impl Model for RunLines {
    ghost use Rattle.std.specs.Prelude.{◌≡◌, ◌+◌, ◌≤◌, ◌<◌, false, length, map, drop, string_bytes, string_capacity};
    ghost use Rattle.reply_text.specs.declared.record_json.TheConstants.{LONGEST_SHORT_RECORD};
    ghost use Rattle.run_lines.specs.RunLines.{LinesLeft, last_line, woven};

    ghost Value = { LinesLeft };

    ghost view = { λ r. record {
      line = last_line r.is_kept (string_bytes r.kept) (map (λ t. string_bytes t) r.made.items) r.next;
      rest = woven (drop r.passed r.records) (drop r.next (map (λ t. string_bytes t) r.made.items));
    } };

    ghost invariant = { λ r. (LONGEST_SHORT_RECORD + 1 ≤ string_capacity r.kept) × (r.passed ≤ length r.records)
        × (r.next ≤ length r.made.items) × (r.is_kept ≡ false → 0 < r.next) };
}

impl RunLines {
    ghost use Rattle.std.specs.Prelude.{◌≡◌, ◌++◌, ◌∷◌, [], IfOk, false, map, string_bytes};
    ghost use Rattle.std.specs.Bool.{OnTrue};
    ghost use Rattle.run_lines.specs.RunLines.{run_lines, text_line};

    /// The lines of these records and totals, and then those of other texts, of which none is come to yet.
    pub fn make(
        alloc: Global,
        records: RunRecords,
        totals: &[Total],
        texts: Vec<String>,
    ) -> Result<RunLines, OutOfMemory>
        ensures { IfOk result (λ r. r.rest ≡ run_lines records totals.now ++ map text_line (map (λ t. string_bytes t) texts.items)) }
    {
        let kept = room(alloc)?;
        let mut made = Vec::new(alloc);
        push_others(alloc, &mut made, &records)?;
        push_totals(alloc, &mut made, totals)?;
        push_texts(&mut made, texts)?;
        Ok(RunLines {
            alloc,
            records,
            made,
            kept,
            passed: 0,
            next: 0,
            is_kept: true,
        })
    }

    /// Comes to the next line. False where none is left.
    pub fn advance(&mut self) -> bool
        ensures more { OnTrue result (self.old.rest ≡ self.new.line ∷ self.new.rest) }
        ensures end { result ≡ false → self.old.rest ≡ [] }
    {
        let Some(rec) = self.records.get(self.passed) else {
            if self.next >= self.made.len() {
                return false;
            }
            self.next += 1;
            self.is_kept = false;
            return true;
        };
        if is_short(rec) {
            fill(self.alloc, &mut self.kept, rec);
            self.passed += 1;
            self.is_kept = true;
            return true;
        }
        if self.next >= self.made.len() {
            return false;
        }
        self.passed += 1;
        self.next += 1;
        self.is_kept = false;
        true
    }

    /// The line that was come to last, with its line feed.
    pub fn line(&self) -> &[u8]
        ensures { result.now ≡ self.now.line }
    {
        if self.is_kept {
            self.kept.as_bytes()
        } else {
            self.made[self.next - 1].as_bytes()
        }
    }
}
