ghost use Rattle.std.specs.Prelude.{◌≡◌, ◌<◌, ◌≤◌, ℕ, length, map, drop, IfOk, Err};
ghost use Rattle.rate_types.specs.declared.limits.TheConstants.{MOST_LINES};
ghost use Rattle.text_lines.specs.Lines.{cut};
ghost use Rattle.script_text.specs.LineStarts.{AreLineStarts, EndsAt};
ghost use Rattle.script_text.specs.declared.script.ScriptFault.TheVariants.{TooManyLines};

use crate::reading::read_line;
use json::Scratch;
use rate_types::OutOfMemory;
use rate_types::limits::MOST_LINES;
use script_lines::ScriptLines;
use script_run::Line;
use std::alloc::Global;
use text_lines::{cut_line, line_feed};
use thiserror::Error;

/// Why a script isn't read.
#[derive(Clone, Copy, Debug, PartialEq, Eq, Error)]
pub enum ScriptFault {
    /// It has more than 1,048,576 lines; `lines` were seen.
    #[error("more than {MOST_LINES} lines: {lines} were seen")]
    TooManyLines { lines: u64 },
    /// There was no memory to read the lines.
    #[error("out of memory")]
    OutOfMemory,
}

/// A script: its lines in order, at most 1,048,576. It keeps their bytes and where each line begins, and a line is read when it is run.
#[derive(Drop)]
pub struct Script<'a> {
    bytes: &'a [u8],
    starts: Vec<usize>,
    ghost few: { length starts.items ≤ MOST_LINES },
    ghost lines: { AreLineStarts bytes.now starts.items },
}

// Where the line behind the one that begins here begins: at the end of the bytes where there is none.
fn next_start(bytes: &[u8], start: usize) -> usize
    requires { start < length bytes.now }
    ensures later { (start < result) × (result ≤ length bytes.now) }
    ensures cut { cut (drop result bytes.now) ≡ drop 1 (cut (drop start bytes.now)) }
    ensures ends { EndsAt bytes.now start result }
{
    match line_feed(&bytes[start..]) {
        Some(at) => start + at + 1,
        None => bytes.len(),
    }
}

impl<'a> Script<'a> {
    ghost use Rattle.std.specs.Prelude.{List, slice_index_or};
    ghost use Rattle.script_run.specs.Views.{line_view};
    ghost use Rattle.script_text.specs.Views.{script_view};
    ghost use Rattle.script_text.specs.Script as scripts;

    /// The script of these bytes: one line per line feed, and one for what stands behind the last line feed.
    #[tactic(auto, unfolding(crate::specs::Views::script_view))]
    pub fn read(alloc: Global, bytes: &'a [u8]) -> Result<Script<'a>, ScriptFault>
        ensures script { IfOk result (λ s. script_view s ≡ scripts.script_of bytes.now) }
        ensures within { IfOk result (λ s. length (script_view s) ≤ MOST_LINES) }
        ensures many { (lines : ℕ) → result ≡ Err (TooManyLines lines) → MOST_LINES < lines }
        ensures more { (lines : ℕ) → result ≡ Err (TooManyLines lines) → lines ≤ length (cut bytes.now) }
    {
        let mut starts = Vec::new(alloc);
        let mut start = 0;
        'lines: while start < bytes.len() {
            if starts.len() >= MOST_LINES as usize {
                return Err(ScriptFault::TooManyLines {
                    lines: starts.len() as u64 + 1,
                });
            }
            if starts.push(start).is_err() {
                return Err(ScriptFault::OutOfMemory);
            }
            start = next_start(bytes, start);
        }
        Ok(Script { bytes, starts })
    }

    // The line at an index, counted from 0. The end of one that has another behind it isn't looked for again.
    fn line(&self, index: usize) -> &[u8]
        requires { index < length self.now.starts.items }
        ensures { (d : List ℕ) → slice_index_or (cut self.now.bytes.now) index d ≡ result.now }
    {
        let start = self.starts[index];
        if index + 1 < self.starts.len() {
            return &self.bytes[start..self.starts[index + 1] - 1];
        }
        let (line, _) = cut_line(&self.bytes[start..]);
        line
    }

    /// What each line says, in order.
    #[tactic(auto, unfolding(crate::specs::Views::script_view))]
    pub fn read_lines(&self, alloc: Global) -> Result<Vec<Line>, OutOfMemory>
        ensures lines { IfOk result (λ v. map line_view v.items ≡ script_view self.now) }
        ensures within { length (script_view self.now) ≤ MOST_LINES }
    {
        let mut lines = Vec::with_capacity(alloc, self.starts.len())?;
        let mut scratch = Scratch::new(alloc);
        'lines: for index in 0..self.starts.len() {
            let line = read_line(alloc, &mut scratch, self.line(index))?;
            lines.push_reserved(line);
        }
        Ok(lines)
    }
}

impl ScriptLines for Script<'_> {
    ghost use Rattle.script_text.specs.Views.{script_view};

    ghost lines = { script_view };

    #[tactic(auto, unfolding(crate::specs::Views::script_view))]
    fn count(&self) -> u32 {
        self.starts.len() as u32
    }

    fn batch(&self) -> u64 {
        1
    }

    #[tactic(auto, unfolding(crate::specs::Views::script_view))]
    fn read(
        &self,
        alloc: Global,
        scratch: &mut Scratch,
        index: usize,
    ) -> Result<Line, OutOfMemory> {
        let line = read_line(alloc, scratch, self.line(index))?;
        Ok(line)
    }
}
