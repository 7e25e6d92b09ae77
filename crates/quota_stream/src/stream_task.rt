ghost use Rattle.std.specs.Prelude.{◌≡◌, ℕ, List, ◌+◌, ◌≤◌, true, false};
ghost use Rattle.std.specs.Prelude.{length, OnOk, OnErr, IfErr, IfSome, IfNone, None, Some};

use crate::line_number::LineNumber;
use crate::replay_fault::ReplayFault;
use crate::step::take_bytes;
use quota_buckets::Buckets;
use quota_settings::Settings;
use rate_types::Word;
use rate_types::limits::{MOST_BYTES, MOST_LINES};
use std::alloc::Global;
use std::hash::RandomState;
use std::marker::Model;
use std::mem;
use text_lines::cut_line;

/// The most lines of one turn.
pub const LINES_A_TURN: u32 = 64;

/// The replay of a stream that is in memory, as a task.
#[derive(Drop)]
pub struct StreamTask<'a> {
    alloc: Global,
    index: u64,
    lines: u32,
    buckets: Buckets,
    text: String,
    left: &'a [u8],
    fault: Option<ReplayFault>,
}

impl<'a> Model for StreamTask<'a> {
    ghost use Rattle.std.specs.Prelude.{◌≤◌, string_bytes};
    ghost use Rattle.rate_types.specs.declared.limits.TheConstants.{MOST_LINES};
    ghost use Rattle.quota_stream.specs.Tasks.{Task};

    ghost Value = { Task };

    ghost view = { λ t. record {
      index = t.index;
      lines = t.lines;
      stream = t.buckets;
      text = string_bytes t.text;
      left = t.left.now;
      fault = t.fault;
    } };

    ghost invariant = { λ t. t.lines ≤ MOST_LINES };
}

ghost use Rattle.quota_stream.specs.Tasks.{IsFaultOf};
ghost use Rattle.rate_types.specs.declared.limits.TheConstants.{MOST_BYTES};

// A stream that has too many bytes.
fn too_long(bytes: &[u8]) -> Option<ReplayFault>
    ensures some { IfSome result (λ fault. IsFaultOf bytes.now fault) }
    ensures none { IfNone result (length bytes.now ≤ MOST_BYTES) }
{
    if bytes.len() as u64 > MOST_BYTES {
        return Some(ReplayFault::TooLong {
            read: bytes.len() as u64,
        });
    }
    None
}

impl<'a> StreamTask<'a> {
    ghost use Rattle.quota_stream.specs.Tasks.{Stands, GoesOn, IsAnswer, output_text, is_ended};

    /// The replay of the stream of this index by these settings. The hashes of buckets' names go by `seed`. It takes no memory.
    pub fn new(
        alloc: Global,
        settings: Settings,
        seed: RandomState,
        index: u64,
        bytes: &'a [u8],
    ) -> StreamTask<'a>
        ensures { Stands (output_text settings index bytes.now) bytes.now result }
    {
        StreamTask {
            alloc,
            index,
            lines: 0,
            buckets: Buckets::make(alloc, settings, seed),
            text: String::new(alloc),
            left: bytes,
            fault: too_long(bytes),
        }
    }

    /// Whether it has ended: by a fault, or since no line is left.
    pub fn is_ended(&self) -> bool
        ensures ended { result ≡ is_ended self.now }
        ensures few { self.now.lines ≤ MOST_LINES }
    {
        self.fault.is_some() || self.left.is_empty()
    }

    // Replays one line.
    fn take_line(&mut self) -> Result<(), ReplayFault>
        requires { is_ended self.old ≡ false }
        ensures goes_on { OnOk result (GoesOn self.old self.new) }
        ensures one { OnOk result ((self.new.lines ≡ self.old.lines + 1) × (self.new.fault ≡ None)) }
        ensures lines { OnErr result (self.new.lines ≡ self.old.lines) }
        ensures fault { IfErr result (λ fault. (whole bytes : List ℕ) → Stands whole bytes self.old → IsFaultOf bytes fault) }
    {
        if self.lines >= MOST_LINES {
            return Err(ReplayFault::TooLong {
                read: u64::from(self.lines) + 1,
            });
        }
        let (first, after) = cut_line(self.left);
        let number = LineNumber {
            stream: self.index,
            line: self.lines + 1,
        };
        let Ok(()) = take_bytes(self.alloc, &mut self.buckets, &mut self.text, number, first) else {
            return Err(ReplayFault::OutOfMemory);
        };
        self.left = after;
        self.lines += 1;
        Ok(())
    }

    // Ends it by a fault.
    fn stop(&mut self, fault: ReplayFault)
        ensures { self.new ≡ record self.old { fault = Some fault } }
    {
        self.fault = Some(fault);
    }

    /// Replays 64 lines, or those that are left where they are fewer.
    pub fn turn(&mut self)
        ensures goes_on { GoesOn self.old self.new }
        ensures most { self.new.lines ≤ self.old.lines + LINES_A_TURN }
        ensures whole { is_ended self.new ≡ false → self.new.lines ≡ self.old.lines + LINES_A_TURN }
    {
        'lines: for done in 0..LINES_A_TURN {
            if self.is_ended() {
                return;
            }
            if let Err(fault) = self.take_line() {
                self.stop(fault);
                return;
            }
        }
    }

    /// The text of the whole stream, or the fault that ended it.
    pub fn take_answer(&mut self) -> Result<Word, ReplayFault>
        requires { is_ended self.old ≡ true }
        ensures { (whole bytes : List ℕ) → Stands whole bytes self.old → IsAnswer whole bytes result }
    {
        if let Some(fault) = self.fault {
            return Err(fault);
        }
        let text = mem::replace(&mut self.text, String::new(self.alloc));
        Ok(Word::of(text))
    }

    /// Replays what is left, and answers.
    pub fn finish(&mut self) -> Result<Word, ReplayFault>
        ensures { (whole bytes : List ℕ) → Stands whole bytes self.old → IsAnswer whole bytes result }
    {
        'turns: while !self.is_ended() {
            self.turn();
        }
        self.take_answer()
    }
}
