ghost use Rattle.std.specs.Prelude.{◌≡◌, ◌++◌, [], IfOk, IfErr, OnOk, string_bytes};
ghost use Rattle.std.specs.List.{concat};

use crate::line_number::LineNumber;
use crate::replay_fault::ReplayFault;
use crate::step::take_bytes;
use quota_buckets::Buckets;
use quota_settings::Settings;
use rate_types::limits::MOST_LINES;
use std::alloc::Global;
use std::hash::RandomState;
use std::marker::Model;

/// How far a stream was replayed: the buckets after its lines so far, and the bytes of a line that hasn't ended.
#[derive(Drop)]
pub struct Replay {
    alloc: Global,
    index: u64,
    lines: u32,
    buckets: Buckets,
    pending: Vec<u8>,
}

impl Model for Replay {
    ghost use Rattle.std.specs.Prelude.{◌≤◌};
    ghost use Rattle.rate_types.specs.declared.limits.TheConstants.{MOST_LINES};
    ghost use Rattle.quota_stream.specs.Progress.{Progress, IsPlain};

    ghost Value = { Progress };

    ghost view = { λ r. record {
      index = r.index;
      lines = r.lines;
      stream = r.buckets;
      pending = r.pending.items;
    } };

    ghost invariant = { λ r. (r.lines ≤ MOST_LINES) × IsPlain r.pending.items };
}

impl Replay {
    ghost use Rattle.std.specs.Prelude.{◌≤◌};
    ghost use Rattle.quota_buckets.specs.Streams.{new_stream};
    ghost use Rattle.quota_stream.specs.Progress.{IsPlain, IsLineFault, next_outcome, after_line, has_bytes};

    /// The stream of this index, before its first byte. The hashes of buckets' names go by `seed`. It takes no memory.
    pub fn new(alloc: Global, settings: Settings, seed: RandomState, index: u64) -> Replay
        ensures { result ≡ record { index = index; lines = 0; stream = new_stream settings; pending = [] } }
    {
        Replay {
            alloc,
            index,
            lines: 0,
            buckets: Buckets::make(alloc, settings, seed),
            pending: Vec::new(alloc),
        }
    }

    /// Whether a line has begun and not ended.
    pub fn has_pending(&self) -> bool
        ensures pending { result ≡ has_bytes self.now.pending }
        ensures plain { IsPlain self.now.pending }
        ensures few { self.now.lines ≤ MOST_LINES }
    {
        !self.pending.is_empty()
    }

    /// Adds bytes to the line.
    pub fn add(&mut self, part: &[u8]) -> Result<(), ReplayFault>
        requires { IsPlain part.now }
        ensures added { OnOk result (self.new ≡ record self.old { pending = self.old.pending ++ part.now }) }
        ensures plain { OnOk result (IsPlain self.new.pending) }
        ensures fault { IfErr result (λ fault. fault ≡ ReplayFault.OutOfMemory) }
    {
        if self.pending.extend_from_slice(part).is_err() {
            self.pending.clear();
            return Err(ReplayFault::OutOfMemory);
        }
        Ok(())
    }

    /// Ends the line: the lines that are written for it, one after the other.
    pub fn end_line(&mut self) -> Result<String, ReplayFault>
        ensures ended { OnOk result (self.new ≡ after_line self.old) }
        ensures few { OnOk result (self.new.lines ≤ MOST_LINES) }
        ensures written { IfOk result (λ t. string_bytes t ≡ concat (next_outcome self.old).written) }
        ensures fault { IfErr result (IsLineFault self.old) }
    {
        if self.lines >= MOST_LINES {
            return Err(ReplayFault::TooLong {
                read: u64::from(self.lines) + 1,
            });
        }
        let number = LineNumber {
            stream: self.index,
            line: self.lines + 1,
        };
        let mut text = String::new(self.alloc);
        let bytes = &self.pending;
        let Ok(()) = take_bytes(self.alloc, &mut self.buckets, &mut text, number, bytes) else {
            return Err(ReplayFault::OutOfMemory);
        };
        self.lines += 1;
        self.pending.clear();
        Ok(text)
    }
}
