ghost use Rattle.std.specs.Prelude.{◌≡◌, ◌∷◌, OnSome, IfNone, Some, map, [], ◌++◌};
ghost use Rattle.rate_io.specs.Events.{pieces_written, wrote};

use crate::{Call, Failed, History, Sink};
use std::alloc::Global;

/// A sink in memory, in which nothing waits. Its writes and flushes are counted together from 1, and those with a number in
/// `failing` fail; such a write writes nothing. A write that finds no memory fails likewise.
#[derive(Drop)]
pub struct MemSink {
    alloc: Global,
    bytes: Vec<u8>,
    pieces: Vec<Vec<u8>>,
    history: History,
    calls: u64,
    failing: Vec<u64>,
    faults: u64,
    ghost kept: { pieces_written history.events ≡ map (λ v. v.items) pieces.items },
}

impl MemSink {
    /// A sink that was written nothing. It takes no memory.
    pub fn new(alloc: Global, failing: Vec<u64>) -> MemSink
        ensures written { ⟦<MemSink as Sink>⟧.written result ≡ Some [] }
        ensures history { ⟦<MemSink as Sink>⟧.history result ≡ [] }
        ensures faults { ⟦<MemSink as Sink>⟧.faults result ≡ 0 }
    {
        MemSink {
            alloc,
            bytes: Vec::new(alloc),
            pieces: Vec::new(alloc),
            history: History::new(),
            calls: 0,
            failing,
            faults: 0,
        }
    }

    /// The bytes that were written.
    pub fn bytes(&self) -> &[u8]
        ensures { ⟦<MemSink as Sink>⟧.written self.now ≡ Some result.now }
    {
        &self.bytes
    }

    /// The pieces that were written, each by one call.
    pub fn pieces(&self) -> &[Vec<u8>]
        ensures { pieces_written (⟦<MemSink as Sink>⟧.history self.now) ≡ map (λ v. v.items) result.now }
    {
        &self.pieces
    }

    fn keep(&mut self, piece: &[u8]) -> Option<()>
        ensures done { OnSome result ((self.new.bytes.items ≡ self.old.bytes.items ++ piece.now)
            × (self.new.history.events ≡ self.old.history.events ++ wrote piece.now ∷ [])) }
        ensures not_done { IfNone result ((self.new.bytes.items ≡ self.old.bytes.items)
            × (self.new.history.events ≡ self.old.history.events)) }
        ensures faults { self.new.faults ≡ self.old.faults }
    {
        let copy = piece.to_vec(self.alloc).ok()?;
        if self.bytes.reserve(piece.len()).is_err() {
            return None;
        }
        if self.pieces.push(copy).is_err() {
            return None;
        }
        self.bytes.extend_from_slice(piece).unwrap();
        self.history = self.history.and(&Call::Wrote(piece));
        Some(())
    }
}

impl Sink for MemSink {
    ghost written = { λ s. Some s.bytes.items };

    ghost history = { λ s. s.history.events };

    ghost faults = { λ s. s.faults };

    fn write(&mut self, piece: &[u8]) -> Result<(), Failed> {
        self.calls = self.calls.saturating_add(1);
        if self.failing.contains(&self.calls) || self.keep(piece).is_none() {
            self.faults = self.faults.saturating_add(1);
            self.history = self.history.and(&Call::WriteFailed(piece));
            return Err(Failed);
        }
        Ok(())
    }

    fn flush(&mut self) -> Result<(), Failed> {
        self.calls = self.calls.saturating_add(1);
        if self.failing.contains(&self.calls) {
            self.faults = self.faults.saturating_add(1);
            self.history = self.history.and(&Call::FlushFailed);
            return Err(Failed);
        }
        self.history = self.history.and(&Call::Flushed);
        Ok(())
    }
}
