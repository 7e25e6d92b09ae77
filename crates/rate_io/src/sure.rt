ghost use Rattle.std.specs.Prelude.{◌≡◌, [], Some, None, IfOk, if◌then◌else◌};

use crate::{Call, Failed, History, Sink, Source};
use rate_types::OutOfMemory;
use std::alloc::Global;
use std::io::{Cursor, Read};

/// Bytes in memory that are read without a fault: the count of faults stays 0.
#[derive(Drop)]
pub struct SureSource {
    bytes: Cursor<Vec<u8>>,
    history: History,
}

impl SureSource {
    /// A source of these bytes. It takes no memory.
    pub fn new(bytes: Vec<u8>) -> SureSource
        ensures left { ⟦<SureSource as Source>⟧.left result ≡ Some bytes.items }
        ensures history { ⟦<SureSource as Source>⟧.history result ≡ [] }
    {
        SureSource {
            bytes: Cursor::new(bytes),
            history: History::new(),
        }
    }
}

impl Source for SureSource {
    ghost left = { λ s. ⟦<Cursor<Vec<u8>> as Read>⟧.remaining s.bytes };

    ghost history = { λ s. s.history.events };

    ghost faults = { λ _. 0 };

    fn read(&mut self, buf: &mut [u8]) -> Result<usize, Failed> {
        let Ok(count) = self.bytes.read(buf) else {
            unreachable!();
        };
        self.history = self.history.and(&Call::of_read(count, buf));
        Ok(count)
    }
}

/// A sink in memory that is written without a fault: the count of faults stays 0. Where a piece finds no memory, the
/// sink is no longer whole and tells nothing from then on.
#[derive(Drop)]
pub struct SureSink {
    bytes: Vec<u8>,
    is_whole: bool,
    history: History,
}

impl SureSink {
    /// A sink that was written nothing. It takes no memory.
    pub fn new(alloc: Global) -> SureSink
        ensures written { ⟦<SureSink as Sink>⟧.written result ≡ Some [] }
        ensures history { ⟦<SureSink as Sink>⟧.history result ≡ [] }
    {
        SureSink {
            bytes: Vec::new(alloc),
            is_whole: true,
            history: History::new(),
        }
    }

    /// All bytes that were written, unless a piece found no memory.
    pub fn into_bytes(self) -> Result<Vec<u8>, OutOfMemory>
        ensures { IfOk result (λ v. ⟦<SureSink as Sink>⟧.written self ≡ Some v.items) }
    {
        if self.is_whole {
            Ok(self.bytes)
        } else {
            Err(OutOfMemory)
        }
    }
}

impl Sink for SureSink {
    ghost written = { λ s. if s.is_whole then Some s.bytes.items else None };

    ghost history = { λ s. s.history.events };

    ghost faults = { λ _. 0 };

    fn write(&mut self, piece: &[u8]) -> Result<(), Failed> {
        if self.bytes.extend_from_slice(piece).is_err() {
            self.is_whole = false;
        }
        self.history = self.history.and(&Call::Wrote(piece));
        Ok(())
    }

    fn flush(&mut self) -> Result<(), Failed> {
        self.history = self.history.and(&Call::Flushed);
        Ok(())
    }
}
