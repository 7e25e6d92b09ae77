ghost use Rattle.std.specs.Prelude.{◌≡◌, Some, []};

use crate::{Call, Failed, History, Source};
use std::io::{Cursor, Read};

/// Bytes in memory. Calls are counted from 1, and those with a number in `failing` fail.
#[derive(Drop)]
pub struct MemSource {
    bytes: Cursor<Vec<u8>>,
    history: History,
    pub(crate) calls: u64,
    failing: Vec<u64>,
    faults: u64,
}

impl MemSource {
    /// A source of these bytes. It takes no memory.
    pub fn new(bytes: Vec<u8>, failing: Vec<u64>) -> MemSource
        ensures left { ⟦<MemSource as Source>⟧.left result ≡ Some bytes.items }
        ensures history { ⟦<MemSource as Source>⟧.history result ≡ [] }
        ensures faults { ⟦<MemSource as Source>⟧.faults result ≡ 0 }
    {
        MemSource {
            bytes: Cursor::new(bytes),
            history: History::new(),
            calls: 0,
            failing,
            faults: 0,
        }
    }
}

impl Source for MemSource {
    ghost left = { λ s. ⟦<Cursor<Vec<u8>> as Read>⟧.remaining s.bytes };

    ghost history = { λ s. s.history.events };

    ghost faults = { λ s. s.faults };

    fn read(&mut self, buf: &mut [u8]) -> Result<usize, Failed> {
        self.calls = self.calls.saturating_add(1);
        if self.failing.contains(&self.calls) {
            self.faults = self.faults.saturating_add(1);
            self.history = self.history.and(&Call::ReadFailed);
            return Err(Failed);
        }
        let Ok(count) = self.bytes.read(buf) else {
            unreachable!();
        };
        self.history = self.history.and(&Call::of_read(count, buf));
        Ok(count)
    }
}
