ghost use Rattle.std.specs.Prelude.{◌≡◌, ◌==◌, ◌≤◌, ◌^◌, ◌<◌, not, vec_len, Some, None, [], if◌then◌else◌, true, false};
ghost use Rattle.std.specs.Option.{option_copied};

use crate::{Call, Failed, History, Link};
use rate_types::Seconds;
use std::alloc::Global;
use std::io::{Cursor, Read};

/// A connection in memory. Calls are counted from 1, and those with a number in `failing` fail and write nothing.
/// Its clock goes on by itself: each moment that it tells is one second later than the one before, up to the last.
/// Where a piece finds no memory, the link is no longer whole, and tells nothing of what was written from then on.
#[derive(Drop)]
pub struct MemLink {
    bytes: Cursor<Vec<u8>>,
    most: usize,
    out: Vec<u8>,
    is_whole: bool,
    pub(crate) is_shut: bool,
    pub(crate) history: History,
    calls: u64,
    failing: Vec<u64>,
    faults: u64,
    first: Seconds,
    moment: Seconds,
    last: Seconds,
    ghost some: { 0 < most },
    ghost begun: { first ≤ moment },
    ghost not_over: { moment ≤ last },
}

impl MemLink {
    /// A peer that sends these bytes and then ends, at a clock that stands still at 0. It takes no memory.
    pub fn new(alloc: Global, bytes: Vec<u8>, failing: Vec<u64>) -> MemLink
        ensures { ⟦<MemLink as Link>⟧.state result ≡ record {
          left = Some bytes.items;
          written = Some [];
          history = [];
          faults = 0;
          can_fail = not (vec_len failing == 0);
          is_shut = false;
          bounds = Some (0, 0);
        } }
    {
        MemLink {
            bytes: Cursor::new(bytes),
            most: usize::MAX,
            out: Vec::new(alloc),
            is_whole: true,
            is_shut: false,
            history: History::new(),
            calls: 0,
            failing,
            faults: 0,
            first: Seconds::capped(0),
            moment: Seconds::capped(0),
            last: Seconds::capped(0),
        }
    }

    /// The same, but each read hands out at most so many bytes.
    pub fn in_pieces(mut self, most: usize) -> MemLink
        requires { 0 < most }
        ensures { ⟦<MemLink as Link>⟧.state result ≡ ⟦<MemLink as Link>⟧.state self }
    {
        self.most = most;
        self
    }

    /// The same at a clock that goes on from `first` to `last`.
    pub fn in_time(mut self, first: Seconds, last: Seconds) -> MemLink
        requires { first ≤ last }
        ensures { let s = ⟦<MemLink as Link>⟧.state self in
            ⟦<MemLink as Link>⟧.state result ≡ record s { bounds = Some (first, last) } }
    {
        self.first = first;
        self.moment = first;
        self.last = last;
        self
    }

    // The same with no call so far.
    pub(crate) fn unused(mut self) -> MemLink
        ensures { let s = ⟦<MemLink as Link>⟧.state self in
            ⟦<MemLink as Link>⟧.state result ≡ record s { history = []; is_shut = false } }
    {
        self.history = History::new();
        self.is_shut = false;
        self
    }

    /// The bytes that were written, unless a piece found no memory.
    pub fn written(&self) -> Option<&[u8]>
        ensures { option_copied result ≡ (⟦<MemLink as Link>⟧.state self.now).written }
    {
        if self.is_whole { Some(&self.out) } else { None }
    }

    /// It was shut.
    pub fn is_shut(&self) -> bool
        ensures { result ≡ (⟦<MemLink as Link>⟧.state self.now).is_shut }
    {
        self.is_shut
    }
}

impl Link for MemLink {
    ghost use Rattle.std.specs.Prelude.{not, ◌==◌, vec_len};

    ghost state = { λ l. record {
      left = ⟦<Cursor<Vec<u8>> as Read>⟧.remaining l.bytes;
      written = if l.is_whole then Some l.out.items else None;
      history = l.history.events;
      faults = l.faults;
      can_fail = not (vec_len l.failing == 0);
      is_shut = l.is_shut;
      bounds = Some (l.first, l.last);
    } };

    fn read(&mut self, buf: &mut [u8]) -> Result<usize, Failed> {
        self.calls = self.calls.saturating_add(1);
        if self.failing.contains(&self.calls) {
            self.faults = self.faults.saturating_add(1);
            self.history = self.history.and(&Call::ReadFailed);
            return Err(Failed);
        }
        let most = self.most.min(buf.len());
        let Ok(count) = self.bytes.read(&mut buf[..most]) else {
            unreachable!();
        };
        self.history = self.history.and(&Call::of_read(count, buf));
        Ok(count)
    }

    fn write(&mut self, piece: &[u8]) -> Result<(), Failed> {
        self.calls = self.calls.saturating_add(1);
        if self.failing.contains(&self.calls) {
            self.faults = self.faults.saturating_add(1);
            self.history = self.history.and(&Call::WriteFailed(piece));
            return Err(Failed);
        }
        if self.out.extend_from_slice(piece).is_err() {
            self.is_whole = false;
        }
        self.history = self.history.and(&Call::Wrote(piece));
        Ok(())
    }

    fn now(&mut self) -> Seconds {
        let told = self.moment;
        if told.get() < self.last.get() {
            self.moment = Seconds::capped(told.get() + 1);
        }
        self.history = self.history.and(&Call::Told(told));
        told
    }

    fn shut(&mut self) {
        self.is_shut = true;
    }
}
