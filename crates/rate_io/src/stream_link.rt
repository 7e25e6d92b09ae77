// The adapter over a real stream. It tells no content; what std answers is trusted.
ghost use Rattle.std.specs.Prelude.{◌≡◌, [], ◌∷◌, ◌++◌, OnOk, is_some, option_and_then, true};
ghost use Rattle.std.specs.Io.KnownBytes as known;
ghost use Rattle.rate_io.specs.Events.{told};
ghost use Rattle.rate_io.specs.Links.{IsLinkRead, IsLinkWrite, IsLinkNow, stream_state};

use crate::{Call, Clock, Failed, History, Link};
use rate_types::Seconds;
use std::io::{Read, Write};

/// A stream of std, which is closed where it is shut. A write that takes nothing of a piece that isn't empty is a fault,
/// and so is each read and each write after it was shut.
#[derive(Drop)]
pub struct StreamLink<S: Read + Write + Drop, C: Clock + Drop> {
    pub(crate) stream: Option<S>,
    pub(crate) history: History,
    faults: u64,
    clock: C,
}

impl<S: Read + Write + Drop, C: Clock + Drop> StreamLink<S, C> {
    /// The link that this stream is, with this clock.
    pub fn new(stream: S, clock: C) -> Self
        ensures { ⟦<StreamLink<S, C> as Link>⟧.state result ≡ stream_state [] 0 true }
    {
        StreamLink {
            stream: Some(stream),
            history: History::new(),
            faults: 0,
            clock,
        }
    }
}

impl<S: Read + Write + Drop, C: Clock + Drop> Link for StreamLink<S, C> {
    ghost state = { λ l. stream_state l.history.events l.faults (is_some l.stream) };

    // Beside what each link promises: the bytes are the stream's, where it tells what it has left.
    fn read(&mut self, buf: &mut [u8]) -> Result<usize, Failed>
        ensures call { IsLinkRead (stream_state self.old.history.events self.old.faults (is_some self.old.stream))
            (stream_state self.new.history.events self.new.faults (is_some self.new.stream)) result buf.new }
        ensures inner { known.ReadConsumes (option_and_then S.remaining self.old.stream)
            (option_and_then S.remaining self.new.stream) result buf.new }
    {
        let answer = match &mut self.stream {
            Some(stream) => stream.read(buf).ok(),
            None => None,
        };
        let Some(count) = answer else {
            self.faults = self.faults.saturating_add(1);
            self.history = self.history.and(&Call::ReadFailed);
            return Err(Failed);
        };
        self.history = self.history.and(&Call::of_read(count, buf));
        Ok(count)
    }

    // Beside what each link promises: with Ok the stream took the piece, where it tells what it holds.
    fn write(&mut self, piece: &[u8]) -> Result<(), Failed>
        ensures call { IsLinkWrite (stream_state self.old.history.events self.old.faults (is_some self.old.stream))
            (stream_state self.new.history.events self.new.faults (is_some self.new.stream)) result piece.now }
        ensures inner { OnOk result (known.Appends (option_and_then S.contents self.old.stream)
            (option_and_then S.contents self.new.stream) piece.now) }
    {
        let answer = match &mut self.stream {
            Some(stream) => stream.write_all(piece).ok(),
            None => None,
        };
        let Some(()) = answer else {
            self.faults = self.faults.saturating_add(1);
            self.history = self.history.and(&Call::WriteFailed(piece));
            return Err(Failed);
        };
        self.history = self.history.and(&Call::Wrote(piece));
        Ok(())
    }

    // Beside what each link promises: the clock was asked once in this call, and this is what it told.
    fn now(&mut self) -> Seconds
        ensures call { IsLinkNow (stream_state self.old.history.events self.old.faults (is_some self.old.stream))
            (stream_state self.new.history.events self.new.faults (is_some self.new.stream)) result }
        ensures inner { C.history self.new.clock ≡ C.history self.old.clock ++ told result ∷ [] }
    {
        let told = self.clock.now();
        self.history = self.history.and(&Call::Told(told));
        told
    }

    fn shut(&mut self) {
        self.stream = None;
    }
}
