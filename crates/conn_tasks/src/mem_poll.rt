ghost use Rattle.std.specs.Prelude.{◌≡◌, ◌<◌};

use crate::{PollLink, Polled};
use rate_io::{Call, Failed, History, Link, MemLink};
use rate_types::Seconds;

/// A connection in memory. Its reads and writes are counted from 1, and those with a number in `waiting` wait; each write takes at
/// most `most` bytes.
#[derive(Drop)]
pub struct MemPoll {
    link: MemLink,
    // What the link did, too.
    pub(crate) history: History,
    most: usize,
    calls: u64,
    waiting: Vec<u64>,
    waits: u64,
    ghost some: { 0 < most },
    ghost same: { history.events ≡ (⟦<MemLink as Link>⟧.state link).history },
}

impl MemPoll {
    ghost use Rattle.std.specs.Prelude.{◌≡◌, ◌<◌, []};

    /// The link that it is, of which nothing was read or written.
    pub fn new(link: MemLink, most: usize, waiting: Vec<u64>) -> MemPoll
        requires unused { (⟦<MemLink as Link>⟧.state link).history ≡ [] }
        requires some { 0 < most }
        ensures { ⟦<MemPoll as PollLink>⟧.state result ≡ record { link = ⟦<MemLink as Link>⟧.state link; waits = 0 } }
    {
        MemPoll {
            link,
            history: History::new(),
            most,
            calls: 0,
            waiting,
            waits: 0,
        }
    }

    /// The link inside.
    pub fn link(&self) -> &MemLink
        ensures { ⟦<MemLink as Link>⟧.state result.now ≡ (⟦<MemPoll as PollLink>⟧.state self.now).link }
    {
        &self.link
    }
}

impl PollLink for MemPoll {
    ghost state = { λ p. record { link = ⟦<MemLink as Link>⟧.state p.link; waits = p.waits } };

    fn poll_read(&mut self, buf: &mut [u8]) -> Polled<Result<usize, Failed>> {
        self.calls = self.calls.saturating_add(1);
        if self.waiting.contains(&self.calls) {
            self.waits = self.waits.saturating_add(1);
            return Polled::Pending;
        }
        match self.link.read(buf) {
            Ok(count) => {
                self.history = self.history.and(&Call::of_read(count, buf));
                Polled::Ready(Ok(count))
            }
            Err(failed) => {
                self.history = self.history.and(&Call::ReadFailed);
                Polled::Ready(Err(failed))
            }
        }
    }

    fn poll_write(&mut self, piece: &[u8]) -> Polled<Result<usize, Failed>> {
        self.calls = self.calls.saturating_add(1);
        if self.waiting.contains(&self.calls) {
            self.waits = self.waits.saturating_add(1);
            return Polled::Pending;
        }
        let count = piece.len().min(self.most);
        match self.link.write(&piece[..count]) {
            Ok(()) => {
                self.history = self.history.and(&Call::Wrote(&piece[..count]));
                Polled::Ready(Ok(count))
            }
            Err(failed) => {
                self.history = self.history.and(&Call::WriteFailed(&piece[..count]));
                Polled::Ready(Err(failed))
            }
        }
    }

    fn now(&mut self) -> Seconds {
        let moment = self.link.now();
        self.history = self.history.and(&Call::Told(moment));
        moment
    }

    fn woken(&mut self, _is_closed: bool) {}

    fn shut(&mut self) {
        self.link.shut();
    }
}
