use crate::{MemPoll, PollLink};
use rate_io::MemLink;
use rate_types::Seconds;
use std::alloc::Global;

/// A peer in memory, before it connects: what it sends before it ends, and how its connection takes calls.
#[derive(Drop)]
pub struct MemPeer {
    /// The bytes that it sends.
    pub bytes: Vec<u8>,
    /// The most bytes of a read; 0 counts as 1.
    pub read_most: usize,
    /// The most bytes of a write; 0 counts as 1.
    pub write_most: usize,
    /// The numbers of the reads and writes that wait, counted from 1.
    pub waiting: Vec<u64>,
    /// The numbers of the reads and writes that fail, counted from 1 without those that wait.
    pub failing: Vec<u64>,
    /// The moment that the connection's clock says.
    pub moment: Seconds,
}

impl MemPeer {
    ghost use Rattle.rate_io.specs.Listeners.{IsNewLink};
    ghost use Rattle.std.specs.Prelude.{◌≡◌};

    /// The connection to it.
    pub fn connect(self, alloc: Global) -> MemPoll
        ensures { IsNewLink (⟦<MemPoll as PollLink>⟧.state result).link }
    {
        let link = MemLink::new(alloc, self.bytes, self.failing)
            .in_pieces(self.read_most.max(1))
            .in_time(self.moment, self.moment);
        MemPoll::new(link, self.write_most.max(1), self.waiting)
    }
}
