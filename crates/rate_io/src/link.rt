ghost use Rattle.rate_io.specs.Links.{LinkState, IsLinkRead, IsLinkWrite, IsLinkNow, IsLinkEnd};

use crate::Failed;
use rate_types::Seconds;

/// A connection to a peer, with the clock of the side that serves it, so that one history has its reads, its writes and the
/// moments between them.
pub trait Link {
    /// What it has left and was written where it tells, its calls in order, and how often it has failed.
    ghost state: { Self → LinkState };

    /// Reads some of the bytes that are left, at most as many as `buf` has room for, and answers how many. 0 with room
    /// is the end.
    fn read(&mut self, buf: &mut [u8]) -> Result<usize, Failed>
        ensures { IsLinkRead (state self.old) (state self.new) result buf.new };

    /// Writes a piece. After `Failed` the first bytes of the piece may have been written.
    fn write(&mut self, piece: &[u8]) -> Result<(), Failed>
        ensures { IsLinkWrite (state self.old) (state self.new) result piece.now };

    /// The moment now, asked of the clock in this call.
    fn now(&mut self) -> Seconds
        ensures { IsLinkNow (state self.old) (state self.new) result };

    /// Ends the connection, as far as this side can.
    fn shut(&mut self)
        ensures { IsLinkEnd (state self.old) (state self.new) };
}
