ghost use Rattle.std.specs.Prelude.{◌≡◌};
ghost use Rattle.conn_tasks.specs.Polls.{PollState, IsPollRead, IsPollWrite, IsPollNow, IsPollEnd};

use crate::Polled;
use rate_io::Failed;
use rate_types::Seconds;

/// A connection to a peer whose calls don't wait, with the clock of the side that serves it. A call that would wait answers
/// `Pending`, and from then on what the link comes from tells when it may go on.
pub trait PollLink {
    /// What it has left and was written where it tells, its calls in order, how often it has failed, and how often it would have waited.
    ghost state: { Self → PollState };

    /// Reads some of the bytes that are left, at most as many as `buf` has room for, and answers how many. 0 with room
    /// is the end.
    fn poll_read(&mut self, buf: &mut [u8]) -> Polled<Result<usize, Failed>>
        ensures { IsPollRead (state self.old) (state self.new) result buf.new };

    /// Writes the first bytes of a piece, at least one where there is one, and answers how many. After `Failed` the first bytes of
    /// the piece may have been written.
    fn poll_write(&mut self, piece: &[u8]) -> Polled<Result<usize, Failed>>
        ensures { IsPollWrite (state self.old) (state self.new) result piece.now };

    /// The moment now, asked of the clock in this call.
    fn now(&mut self) -> Seconds
        ensures { IsPollNow (state self.old) (state self.new) result };

    /// Something happened at the link: a call that would have waited may go on. The peer may have ended it.
    fn woken(&mut self, is_closed: bool)
        ensures { state self.new ≡ state self.old };

    /// Ends the connection, as far as this side can.
    fn shut(&mut self)
        ensures { IsPollEnd (state self.old) (state self.new) };
}
