ghost use Rattle.std.specs.Prelude.{◌≡◌, ◌∷◌, [], ◌++◌, List, ℕ, length, IfOk};
ghost use Rattle.rate_io.specs.Causes.{HasCause};
ghost use Rattle.rate_io.specs.Listeners.{ListenEvent, IsOut, IsPortFor, bind_event, gave_back};
ghost use Rattle.conn_tasks.specs.Listening.{AcceptsTo, IsFresh, HasPolledCause, HasWaited, IsWoke};
ghost use Rattle.conn_tasks.specs.declared.woke.Woke.{Woke};

use crate::{PollLink, Polled, Woke};
use rate_io::Failed;

/// A listener whose accepts don't wait, and which tells at which of its links something happened. The links that it hands out are
/// numbered from 0, in order, and each may be given back once.
pub trait PollListen {
    /// The links that it hands out.
    type Link: PollLink + Drop;

    /// Its calls that answered, in order.
    ghost history: { Self → List ListenEvent };

    /// How often it has failed. The count stops at the last value of a counter of 64 bits.
    ghost faults: { Self → ℕ };

    /// How often an accept would have waited. The count stops likewise.
    ghost waits: { Self → ℕ };

    /// The things for which the last sleep ended.
    ghost told: { Self → List Woke };

    /// Binds a port, or a free one for 0, and answers which.
    fn bind(&mut self, port: u16) -> Result<u16, Failed>
        ensures asked { IfOk result (λ got. IsPortFor port got) }
        ensures event { history self.new ≡ history self.old ++ bind_event port result ∷ [] }
        ensures cause { HasCause (faults self.old) (faults self.new) result };

    /// Hands out the next connection, unused, if one is there. It is told of under this place from then on.
    fn poll_accept(&mut self, place: usize) -> Polled<Result<Self::Link, Failed>>
        ensures event { AcceptsTo (history self.old) (history self.new) result }
        ensures fresh { IsFresh Self.Link.state result }
        ensures cause { HasPolledCause (faults self.old) (faults self.new) result }
        ensures wait { HasWaited (waits self.old) (waits self.new) result }
        ensures told { told self.new ≡ told self.old };

    /// Waits until something happens, at most so many milliseconds, and answers how many things.
    fn sleep(&mut self, most: u64) -> Result<usize, Failed>
        ensures history { history self.new ≡ history self.old }
        ensures told { IfOk result (λ count. count ≡ length (told self.new)) }
        ensures cause { HasCause (faults self.old) (faults self.new) result };

    /// One of the things for which the last sleep ended.
    fn woke(&self, index: usize) -> Option<Woke>
        ensures { IsWoke (told self.now) index result };

    /// Takes a link back, under its number.
    fn give_back(&mut self, number: u32, link: Self::Link)
        requires { IsOut (history self.old) number }
        ensures event { history self.new ≡ history self.old
            ++ gave_back number (Self.Link.state link).link.history (Self.Link.state link).link.is_shut ∷ [] }
        ensures faults { faults self.new ≡ faults self.old };
}
