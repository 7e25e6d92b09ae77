ghost use Rattle.std.specs.Prelude.{◌≡◌, ◌∷◌, [], ◌++◌, List, ℕ, IfOk};
ghost use Rattle.rate_io.specs.Causes.{HasCause};
ghost use Rattle.rate_io.specs.Listeners.{ListenEvent, IsOut, IsPortFor, bind_event, accept_event, gave_back, IsNewLink};

use crate::{Failed, Link};

/// A listener for connections. The links that it hands out are numbered from 0, in order, and each may be given back once.
pub trait Listen {
    /// The links that it hands out.
    type Link: Link + Drop;

    /// Its calls, in order, and what each answered.
    ghost history: { Self → List ListenEvent };

    /// How often it has failed. The count stops at the last value of a counter of 64 bits.
    ghost faults: { Self → ℕ };

    /// Binds a port, or a free one for 0, and answers which.
    fn bind(&mut self, port: u16) -> Result<u16, Failed>
        ensures asked { IfOk result (λ got. IsPortFor port got) }
        ensures event { history self.new ≡ history self.old ++ bind_event port result ∷ [] }
        ensures cause { HasCause (faults self.old) (faults self.new) result };

    /// Waits for the next connection and hands it out, unused.
    fn accept(&mut self) -> Result<Self::Link, Failed>
        ensures event { history self.new ≡ history self.old ++ accept_event result ∷ [] }
        ensures fresh { IfOk result (λ link. IsNewLink (Self.Link.state link)) }
        ensures cause { HasCause (faults self.old) (faults self.new) result };

    /// Takes a link back, under its number.
    fn give_back(&mut self, number: u32, link: Self::Link)
        requires { IsOut (history self.old) number }
        ensures event { history self.new ≡ history self.old
            ++ gave_back number (Self.Link.state link).history (Self.Link.state link).is_shut ∷ [] }
        ensures faults { faults self.new ≡ faults self.old };
}
