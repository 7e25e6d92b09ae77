ghost use Rattle.std.specs.Prelude.{◌≡◌, ◌∷◌, [], ◌++◌, Option, List, ℕ, OnOk, OnErr};
ghost use Rattle.rate_io.specs.Causes.{HasCause};
ghost use Rattle.rate_io.specs.Content.{Appends, AppendsPart};
ghost use Rattle.rate_io.specs.Events.{Event, write_event, flush_event};

use crate::Failed;

/// A sink of bytes.
pub trait Sink {
    /// The bytes that were written, where they are told.
    ghost written: { Self → Option (List ℕ) };

    /// Its writes and flushes, in order, and whether each was done.
    ghost history: { Self → List Event };

    /// How often it has failed. The count stops at the last value of a counter of 64 bits.
    ghost faults: { Self → ℕ };

    /// Writes a piece. What it took may wait in the sink until `flush`. After `Failed` the first bytes of the piece may have been
    /// written.
    fn write(&mut self, piece: &[u8]) -> Result<(), Failed>
        ensures bytes { OnOk result (Appends (written self.old) (written self.new) piece.now) }
        ensures part { OnErr result (AppendsPart (written self.old) (written self.new) piece.now) }
        ensures event { history self.new ≡ history self.old ++ write_event result piece.now ∷ [] }
        ensures cause { HasCause (faults self.old) (faults self.new) result };

    /// Hands on what waits in the sink: with Ok all that was written before has reached what stands behind the sink. After
    /// `Failed` some of it may not have.
    fn flush(&mut self) -> Result<(), Failed>
        ensures bytes { written self.new ≡ written self.old }
        ensures event { history self.new ≡ history self.old ++ flush_event result ∷ [] }
        ensures cause { HasCause (faults self.old) (faults self.new) result };
}
