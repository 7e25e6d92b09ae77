ghost use Rattle.std.specs.Prelude.{◌≡◌, ◌∷◌, [], ◌++◌, Option, List, ℕ};
ghost use Rattle.std.specs.Io.{ReadsAtMost};
ghost use Rattle.std.specs.Io.KnownBytes.{ReadConsumes};
ghost use Rattle.rate_io.specs.Causes.{HasCause};
ghost use Rattle.rate_io.specs.Events.{Event, read_event};

/// A call to the outside failed, and the count of faults of its object rose.
#[derive(Clone, Copy, Debug, PartialEq, Eq)]
pub struct Failed;

/// A source of bytes.
pub trait Source {
    /// The bytes that are left, where they are told.
    ghost left: { Self → Option (List ℕ) };

    /// Its reads, in order, and what each answered.
    ghost history: { Self → List Event };

    /// How often it has failed. The count stops at the last value of a counter of 64 bits.
    ghost faults: { Self → ℕ };

    /// Reads some of the bytes that are left, at most as many as `buf` has room for, and answers how many. 0 with room
    /// is the end.
    fn read(&mut self, buf: &mut [u8]) -> Result<usize, Failed>
        ensures bound { ReadsAtMost result buf.new }
        ensures bytes { ReadConsumes (left self.old) (left self.new) result buf.new }
        ensures event { history self.new ≡ history self.old ++ read_event result buf.new ∷ [] }
        ensures cause { HasCause (faults self.old) (faults self.new) result };
}
