ghost use mathlib.Core.List.{IsPrefix};
ghost use Rattle.std.specs.Prelude.{◌≡◌};

use crate::kept::Kept;

/// What is done in one turn at the lock of a [`Told`](crate::Told).
pub trait Act<K: Kept> {
    /// The answer.
    type Out;

    /// What the act needs of itself and of the value that it finds. Of that value `with` tells what is fixed.
    ghost ready: { Self → K → Type 0 };

    /// Of the act and the value before, the answer, and the act and the value after.
    ghost did: { Self → K → Self.Out → Self → K → Type 0 };

    /// Leaves the items that it finds, and may add items behind them.
    fn act(&mut self, kept: &mut K) -> Self::Out
        requires { ready self.old kept.old }
        ensures did { did self.old kept.old result self.new kept.new }
        ensures grows { IsPrefix (K.items kept.old) (K.items kept.new) }
        ensures fixed { K.fixed kept.new ≡ K.fixed kept.old };
}
