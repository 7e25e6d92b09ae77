ghost use Rattle.std.specs.Prelude.{◌≡◌, ◌≤◌, ℕ, List, length};

/// A value that stands for the list of its items, and lies behind the lock of a [`Told`](crate::Told).
pub trait Kept {
    type Item;

    ghost MOST: { ℕ };

    /// The list never has more items than this.
    const MOST: u64;

    /// What no turn changes, such as the name of the table on which the value has a seat.
    ghost Fixed: { Type 0 };

    ghost fixed: { Self → Fixed };

    /// The list.
    ghost items: { Self → List Self.Item };

    /// The length of the list.
    fn len(&self) -> u64
        ensures len { result ≡ length (items self.now) }
        ensures most { result ≤ MOST };
}
