ghost use Rattle.std.specs.Prelude.{◌≡◌, [], false, length};

use crate::rule::TokenView;
use atomic_table::Seat;

/// A token of one list of items `T`, of which it knows a prefix. It goes with the [`Told`](crate::Told) that it was made
/// with, whose kept value is a `K`.
#[derive(Drop)]
pub struct Seen<K, T> {
    pub(crate) seat: Seat<Option<K>, TokenView<T>>,
    pub(crate) len: u64,
    ghost len_is: { len ≡ length seat.me.0.known },
    ghost bare: { seat.me.1 ≡ [] },
    ghost rests: { (seat.me.0.holds ≡ false) × (seat.me.0.unfilled ≡ false) },
    ghost one: { seat.me.0.tokens ≡ 1 },
}

impl<K, T> Seen<K, T> {
    ghost use Rattle.told_list.specs.Tokens.{known};

    /// The length that the token knows.
    pub fn length(&self) -> u64
        ensures { result ≡ length (known self.now) }
    {
        self.len
    }
}
