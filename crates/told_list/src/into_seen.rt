ghost use Rattle.std.specs.Prelude.{◌≡◌, ℕ, List};
ghost use Rattle.atomic_table.specs.Seated.{TableId};
ghost use Rattle.told_list.specs.Tokens.{list_of, view};

use crate::kept::Kept;
use crate::seen::Seen;

/// A token, or a type around one token. A list is closed with either.
pub trait IntoSeen<K: Kept> {
    /// Which list the token is of.
    ghost list: { Self → TableId };

    /// The list that the token knows.
    ghost known: { Self → List K.Item };

    /// The places of the items that the token added.
    ghost own: { Self → List ℕ };

    /// The token.
    fn into_seen(self) -> Seen<K, K::Item>
        ensures list { list_of result ≡ list self }
        ensures known { (view result).known ≡ known self }
        ensures own { (view result).own ≡ own self };
}

impl<K: Kept> IntoSeen<K> for Seen<K, K::Item> {
    ghost use Rattle.told_list.specs.Tokens.{list_of, view};

    ghost list = { list_of };

    ghost known = { λ s. (view s).known };

    ghost own = { λ s. (view s).own };

    fn into_seen(self) -> Seen<K, K::Item> {
        self
    }
}
