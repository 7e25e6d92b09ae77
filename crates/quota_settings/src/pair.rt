ghost use Rattle.std.specs.Prelude.{◌≡◌, IfOk};
ghost use Rattle.quota_settings.specs.Hashes.{pair_writes, pair_alike};

use rate_types::{OutOfMemory, Text};
use std::hash::{Hash, Hasher};

/// A name with its value: an attribute of a request, or a part of a bucket's name.
#[derive(PartialEq, Eq, PartialOrd, Ord, Drop)]
pub struct Pair {
    pub name: Text,
    pub value: Text,
}

impl Pair {
    /// An equal pair.
    pub fn copy(&self) -> Result<Pair, OutOfMemory>
        ensures { IfOk result (λ p. p ≡ self.now) }
    {
        Ok(Pair {
            name: self.name.copy()?,
            value: self.value.copy()?,
        })
    }
}

impl Hash for Pair {
    ghost hash_input = { pair_writes };

    ghost respects_eq = { pair_alike.fed };

    fn hash<H: Hasher>(&self, state: &mut H) {
        self.name.hash(state);
        self.value.hash(state);
    }
}
