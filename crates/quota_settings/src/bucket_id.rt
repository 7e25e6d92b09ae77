ghost use Rattle.std.proofs.Common.{rules};
ghost use Rattle.std.specs.Prelude.{◌≡◌, ◌<◌, ◌≤◌, ◌⊎◌, IfOk, IfSome, IfNone, length, List};
ghost use Rattle.std.specs.Cmp.{partial_order_from_own_ties};
ghost use Rattle.std.specs.Cmp.Lexicographic.{lists_ties};
ghost use Rattle.std.specs.Cmp.Rules.{comparing};
ghost use Rattle.std.specs.Ordering.{as_partial_cmp};
ghost use Rattle.quota_settings.specs.Hashes.{pairs_writes, pairs_alike};
ghost use Rattle.quota_settings.specs.Pairs.{pairs_cmp, same_pairs, IsBucketId};

use crate::attributes::Attributes;
use crate::pair::Pair;
use rate_types::OutOfMemory;
use rate_types::limits::MOST_PARTS;
use std::alloc::Global;
use std::cmp::Ordering;
use std::hash::{Hash, Hasher};
use std::marker::Model;

/// The name of a bucket: 1 to 32 pairs sorted by the bytes of their names, which differ.
#[derive(Drop)]
pub struct BucketId {
    pairs: Attributes,
}

impl Model for BucketId {
    ghost use Rattle.std.specs.Prelude.{List};
    ghost use Rattle.quota_settings.specs.declared.pair.Pair.{Pair};
    ghost use Rattle.quota_settings.specs.Pairs.{IsBucketId};

    ghost Value = { List Pair };

    ghost view = { λ b. b.pairs };

    ghost invariant = { λ b. IsBucketId b.pairs };
}

impl BucketId {
    /// The name of these pairs; None exactly where there is no pair or there are over 32. It takes no memory.
    pub fn of(pairs: Attributes) -> Option<BucketId>
        ensures some { IfSome result (λ id. (id ≡ pairs) × IsBucketId pairs) }
        ensures none { IfNone result (IsBucketId pairs → ⊥) }
    {
        let count = pairs.items().len();
        if count == 0 || count > MOST_PARTS {
            return None;
        }
        Some(BucketId { pairs })
    }

    /// The pairs.
    pub fn items(&self) -> &[Pair]
        ensures { result.now ≡ self.now }
    {
        self.pairs.items()
    }

    /// The pairs as attributes.
    pub fn pairs(&self) -> &Attributes
        ensures { result.now ≡ self.now }
    {
        &self.pairs
    }

    /// An equal name.
    pub fn copy(&self, alloc: Global) -> Result<BucketId, OutOfMemory>
        ensures { IfOk result (λ id. id ≡ self.now) }
    {
        let pairs = self.pairs.copy(alloc)?;
        Ok(BucketId { pairs })
    }
}

impl PartialEq for BucketId {
    ghost eq = { same_pairs };

    ghost laws = { Prim.search (comparing, lists_ties, rules) depth 20 };

    fn eq(&self, other: &BucketId) -> bool {
        self.items() == other.items()
    }
}

impl Eq for BucketId {
    ghost laws = { Prim.search (comparing, lists_ties, rules) depth 20 };
}

impl Ord for BucketId {
    ghost cmp = { pairs_cmp };

    ghost total = { Prim.search (comparing, lists_ties, rules) depth 20 };

    ghost matches_partial_cmp = { Prim.search (comparing, lists_ties, rules) depth 20 };

    ghost matches_eq = { Prim.search (comparing, lists_ties, rules) depth 20 };

    fn cmp(&self, other: &BucketId) -> Ordering {
        self.items().cmp(other.items())
    }
}

impl PartialOrd for BucketId {
    ghost partial_cmp = { as_partial_cmp pairs_cmp };

    ghost laws = { partial_order_from_own_ties
        (Prim.search (comparing, lists_ties, rules) depth 20)
        (Prim.search (comparing, lists_ties, rules) depth 20) };

    fn partial_cmp(&self, other: &BucketId) -> Option<Ordering> {
        Some(self.cmp(other))
    }
}

impl Hash for BucketId {
    ghost hash_input = { pairs_writes };

    ghost respects_eq = { pairs_alike.fed };

    fn hash<H: Hasher>(&self, state: &mut H) {
        Pair::hash_slice(self.items(), state);
    }
}
