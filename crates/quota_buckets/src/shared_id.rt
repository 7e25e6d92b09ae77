// The name of a bucket that is there.
ghost use Rattle.std.specs.Prelude.{◌≡◌, IfOk};
ghost use Rattle.quota_settings.specs.Hashes.{pairs_writes, pairs_alike};
ghost use Rattle.quota_settings.specs.Pairs.{same_pairs};
ghost use Rattle.quota_settings.specs.contracts.bucket_id.BucketIdEq.TheImpl.Laws.{laws-law as id_equiv};

use quota_settings::BucketId;
use rate_types::OutOfMemory;
use std::alloc::Global;
use std::collections::hash_map::Equivalent;
use std::hash::{Hash, Hasher};
use std::marker::Model;
use std::sync::Arc;

/// The name of a bucket that is there. It is in memory once, for the bucket and for the index. Contracts see the name.
#[derive(Drop)]
pub struct SharedId {
    id: Arc<BucketId>,
}

impl Model for SharedId {
    ghost use Rattle.std.specs.Prelude.{List};
    ghost use Rattle.std.specs.Arc.{arc_value};
    ghost use Rattle.quota_settings.specs.declared.pair.Pair.{Pair};

    ghost Value = { List Pair };

    ghost view = { λ s. arc_value s.id };
}

impl SharedId {
    /// A copy of a name.
    pub fn copy_of(alloc: Global, id: &BucketId) -> Result<SharedId, OutOfMemory>
        ensures { IfOk result (λ s. s ≡ id.now) }
    {
        let copy = id.copy(alloc)?;
        let id = Arc::new(alloc, copy)?;
        Ok(SharedId { id })
    }

    /// The same name, which isn't copied.
    pub fn share(&self) -> Result<SharedId, OutOfMemory>
        ensures { IfOk result (λ s. s ≡ self.now) }
    {
        let id = Arc::try_clone(&self.id)?;
        Ok(SharedId { id })
    }

    /// The name.
    pub fn id(&self) -> &BucketId
        ensures { result.now ≡ self.now }
    {
        &*self.id
    }
}

impl PartialEq for SharedId {
    ghost use Rattle.std.specs.Cmp.{partial_equiv_from_equiv};

    ghost eq = { same_pairs };

    ghost laws = { partial_equiv_from_equiv id_equiv };

    fn eq(&self, other: &Self) -> bool {
        self.id() == other.id()
    }
}

impl Eq for SharedId {
    ghost laws = { id_equiv };
}

impl Hash for SharedId {
    ghost hash_input = { pairs_writes };

    ghost respects_eq = { pairs_alike.fed };

    fn hash<H: Hasher>(&self, state: &mut H) {
        self.id().hash(state);
    }
}

impl Equivalent<SharedId> for &BucketId {
    ghost equivalent = { λ q. same_pairs q.now };

    ghost respects_hash = { λ q. pairs_alike.fed q.now };

    ghost respects_eq = { λ q. id_equiv.congr q.now };

    fn equivalent(&self, shared: &SharedId) -> bool {
        **self == *shared.id()
    }
}
