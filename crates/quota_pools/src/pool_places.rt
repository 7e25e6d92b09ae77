ghost use Rattle.std.specs.Prelude.{◌≡◌, List, [], OnOk, OnErr};
ghost use Rattle.quota_pools.specs.Pools.{OnePool, IsPlaceIn};
ghost use Rattle.quota_pools.specs.Places.{AreAt, HasAdded, places_of};

use quota_settings::BucketId;
use rate_types::OutOfMemory;
use std::alloc::Global;
use std::collections::BTreeMap;

/// At which place of a list the pool of each bucket stands.
#[derive(Drop)]
pub struct PoolPlaces {
    pub(crate) index: BTreeMap<BucketId, usize>,
}

impl PoolPlaces {
    /// Of no pool. It takes no memory.
    pub(crate) fn new(alloc: Global) -> PoolPlaces
        ensures { AreAt result [] }
    {
        PoolPlaces {
            index: BTreeMap::new(alloc),
        }
    }

    /// The place of the pool of a bucket in the list that this was made with.
    pub fn get(&self, bucket: &BucketId) -> Option<usize>
        ensures { (pools : List OnePool) → AreAt self.now pools → IsPlaceIn pools bucket.now result }
    {
        self.index.get(bucket).copied()
    }

    /// The pool of this bucket comes behind the others, of which there are so many.
    pub(crate) fn add(&mut self, bucket: BucketId, place: usize) -> Result<(), OutOfMemory>
        ensures ok { OnOk result (HasAdded bucket place self.old self.new) }
        ensures err { OnErr result (places_of self.new ≡ places_of self.old) }
    {
        self.index.insert(bucket, place)?;
        Ok(())
    }
}
