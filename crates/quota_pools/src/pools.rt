ghost use Rattle.std.specs.Prelude.{◌≡◌, ◌++◌, ◌∷◌, [], OnOk, OnErr, false};

use crate::pool::Pool;
use crate::pool_places::PoolPlaces;
use quota_settings::BucketId;
use rate_types::{OutOfMemory, Text};
use std::alloc::Global;
use std::marker::Model;

/// Pools in order, whose buckets differ, with the places of their buckets.
#[derive(Drop)]
pub struct PoolList {
    pools: Vec<Pool>,
    places: PoolPlaces,
}

impl Model for PoolList {
    ghost use Rattle.std.specs.Prelude.{List};
    ghost use Rattle.quota_pools.specs.Pools.{OnePool};
    ghost use Rattle.quota_pools.specs.Places.{AreAt};

    ghost Value = { List OnePool };

    ghost view = { λ l. l.pools.items };

    ghost invariant = { λ l. AreAt l.places l.pools.items };
}

impl PoolList {
    ghost use Rattle.quota_pools.specs.Pools.{has_pool, IsPlaceIn};
    ghost use Rattle.quota_pools.specs.Places.{AreAt};

    /// No pool. It takes no memory.
    pub fn new(alloc: Global) -> PoolList
        ensures { result ≡ [] }
    {
        PoolList {
            pools: Vec::new(alloc),
            places: PoolPlaces::new(alloc),
        }
    }

    /// Whether a bucket has a pool.
    pub fn has(&self, bucket: &BucketId) -> bool
        ensures { result ≡ has_pool self.now bucket.now }
    {
        self.places.get(bucket).is_some()
    }

    /// Adds a pool of another bucket behind the others, under a copy of its id.
    pub fn push(&mut self, alloc: Global, pool: Pool) -> Result<(), OutOfMemory>
        requires another { has_pool self.old pool.bucket ≡ false }
        ensures ok { OnOk result (self.new ≡ self.old ++ pool ∷ []) }
        ensures err { OnErr result (self.new ≡ self.old) }
    {
        let id = pool.bucket().copy(alloc)?;
        self.pools.reserve(1)?;
        self.places.add(id, self.pools.len())?;
        self.pools.push_reserved(pool);
        Ok(())
    }

    /// The pools in order, and the places of their buckets.
    pub fn into_parts(self) -> (Vec<Pool>, PoolPlaces)
        ensures pools { result.0.items ≡ self }
        ensures places { AreAt result.1 self }
    {
        let PoolList { pools, places } = self;
        (pools, places)
    }
}

/// The pools of a domain.
#[derive(Drop)]
pub struct Pools {
    domain: Text,
    pools: PoolList,
}

impl Model for Pools {
    ghost use Rattle.quota_pools.specs.Pools.{AllPools};

    ghost Value = { AllPools };

    ghost view = { λ p. record { domain = p.domain; pools = p.pools } };
}

impl Pools {
    /// The pools of this domain. It takes no memory.
    pub fn of(domain: Text, pools: PoolList) -> Pools
        ensures { result ≡ record { domain = domain; pools = pools } }
    {
        Pools { domain, pools }
    }

    /// The domain and the pools.
    pub fn into_parts(self) -> (Text, PoolList)
        ensures domain { result.0 ≡ self.domain }
        ensures pools { result.1 ≡ self.pools }
    {
        let Pools { domain, pools } = self;
        (domain, pools)
    }
}
