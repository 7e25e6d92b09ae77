ghost use Rattle.std.specs.Prelude.{◌≡◌, ◌<◌, ◌≤◌, IfOk, OnOk, OnErr, Err, map};
ghost use Rattle.quota_server.specs.Servers.{without_share};
ghost use Rattle.quota_server.specs.Stored.{AreFitting};

use crate::grant::{Grant, TimeBack};
use crate::pool_shares::PoolShares;
use quota_pools::{Pool, PoolPlaces, Pools};
use quota_settings::BucketId;
use rate_types::{Millis, OutOfMemory, Text};
use std::alloc::Global;
use std::hash::RandomState;
use std::marker::Model;

/// A quota server: pools that clients share, at a present time.
#[derive(Drop)]
pub struct Server {
    domain: Text,
    time: Millis,
    places: PoolPlaces,
    pools: Vec<PoolShares>,
}

impl Model for Server {
    ghost use Rattle.quota_server.specs.Servers.{QuotaServer, AllFit};
    ghost use Rattle.quota_server.specs.Stored.{IsStored};

    ghost Value = { QuotaServer };

    ghost view = { λ s. record { domain = s.domain; time = s.time; pools = s.pools.items } };

    ghost invariant = { λ s. IsStored s.places s.time s.pools.items };
}

// Each pool, without a share.
fn without_shares(
    alloc: Global,
    pools: Vec<Pool>,
    seed: &RandomState,
) -> Result<Vec<PoolShares>, OutOfMemory>
    ensures pools { IfOk result (λ v. v.items ≡ map without_share pools.items) }
    ensures fit { IfOk result (λ v. AreFitting v.items) }
{
    let mut shares = Vec::with_capacity(alloc, pools.len())?;
    'pools: for pool in pools {
        shares.push(PoolShares::new(alloc, pool, seed.clone()?))?;
    }
    Ok(shares)
}

impl Server {
    ghost use Rattle.quota_server.specs.Servers.{new_server, at_moment, grant_in, after_grant, AllFit};

    /// The server of these pools, at time 0, without a share. The clients of each are found by a seed that is drawn.
    pub fn make(alloc: Global, pools: Pools, seed: &RandomState) -> Result<Server, OutOfMemory>
        ensures server { IfOk result (λ s. s ≡ new_server pools) }
        ensures fit { IfOk result (λ s. AllFit s) }
    {
        let (domain, list) = pools.into_parts();
        let (pools, places) = list.into_parts();
        let pools = without_shares(alloc, pools, seed)?;
        Ok(Server {
            domain,
            time: Millis::new(0).unwrap(),
            places,
            pools,
        })
    }

    /// The domain of the pools.
    pub fn domain(&self) -> &Text
        ensures { result.now ≡ self.now.domain }
    {
        &self.domain
    }

    /// Time goes on to a moment. One before the present time is refused, and changes nothing.
    pub fn advance(&mut self, at: Millis) -> Result<(), TimeBack>
        ensures ok { OnOk result (self.new ≡ at_moment at self.old) }
        ensures back { (last : TimeBack) → result ≡ Err last → (at < self.old.time) × (last.last ≡ self.old.time) }
        ensures err { OnErr result (self.new ≡ self.old) }
        ensures later { OnOk result (self.old.time ≤ at) }
        ensures fit { AllFit self.new }
    {
        if at < self.time {
            return Err(TimeBack { last: self.time });
        }
        self.time = at;
        Ok(())
    }

    /// Grants a client its share of a bucket's pool at the present time. It changes nothing where the bucket has no pool, nor where
    /// it finds no memory.
    pub fn grant(
        &mut self,
        alloc: Global,
        client: &Text,
        bucket: &BucketId,
    ) -> Result<Grant, OutOfMemory>
        ensures grant { IfOk result (λ g. g ≡ grant_in client.now bucket.now self.old) }
        ensures after { OnOk result (self.new ≡ after_grant client.now bucket.now self.old) }
        ensures err { OnErr result (self.new ≡ self.old) }
        ensures fit { AllFit self.new }
    {
        let Some(place) = self.places.get(bucket) else {
            return Ok(Grant::NoPool);
        };
        let Some(shares) = self.pools.get_mut(place) else {
            unreachable!()
        };
        let count = shares.grant(alloc, client, self.time)?;
        Ok(Grant::Share {
            count,
            unit: shares.pool().unit(),
            lifetime: shares.pool().lifetime(),
        })
    }
}
