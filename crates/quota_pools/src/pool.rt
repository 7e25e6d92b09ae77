ghost use Rattle.std.specs.Prelude.{◌≡◌, ◌<◌};

use quota_settings::BucketId;
use rate_types::{Millis, Unit};
use std::marker::Model;

/// The quota of a bucket, which all clients share.
#[derive(Drop)]
pub struct Pool {
    bucket: BucketId,
    count: u64,
    unit: Unit,
    lifetime: Millis,
}

impl Model for Pool {
    ghost use Rattle.std.specs.Prelude.{◌<◌};
    ghost use Rattle.quota_pools.specs.Pools.{OnePool};

    ghost Value = { OnePool };

    ghost view = { λ p. record { bucket = p.bucket; count = p.count; unit = p.unit; lifetime = p.lifetime } };

    ghost invariant = { λ p. 0 < p.lifetime };
}

impl Pool {
    /// The pool of this bucket: so many requests in each unit, in assignments that live so long, which isn't 0. It takes no memory.
    pub fn of(bucket: BucketId, count: u64, unit: Unit, lifetime: Millis) -> Pool
        requires { 0 < lifetime }
        ensures { result ≡ record { bucket = bucket; count = count; unit = unit; lifetime = lifetime } }
    {
        Pool {
            bucket,
            count,
            unit,
            lifetime,
        }
    }

    /// The id of the bucket.
    pub fn bucket(&self) -> &BucketId
        ensures { result.now ≡ self.now.bucket }
    {
        &self.bucket
    }

    /// The requests in each unit, for all clients together.
    pub fn count(&self) -> u64
        ensures { result ≡ self.now.count }
    {
        self.count
    }

    /// The unit.
    pub fn unit(&self) -> Unit
        ensures { result ≡ self.now.unit }
    {
        self.unit
    }

    /// The lifetime of each assignment, in milliseconds.
    pub fn lifetime(&self) -> Millis
        ensures value { result ≡ self.now.lifetime }
        ensures some { 0 < result }
    {
        self.lifetime
    }
}
