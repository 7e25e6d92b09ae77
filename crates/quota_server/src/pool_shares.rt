ghost use Rattle.std.specs.Prelude.{◌≡◌, ◌≤◌, ◌<◌, ◌+◌, ◌++◌, ◌∷◌, [], IfOk, OnErr};

use crate::holds::Holds;
use crate::live::{Live, begin, share_of, sweep};
use crate::live_share::{LiveShare, Span};
use http_server::Log;
use quota_pools::Pool;
use rate_types::{Millis, OutOfMemory, Text};
use std::alloc::Global;
use std::collections::VecDeque;
use std::hash::RandomState;
use std::marker::Model;

/// A pool with its shares: all that were written, which proofs alone read, and what is kept of those that are live.
#[derive(Drop)]
pub struct PoolShares {
    pool: Pool,
    swept: Millis,
    written: Log<Text, Span>,
    live: Live,
}

impl Model for PoolShares {
    ghost use Rattle.quota_server.specs.Written.{WrittenShares, shares_in, IsWritten};

    ghost Value = { WrittenShares };

    ghost view = { λ p. record { pool = p.pool; last = p.swept; shares = shares_in p.written.items } };

    ghost invariant = { λ p. IsWritten p.pool.count p.pool.lifetime p.swept (shares_in p.written.items) p.live };
}

impl PoolShares {
    ghost use Rattle.quota_server.specs.Shares.{granted, SharesFitPool};
    ghost use Rattle.quota_server.specs.Written.{with_share};

    /// No share of this pool. It takes no memory.
    pub fn new(alloc: Global, pool: Pool, seed: RandomState) -> PoolShares
        ensures pool { result ≡ record { pool = pool; last = 0; shares = [] } }
        ensures fits { SharesFitPool result.pool.count result.shares }
    {
        PoolShares {
            pool,
            swept: Millis::new(0).unwrap(),
            written: Log::new(),
            live: Live {
                shares: VecDeque::new(alloc),
                holds: Holds::new(alloc, seed),
                held: 0,
                clients: 0,
            },
        }
    }

    /// The pool.
    pub fn pool(&self) -> &Pool
        ensures { result.now ≡ self.now.pool }
    {
        &self.pool
    }

    /// Writes a share for a client at a moment that is no earlier than the last one's, and answers its count.
    pub fn grant(&mut self, alloc: Global, client: &Text, at: Millis) -> Result<u64, OutOfMemory>
        requires later { self.old.last ≤ at }
        ensures count { IfOk result (λ n. n ≡ granted self.old.pool.count self.old.shares client.now at) }
        ensures written { IfOk result (λ n. self.new ≡ with_share client.now n at self.old) }
        ensures err { OnErr result (self.new ≡ self.old) }
        ensures fits { SharesFitPool self.new.pool.count self.new.shares }
    {
        self.live.shares.reserve(1)?;
        let name = client.copy()?;
        self.live.holds.reserve(alloc, client)?;
        sweep(&mut self.live, at, client);
        let count = share_of(&self.live, client, self.pool.count());
        let span = Span {
            count,
            from: at,
            until: at.get() + self.pool.lifetime().get(),
        };
        self.written = self.written.and(client, &span);
        begin(&mut self.live, LiveShare::of(name, span));
        self.swept = at;
        Ok(count)
    }
}
