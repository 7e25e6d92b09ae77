ghost use Rattle.std.specs.Prelude.{◌≡◌};

use crate::PassStats;
use crate::note::note_all;
use http_endpoint::Checks;
use rate_types::{OutOfMemory, Request, Seconds, Word};
use rls_core::{CheckFault, Reply};
use shared_stats::StatsPass;
use std::alloc::Global;
use std::marker::Model;
use std::sync::Wait;

/// Checks, with what keeps the statistics of their statuses, where any are kept. Contracts see them as a `Counting`.
#[derive(Drop)]
pub struct CountedChecks<'a, K: Checks + Drop> {
    checks: K,
    stats: PassStats<'a>,
}

impl<'a, K: Checks + Drop> Model for CountedChecks<'a, K> {
    ghost use Rattle.counted_checks.specs.Counting.{Counting};

    ghost Value = { Counting K };

    ghost view = { λ c. record { checks = c.checks; stats = c.stats } };
}

impl<'a, K: Checks + Drop> CountedChecks<'a, K> {
    ghost use Rattle.counted_checks.specs.Made.{GivesBack};

    /// The statuses of the checks are noted there.
    pub fn new(checks: K, stats: PassStats<'a>) -> CountedChecks<'a, K>
        ensures { result ≡ record { checks = checks; stats = stats.entry } }
    {
        CountedChecks { checks, stats }
    }

    /// The checks, and the pass of their statistics.
    pub fn into_parts(self) -> (K, Option<StatsPass>)
        ensures checks { result.0 ≡ self.entry.checks }
        ensures stats { GivesBack result.1 self.entry.stats }
    {
        let CountedChecks { checks, stats } = self;
        (checks, stats.into_pass())
    }
}

impl<'a, K: Checks + Drop> Checks for CountedChecks<'a, K> {
    ghost use Rattle.counted_checks.specs.Counting.{Counts};

    ghost answers = { Counts K.answers };

    fn check<R: Wait>(
        &mut self,
        rt: &R,
        alloc: Global,
        request: &Request,
        now: Seconds,
    ) -> Result<Reply, CheckFault> {
        let came = self.checks.check(rt, alloc, request, now);
        if let Ok(reply) = &came {
            note_all(&mut self.stats, request, reply.statuses.as_slice());
        }
        came
    }

    fn stats(&mut self, alloc: Global) -> Result<Option<Word>, OutOfMemory> {
        self.stats.text(alloc)
    }
}
