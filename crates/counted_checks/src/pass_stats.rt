ghost use Rattle.std.specs.Prelude.{◌≡◌};

use http_server::Log;
use rate_types::{OutOfMemory, Word};
use rls_core::Status;
use shared_stats::{SharedStats, StatsPass};
use std::alloc::Global;
use std::marker::Model;

/// A pass of shared statistics of all rules, where any are kept. Contracts see it as a `StatsView`, or as `None`.
#[derive(Drop)]
pub struct PassStats<'a> {
    stats: &'a Option<SharedStats>,
    pass: Option<StatsPass>,
    /// The texts that it told. It is for contracts alone, and takes no memory.
    told: Log<Word, ()>,
}

impl<'a> Model for PassStats<'a> {
    ghost use Rattle.std.specs.Prelude.{Option, map};
    ghost use Rattle.counted_checks.specs.Counting.{StatsView};
    ghost use Rattle.counted_checks.specs.Made.{view_of, GoesWith};

    ghost Value = { Option StatsView };

    ghost view = { λ s. view_of s.pass (map (λ x. x.0) s.told.items) };

    ghost invariant = { λ s. GoesWith s.stats.now s.pass (map (λ x. x.0) s.told.items) };
}

impl<'a> PassStats<'a> {
    ghost use Rattle.std.specs.Prelude.{[], ◌∷◌, IfOk, OnErr, Some, None};
    ghost use Rattle.std.specs.Option.{option_map};
    ghost use Rattle.counted_checks.specs.Counting.{noting, Tells};
    ghost use Rattle.counted_checks.specs.Made.{unused, IsUnused, GivesBack};

    /// The pass notes in these statistics.
    pub fn new(stats: &'a Option<SharedStats>, pass: Option<StatsPass>) -> PassStats<'a>
        requires { IsUnused stats.now pass }
        ensures { result ≡ unused stats.now }
    {
        PassStats {
            stats,
            pass,
            told: Log::new(),
        }
    }

    /// Notes a status, with the hits of its descriptor. It takes no memory, and waits for nobody.
    pub fn note(&mut self, hits: u32, status: &Status)
        ensures { self.new ≡ option_map (noting ((hits, status.now) ∷ [])) self.old }
    {
        if let (Some(stats), Some(pass)) = (self.stats.as_ref(), self.pass.as_mut()) {
            stats.note(pass, hits, status);
        }
    }

    /// The statistics as a JSON text, where any are kept.
    pub fn text(&mut self, alloc: Global) -> Result<Option<Word>, OutOfMemory>
        ensures told { IfOk result (λ text. Tells self.old text self.new) }
        ensures memory { OnErr result (self.new ≡ self.old) }
    {
        let (Some(stats), Some(pass)) = (self.stats.as_ref(), self.pass.as_mut()) else {
            return Ok(None);
        };
        let text = Word::of(stats.text(alloc, pass)?);
        self.told = self.told.and(&text, &());
        Ok(Some(text))
    }

    /// The pass.
    pub fn into_pass(self) -> Option<StatsPass>
        ensures { GivesBack result self.entry }
    {
        self.pass
    }
}
