ghost use Rattle.std.specs.Prelude.{◌≡◌, ◌≤◌, ◌^◌, ℕ, []};
ghost use Rattle.shared_stats.specs.Rule.{added_to};
ghost use Rattle.shared_stats.specs.Noted.{as_notes, hits_in, AddsUp, AreFound};

use crate::rule::TableSeat;
use http_server::Log;
use rls_core::Status;
use rule_stats::RuleNumbers;

/// The most hits that a pass adds: 2^57. So no number of 64 passes is above 2^63.
pub const MOST_NOTED_HITS: u64 = 144_115_188_075_855_872;

/// Notes statuses in the [`SharedStats`](crate::SharedStats) that it was made with, of which each thread owns one.
#[derive(Drop)]
pub struct StatsPass {
    pub(crate) seat: TableSeat,
    /// How many rules there are.
    pub(crate) rules: u32,
    /// The hits that it added.
    pub(crate) hits: u64,
    /// The statuses that it noted, each behind the hits of its descriptor. It is for contracts alone, and takes no memory.
    pub(crate) notes: Log<u32, Status>,
    /// The numbers that it read, each behind its rule. It is for contracts alone likewise.
    pub(crate) reads: Log<u32, RuleNumbers>,
    ghost bare: { seat.me.1 ≡ [] },
    ghost one: { seat.me.0.passes ≡ 1 },
    ghost few: { hits ≤ 2 ^ 57 },
    ghost below: { (word : ℕ) → added_to word seat.me.0.added ≤ hits },
    ghost counted: { hits ≤ hits_in (as_notes notes.items) },
    ghost sums: { AddsUp rules seat.me.0.added (as_notes notes.items) },
    ghost found: { AreFound rules seat.me.0.found reads.items },
}
