// Statistics made for several passes, and closed with them.
ghost use Rattle.std.specs.Prelude.{◌≡◌, ◌≤◌, List, All, IfOk, OnOk, Some, None, Option, length, map};
ghost use Rattle.std.specs.Option.{is_some};
ghost use Rattle.std.specs.List.{filter_map};
ghost use Rattle.rate_types.specs.declared.limits.TheConstants.{MOST_WORKERS};
ghost use Rattle.shared_stats.specs.Passes.{stats_id, stats_of};
ghost use Rattle.counted_checks.specs.Counting.{StatsView};
ghost use Rattle.counted_checks.specs.Made.{begun, AreUnused, HasPasses, AreGivenBack, AreOf, HaveClosed};

use crate::{CountedChecks, PassStats};
use http_endpoint::Checks;
use rate_types::OutOfMemory;
use rate_types::limits::MOST_NODES;
use shared_stats::{SharedStats, StatsPass};
use std::alloc::Global;

/// Statistics of all rules with so many passes, where they are to be kept.
pub fn open_stats(
    alloc: Global,
    is_kept: bool,
    passes: u32,
) -> Result<(Option<SharedStats>, Vec<StatsPass>), OutOfMemory>
    requires { (1 ≤ passes) × (passes ≤ MOST_WORKERS) }
    ensures kept { IfOk result (λ r. is_some r.0 ≡ is_kept) }
    ensures count { IfOk result (λ r. HasPasses passes r.0) }
    ensures unused { IfOk result (λ r. AreUnused passes r.0 r.1.items) }
{
    if !is_kept {
        return Ok((None, Vec::new(alloc)));
    }
    let (stats, made) = SharedStats::make(alloc, MOST_NODES, passes)?;
    Ok((Some(stats), made))
}

/// Checks with a pass of the statistics each, where they are kept.
pub fn counted<'a, K: Checks + Drop>(
    alloc: Global,
    checks: Vec<K>,
    stats: &'a Option<SharedStats>,
    mut passes: Vec<StatsPass>,
) -> Result<Vec<CountedChecks<'a, K>>, OutOfMemory>
    requires { AreUnused (length checks.items) stats.now passes.items }
    ensures { IfOk result (λ v. v.items ≡ map (begun stats.now) checks.items) }
{
    let mut made = Vec::with_capacity(alloc, checks.len())?;
    for each in checks {
        let pass = passes.pop();
        made.push_reserved(CountedChecks::new(each, PassStats::new(stats, pass)));
    }
    Ok(made)
}

/// The checks, and the passes of their statistics.
pub fn parts_of<'a, K: Checks + Drop>(
    alloc: Global,
    counted: Vec<CountedChecks<'a, K>>,
) -> Result<(Vec<K>, Vec<StatsPass>), OutOfMemory>
    ensures checks { IfOk result (λ r. r.0.items ≡ map (λ c. c.checks) counted.entry.items) }
    ensures passes { IfOk result (λ r. AreGivenBack r.1.items (filter_map (λ c. c.stats) counted.entry.items)) }
{
    let mut checks = Vec::with_capacity(alloc, counted.len())?;
    let mut passes = Vec::with_capacity(alloc, counted.len())?;
    for each in counted {
        let (one, pass) = each.into_parts();
        checks.push_reserved(one);
        if let Some(pass) = pass {
            passes.push_reserved(pass);
        }
    }
    Ok((checks, passes))
}

/// Closes statistics, for which all their passes are given back. After `OutOfMemory` they are given up.
pub fn close_stats(
    alloc: Global,
    stats: Option<SharedStats>,
    passes: Vec<StatsPass>,
) -> Result<(), OutOfMemory>
    requires passes { AreOf stats passes.items }
    ensures { OnOk result ((vs : List StatsView) → AreGivenBack passes.items vs → HaveClosed vs) }
{
    if let Some(stats) = stats {
        stats.close(alloc, passes)?;
    }
    Ok(())
}
