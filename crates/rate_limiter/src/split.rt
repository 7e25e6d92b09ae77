// The parts of passes.
ghost use Rattle.std.specs.Prelude.{◌≡◌, ◌≤◌, [], All, IfOk, map, length, vec_len, vec_capacity};
ghost use Rattle.counter_directory.specs.Passes.{list_of, knows};
ghost use Rattle.config_versions.specs.Passes.{pass_state, versions_of};

use crate::Pass;
use crate::pass_counters::PassCounters;
use config_versions::VersionPass;
use counter_cells::{CellNaming, CellPass};
use counter_directory::DirectoryPass;
use rate_types::OutOfMemory;
use rule_lookup::Index;
use std::alloc::Global;

/// The parts of passes, in order.
#[derive(Drop)]
pub(crate) struct Parts<N: CellNaming> {
    pub versions: Vec<VersionPass<Index>>,
    pub claims: Vec<DirectoryPass<N>>,
    pub cells: Vec<CellPass<N>>,
}

/// The parts of the passes.
pub(crate) fn parts_of<N: CellNaming>(
    alloc: Global,
    passes: Vec<Pass<N>>,
) -> Result<Parts<N>, OutOfMemory>
    ensures cells { IfOk result (λ s. s.cells.items ≡ map (λ p. p.cells) passes.items) }
    ensures bare { IfOk result (λ s. All (λ v. v.good ≡ []) s.cells.items) }
    ensures claims { IfOk result (λ s. map knows s.claims.items ≡ map (λ p. p.claims) passes.items) }
    ensures claim_lists { IfOk result (λ s. map list_of s.claims.items ≡ map (λ p. p.limiter.claims) passes.items) }
    ensures versions { IfOk result (λ s. map pass_state s.versions.items ≡ map (λ p. p.version) passes.items) }
    ensures version_lists { IfOk result (λ s. map versions_of s.versions.items ≡ map (λ p. p.limiter.versions) passes.items) }
    ensures len { IfOk result (λ s. (vec_len s.claims ≡ vec_len passes) × (vec_len s.versions ≡ vec_len passes)) }
{
    let mut versions = Vec::with_capacity(alloc, passes.len())?;
    let mut claims = Vec::with_capacity(alloc, passes.len())?;
    let mut cells = Vec::with_capacity(alloc, passes.len())?;
    for pass in passes {
        let Pass {
            version,
            counters,
            refused: _,
            scratch: _,
        } = pass;
        let PassCounters {
            claims: claim_pass,
            cells: cell_pass,
            known: _,
            looks: _,
        } = counters;
        versions.push_reserved(version);
        claims.push_reserved(claim_pass);
        cells.push_reserved(cell_pass);
    }
    Ok(Parts {
        versions,
        claims,
        cells,
    })
}
