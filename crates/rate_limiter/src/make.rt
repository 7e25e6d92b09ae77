ghost use Rattle.std.specs.Prelude.{◌≡◌, ◌≤◌, ◌+◌, [], All, IfOk, length, map, vec_len, vec_capacity};
ghost use Rattle.std.specs.Arc.{arc_value};
ghost use Rattle.counter_directory.specs.Passes.{list_of, knows, IsFresh};
ghost use Rattle.config_versions.specs.PassState.{IsFirst};
ghost use Rattle.config_versions.specs.Passes.{IsPassOf, pass_state, versions_id};
ghost use Rattle.rate_limiter.specs.Passes.{IsNewPass};
ghost use Rattle.rate_limiter.specs.Made.{IsNewCellPass};

use crate::known_counters::KnownCounters;
use crate::pass_counters::PassCounters;
use crate::scratch::Scratch;
use crate::{Limiter, Limits, Pass};
use config_versions::{VersionPass, Versions};
use counter_cells::{CellNaming, CellPass, OpenedCells};
use counter_directory::{Directory, DirectoryPass};
use descriptor_tree::Config;
use rate_types::OutOfMemory;
use rule_lookup::Index;
use std::alloc::Global;
use std::boxed::Box;
use std::hash::RandomState;
use std::sync::Arc;

// The passes, each of one of each kind.
fn passes_of<N: CellNaming>(
    alloc: Global,
    directory: &Directory<N>,
    versions: &Versions<Index>,
    first: &Arc<Index>,
    cell_passes: Vec<CellPass<N>>,
    mut claim_passes: Vec<DirectoryPass<N>>,
    mut version_passes: Vec<VersionPass<Index>>,
    seed: RandomState,
) -> Result<Vec<Pass<N>>, OutOfMemory>
    requires cells { All (λ v. IsNewCellPass N.setup.start v) cell_passes.items }
    requires claims { All (λ s. (list_of s ≡ directory.now.list_id) × IsFresh (knows s)) claim_passes.items }
    requires versions { All (λ p. IsPassOf versions.now p × IsFirst (arc_value first.now) (pass_state p)) version_passes.items }
    requires as_many { (vec_len claim_passes ≡ vec_len cell_passes) × (vec_len version_passes ≡ vec_len cell_passes) }
    ensures passes { IfOk result
        (λ v. All (λ p. (p.limiter ≡ record { claims = directory.now.list_id; versions = versions_id versions.now })
        × IsNewPass (arc_value first.now) N.setup.start p) v.items) }
    ensures cells { IfOk result (λ v. map (λ p. p.cells) v.items ≡ cell_passes.items) }
    ensures count { IfOk result (λ v. vec_len v ≡ vec_len cell_passes) }
{
    let _ = directory;
    let _ = versions;
    let _ = first;
    let mut passes = Vec::with_capacity(alloc, cell_passes.len())?;
    for cells in cell_passes {
        let Some(claims) = claim_passes.pop() else {
            unreachable!()
        };
        let Some(version) = version_passes.pop() else {
            unreachable!()
        };
        let known = KnownCounters::make(alloc, seed)?;
        let scratch = Box::new(alloc, Scratch::new())?;
        let counters = PassCounters::new(claims, cells, known);
        let pass = Pass::new(version, counters, scratch);
        passes.push_reserved(pass);
    }
    Ok(passes)
}

impl<N: CellNaming> Limiter<N> {
    ghost use Rattle.std.specs.Prelude.{◌≡◌, ◌≤◌, All, IfOk, map, vec_len};
    ghost use Rattle.std.specs.Arc.{arc_value};
    ghost use Rattle.rate_types.specs.declared.limits.TheConstants.{MOST_PASSES, MOST_CLAIM_NUMBERS};
    ghost use Rattle.descriptor_tree.specs.Views.{config_view};
    ghost use Rattle.counter_cells.specs.Opened.{table_of, setup_of};
    ghost use Rattle.counter_cells.specs.Steps.{new_passes};
    ghost use Rattle.rate_limiter.specs.Passes.{IsNewPass};

    /// A limiter on these cells, whose version 0 is the configuration, with a pass for each that the cells were made for. The
    /// hashes of the directory and of what passes know go by `seed`, so that nobody can choose names that collide.
    pub fn make(
        alloc: Global,
        config: Arc<Config>,
        opened: OpenedCells,
        limits: Limits,
        seed: RandomState,
    ) -> Result<(Limiter<N>, Vec<Pass<N>>), OutOfMemory>
        requires name { (table_of opened ≡ N.table) × (setup_of opened ≡ N.setup) }
        requires passes { (1 ≤ N.setup.passes) × (N.setup.passes ≤ MOST_PASSES) }
        requires claims_max { (1 ≤ limits.claims_max) × (limits.claims_max ≤ MOST_CLAIM_NUMBERS) }
        ensures limiter { IfOk result (λ r. (r.0.passes ≡ N.setup.passes) × (r.0.claims_max ≡ limits.claims_max)
            × (r.0.global_shadow ≡ limits.global_shadow)) }
        ensures count { IfOk result (λ r. vec_len r.1 ≡ N.setup.passes) }
        ensures passes { IfOk result
            (λ r. All (λ p. (p.limiter ≡ r.0.id) × IsNewPass (config_view (arc_value config)) N.setup.start p) r.1.items) }
        ensures cells { IfOk result (λ r. map (λ p. p.cells) r.1.items ≡ new_passes N.setup.passes N.setup.start) }
    {
        let (cells, cell_passes, claimer) = opened.with_name::<N>(alloc)?;
        let count = cell_passes.len() as u32;
        let (directory, claim_passes) = Directory::make(
            alloc,
            claimer,
            limits.claims_max,
            count,
            seed,
        )?;
        let index = Index::make(alloc, config)?;
        let first = Arc::new(alloc, index)?;
        let own = Arc::try_clone(&first)?;
        let (versions, version_passes) = Versions::make(alloc, own, count)?;
        let passes = passes_of(
            alloc,
            &directory,
            &versions,
            &first,
            cell_passes,
            claim_passes,
            version_passes,
            seed,
        )?;
        let limiter = Limiter {
            cells,
            directory,
            versions,
            global_shadow: limits.global_shadow,
        };
        Ok((limiter, passes))
    }
}
