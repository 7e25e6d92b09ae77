ghost use Rattle.std.specs.Prelude.{◌≡◌};

use crate::{Limiter, Pass};
use config_versions::InstallFault;
use counter_cells::CellNaming;
use descriptor_tree::Config;
use rls_core::ReloadFault;
use rule_lookup::Index;
use std::alloc::Global;
use std::sync::{Arc, Wait};

impl<N: CellNaming> Limiter<N> {
    ghost use Rattle.std.specs.Prelude.{◌≡◌};
    ghost use Rattle.std.specs.Arc.{arc_value};
    ghost use Rattle.descriptor_tree.specs.Views.{config_view};
    ghost use Rattle.rate_limiter.specs.Passes.{KeepsAllButVersion};
    ghost use Rattle.rate_limiter.specs.Versions.{Reloads};

    /// Puts a configuration in force as the newest version, and brings the pass to it. The answer is its number. It may wait
    /// for other calls on this limiter.
    ///
    /// `VersionsFull` comes exactly where there are 1,048,576 versions; the pass is then at the newest. `OutOfMemory` adds no
    /// version and leaves the pass's.
    pub fn reload<R: Wait>(
        &self,
        rt: &R,
        alloc: Global,
        pass: &mut Pass<N>,
        config: Arc<Config>,
    ) -> Result<u32, ReloadFault>
        requires pass { pass.old.limiter ≡ self.now.id }
        ensures answer { Reloads (config_view (arc_value config)) result pass.old.version pass.new.version }
        ensures rest { KeepsAllButVersion pass.old pass.new }
    {
        let index = Index::make(alloc, config)?;
        let Ok(index) = Arc::new(alloc, index) else {
            return Err(ReloadFault::OutOfMemory);
        };
        match self.versions.install(rt, &mut pass.version, index) {
            Ok(version) => Ok(version),
            Err(InstallFault::VersionsFull { versions }) => {
                Err(ReloadFault::VersionsFull { versions })
            }
            Err(InstallFault::OutOfMemory) => Err(ReloadFault::OutOfMemory),
        }
    }
}
