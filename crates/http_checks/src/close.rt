// The end of a limiter.
ghost use Rattle.std.specs.Prelude.{◌≡◌, All, OnOk, vec_len};
ghost use Rattle.http_checks.specs.Ledger.{HasClosed};
ghost use Rattle.http_checks.specs.Versions.{HasClosedVersions};

use counter_cells::CellNaming;
use rate_limiter::{Limiter, Pass};
use rate_types::OutOfMemory;
use std::alloc::Global;

/// Closes a limiter after the last check, for which all its passes are given back. It waits for nobody. After `OutOfMemory` the
/// limiter and the passes are given up.
pub fn close_served<N: CellNaming>(
    alloc: Global,
    limiter: Limiter<N>,
    passes: Vec<Pass<N>>,
) -> Result<(), OutOfMemory>
    requires passes { All (λ p. p.limiter ≡ limiter.id) passes.items }
    requires every { vec_len passes ≡ limiter.passes }
    ensures checks { OnOk result (HasClosed N.setup.cells limiter N.setup.start passes.items) }
    ensures versions { OnOk result (HasClosedVersions N.setup.cells limiter N.setup.start passes.items) }
{
    limiter.close(alloc, passes)?;
    Ok(())
}
