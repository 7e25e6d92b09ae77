ghost use Rattle.std.specs.Prelude.{◌≡◌, IfOk, vec_len};
ghost use Rattle.counter_directory.specs.Windows.{AreEmpty, AreRoomy};

use rate_types::OutOfMemory;
use std::alloc::Global;

/// The cells that were bound in one window of a unit. The window ends at `end`, in seconds.
#[derive(Drop)]
pub(crate) struct Ring {
    pub end: u64,
    pub cells: Vec<u32>,
}

/// One empty ring for each unit, with room for all cells.
pub(crate) fn rings(alloc: Global, cells: u32) -> Result<Vec<Ring>, OutOfMemory>
    ensures { IfOk result (λ v. (vec_len v ≡ 4) × AreEmpty v.items × AreRoomy cells v.items) }
{
    let mut rings = Vec::with_capacity(alloc, 4)?;
    for _unit in 0..4u32 {
        let cells = Vec::with_capacity(alloc, cells as usize)?;
        rings.push_reserved(Ring { end: 0, cells });
    }
    Ok(rings)
}
