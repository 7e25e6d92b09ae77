// The drawers of numbers, with batches and without.
ghost use Rattle.std.specs.Prelude.{◌≡◌, ◌≤◌, All, IfOk, map, vec_len};
ghost use Rattle.line_numbers.specs.Drawers.{numbers_id, numbers_of, IsFresh};
ghost use Rattle.line_numbers.specs.Batches.{batches_of, IsNew};

use crate::batch_drawer::BatchDrawer;
use crate::drawer::Drawer;
use crate::numbers::LineNumbers;
use http_server::Log;
use rate_types::OutOfMemory;
use std::alloc::Global;

// A drawer that has no batch yet.
fn with_no_batch(drawer: Drawer, lines: u64, size: u64) -> BatchDrawer
    requires size { 1 ≤ size }
    requires fresh { IsFresh drawer }
    ensures { (result.drawer ≡ drawer) × (result.lines ≡ lines) × (result.size ≡ size) × IsNew result }
{
    BatchDrawer {
        drawer,
        lines,
        size,
        next: 0,
        end: 0,
        log: Log::new(),
    }
}

/// Each with batches of a size.
pub(crate) fn with_batches(
    alloc: Global,
    numbers: &LineNumbers,
    drawers: Vec<Drawer>,
    lines: u64,
    size: u64,
) -> Result<Vec<BatchDrawer>, OutOfMemory>
    requires size { 1 ≤ size }
    requires drawers { All (λ d. (numbers_of d ≡ numbers_id numbers.now) × IsFresh d) drawers.items }
    ensures count { IfOk result (λ v. vec_len v ≡ vec_len drawers) }
    ensures fresh { IfOk result (λ v. All (λ d. (batches_of d ≡ (numbers_id numbers.now, lines, size)) × IsNew d) v.items) }
{
    let _ = numbers;
    let mut made = Vec::with_capacity(alloc, drawers.len())?;
    for drawer in drawers {
        made.push_reserved(with_no_batch(drawer, lines, size));
    }
    Ok(made)
}

/// Each without its batches.
pub(crate) fn single_drawers(
    alloc: Global,
    drawers: Vec<BatchDrawer>,
) -> Result<Vec<Drawer>, OutOfMemory>
    ensures { IfOk result (λ v. v.items ≡ map (λ d. d.drawer) drawers.items) }
{
    let mut singles = Vec::with_capacity(alloc, drawers.len())?;
    for drawer in drawers {
        let BatchDrawer {
            drawer,
            lines: _,
            size: _,
            next: _,
            end: _,
            log: _,
        } = drawer;
        singles.push_reserved(drawer);
    }
    Ok(singles)
}
