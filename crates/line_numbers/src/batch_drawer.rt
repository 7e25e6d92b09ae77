ghost use Rattle.std.specs.Prelude.{◌≡◌, ◌≤◌, ◌<◌, ◌+◌, ◌*◌, ℕ, All, map, true};
ghost use Rattle.rate_types.specs.Sums.{times};
ghost use Rattle.line_numbers.specs.Rising.{IsRising};
ghost use Rattle.line_numbers.specs.Within.{within, batched};
ghost use Rattle.line_numbers.specs.Drawers.{drawn};

use crate::drawer::Drawer;
use http_server::Log;

/// Draws numbers of the [`Batches`](crate::Batches) that it was made with, of which each thread owns one. It has one batch at a time, whose
/// numbers it gives out in order.
#[derive(Drop)]
pub struct BatchDrawer {
    pub(crate) drawer: Drawer,
    pub(crate) lines: u64,
    pub(crate) size: u64,
    /// The next number of its batch.
    pub(crate) next: u64,
    /// Where its batch ends.
    pub(crate) end: u64,
    /// The numbers that it gave out. It is for contracts alone, and takes no memory.
    pub(crate) log: Log<u64, ()>,
    ghost sized: { 1 ≤ size },
    ghost ordered: { (next ≤ end) × (end ≤ lines) },
    ghost told: { drawer.has_ended ≡ true → next ≡ end },
    ghost each: { (n : ℕ) → times n (map (λ x. x.0) log.items) + within next end n ≡ batched size lines n (drawn drawer) },
    ghost below: { All (λ n. n < next) (map (λ x. x.0) log.items) },
    ghost rises: { IsRising (map (λ x. x.0) log.items) },
    ghost past: { (batch : ℕ) → All (λ b. b < batch) (drawn drawer) → end ≤ batch * size },
}
