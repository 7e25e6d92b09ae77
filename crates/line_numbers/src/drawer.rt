ghost use Rattle.std.specs.Prelude.{◌≡◌, ◌<◌, [], All};
ghost use Rattle.rate_types.specs.Sums.{one_if};
ghost use Rattle.line_numbers.specs.Rising.{IsRising};

use crate::rule::TableSeat;

/// Draws numbers of the [`LineNumbers`](crate::LineNumbers) that it was made with, of which each thread owns one.
#[derive(Drop)]
pub struct Drawer {
    pub(crate) seat: TableSeat,
    pub(crate) has_ended: bool,
    ghost bare: { seat.me.1 ≡ [] },
    ghost one: { seat.me.0.drawers ≡ 1 },
    ghost ends: { seat.me.0.ends ≡ one_if has_ended },
    ghost least: { All (λ n. n < seat.me.0.least) seat.me.0.drawn },
    ghost below: { All (λ n. n < seat.me.0.lines) seat.me.0.drawn },
    ghost rises: { IsRising seat.me.0.drawn },
}
