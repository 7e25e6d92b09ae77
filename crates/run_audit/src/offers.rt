// Which moments the lines of a script offer.
ghost use Rattle.std.specs.Prelude.{◌≡◌};
ghost use Rattle.script_run.specs.Moments.{tick_of};
ghost use Rattle.script_run.specs.Views.{line_view};

use script_run::Line;

/// The moment that a tick line offers, and 0 for another line.
pub fn tick_of(line: &Line) -> u64
    ensures { result ≡ tick_of (line_view line.now) }
{
    match line {
        Line::Tick(now) => now.get(),
        _ => 0,
    }
}
