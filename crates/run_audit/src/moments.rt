ghost use Rattle.std.specs.Prelude.{◌≡◌, ◌↔◌, IsTrue, IfOk, length, map};
ghost use Rattle.script_run.specs.Moments.{MomentsNeverFall, ShowsItsTick};
ghost use Rattle.script_run.specs.Views.{line_view};

use crate::at_least::MomentAtLeast;
use crate::connectives::both;
use crate::timely::all_timely;
use crate::{Fact, each_by_earlier, each_line};
use rate_types::{OutOfMemory, Seconds};
use reply_text::{Outcome, Record};
use script_run::Line;
use std::alloc::Global;

// Whether what came of a tick line shows the number of the line.
fn shows_its_tick(line: &Line, outcome: &Outcome) -> bool
    ensures { IsTrue result ↔ ShowsItsTick (line_view line.now) outcome.now }
{
    match line {
        Line::Tick(now) => match outcome {
            Outcome::Ticked(shown) => shown.get() == now.get(),
            Outcome::Checked(_) => true,
            Outcome::Full { .. } => true,
            Outcome::Spent { .. } => true,
            Outcome::Installed => true,
            Outcome::Bad(_) => true,
            Outcome::VersionsFull { .. } => true,
        },
        Line::Check(_) => true,
        Line::Reload(_) => true,
        Line::Bad(_) => true,
    }
}

// The record of a tick line shows its number.
#[derive(Clone, Copy)]
struct TickShown;

impl Fact for TickShown {
    ghost use Rattle.script_run.specs.Moments.{ShowsItsTick};

    ghost stands = { λ f before earlier l r. ShowsItsTick l r.outcome };

    fn decide(&self, _before: &[Line], _earlier: &[Record], line: &Line, rec: &Record) -> bool {
        let stands = shows_its_tick(line, &rec.outcome);
        stands
    }
}

/// Whether along the records of one worker the moments never fall, each has its source, and the record of a tick shows its line's number.
pub fn moments_never_fall(
    alloc: Global,
    start: Seconds,
    lines: &[Line],
    records: &[Record],
) -> Result<bool, OutOfMemory>
    requires { length records.now ≡ length lines.now }
    ensures { IfOk result (λ b. IsTrue b ↔ MomentsNeverFall start (map line_view lines.now) records.now) }
{
    let never_fall = each_by_earlier(alloc, &MomentAtLeast, lines, records)?;
    let timely = all_timely(alloc, start, lines, records)?;
    let shown = each_line(&TickShown, lines, records);
    let sourced = both(never_fall, timely);
    let stands = both(sourced, shown);
    Ok(stands)
}
