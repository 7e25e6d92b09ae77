ghost use Rattle.std.specs.Prelude.{◌≡◌, ◌≤◌, ◌<◌, ◌%◌};
ghost use Rattle.rate_types.specs.Units.{seconds_of};
ghost use Rattle.window_keys.specs.Window.{window_start, window_end, time_to_reset};

use rate_types::{Seconds, Unit};

// How far a moment lies in its minute, its hour or its day. Each is a function that stands apart, since a division by a number that is known
// when the program is built takes a fifth of the time of one by a number that isn't, and the compiler would make one such of all three.
#[inline(never)]
fn into_minute(moment: u64) -> u64
    ensures { result ≡ moment % 60 }
{
    moment % 60
}

#[inline(never)]
fn into_hour(moment: u64) -> u64
    ensures { result ≡ moment % 3600 }
{
    moment % 3_600
}

#[inline(never)]
fn into_day(moment: u64) -> u64
    ensures { result ≡ moment % 86400 }
{
    moment % 86_400
}

// The seconds from the start of the window to a moment.
fn into_window(unit: Unit, moment: u64) -> u64
    ensures { result ≡ moment % seconds_of unit }
{
    match unit {
        Unit::Second => 0,
        Unit::Minute => into_minute(moment),
        Unit::Hour => into_hour(moment),
        Unit::Day => into_day(moment),
    }
}

/// The start, in seconds, of the window that a moment lies in.
pub fn start(unit: Unit, moment: Seconds) -> u64
    ensures start { result ≡ window_start unit moment }
    ensures past { result ≤ moment }
{
    let moment = moment.get();
    moment - into_window(unit, moment)
}

/// The end, in seconds, of the window that a moment lies in, which is the start of the next one.
pub fn end(unit: Unit, moment: Seconds) -> u64
    ensures end { result ≡ window_end unit moment }
    ensures later { moment < result }
{
    start(unit, moment) + unit.seconds()
}

/// The seconds from a moment to the end of its window: at least 1, at most the unit's length.
pub fn reset(unit: Unit, moment: Seconds) -> u64
    ensures { result ≡ time_to_reset unit moment }
{
    end(unit, moment) - moment.get()
}
