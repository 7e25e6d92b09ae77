ghost use Rattle.std.specs.Prelude.{◌≡◌, ◌<◌};
ghost use Rattle.rate_types.specs.Units.{unit_rank};
ghost use Rattle.counter_directory.specs.Keys.{key_at};

use rate_types::{CounterKey, CounterName, Seconds};

/// The counter of the name in the window of a moment.
pub(crate) fn key_at(name: CounterName, moment: Seconds) -> CounterKey
    ensures { result ≡ key_at moment name }
{
    let start = Seconds::capped(window_keys::start(name.unit, moment));
    CounterKey { name, start }
}

/// The place of the counter's unit in the order of units: 0 to 3.
pub(crate) fn place_of(key: &CounterKey) -> usize
    ensures rank { result ≡ unit_rank key.now.name.unit }
    ensures bound { result < 4 }
{
    usize::from(key.name.unit.rank())
}
