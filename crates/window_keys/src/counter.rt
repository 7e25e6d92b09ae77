ghost use Rattle.std.specs.Prelude.{◌≡◌, IfOk};
ghost use Rattle.window_keys.specs.Counter.{counter_of, window_end_of};

use rate_types::{CounterKey, CounterName, Descriptor, OutOfMemory, Seconds, Text, Unit};

/// The counter of a descriptor under a limit of this unit, at a moment.
pub fn counter_at(
    domain: &Text,
    descriptor: &Descriptor,
    unit: Unit,
    moment: Seconds,
) -> Result<CounterKey, OutOfMemory>
    ensures { IfOk result (λ k. k ≡ counter_of domain.now descriptor.now unit moment) }
{
    let name = CounterName {
        domain: domain.copy()?,
        entries: descriptor.entries.copy()?,
        unit,
    };
    Ok(CounterKey {
        name,
        start: Seconds::capped(crate::start(unit, moment)),
    })
}

/// The end of a counter's window, in seconds.
pub fn end_of(counter: &CounterKey) -> u64
    ensures { result ≡ window_end_of counter.now }
{
    counter.start.get() + counter.name.unit.seconds()
}
