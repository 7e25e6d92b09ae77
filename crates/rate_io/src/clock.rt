// The clock: a trait, the clock that stands still, and that of the system.
ghost use Rattle.std.specs.Prelude.{◌≡◌, ◌≤◌, ◌∷◌, [], ◌++◌, List, ℕ, Option, None, Some};
ghost use Rattle.rate_io.specs.Events.{Event, told};
ghost use Rattle.rate_io.specs.Links.{LiesWithin};

use crate::{Call, History};
use rate_types::Seconds;
use std::time::SystemTime;

/// The time of day in whole seconds since the beginning of 1970, at most the latest moment.
pub trait Clock {
    /// Two bounds between which each of its answers lies, where they are told.
    ghost bounds: { Self → Option (ℕ × ℕ) };

    /// What it told, in order.
    ghost history: { Self → List Event };

    /// The moment now.
    fn now(&mut self) -> Seconds
        ensures within { LiesWithin (bounds self.old) result }
        ensures event { history self.new ≡ history self.old ++ told result ∷ [] }
        ensures stays { bounds self.new ≡ bounds self.old };
}

/// A clock that always says the same.
#[derive(Drop)]
pub struct FixedClock {
    moment: Seconds,
    history: History,
}

impl FixedClock {
    /// The clock that stands still at this moment.
    pub fn new(moment: Seconds) -> FixedClock
        ensures bounds { ⟦<FixedClock as Clock>⟧.bounds result ≡ Some (moment, moment) }
        ensures history { ⟦<FixedClock as Clock>⟧.history result ≡ [] }
    {
        FixedClock {
            moment,
            history: History::new(),
        }
    }
}

impl Clock for FixedClock {
    ghost bounds = { λ c. Some (c.moment, c.moment) };

    ghost history = { λ c. c.history.events };

    fn now(&mut self) -> Seconds {
        self.history = self.history.and(&Call::Told(self.moment));
        self.moment
    }
}

/// The clock of the system. It says 0 where the system's clock can't be read.
#[derive(Drop)]
pub struct HostClock<R: std::rt::Clock + Drop> {
    rt: R,
    history: History,
}

impl<R: std::rt::Clock + Drop> HostClock<R> {
    /// The clock that this runtime reaches.
    pub fn new(rt: R) -> Self
        ensures history { ⟦<HostClock<R> as Clock>⟧.history result ≡ [] }
    {
        HostClock {
            rt,
            history: History::new(),
        }
    }
}

// The seconds from the beginning of 1970 to a time.
fn seconds_of(time: SystemTime) -> u64 {
    match time.duration_since(SystemTime::UNIX_EPOCH) {
        Ok(since) => since.as_secs(),
        Err(_) => 0,
    }
}

impl<R: std::rt::Clock + Drop> Clock for HostClock<R> {
    ghost bounds = { λ _. None };

    ghost history = { λ c. c.history.events };

    fn now(&mut self) -> Seconds {
        let seconds = match SystemTime::now(&self.rt) {
            Ok(time) => seconds_of(time),
            Err(_) => 0,
        };
        let now = Seconds::capped(seconds);
        self.history = self.history.and(&Call::Told(now));
        now
    }
}
