ghost use Rattle.std.specs.Prelude.{◌≡◌};
ghost use Rattle.rate_types.specs.declared.counter_key.CounterKey.{CounterKey};
ghost use Rattle.rate_limiter.specs.Known.{counter_named, key_of, seen_in};

use counter_cells::Spot;
use over_cache::{Known, OverCache};
use rate_types::{Entries, OutOfMemory, Seconds, Text, Unit};
use std::alloc::Global;
use std::boxed::Box;
use std::hash::RandomState;
use std::marker::Model;
use window_keys::{KeyBuffer, start, write_key};

/// What a pass knows of its counters, with room for the key of one. Contracts see it as `Entries`: the keys with what is known of
/// them, the key used last first.
#[derive(Drop)]
pub(crate) struct KnownCounters {
    counters: OverCache,
    key: Box<KeyBuffer>,
}

impl Model for KnownCounters {
    ghost use Rattle.over_cache.specs.Entries.{Entries};

    ghost Value = { Entries };

    ghost view = { λ k. k.counters };
}

// Writes the key of the counter in the window of the moment.
fn write_counter(domain: &Text, entries: &Entries, unit: Unit, moment: Seconds, key: &mut KeyBuffer)
    ensures key { key.new.items ≡ key_of (counter_named domain.now entries.now unit moment) }
    ensures alone { (q : CounterKey) → key_of q ≡ key_of (counter_named domain.now entries.now unit moment)
        → q ≡ counter_named domain.now entries.now unit moment }
{
    write_key(domain, entries, unit, start(unit, moment), key);
}

/// The value of what is known, or 0.
pub(crate) fn seen_of(known: Option<Known>) -> u64
    ensures { result ≡ seen_in known }
{
    match known {
        Some(known) => known.seen,
        None => 0,
    }
}

impl KnownCounters {
    ghost use Rattle.std.specs.Prelude.{◌≡◌, ℕ, List, [], false, Some, is_some, IfOk, OnOk, OnErr};
    ghost use Rattle.std.specs.Bool.{IsTrue};
    ghost use Rattle.rate_types.specs.declared.counter_key.CounterKey.{CounterKey};
    ghost use Rattle.over_cache.specs.Entries.{is_key, known_of, asked, noted};
    ghost use Rattle.over_cache.specs.declared.known.Known.{Known as KnownValue};
    ghost use Rattle.rate_limiter.specs.Known.{counter_named, key_of, seen_in};

    /// Nothing is known. The hashes of the keys go by `seed`, so that nobody can choose names that collide.
    pub(crate) fn make(alloc: Global, seed: RandomState) -> Result<KnownCounters, OutOfMemory>
        ensures none { IfOk result (λ k. k ≡ []) }
    {
        let counters = OverCache::make(alloc, seed)?;
        let key = Box::new(alloc, KeyBuffer::new())?;
        Ok(KnownCounters { counters, key })
    }

    /// What is known of the counter in the window of the moment, which is then the one used last. It takes no memory.
    pub(crate) fn find(
        &mut self,
        domain: &Text,
        entries: &Entries,
        unit: Unit,
        moment: Seconds,
    ) -> Option<Known>
        ensures found { result ≡ known_of (key_of (counter_named domain.now entries.now unit moment)) self.old }
        ensures order { self.new ≡ asked (key_of (counter_named domain.now entries.now unit moment)) self.old }
        ensures alone { (q : CounterKey) → key_of q ≡ key_of (counter_named domain.now entries.now unit moment)
            → q ≡ counter_named domain.now entries.now unit moment }
    {
        write_counter(domain, entries, unit, moment, &mut self.key);
        self.counters.known(self.key.as_slice())
    }

    /// Notes the spot of the counter in the window of the moment. What was seen there under an equal claim stays known.
    pub(crate) fn note(
        &mut self,
        domain: &Text,
        entries: &Entries,
        unit: Unit,
        moment: Seconds,
        spot: Spot,
    ) -> Result<(), OutOfMemory>
        ensures noted { OnOk result
            (self.new ≡ noted (key_of (counter_named domain.now entries.now unit moment)) spot 0 self.old) }
        ensures refused { OnErr result (self.new ≡ self.old) }
        ensures others { OnOk result ((other : List ℕ) (known : KnownValue)
            → is_key other (key_of (counter_named domain.now entries.now unit moment)) ≡ false
            → known_of other self.new ≡ Some known → known_of other self.old ≡ Some known) }
        ensures alone { (q : CounterKey) → key_of q ≡ key_of (counter_named domain.now entries.now unit moment)
            → q ≡ counter_named domain.now entries.now unit moment }
    {
        write_counter(domain, entries, unit, moment, &mut self.key);
        self.counters.note(self.key.as_slice(), spot, 0)
    }

    /// Notes a value of the counter in the window of the moment, where the counter is known. Else nothing changes. It takes no
    /// memory.
    pub(crate) fn raise(
        &mut self,
        domain: &Text,
        entries: &Entries,
        unit: Unit,
        moment: Seconds,
        spot: Spot,
        seen: u64,
    ) -> bool
        ensures known { result ≡ is_some (known_of (key_of (counter_named domain.now entries.now unit moment)) self.old) }
        ensures noted { IsTrue result
            → self.new ≡ noted (key_of (counter_named domain.now entries.now unit moment)) spot seen self.old }
        ensures others { (other : List ℕ) → is_key other (key_of (counter_named domain.now entries.now unit moment)) ≡ false
            → known_of other self.new ≡ known_of other self.old }
        ensures unknown { result ≡ false → self.new ≡ self.old }
        ensures alone { (q : CounterKey) → key_of q ≡ key_of (counter_named domain.now entries.now unit moment)
            → q ≡ counter_named domain.now entries.now unit moment }
    {
        write_counter(domain, entries, unit, moment, &mut self.key);
        self.counters.note_known(self.key.as_slice(), spot, seen)
    }
}
