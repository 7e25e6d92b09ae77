ghost use Rattle.std.specs.Prelude.{◌≡◌, ◌≤◌, ℕ, List, [], OnOk, if◌then◌else◌};
ghost use Rattle.rate_types.specs.Counters.{same_text};
ghost use Rattle.quota_server.specs.Holds.{is_none_of, first_of, after_end, after_begin};
ghost use Rattle.quota_server.specs.Kept.{counts_in, room_in};

use crate::hold::Hold;
use rate_types::{OutOfMemory, Text};
use std::alloc::Global;
use std::collections::HashMap;
use std::hash::RandomState;

/// What is kept of the live shares of each client, by a seed that is drawn.
#[derive(Drop)]
pub struct Holds {
    pub(crate) map: HashMap<Text, Hold, RandomState>,
}

impl Holds {
    /// Of no client. It takes no memory.
    pub fn new(alloc: Global, seed: RandomState) -> Holds
        ensures { (c : List ℕ) → counts_in result c ≡ [] }
    {
        Holds {
            map: HashMap::with_hasher(alloc, seed),
        }
    }

    /// The greatest count of a client, 0 where there is none.
    pub fn greatest(&self, client: &Text) -> u64
        ensures { result ≡ first_of (counts_in self.now client.now) }
    {
        match self.map.get(client) {
            Some(hold) => hold.greatest(),
            None => 0,
        }
    }

    /// Whether a client has no live share.
    pub fn lacks(&self, client: &Text) -> bool
        ensures { result ≡ is_none_of (counts_in self.now client.now) }
    {
        match self.map.get(client) {
            Some(hold) => hold.is_empty(),
            None => true,
        }
    }

    /// Makes room for one count more of a client.
    pub fn reserve(&mut self, alloc: Global, client: &Text) -> Result<(), OutOfMemory>
        ensures same { (c : List ℕ) → counts_in self.new c ≡ counts_in self.old c }
        ensures room { OnOk result (1 ≤ room_in self.new client.now) }
    {
        if let Some(hold) = self.map.get_mut(client) {
            hold.reserve()?;
            return Ok(());
        }
        let hold = Hold::new(alloc)?;
        self.map.insert(client.copy()?, hold)?;
        Ok(())
    }

    /// The oldest share of a client, of this count, has ended. The room of the client that is to be kept stays.
    pub fn end(&mut self, client: &Text, count: u64, kept: &Text)
        ensures ended { (c : List ℕ) → counts_in self.new c
            ≡ (if same_text client.now c then after_end count (counts_in self.old c) else counts_in self.old c) }
        ensures room { room_in self.old kept.now ≤ room_in self.new kept.now }
    {
        let Some(hold) = self.map.get_mut(client) else {
            return;
        };
        hold.end(count);
        if hold.is_empty() && client != kept {
            self.map.remove(client);
        }
    }

    /// A share of a client, of this count, has begun.
    pub fn begin(&mut self, client: &Text, count: u64)
        requires room { 1 ≤ room_in self.old client.now }
        ensures { (c : List ℕ) → counts_in self.new c
            ≡ (if same_text client.now c then after_begin count (counts_in self.old c) else counts_in self.old c) }
    {
        if let Some(hold) = self.map.get_mut(client) {
            hold.begin(count);
        }
    }
}
