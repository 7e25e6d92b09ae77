ghost use Rattle.std.specs.Prelude.{◌≡◌, ◌≤◌, ◌∷◌, [], ◌++◌, vec_len, IfOk};
ghost use Rattle.rate_io.specs.Causes.{Rose};
ghost use Rattle.rate_io.specs.ListenCalls.{listen_event};

use crate::{MemPeer, MemPoll, PollListen, Polled, Woke};
use rate_io::{Failed, ListenCall, ListenHistory};
use rate_types::OutOfMemory;
use std::alloc::Global;
use std::collections::VecDeque;

/// A listener in memory, with the peers that connect. Binds, accepts and sleeps are counted from 1, and those with a number in
/// `failing` fail, accepts with one in `waiting` wait; where no peer is left, an accept waits. Each sleep ends at once for a link that
/// may come, and for each link that was handed out. For port 0 it answers 1.
#[derive(Drop)]
pub struct MemPollListen {
    alloc: Global,
    coming: VecDeque<MemPeer>,
    // What a sleep tells: that a link may come, and each link that was handed out; and how much of it the last one told.
    things: Vec<Woke>,
    slept: usize,
    back: Vec<Option<MemPoll>>,
    history: ListenHistory,
    calls: u64,
    waiting: Vec<u64>,
    failing: Vec<u64>,
    waits: u64,
    faults: u64,
    ghost within: { slept ≤ vec_len things },
}

impl MemPollListen {
    /// A listener to which these peers connect, in order.
    pub fn new(
        alloc: Global,
        peers: Vec<MemPeer>,
        waiting: Vec<u64>,
        failing: Vec<u64>,
    ) -> Result<MemPollListen, OutOfMemory>
        ensures history { IfOk result (λ l. ⟦<MemPollListen as PollListen>⟧.history l ≡ []) }
        ensures faults { IfOk result (λ l. ⟦<MemPollListen as PollListen>⟧.faults l ≡ 0) }
    {
        let mut things = Vec::with_capacity(alloc, peers.len().saturating_add(1))?;
        things.push(Woke::Listener)?;
        let mut back = Vec::with_capacity(alloc, peers.len())?;
        let mut coming = VecDeque::new(alloc);
        for peer in peers {
            coming.push_back(peer)?;
            back.push(None)?;
        }
        Ok(MemPollListen {
            alloc,
            coming,
            things,
            slept: 0,
            back,
            history: ListenHistory::new(),
            calls: 0,
            waiting,
            failing,
            waits: 0,
            faults: 0,
        })
    }

    /// The link that came back under this number.
    pub fn given_back(&self, number: usize) -> Option<&MemPoll> {
        self.back.get(number)?.as_ref()
    }

    // Notes a call that failed.
    fn fail(&mut self, call: &ListenCall<'_>) -> Failed
        ensures event { self.new.history.events ≡ self.old.history.events ++ listen_event call.now ∷ [] }
        ensures later { self.old.faults ≤ self.new.faults }
        ensures rose { Rose self.old.faults self.new.faults }
        ensures waits { self.new.waits ≡ self.old.waits }
        ensures things { (self.new.things ≡ self.old.things) × (self.new.slept ≡ self.old.slept) }
    {
        self.faults = self.faults.saturating_add(1);
        self.history = self.history.and(call);
        Failed
    }
}

impl PollListen for MemPollListen {
    type Link = MemPoll;

    ghost history = { λ s. s.history.events };

    ghost faults = { λ s. s.faults };

    ghost use Rattle.std.specs.Prelude.{take};

    ghost waits = { λ s. s.waits };

    ghost told = { λ s. take s.slept s.things.items };

    fn bind(&mut self, port: u16) -> Result<u16, Failed> {
        self.calls = self.calls.saturating_add(1);
        if self.failing.contains(&self.calls) {
            return Err(self.fail(&ListenCall::BindFailed { asked: port }));
        }
        let got = if port == 0 { 1 } else { port };
        self.history = self.history.and(&ListenCall::Bound {
            asked: port,
            port: got,
        });
        Ok(got)
    }

    fn poll_accept(&mut self, place: usize) -> Polled<Result<MemPoll, Failed>> {
        self.calls = self.calls.saturating_add(1);
        if self.failing.contains(&self.calls) {
            return Polled::Ready(Err(self.fail(&ListenCall::AcceptFailed)));
        }
        if self.waiting.contains(&self.calls) {
            self.waits = self.waits.saturating_add(1);
            return Polled::Pending;
        }
        let Some(peer) = self.coming.pop_front() else {
            self.waits = self.waits.saturating_add(1);
            return Polled::Pending;
        };
        let told = Woke::Link {
            place,
            is_closed: false,
        };
        if self.things.push(told).is_err() {
            return Polled::Ready(Err(self.fail(&ListenCall::AcceptFailed)));
        }
        self.history = self.history.and(&ListenCall::Accepted);
        Polled::Ready(Ok(peer.connect(self.alloc)))
    }

    fn sleep(&mut self, _most: u64) -> Result<usize, Failed> {
        self.calls = self.calls.saturating_add(1);
        if self.failing.contains(&self.calls) {
            self.faults = self.faults.saturating_add(1);
            return Err(Failed);
        }
        self.slept = self.things.len();
        Ok(self.slept)
    }

    fn woke(&self, index: usize) -> Option<Woke> {
        if index < self.slept {
            Some(self.things[index])
        } else {
            None
        }
    }

    fn give_back(&mut self, number: u32, link: MemPoll) {
        self.history = self.history.and(&ListenCall::GaveBack {
            number,
            calls: &link.history,
            is_shut: link.link().is_shut(),
        });
        if let Some(place) = self.back.get_mut(number as usize) {
            *place = Some(link);
        }
    }
}
