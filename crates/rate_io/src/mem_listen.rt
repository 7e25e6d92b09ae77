ghost use Rattle.std.specs.Prelude.{◌≡◌, ◌≤◌, ◌∷◌, [], ◌++◌, IfOk};
ghost use Rattle.rate_io.specs.Causes.{Rose};
ghost use Rattle.rate_io.specs.ListenCalls.{listen_event};

use crate::{Failed, Listen, ListenCall, ListenHistory, MemLink};
use rate_types::OutOfMemory;
use std::alloc::Global;
use std::collections::VecDeque;

/// A listener in memory, with the links that come. Calls are counted from 1, and those with a number in `failing` fail; where no
/// link is left, `accept` fails too. For port 0 it answers 1.
#[derive(Drop)]
pub struct MemListen {
    coming: VecDeque<MemLink>,
    back: Vec<Option<MemLink>>,
    history: ListenHistory,
    calls: u64,
    failing: Vec<u64>,
    faults: u64,
}

impl MemListen {
    /// A listener to which these links come, in order.
    pub fn new(
        alloc: Global,
        links: Vec<MemLink>,
        failing: Vec<u64>,
    ) -> Result<MemListen, OutOfMemory>
        ensures history { IfOk result (λ l. ⟦<MemListen as Listen>⟧.history l ≡ []) }
        ensures faults { IfOk result (λ l. ⟦<MemListen as Listen>⟧.faults l ≡ 0) }
    {
        let mut back = Vec::with_capacity(alloc, links.len())?;
        let mut coming = VecDeque::new(alloc);
        for link in links {
            coming.push_back(link)?;
            back.push(None)?;
        }
        Ok(MemListen {
            coming,
            back,
            history: ListenHistory::new(),
            calls: 0,
            failing,
            faults: 0,
        })
    }

    /// The link that came back under this number.
    pub fn given_back(&self, number: usize) -> Option<&MemLink> {
        self.back.get(number)?.as_ref()
    }

    // Notes a call that failed.
    fn fail(&mut self, call: &ListenCall<'_>) -> Failed
        ensures event { self.new.history.events ≡ self.old.history.events ++ listen_event call.now ∷ [] }
        ensures later { self.old.faults ≤ self.new.faults }
        ensures rose { Rose self.old.faults self.new.faults }
    {
        self.faults = self.faults.saturating_add(1);
        self.history = self.history.and(call);
        Failed
    }
}

impl Listen for MemListen {
    type Link = MemLink;

    ghost history = { λ s. s.history.events };

    ghost faults = { λ s. s.faults };

    fn bind(&mut self, port: u16) -> Result<u16, Failed> {
        self.calls = self.calls.saturating_add(1);
        if self.failing.contains(&self.calls) {
            return Err(self.fail(&ListenCall::BindFailed { asked: port }));
        }
        let got = if port == 0 { 1 } else { port };
        self.history = self.history.and(&ListenCall::Bound {
            asked: port,
            port: got,
        });
        Ok(got)
    }

    fn accept(&mut self) -> Result<MemLink, Failed> {
        self.calls = self.calls.saturating_add(1);
        if self.failing.contains(&self.calls) {
            return Err(self.fail(&ListenCall::AcceptFailed));
        }
        let Some(link) = self.coming.pop_front() else {
            return Err(self.fail(&ListenCall::AcceptFailed));
        };
        self.history = self.history.and(&ListenCall::Accepted);
        Ok(link.unused())
    }

    fn give_back(&mut self, number: u32, link: MemLink) {
        self.history = self.history.and(&ListenCall::GaveBack {
            number,
            calls: &link.history,
            is_shut: link.is_shut,
        });
        if let Some(place) = self.back.get_mut(number as usize) {
            *place = Some(link);
        }
    }
}
