ghost use Rattle.std.specs.Prelude.{◌≡◌, ◌≤◌, ◌<◌, [], true, IfOk, OnOk};
ghost use Rattle.std.specs.VecDeque.{deque_len};
ghost use Rattle.quota_server.specs.Holds.{ends_below};

use rate_types::OutOfMemory;
use std::alloc::Global;
use std::collections::VecDeque;
use std::marker::Model;

/// The counts of a client's live shares, in the order in which these end, without those that a later one is greater than. The first
/// is the greatest.
#[derive(Drop)]
pub struct Hold {
    counts: VecDeque<u64>,
}

impl Model for Hold {
    ghost use Rattle.std.specs.Prelude.{◌-◌};
    ghost use Rattle.std.specs.VecDeque.{deque_len, deque_capacity};
    ghost use Rattle.quota_server.specs.Holds.{OneHold};

    ghost Value = { OneHold };

    ghost view = { λ h. record { counts = h.counts.items; room = deque_capacity h.counts - deque_len h.counts } };
}

impl Hold {
    ghost use Rattle.quota_server.specs.Holds.{is_none_of, first_of, after_end, after_begin};

    /// No count, with room for one.
    pub fn new(alloc: Global) -> Result<Hold, OutOfMemory>
        ensures none { IfOk result (λ h. h.counts ≡ []) }
        ensures room { IfOk result (λ h. 1 ≤ h.room) }
    {
        let counts = VecDeque::with_capacity(alloc, 1)?;
        Ok(Hold { counts })
    }

    /// Makes room for one count more.
    pub fn reserve(&mut self) -> Result<(), OutOfMemory>
        ensures same { self.new.counts ≡ self.old.counts }
        ensures room { OnOk result (1 ≤ self.new.room) }
    {
        self.counts.reserve(1)?;
        Ok(())
    }

    /// The greatest count, 0 where there is none.
    pub fn greatest(&self) -> u64
        ensures { result ≡ first_of self.now.counts }
    {
        match self.counts.front() {
            Some(count) => *count,
            None => 0,
        }
    }

    /// Whether there is no count.
    pub fn is_empty(&self) -> bool
        ensures { result ≡ is_none_of self.now.counts }
    {
        self.counts.front().is_none()
    }

    /// The oldest share, of this count, has ended.
    pub fn end(&mut self, count: u64)
        ensures counts { self.new.counts ≡ after_end count self.old.counts }
        ensures room { self.old.room ≤ self.new.room }
    {
        if self.greatest() == count {
            self.counts.pop_front();
        }
    }

    /// A share of this count has begun.
    pub fn begin(&mut self, count: u64)
        requires room { 1 ≤ self.old.room }
        ensures counts { self.new.counts ≡ after_begin count self.old.counts }
    {
        'smaller: while ends_below(&self.counts, count) {
            self.counts.pop_back();
        }
        let Ok(()) = self.counts.push_back(count) else {
            unreachable!()
        };
    }
}

// Whether the last of these is below a count.
fn ends_below(counts: &VecDeque<u64>, count: u64) -> bool
    ensures below { result ≡ ends_below count counts.now.items }
    ensures some { result ≡ true → 0 < deque_len counts.now }
{
    match counts.back() {
        Some(last) => *last < count,
        None => false,
    }
}
