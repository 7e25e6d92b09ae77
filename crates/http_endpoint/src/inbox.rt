// The bytes of a connection that were read and not used yet.
ghost use Rattle.std.specs.Prelude.{◌≡◌, ◌≤◌, ◌<◌, ◌+◌, ◌++◌, [], true, List, length, drop, IfOk};
ghost use Rattle.rate_io.specs.Events.{Event, given};
ghost use Rattle.http_endpoint.specs.Order.{Waits};
ghost use Rattle.http_endpoint.specs.Steps.{Drew, FillsTo};

use rate_io::Link;
use rate_types::OutOfMemory;
use std::alloc::Global;
use std::marker::Model;

/// The most bytes of a head.
pub const ROOM: usize = 16_384;

/// The most bytes of one read.
const PIECE: usize = 4_096;

/// The bytes that were read and not used yet. It has room for a head, so that reading one takes no memory.
#[derive(Drop)]
pub struct Inbox {
    bytes: Vec<u8>,
    start: usize,
}

impl Model for Inbox {
    ghost use Rattle.std.specs.Prelude.{List, ℕ, ◌≤◌, drop, length, vec_capacity};

    ghost Value = { List ℕ };

    ghost view = { λ inbox. drop inbox.start inbox.bytes.items };

    ghost invariant = { λ inbox. (inbox.start ≤ length inbox.bytes.items) × (16384 ≤ vec_capacity inbox.bytes) };
}

/// What a read added.
#[derive(Clone, Copy, Debug, PartialEq, Eq)]
pub enum Filled {
    More,
    End,
    Failed,
}

impl Inbox {
    /// No byte.
    pub fn make(alloc: Global) -> Result<Inbox, OutOfMemory>
        ensures { IfOk result (λ inbox. inbox ≡ []) }
    {
        let bytes = Vec::with_capacity(alloc, ROOM)?;
        Ok(Inbox { bytes, start: 0 })
    }

    /// The bytes.
    pub fn unread(&self) -> &[u8]
        ensures { result.now ≡ self.now }
    {
        &self.bytes[self.start..]
    }

    /// How many there are.
    pub fn count(&self) -> usize
        ensures { result ≡ length self.now }
    {
        self.bytes.len() - self.start
    }

    /// All are used.
    pub fn clear(&mut self)
        ensures { self.new ≡ [] }
    {
        self.bytes.clear();
        self.start = 0;
    }

    /// The first bytes are used.
    pub fn take(&mut self, used: usize)
        requires { used ≤ length self.old }
        ensures { self.new ≡ drop used self.old }
    {
        self.start += used;
    }

    /// How many bytes more a head may have.
    fn room(&self) -> usize
        requires { length self.now < 16384 }
        ensures { result + length self.now ≡ 16384 }
    {
        ROOM - (self.bytes.len() - self.start)
    }

    /// Bytes that were read. False where there is no memory for them, and then they aren't kept. For a head there always is.
    pub fn add(&mut self, bytes: &[u8]) -> bool
        ensures kept { result ≡ true → self.new ≡ self.old ++ bytes.now }
        ensures room { length self.old + length bytes.now ≤ 16384 → result ≡ true }
    {
        let count = self.bytes.len() - self.start;
        self.bytes.copy_within(self.start.., 0);
        self.bytes.truncate(count);
        self.start = 0;
        self.bytes.extend_from_slice(bytes).is_ok()
    }
}

/// Reads once, where a head may still come.
pub fn fill<L: Link>(inbox: &mut Inbox, link: &mut L) -> Filled
    requires short { length inbox.old < 16384 }
    requires waits { Waits inbox.old }
    ensures { (events : List Event) × Drew inbox.old (L.state link.old) (L.state link.new) events
        × (inbox.new ≡ inbox.old ++ given events)
        × FillsTo (L.state link.old) (L.state link.new) events result }
{
    let mut buf = [0u8; PIECE];
    let room = inbox.room().min(PIECE);
    let Ok(count) = link.read(&mut buf[..room]) else {
        return Filled::Failed;
    };
    if count == 0 {
        return Filled::End;
    }
    let _kept = inbox.add(&buf[..count]);
    Filled::More
}
