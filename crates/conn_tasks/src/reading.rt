// What comes next on a connection, as far as it is known.
ghost use Rattle.std.specs.Prelude.{◌≡◌, ◌≤◌, ◌<◌, ◌+◌, ◌++◌, true, List, ℕ, length};
ghost use Rattle.rate_io.specs.Events.{Event, given};
ghost use Rattle.conn_tasks.specs.Reading.{total_of, have_of, Holds, Looks, HasRoom, Keeps, Reads, Fills, is_more};

use crate::{LawfulLink, PollLink, Polled};
use http_endpoint::Inbox;
use http_front::{Front, Part, read_front};
use rate_types::OutOfMemory;
use std::alloc::Global;

/// The most bytes of one read.
const PIECE: usize = 4_096;

/// The most bytes of a head.
const ROOM: usize = 16_384;

/// What is awaited of the next request.
#[derive(Clone, Copy)]
pub enum Awaited {
    /// Its head.
    Head,
    /// The rest of so many bytes. The body of its answer is sent or not.
    Body {
        total: usize,
        sends_body: bool,
    },
    /// The same, but there was no memory to keep them, so they are counted.
    Dropped {
        have: usize,
        total: usize,
        sends_body: bool,
    },
}

/// What is found without reading.
#[derive(Drop)]
pub enum Look {
    Front(Front),
    /// Memory ran out over a front, the body of whose answer is sent or not.
    NoMemory { sends_body: bool },
    /// More bytes are wanted. At an end here, no request was begun, or one was.
    More { is_blank: bool },
}

/// What a read added.
#[derive(Clone, Copy)]
pub enum Filled {
    More,
    End,
    Failed,
    Wait,
}

impl Awaited {
    fn total(&self) -> usize
        ensures { result ≡ total_of self.now }
    {
        match self {
            Awaited::Head => ROOM,
            Awaited::Body { total, .. } => *total,
            Awaited::Dropped { total, .. } => *total,
        }
    }

    fn have(&self, kept: usize) -> usize
        ensures { (bytes : List ℕ) → length bytes ≡ kept → result ≡ have_of self.now bytes }
    {
        match self {
            Awaited::Head | Awaited::Body { .. } => kept,
            Awaited::Dropped { have, .. } => *have,
        }
    }
}

// At bytes that are kept.
fn look_at(alloc: Global, inbox: &mut Inbox, awaited: &mut Awaited) -> Look
    ensures looks { Looks inbox.old awaited.new inbox.new result }
    ensures room { HasRoom awaited.new inbox.new result }
    ensures few { total_of awaited.old ≤ 1064960 → total_of awaited.new ≤ 1064960 }
    ensures have { Keeps (length inbox.old) awaited.new inbox.new result }
{
    match read_front(alloc, inbox.unread()) {
        Ok(Part::Whole(front)) => {
            *awaited = Awaited::Head;
            inbox.take(front.used());
            Look::Front(front)
        }
        Ok(Part::NoHead { is_blank }) => {
            *awaited = Awaited::Head;
            Look::More { is_blank }
        }
        Ok(Part::NoBody { total, sends_body }) => {
            *awaited = Awaited::Body { total, sends_body };
            Look::More { is_blank: false }
        }
        Err(OutOfMemory) => Look::NoMemory { sends_body: true },
    }
}

/// What is found without reading.
pub fn look_on(alloc: Global, inbox: &mut Inbox, awaited: &mut Awaited) -> Look
    ensures looks { (bytes : List ℕ) → Holds bytes awaited.old inbox.old → Looks bytes awaited.new inbox.new result }
    ensures room { HasRoom awaited.new inbox.new result }
    ensures few { total_of awaited.old ≤ 1064960 → total_of awaited.new ≤ 1064960 }
    ensures have { Keeps (have_of awaited.old inbox.old) awaited.new inbox.new result }
{
    match *awaited {
        Awaited::Body { total, .. } if inbox.count() < total => Look::More { is_blank: false },
        Awaited::Head | Awaited::Body { .. } => look_at(alloc, inbox, awaited),
        Awaited::Dropped { have, total, .. } if have < total => Look::More { is_blank: false },
        Awaited::Dropped { sends_body, .. } => Look::NoMemory { sends_body },
    }
}

// Keeps bytes that were read, or counts them where there is no memory.
fn keep(inbox: &mut Inbox, awaited: &mut Awaited, bytes: &[u8])
    requires room { have_of awaited.old inbox.old + length bytes.now ≤ total_of awaited.old }
    requires few { total_of awaited.old ≤ 1064960 }
    ensures holds { (before : List ℕ) → Holds before awaited.old inbox.old → Holds (before ++ bytes.now) awaited.new inbox.new }
    ensures have { have_of awaited.new inbox.new ≡ have_of awaited.old inbox.old + length bytes.now }
    ensures total { total_of awaited.new ≡ total_of awaited.old }
{
    match *awaited {
        Awaited::Head => {
            let _kept = inbox.add(bytes);
        }
        Awaited::Body { total, sends_body } => {
            let have = inbox.count() + bytes.len();
            if !inbox.add(bytes) {
                *awaited = Awaited::Dropped {
                    have,
                    total,
                    sends_body,
                };
            }
        }
        Awaited::Dropped {
            have,
            total,
            sends_body,
        } => {
            *awaited = Awaited::Dropped {
                have: have + bytes.len(),
                total,
                sends_body,
            };
        }
    }
}

/// Reads once.
pub fn fill<N: PollLink + Drop>(
    inbox: &mut Inbox,
    awaited: &mut Awaited,
    link: &mut LawfulLink<N>,
) -> Filled
    requires room { have_of awaited.old inbox.old < total_of awaited.old }
    requires few { total_of awaited.old ≤ 1064960 }
    ensures drew { (events : List Event) × Reads link.old link.new events
        × Fills link.old link.new events result
        × ((before : List ℕ) → Holds before awaited.old inbox.old → Holds (before ++ given events) awaited.new inbox.new) }
    ensures more { is_more result ≡ true → have_of awaited.old inbox.old < have_of awaited.new inbox.new }
    ensures total { total_of awaited.new ≡ total_of awaited.old }
    ensures waits { link.old.waits ≤ link.new.waits }
{
    let mut buf = [0u8; PIECE];
    let most = (awaited.total() - awaited.have(inbox.count())).min(PIECE);
    match link.poll_read(&mut buf[..most]) {
        Polled::Pending => Filled::Wait,
        Polled::Ready(Err(_)) => Filled::Failed,
        Polled::Ready(Ok(count)) => {
            if count == 0 {
                return Filled::End;
            }
            keep(inbox, awaited, &buf[..count]);
            Filled::More
        }
    }
}
