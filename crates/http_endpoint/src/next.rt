// What comes next on a connection.
ghost use Rattle.std.specs.Prelude.{ℕ, ◌≡◌, ◌≤◌, ◌<◌, ◌+◌, ◌++◌, List, length, if◌then◌else◌, IfSome, vec_capacity};
ghost use Rattle.rate_io.specs.Events.{Event, given};
ghost use Rattle.http_front.specs.Part.{EndsAt};
ghost use Rattle.http_endpoint.specs.Steps.{WaitsUntil, Drew, Looks, HeadFinds, IsWhole, Comes, ComesTo, Finds};

use crate::body::{drop_body, keep_body};
use crate::inbox::{Filled, Inbox, ROOM, fill};
use http_front::{Front, Part, read_front};
use rate_io::Link;
use rate_types::OutOfMemory;
use std::alloc::Global;

/// What comes next on a connection.
#[derive(Drop)]
pub enum Next {
    Front(Front),
    /// Memory ran out over a front, the body of whose answer is sent or not.
    NoMemory { sends_body: bool },
    Ended,
    CutShort,
    ReadFault,
}

/// What the reading of a head comes to.
#[derive(Drop)]
pub enum HeadRead {
    Whole(Front),
    /// The head of a request of `total` bytes, more than are there and than a head may have.
    NoBody { total: usize, sends_body: bool },
    NoMemory { sends_body: bool },
    Ended,
    CutShort,
    ReadFault,
}

/// What the bytes of a head are, before more are read.
#[derive(Drop)]
pub enum HeadLook {
    Whole(Front),
    /// The head of a request of `total` bytes, more than are there and than a head may have.
    Long { total: usize, sends_body: bool },
    NoMemory { sends_body: bool },
    /// A request that isn't whole, or none.
    Short { is_blank: bool },
}

// A request of `total` bytes, more than are there.
fn rest_of(total: usize, sends_body: bool) -> HeadLook
    ensures { (bytes : List ℕ) → EndsAt bytes total sends_body → Looks bytes result }
{
    if total > ROOM {
        HeadLook::Long { total, sends_body }
    } else {
        HeadLook::Short { is_blank: false }
    }
}

// What stands at the bytes. A request that has no more bytes than a head may have is awaited as a head is.
fn look_head(alloc: Global, bytes: &[u8]) -> HeadLook
    ensures { Looks bytes.now result }
{
    match read_front(alloc, bytes) {
        Ok(Part::Whole(front)) => HeadLook::Whole(front),
        Ok(Part::NoBody { total, sends_body }) => rest_of(total, sends_body),
        Ok(Part::NoHead { is_blank }) => HeadLook::Short { is_blank },
        Err(OutOfMemory) => HeadLook::NoMemory { sends_body: true },
    }
}

// The input ends where no head stands.
fn ended(is_blank: bool) -> HeadRead
    ensures { result ≡ (if is_blank then HeadRead.Ended else HeadRead.CutShort) }
{
    if is_blank {
        HeadRead::Ended
    } else {
        HeadRead::CutShort
    }
}

// Reads on until a head stands there, and a request that has no more bytes than a head may have.
fn read_head<L: Link>(alloc: Global, inbox: &mut Inbox, link: &mut L) -> HeadRead
    ensures { (events : List Event) × Drew inbox.old (L.state link.old) (L.state link.new) events × (inbox.new ≡ inbox.old ++ given events)
        × HeadFinds (inbox.old ++ given events) (L.state link.old) (L.state link.new) events result }
{
    'turns: loop {
        let is_blank = match look_head(alloc, inbox.unread()) {
            HeadLook::Whole(front) => return HeadRead::Whole(front),
            HeadLook::Long { total, sends_body } => return HeadRead::NoBody { total, sends_body },
            HeadLook::NoMemory { sends_body } => return HeadRead::NoMemory { sends_body },
            HeadLook::Short { is_blank } => is_blank,
        };
        match fill(inbox, link) {
            Filled::More => {}
            Filled::End => return ended(is_blank),
            Filled::Failed => return HeadRead::ReadFault,
        }
    }
}

// The front of a request that is whole now, in a buffer of its own.
fn whole_front(alloc: Global, inbox: &mut Inbox, bytes: &[u8]) -> Next
    requires { IsWhole bytes.now }
    ensures { Comes bytes.now inbox.new result }
{
    match read_front(alloc, bytes) {
        Ok(Part::Whole(front)) => {
            inbox.clear();
            Next::Front(front)
        }
        Ok(Part::NoHead { .. }) => unreachable!(),
        Ok(Part::NoBody { .. }) => unreachable!(),
        Err(OutOfMemory) => Next::NoMemory { sends_body: true },
    }
}

// Where memory for the rest of a request is wanting, it is read and not kept.
fn no_room<L: Link>(unread: &[u8], link: &mut L, total: usize, sends_body: bool) -> Next
    requires within { length unread.now ≤ total }
    requires waits { WaitsUntil unread.now total }
    ensures { (events : List Event) × Drew unread.now (L.state link.old) (L.state link.new) events
        × ComesTo total (length unread.now + length (given events)) sends_body (L.state link.old) (L.state link.new) events result }
{
    match drop_body(unread, link, total) {
        Filled::More => Next::NoMemory { sends_body },
        Filled::End => Next::CutShort,
        Filled::Failed => Next::ReadFault,
    }
}

// The bytes, with room for `total` in all.
fn copy_with_room(alloc: Global, bytes: &[u8], total: usize) -> Option<Vec<u8>>
    requires { length bytes.now ≤ total }
    ensures items { IfSome result (λ v. v.items ≡ bytes.now) }
    ensures room { IfSome result (λ v. total ≤ vec_capacity v) }
{
    let Ok(mut kept) = Vec::with_capacity(alloc, total) else {
        return None;
    };
    let Ok(()) = kept.extend_from_slice(bytes) else {
        return None;
    };
    Some(kept)
}

// The front of a request whose rest is still to come.
fn rest_front<L: Link>(
    alloc: Global,
    inbox: &mut Inbox,
    link: &mut L,
    total: usize,
    sends_body: bool,
) -> Next
    requires ends { EndsAt inbox.old total sends_body }
    requires long { 16384 < total }
    ensures { (events : List Event) × Drew inbox.old (L.state link.old) (L.state link.new) events
        × Finds (inbox.old ++ given events) inbox.new (L.state link.old) (L.state link.new) events result }
{
    let unread = inbox.unread();
    let Some(mut kept) = copy_with_room(alloc, unread, total) else {
        return no_room(unread, link, total, sends_body);
    };
    match keep_body(&mut kept, link, total) {
        Filled::More => whole_front(alloc, inbox, &kept),
        Filled::End => Next::CutShort,
        Filled::Failed => Next::ReadFault,
    }
}

/// Reads on until a front stands there.
pub fn next_front<L: Link>(alloc: Global, inbox: &mut Inbox, link: &mut L) -> Next
    ensures { (events : List Event) × Drew inbox.old (L.state link.old) (L.state link.new) events
        × Finds (inbox.old ++ given events) inbox.new (L.state link.old) (L.state link.new) events result }
{
    match read_head(alloc, inbox, link) {
        HeadRead::Whole(front) => {
            inbox.take(front.used());
            Next::Front(front)
        }
        HeadRead::NoBody { total, sends_body } => rest_front(alloc, inbox, link, total, sends_body),
        HeadRead::NoMemory { sends_body } => Next::NoMemory { sends_body },
        HeadRead::Ended => Next::Ended,
        HeadRead::CutShort => Next::CutShort,
        HeadRead::ReadFault => Next::ReadFault,
    }
}
