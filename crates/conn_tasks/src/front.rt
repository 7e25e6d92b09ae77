// The next front of a connection.
ghost use Rattle.std.specs.Prelude.{◌≡◌, ◌≤◌, List, ℕ, if◌then◌else◌};
ghost use Rattle.rate_io.specs.Links.{LinkState};
ghost use Rattle.http_endpoint.specs.Answers.{Turn};
ghost use Rattle.conn_tasks.specs.Reading.{total_of, Holds};
ghost use Rattle.conn_tasks.specs.SoFar.{SoFar, Nexts, IsSettled};

use crate::reading::{Awaited, Filled, Look, fill, look_on};
use crate::{LawfulLink, PollLink};
use http_endpoint::Inbox;
use http_front::Front;
use std::alloc::Global;

/// What comes next on a connection.
#[derive(Drop)]
pub enum NextPoll {
    Front(Front),
    /// Memory ran out over a front, the body of whose answer is sent or not.
    NoMemory { sends_body: bool },
    Ended,
    CutShort,
    ReadFault,
    /// The link would wait.
    Wait,
}

// The input ends.
fn ended(is_blank: bool) -> NextPoll
    ensures { result ≡ (if is_blank then NextPoll.Ended else NextPoll.CutShort) }
{
    if is_blank {
        NextPoll::Ended
    } else {
        NextPoll::CutShort
    }
}

/// Reads on until a front stands there, or the link would wait.
pub fn next_front<N: PollLink + Drop>(
    alloc: Global,
    inbox: &mut Inbox,
    awaited: &mut Awaited,
    link: &mut LawfulLink<N>,
) -> NextPoll
    requires { total_of awaited.old ≤ 1064960 }
    ensures nexts { (first : LinkState) (turns : List Turn) (rest : List ℕ) → SoFar first link.old.link turns rest
        → Holds rest awaited.old inbox.old
        → Nexts first turns link.old link.new awaited.new inbox.new result }
    ensures settled { IsSettled result }
    ensures few { total_of awaited.new ≤ 1064960 }
    ensures waits { link.old.waits ≤ link.new.waits }
{
    'reads: loop {
        let is_blank = match look_on(alloc, inbox, awaited) {
            Look::Front(front) => return NextPoll::Front(front),
            Look::NoMemory { sends_body } => return NextPoll::NoMemory { sends_body },
            Look::More { is_blank } => is_blank,
        };
        match fill(inbox, awaited, link) {
            Filled::More => {}
            Filled::End => return ended(is_blank),
            Filled::Failed => return NextPoll::ReadFault,
            Filled::Wait => return NextPoll::Wait,
        }
    }
}
