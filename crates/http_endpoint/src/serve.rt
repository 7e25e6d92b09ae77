// A connection, served from its first byte to its end.
ghost use Rattle.std.specs.Prelude.{◌≡◌, ◌≤◌, ◌++◌, List};
ghost use Rattle.rate_io.specs.Events.{Event, given};
ghost use Rattle.rate_io.specs.Links.{LinkState};
ghost use Rattle.http_endpoint.specs.Served.{Serves};
ghost use Rattle.http_endpoint.specs.Steps.{Drew, Takes};

use crate::inbox::Inbox;
use crate::next::{Next, next_front};
use crate::turn::{Printed, answer_front};
use crate::{Buffers, Checks, LinkCause, LinkEnd, Page};
use rate_io::Link;
use std::alloc::Global;
use std::sync::Wait;

/// The most answers of one connection.
const MAX_ANSWERS: u32 = 1024;

/// The next answer, or why there is none.
#[derive(Clone, Copy, Debug, PartialEq, Eq)]
pub enum NextAnswer {
    Answer(Printed),
    Ended,
    CutShort,
    ReadFault,
}

fn next_answer<R: Wait, N: Link, K: Checks>(
    rt: &R,
    alloc: Global,
    checks: &mut K,
    link: &mut N,
    is_last: bool,
    inbox: &mut Inbox,
    out: &mut Page,
) -> NextAnswer
    ensures { (events : List Event) × (mid : LinkState) × Drew inbox.old (N.state link.old) mid events
        × Takes K.answers is_last (inbox.old ++ given events) inbox.new (N.state link.old) mid (N.state link.new) events checks.old checks.new out.new result }
{
    match next_front(alloc, inbox, link) {
        Next::Front(front) => {
            NextAnswer::Answer(answer_front(rt, alloc, checks, link, front, is_last, out))
        }
        Next::NoMemory { sends_body } => NextAnswer::Answer(Printed::NoMemory { sends_body }),
        Next::Ended => NextAnswer::Ended,
        Next::CutShort => NextAnswer::CutShort,
        Next::ReadFault => NextAnswer::ReadFault,
    }
}

/// Serves a connection until it ends. What the buffers held before is dropped.
pub fn serve_link<R: Wait, N: Link, K: Checks>(
    rt: &R,
    alloc: Global,
    checks: &mut K,
    link: &mut N,
    buffers: &mut Buffers,
) -> LinkEnd
    ensures serves { Serves K.answers checks.old checks.new (N.state link.old) (N.state link.new)
        result.cause result.answers }
    ensures few { result.answers ≤ 1024 }
{
    let inbox = &mut buffers.inbox;
    let out = &mut buffers.out;
    inbox.clear();
    let mut answers: u32 = 0;
    'answers: loop {
        let is_last = answers + 1 == MAX_ANSWERS;
        let printed = match next_answer(rt, alloc, checks, link, is_last, inbox, out) {
            NextAnswer::Answer(printed) => printed,
            NextAnswer::Ended => return LinkEnd {
                cause: LinkCause::Ended,
                answers,
            },
            NextAnswer::CutShort => return LinkEnd {
                cause: LinkCause::CutShort,
                answers,
            },
            NextAnswer::ReadFault => return LinkEnd {
                cause: LinkCause::ReadFault,
                answers,
            },
        };
        let Ok(()) = link.write(printed.bytes(out.text())) else {
            return LinkEnd {
                cause: LinkCause::WriteFault,
                answers,
            };
        };
        answers += 1;
        if printed.closes() {
            return LinkEnd {
                cause: LinkCause::Closed,
                answers,
            };
        }
    }
}
