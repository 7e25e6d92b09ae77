ghost use Rattle.std.specs.Prelude.{⊤};

use arrayvec::ArrayVec;
use conn_tasks::{ConnTask, MemPeer, MemPollListen, Room, Turned};
use http_endpoint::{Checks, LinkCause, LinkEnd};
use rate_types::limits::MOST_CONNECTIONS;
use rate_types::{OutOfMemory, OwnLimit, Request, Seconds, Unit, Word};
use rls_core::{CheckFault, Code, Count, Reply, Status};
use serve_tasks::serve_tasks;
use std::alloc::Global;
use std::sync::Wait;
use std::test::Fail;

// A limit of 2 hits a minute on one counter, and a check without a cell from the fourth on.
#[derive(Drop)]
pub struct TwoAMinute {
    pub before: u32,
}

// The status after so many hits.
fn status_after(before: u32, now: Seconds) -> Status {
    Status {
        code: if before < 2 {
            Code::Ok
        } else {
            Code::OverLimit
        },
        limit: Some(OwnLimit {
            limit: 2,
            unit: Unit::Minute,
        }),
        remaining: 1u32.saturating_sub(before),
        reset: 60 - now.get() % 60,
        rule: None,
        count: Count::Before(u64::from(before)),
    }
}

impl Checks for TwoAMinute {
    ghost answers = { λ _ _ _. ⊤ };

    fn check<R: Wait>(
        &mut self,
        _rt: &R,
        _alloc: Global,
        _request: &Request,
        now: Seconds,
    ) -> Result<Reply, CheckFault> {
        let before = self.before;
        if before >= 3 {
            return Err(CheckFault::ClaimsSpent {
                claims: 1,
                wanted: 1,
            });
        }
        self.before = before + 1;
        let mut statuses = ArrayVec::new();
        if statuses.try_push(status_after(before, now)).is_err() {
            return Err(CheckFault::OutOfMemory);
        }
        Ok(Reply {
            version: 0,
            moment: now,
            over: before >= 2,
            statuses,
        })
    }

    fn stats(&mut self, _alloc: Global) -> Result<Option<Word>, OutOfMemory> {
        Ok(None)
    }
}

// A peer that sends these bytes and takes all at once, at a clock that says 65.
pub fn peer_of(alloc: Global, bytes: &str) -> Result<MemPeer, Fail> {
    Ok(MemPeer {
        bytes: Vec::from_slice(alloc, bytes.as_bytes())?,
        read_most: usize::MAX,
        write_most: usize::MAX,
        waiting: Vec::new(alloc),
        failing: Vec::new(alloc),
        moment: Seconds::capped(65),
    })
}

// Serves these peers, at most so many at a time.
fn served<R: Wait>(
    rt: &R,
    alloc: Global,
    peers: Vec<MemPeer>,
    tasks: u32,
) -> Result<(MemPollListen, Vec<LinkEnd>), Fail> {
    let most = MOST_CONNECTIONS as usize;
    let connections = (peers.len().min(most) as u32).min(MOST_CONNECTIONS);
    let mut listen = MemPollListen::new(alloc, peers, Vec::new(alloc), Vec::new(alloc))?;
    let mut checks = TwoAMinute { before: 0 };
    let Ok(served) = serve_tasks(
        rt,
        alloc,
        &mut checks,
        &mut listen,
        connections,
        tasks.max(1),
    ) else {
        return Err("they weren't served".into());
    };
    Ok((listen, served.ends))
}

// The link of a number ended so.
pub fn is_end(ends: &[LinkEnd], number: usize, cause: LinkCause, answers: u32) -> bool {
    match ends.get(number) {
        Some(link_end) => *link_end == LinkEnd { cause, answers },
        None => false,
    }
}

// What was written for the link of a number.
pub fn written(alloc: Global, listen: &MemPollListen, number: usize) -> Result<String, Fail> {
    let link = listen.given_back(number).ok_or("it didn't come back")?;
    if !link.link().is_shut() {
        return Err("it wasn't shut".into());
    }
    let bytes = link.link().written().ok_or("no memory")?;
    Ok(String::from_utf8(Vec::from_slice(alloc, bytes)?)?)
}

pub const CHECK: &str =
    "POST /json HTTP/1.1\r\nContent-Length: 68\r\n\r\n{\"domain\":\"d\",\"descriptors\":[{\"entries\":[{\"key\":\"k\",\"value\":\"a\"}]}]}";

const HEALTH: &str = "GET /healthcheck HTTP/1.1\r\n\r\n";

pub const FIRST: &str =
    "HTTP/1.1 200 OK\r\nContent-Type: application/json\r\nContent-Length: 146\r\n\r\n\
    {\"overallCode\":\"OK\",\"statuses\":[{\"code\":\"OK\",\"currentLimit\":{\"requestsPerUnit\":2,\"unit\":\"MINUTE\"},\
    \"durationUntilReset\":\"55s\",\"limitRemaining\":1}]}";

const SECOND: &str =
    "HTTP/1.1 200 OK\r\nContent-Type: application/json\r\nContent-Length: 127\r\n\r\n\
    {\"overallCode\":\"OK\",\"statuses\":[{\"code\":\"OK\",\"currentLimit\":{\"requestsPerUnit\":2,\"unit\":\"MINUTE\"},\
    \"durationUntilReset\":\"55s\"}]}";

const THIRD: &str =
    "HTTP/1.1 429 Too Many Requests\r\nContent-Type: application/json\r\nContent-Length: 143\r\n\r\n\
    {\"overallCode\":\"OVER_LIMIT\",\"statuses\":[{\"code\":\"OVER_LIMIT\",\"currentLimit\":{\"requestsPerUnit\":2,\"unit\":\
    \"MINUTE\"},\"durationUntilReset\":\"55s\"}]}";

const FULL: &str =
    "HTTP/1.1 503 Service Unavailable\r\nContent-Type: text/plain\r\nContent-Length: 19\r\n\r\nService Unavailable";

const HEALTHY: &str = "HTTP/1.1 200 OK\r\nContent-Type: text/plain\r\nContent-Length: 2\r\n\r\nOK";

// The calls from this one on, in steps of so many, up to the last.
fn each(alloc: Global, first: u64, step: u64, last: u64) -> Result<Vec<u64>, Fail> {
    let mut calls = Vec::new(alloc);
    for call in first..last {
        if call.saturating_sub(first).checked_rem(step) == Some(0) {
            calls.push(call)?;
        }
    }
    Ok(calls)
}

#[test]
fn polled_requests_are_answered_in_order(rt: HostRuntime) -> Result<(), Fail> {
    let alloc = rt.alloc();
    let checks = format!(in alloc; "{CHECK}{CHECK}{CHECK}{HEALTH}{CHECK}{HEALTH}")?;
    let want = format!(in alloc; "{FIRST}{SECOND}{THIRD}{HEALTHY}{FULL}{HEALTHY}")?;
    for (most, taken) in [(1, 5_000), (7, 1), (20, 13), (5_000, 10), (5_000, 5_000)] {
        for step in [1_000_000, 2, 3, 7] {
            let mut peer = peer_of(alloc, &checks)?;
            peer.read_most = most;
            peer.write_most = taken;
            peer.waiting = each(alloc, step, step, 400)?;
            let mut peers = Vec::new(alloc);
            peers.push(peer)?;
            let (listen, ends) = served(&rt, alloc, peers, 1)?;
            assert_eq!(rt;
                written(alloc, &listen, 0)?,
                want,
                "in pieces of {most}, taken in {taken}, waiting each {step}"
            );
            assert!(rt; is_end(&ends, 0, LinkCause::Ended, 6));
        }
    }
    Ok(())
}

#[test]
fn a_write_goes_on_where_it_waited(rt: HostRuntime) -> Result<(), Fail> {
    let alloc = rt.alloc();
    let mut peer = peer_of(alloc, HEALTH)?;
    peer.write_most = 10;
    peer.waiting = Vec::from_slice(alloc, &[3u64])?;
    let Ok(mut task) = ConnTask::make(alloc, peer.connect(alloc)) else {
        return Err("no memory".into());
    };
    let mut spare = None;
    Room::refill(alloc, &mut spare)?;
    let Turned::Pending = task.poll_turn(alloc, &mut spare) else {
        return Err("it doesn't wait".into());
    };
    assert_eq!(rt; task.link().link().written().ok_or("no memory")?.len(), 10);
    if !task.is_live() {
        return Err("it can't go on".into());
    }
    assert!(rt;
        spare.is_none(),
        "it gave up the room of an answer that is half written"
    );
    Room::refill(alloc, &mut spare)?;
    let Turned::End(link_end) = task.poll_turn(alloc, &mut spare) else {
        return Err("it waits".into());
    };
    assert!(rt;
        link_end
            == LinkEnd {
                cause: LinkCause::Ended,
                answers: 1
            }
    );
    assert_eq!(rt;
        task.link().link().written().ok_or("no memory")?,
        HEALTHY.as_bytes()
    );
    Ok(())
}

#[test]
fn none_waits_for_another(rt: HostRuntime) -> Result<(), Fail> {
    let alloc = rt.alloc();
    let mut peers = Vec::new(alloc);
    for number in 0..40u64 {
        let mut peer = peer_of(alloc, HEALTH)?;
        peer.read_most = 1;
        if number % 2 == 0 {
            peer.waiting = each(alloc, 1, 1, 100 * number)?;
        }
        peers.push(peer)?;
    }
    let (listen, ends) = served(&rt, alloc, peers, 7)?;
    assert_eq!(rt; ends.len(), 40);
    for number in 0..40usize {
        assert_eq!(rt; written(alloc, &listen, number)?.as_str(), HEALTHY);
    }
    Ok(())
}

#[test]
fn a_peer_may_end_at_each_point(rt: HostRuntime) -> Result<(), Fail> {
    let alloc = rt.alloc();
    let mut peers = Vec::new(alloc);
    for count in 0..HEALTH.len() {
        let mut peer = peer_of(alloc, HEALTH.get(..count).ok_or("no part")?)?;
        peer.waiting = Vec::from_slice(alloc, &[1u64, 3])?;
        peers.push(peer)?;
    }
    let (listen, ends) = served(&rt, alloc, peers, 256)?;
    for count in 0..HEALTH.len() {
        assert_eq!(rt; written(alloc, &listen, count)?.as_str(), "");
        let cause = if count == 0 {
            LinkCause::Ended
        } else {
            LinkCause::CutShort
        };
        assert!(rt; is_end(&ends, count, cause, 0), "{count}");
    }
    Ok(())
}

#[test]
fn a_call_may_fail(rt: HostRuntime) -> Result<(), Fail> {
    let alloc = rt.alloc();
    let mut peers = Vec::new(alloc);
    for call in 1..4u64 {
        let mut peer = peer_of(alloc, HEALTH)?;
        peer.failing = Vec::from_slice(alloc, &[call])?;
        peer.waiting = Vec::from_slice(alloc, &[1u64, 2, 4])?;
        peers.push(peer)?;
    }
    let (listen, ends) = served(&rt, alloc, peers, 2)?;
    assert!(rt; is_end(&ends, 0, LinkCause::ReadFault, 0));
    assert!(rt; is_end(&ends, 1, LinkCause::WriteFault, 0));
    assert!(rt; is_end(&ends, 2, LinkCause::ReadFault, 1));
    assert_eq!(rt; written(alloc, &listen, 2)?.as_str(), HEALTHY);
    Ok(())
}

#[test]
fn a_peer_that_takes_nothing_holds_up_no_other(rt: HostRuntime) -> Result<(), Fail> {
    let alloc = rt.alloc();
    let mut slow = peer_of(alloc, HEALTH)?;
    slow.waiting = each(alloc, 2, 1, 500)?;
    let mut peers = Vec::new(alloc);
    peers.push(slow)?;
    for _ in 0..30 {
        peers.push(peer_of(alloc, HEALTH)?)?;
    }
    let (listen, ends) = served(&rt, alloc, peers, 2)?;
    for number in 0..31usize {
        assert_eq!(rt; written(alloc, &listen, number)?.as_str(), HEALTHY);
        assert!(rt; is_end(&ends, number, LinkCause::Ended, 1));
    }
    Ok(())
}
