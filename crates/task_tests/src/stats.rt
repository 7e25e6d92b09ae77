ghost use Rattle.std.specs.Prelude.{⊤};

use crate::tasks::{CHECK, FIRST, TwoAMinute, is_end, peer_of, written};
use conn_tasks::{ConnTask, MemPollListen, Room, Turned};
use http_endpoint::{Checks, LinkCause};
use rate_types::{OutOfMemory, Request, Seconds, Word};
use rls_core::{CheckFault, Reply};
use serve_tasks::serve_tasks;
use std::alloc::Global;
use std::sync::Wait;
use std::test::Fail;

// Checks that tell how many of them were answered.
#[derive(Drop)]
struct Told {
    checks: TwoAMinute,
}

impl Checks for Told {
    ghost answers = { λ _ _ _. ⊤ };

    fn check<R: Wait>(
        &mut self,
        rt: &R,
        alloc: Global,
        request: &Request,
        now: Seconds,
    ) -> Result<Reply, CheckFault> {
        self.checks.check(rt, alloc, request, now)
    }

    fn stats(&mut self, alloc: Global) -> Result<Option<Word>, OutOfMemory> {
        let text = format!(in alloc; "{{\"checks\":{}}}", self.checks.before)?;
        Ok(Some(Word::of(text)))
    }
}

const GET: &str = "GET /stats HTTP/1.1\r\n\r\n";

// What is written for these bytes on one connection that is polled, whose first calls wait.
fn written_for<R: Wait, K: Checks>(
    rt: &R,
    alloc: Global,
    checks: &mut K,
    bytes: &str,
    answers: u32,
) -> Result<String, Fail> {
    let mut peer = peer_of(alloc, bytes)?;
    peer.read_most = 30;
    peer.write_most = 13;
    peer.waiting = Vec::from_slice(alloc, &[1u64, 2, 4, 8, 16])?;
    let mut peers = Vec::new(alloc);
    peers.push(peer)?;
    let mut listen = MemPollListen::new(alloc, peers, Vec::new(alloc), Vec::new(alloc))?;
    let Ok(served) = serve_tasks(rt, alloc, checks, &mut listen, 1, 1) else {
        return Err("it wasn't served".into());
    };
    if !is_end(&served.ends, 0, LinkCause::Ended, answers) {
        return Err("it ended otherwise".into());
    }
    written(alloc, &listen, 0)
}

#[test]
fn statistics_are_told_between_checks(rt: HostRuntime) -> Result<(), Fail> {
    let alloc = rt.alloc();
    let mut checks = Told {
        checks: TwoAMinute { before: 0 },
    };
    let bytes = format!(in alloc; "{GET}{CHECK}{GET}HEAD /stats HTTP/1.1\r\n\r\n")?;
    let out = written_for(&rt, alloc, &mut checks, &bytes, 4)?;
    let head = "HTTP/1.1 200 OK\r\nContent-Type: application/json\r\nContent-Length: 12\r\n\r\n";
    let last =
        "HTTP/1.1 405 Method Not Allowed\r\nContent-Type: text/plain\r\nContent-Length: 18\r\nAllow: GET\r\n\r\n";
    let want = format!(in alloc; "{head}{{\"checks\":0}}{FIRST}{head}{{\"checks\":1}}{last}")?;
    assert_eq!(rt; out, want);
    Ok(())
}

#[test]
fn no_statistics_are_told_where_there_are_none(rt: HostRuntime) -> Result<(), Fail> {
    let alloc = rt.alloc();
    let mut checks = TwoAMinute { before: 0 };
    let bytes = format!(in alloc; "{GET}HEAD /stats HTTP/1.1\r\n\r\n")?;
    let out = written_for(&rt, alloc, &mut checks, &bytes, 2)?;
    let head = "HTTP/1.1 404 Not Found\r\nContent-Type: text/plain\r\nContent-Length: 9\r\n\r\n";
    let want = format!(in alloc; "{head}Not Found{head}")?;
    assert_eq!(rt; out, want);
    Ok(())
}

#[test]
fn want_of_memory_for_statistics_is_500(rt: HostRuntime) -> Result<(), Fail> {
    let alloc = rt.alloc();
    let peer = peer_of(alloc, GET)?;
    let Ok(mut task) = ConnTask::make(alloc, peer.connect(alloc)) else {
        return Err("no memory".into());
    };
    let mut spare = None;
    Room::refill(alloc, &mut spare)?;
    let Turned::Stats(method) = task.poll_turn(alloc, &mut spare) else {
        return Err("no statistics are wanted".into());
    };
    assert!(rt;
        spare.is_none(),
        "it gave up its room while the statistics are wanted"
    );
    task.answer_stats(method, Err(OutOfMemory));
    let Turned::End(link_end) = task.poll_turn(alloc, &mut spare) else {
        return Err("it waits".into());
    };
    assert!(rt; link_end.cause == LinkCause::Closed && link_end.answers == 1);
    let out = task.link().link().written().ok_or("no memory")?;
    assert!(rt; out.starts_with(b"HTTP/1.1 500 Internal Server Error\r\n"));
    Ok(())
}
