// `serve --tasks`: connections in memory that are polled, all on one thread.
use super::serve::{
    CHECK_A, COUNTED, FIRST, HEALTH, HEALTHY, SECOND, STATS, Served, THIRD, written_to,
};
use super::{A, NONE, no_links, numbers, outside_of, said_over};
use conn_tasks::{MemPeer, MemPollListen};
use rate_types::Seconds;
use std::alloc::Global;
use std::random::RandomSource;
use std::sync::Wait;
use std::test::Fail;
use std::thread::Threads;
use worker_run::Open;

// Peers that send these bytes, of which a read hands out at most 20. The first calls of the first one wait.
fn peers_of(alloc: Global, peers: &[&str], waiting: u64) -> Result<Vec<MemPeer>, Fail> {
    let mut made = Vec::new(alloc);
    for peer in peers {
        let mut waits = Vec::new(alloc);
        if made.is_empty() {
            for number in 1..=waiting {
                waits.push(number)?;
            }
        }
        made.push(MemPeer {
            bytes: Vec::from_slice(alloc, peer.as_bytes())?,
            read_most: 20,
            write_most: 50,
            waiting: waits,
            failing: Vec::new(alloc),
            moment: Seconds::capped(65),
        })?;
    }
    Ok(made)
}

// What the words come to over these connections, where the call of the listener with this number fails.
fn serve_polled<R: Threads + Wait + RandomSource + Sync>(
    rt: &R,
    alloc: Global,
    words: &[&str],
    peers: &[&str],
    waiting: u64,
    failing: u64,
) -> Result<Served, Fail> {
    let made = peers_of(alloc, peers, waiting)?;
    let polls = MemPollListen::new(alloc, made, Vec::new(alloc), numbers(alloc, failing)?)?;
    let mut outside = outside_of(alloc, &[A], "", NONE, no_links(alloc)?, polls)?;
    let said = said_over(rt, alloc, words, &mut outside, &Open)?;
    let mut written = Vec::new(alloc);
    for number in 0..peers.len() {
        if let Some(link) = outside.polls.given_back(number) {
            written.push(written_to(alloc, link.link())?)?;
        }
    }
    Ok(Served { said, written })
}

// The first connection is open and silent until the second has ended, on the same thread.
#[test]
fn a_connection_that_waits_holds_up_no_other(rt: HostRuntime) -> Result<(), Fail> {
    let alloc = rt.alloc();
    let two = format!(in alloc; "{CHECK_A}{CHECK_A}")?;
    let words = ["serve", "--port=0", "--connections=2", "--tasks=2", "a"];
    let found = serve_polled(&rt, alloc, &words, &[two.as_str(), CHECK_A], 30, 0)?;
    assert_eq!(rt;
        found.said.as_str(),
        "done\n{\"listening\":1}\n\
        {\"answers\":2,\"connection\":0,\"end\":\"ENDED\"}\n\
        {\"answers\":1,\"connection\":1,\"end\":\"ENDED\"}\n"
    );
    let want = [
        format!(in alloc; "{SECOND}{THIRD}")?,
        String::from_str(alloc, FIRST)?,
    ];
    assert_eq!(rt; found.written.as_slice(), want.as_slice());
    Ok(())
}

#[test]
fn statistics_are_told_by_tasks(rt: HostRuntime) -> Result<(), Fail> {
    let alloc = rt.alloc();
    let two = format!(in alloc; "{CHECK_A}{CHECK_A}")?;
    let words = [
        "serve",
        "--port=0",
        "--connections=2",
        "--tasks=1",
        "--stats",
        "a",
    ];
    let found = serve_polled(&rt, alloc, &words, &[two.as_str(), STATS], 5, 0)?;
    let want = [
        format!(in alloc; "{FIRST}{SECOND}")?,
        String::from_str(alloc, COUNTED)?,
    ];
    assert_eq!(rt; found.written.as_slice(), want.as_slice());
    Ok(())
}

// The first call of the listener is for the port, the others are for connections.
#[test]
fn each_call_of_the_polled_listener_can_fail(rt: HostRuntime) -> Result<(), Fail> {
    let words = ["serve", "--port=0", "--connections=2", "--tasks=2", "a"];
    for (failing, want, back) in [
        (1, "listen fault\n", 0),
        (2, "listen fault\n{\"listening\":1}\n", 0),
        (3, "listen fault\n{\"listening\":1}\n", 1),
    ] {
        let found = serve_polled(&rt, rt.alloc(), &words, &[HEALTH, HEALTH], 0, failing)?;
        assert_eq!(rt; found.said.as_str(), want, "call {failing} fails");
        assert_eq!(rt; found.written.len(), back, "call {failing} fails");
        for written in &found.written {
            assert_eq!(rt; written.as_str(), HEALTHY);
        }
    }
    Ok(())
}

// The third call is a sleep, since the one connection waits.
#[test]
fn a_sleep_that_fails_is_a_listen_fault(rt: HostRuntime) -> Result<(), Fail> {
    let words = ["serve", "--port=0", "--connections=1", "--tasks=1", "a"];
    let found = serve_polled(&rt, rt.alloc(), &words, &[HEALTH], 9, 3)?;
    assert_eq!(rt; found.said.as_str(), "listen fault\n{\"listening\":1}\n");
    Ok(())
}

// The listener for threads isn't used by tasks, nor the other by threads: nobody connects there.
#[test]
fn no_connection_is_served_by_tasks(rt: HostRuntime) -> Result<(), Fail> {
    let words = ["serve", "--port=7", "--connections=0", "--tasks=256", "a"];
    let found = serve_polled(&rt, rt.alloc(), &words, &[HEALTH], 0, 0)?;
    assert_eq!(rt; found.said.as_str(), "done\n{\"listening\":7}\n");
    Ok(())
}
