use crate::peers::{CHECK_A, CHECK_B, HEALTH, answers, peer_of, serve, setup_of, slow_peer};
use http_checks::SERVED_CLAIMS;
use http_endpoint::{LinkCause, LinkEnd};
use std::test::Fail;

// Two peers ask twice each, and the limit is 2. Where both are served at a time their checks alternate.
#[test]
fn one_limit_holds_over_all_connections(rt: HostRuntime) -> Result<(), Fail> {
    const ROWS: &[(u32, &str, &str)] = &[
        (1, "200+ 200 ", "429 429 "),
        (2, "200+ 429 ", "200 429 "),
    ];
    let alloc = rt.alloc();
    let two = format!(in alloc; "{CHECK_A}{CHECK_A}")?;
    for &(tasks, first, second) in ROWS {
        let mut peers = Vec::new(alloc);
        for _ in 0..2 {
            peers.push(slow_peer(alloc, &two, 20, 4_000)?)?;
        }
        let served = serve(&rt, alloc, peers, tasks, setup_of(10), 0)?;
        assert_eq!(rt;
            answers(alloc, &served, 0)?.as_str(),
            first,
            "{tasks} at a time"
        );
        assert_eq!(rt;
            answers(alloc, &served, 1)?.as_str(),
            second,
            "{tasks} at a time"
        );
    }
    Ok(())
}

// The counter of the first check has the one cell, whichever connection asks.
#[test]
fn a_counter_without_a_cell_is_refused_on_each_connection(rt: HostRuntime) -> Result<(), Fail> {
    let alloc = rt.alloc();
    let mut peers = Vec::new(alloc);
    for bytes in [
        format!(in alloc; "{CHECK_A}{CHECK_B}{HEALTH}")?,
        format!(in alloc; "{CHECK_B}{CHECK_A}{CHECK_A}")?,
    ] {
        peers.push(peer_of(alloc, &bytes)?)?;
    }
    let served = serve(&rt, alloc, peers, 2, setup_of(1), 0)?;
    assert_eq!(rt; answers(alloc, &served, 0)?.as_str(), "200+ 503 200 ");
    assert_eq!(rt; answers(alloc, &served, 1)?.as_str(), "503 200 429 ");
    Ok(())
}

// A peer may send a byte a call and take a byte a call.
#[test]
fn pieces_of_any_size_are_answered_alike(rt: HostRuntime) -> Result<(), Fail> {
    let alloc = rt.alloc();
    let all = format!(in alloc; "{CHECK_A}{HEALTH}{CHECK_A}{CHECK_B}{CHECK_A}")?;
    for (sent, taken) in [(1, 4_000), (4_000, 1), (1, 1), (7, 13), (4_000, 4_000)] {
        let mut peers = Vec::new(alloc);
        peers.push(slow_peer(alloc, &all, sent, taken)?)?;
        let served = serve(&rt, alloc, peers, 1, setup_of(10), 0)?;
        assert_eq!(rt;
            answers(alloc, &served, 0)?.as_str(),
            "200+ 200 200 200+ 429 ",
            "{sent} bytes are sent, and {taken} taken"
        );
    }
    Ok(())
}

// A check that is cut after each of its bytes has no answer and adds nothing: the whole one, which comes last, is the first of its counter.
#[test]
fn a_check_that_is_cut_adds_nothing(rt: HostRuntime) -> Result<(), Fail> {
    let alloc = rt.alloc();
    let mut peers = Vec::new(alloc);
    for count in 0..=CHECK_A.len() {
        peers.push(peer_of(alloc, CHECK_A.get(..count).ok_or("no part")?)?)?;
    }
    let served = serve(&rt, alloc, peers, 256, setup_of(10), 0)?;
    let ends = served.ends.as_ref().ok_or("the listener failed")?;
    for (number, end) in ends.iter().enumerate() {
        let (cause, count, want) = if number == CHECK_A.len() {
            (LinkCause::Ended, 1, "200+ ")
        } else if number == 0 {
            (LinkCause::Ended, 0, "")
        } else {
            (LinkCause::CutShort, 0, "")
        };
        assert!(rt;
            *end == LinkEnd {
                cause,
                answers: count
            },
            "after {number} bytes"
        );
        assert_eq!(rt;
            answers(alloc, &served, number)?.as_str(),
            want,
            "after {number} bytes"
        );
    }
    Ok(())
}

// 256 peers send a byte a call, each second of which waits. The one that connects last sends all at once, and its check is the first.
#[test]
fn one_is_answered_beside_256_that_dribble(rt: HostRuntime) -> Result<(), Fail> {
    let alloc = rt.alloc();
    let mut peers = Vec::new(alloc);
    for _ in 0..256 {
        peers.push(slow_peer(alloc, CHECK_A, 1, 4_000)?)?;
    }
    peers.push(peer_of(alloc, CHECK_A)?)?;
    let served = serve(&rt, alloc, peers, 257, setup_of(10), 0)?;
    assert_eq!(rt; answers(alloc, &served, 256)?.as_str(), "200+ ");
    assert_eq!(rt; answers(alloc, &served, 0)?.as_str(), "200 ");
    for number in 1..256usize {
        assert_eq!(rt; answers(alloc, &served, number)?.as_str(), "429 ");
    }
    Ok(())
}

// The first two calls of the listener are accepts, the third is a sleep.
#[test]
fn each_call_of_the_listener_can_fail(rt: HostRuntime) -> Result<(), Fail> {
    const ROWS: &[(u64, usize)] = &[(1, 0), (2, 1), (3, 0)];
    let alloc = rt.alloc();
    for &(failing, back) in ROWS {
        let mut peers = Vec::new(alloc);
        for _ in 0..2 {
            peers.push(slow_peer(alloc, CHECK_A, 1, 4_000)?)?;
        }
        let served = serve(&rt, alloc, peers, 2, setup_of(10), failing)?;
        assert!(rt; served.ends.is_none(), "call {failing} fails");
        for number in 0..2usize {
            let is_back = served.listen.given_back(number).is_some();
            assert_eq!(rt; is_back, number < back, "call {failing} fails");
        }
        if back == 1 {
            assert_eq!(rt; answers(alloc, &served, 0)?.as_str(), "200+ ");
        }
    }
    Ok(())
}

// The number that the documents give.
#[test]
fn so_many_counters_have_cells_in_the_life_of_a_server(rt: HostRuntime) {
    assert_eq!(rt; SERVED_CLAIMS, 16_777_216);
}
