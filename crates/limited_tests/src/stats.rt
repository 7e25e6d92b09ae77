use crate::peers::{CHECK_A, CHECK_B, answers, peer_of, serve, setup_of, slow_peer, written};
use limiter_tasks::TaskSetup;
use std::test::Fail;

const GET: &str = "GET /stats HTTP/1.1\r\n\r\n";

// A limiter of so many cells, with statistics.
fn counted(cells: u32) -> TaskSetup {
    TaskSetup {
        stats: true,
        ..setup_of(cells)
    }
}

// The limit is 2: the third check is counted over it, and the later ones are seen over it.
#[test]
fn seven_checks_are_counted(rt: HostRuntime) -> Result<(), Fail> {
    let alloc = rt.alloc();
    let three = format!(in alloc; "{CHECK_A}{CHECK_A}{CHECK_A}")?;
    let all = format!(in alloc; "{GET}{three}{three}{CHECK_A}{GET}")?;
    let mut peers = Vec::new(alloc);
    peers.push(slow_peer(alloc, &all, 7, 13)?)?;
    let served = serve(&rt, alloc, peers, 1, counted(10), 0)?;
    let text = written(alloc, &served, 0)?;
    let first =
        "HTTP/1.1 200 OK\r\nContent-Type: application/json\r\nContent-Length: 12\r\n\r\n{\"rules\":[]}HTTP/1.1 200 OK";
    assert!(rt; text.as_str().starts_with(first), "{text}");
    let last =
        "{\"rules\":[{\"near\":1,\"over\":5,\"rule\":0,\"seen\":4,\"shadow\":0,\"total\":7,\"within\":2}]}";
    assert!(rt; text.as_str().ends_with(last), "{text}");
    assert_eq!(rt;
        answers(alloc, &served, 0)?.as_str(),
        "200 200+ 200 429 429 429 429 429 200 "
    );
    Ok(())
}

// One connection tells what the other one asked; a check that was refused for want of a cell is not counted.
#[test]
fn all_connections_are_counted_together(rt: HostRuntime) -> Result<(), Fail> {
    let alloc = rt.alloc();
    let mut peers = Vec::new(alloc);
    for bytes in [
        format!(in alloc; "{CHECK_A}{CHECK_B}{CHECK_A}{CHECK_A}")?,
        format!(in alloc; "{CHECK_B}{GET}")?,
    ] {
        peers.push(peer_of(alloc, &bytes)?)?;
    }
    let served = serve(&rt, alloc, peers, 1, counted(1), 0)?;
    assert_eq!(rt; answers(alloc, &served, 0)?.as_str(), "200+ 503 200 429 ");
    let text = written(alloc, &served, 1)?;
    let last =
        "{\"rules\":[{\"near\":1,\"over\":1,\"rule\":0,\"seen\":0,\"shadow\":0,\"total\":3,\"within\":2}]}";
    assert!(rt; text.as_str().ends_with(last), "{text}");
    Ok(())
}

// Without statistics the target isn't known.
#[test]
fn no_statistics_are_told_where_none_are_kept(rt: HostRuntime) -> Result<(), Fail> {
    let alloc = rt.alloc();
    let all = format!(in alloc; "{CHECK_A}{GET}POST /stats HTTP/1.1\r\nContent-Length: 0\r\n\r\n")?;
    for (setup, want) in [
        (setup_of(10), "200+ 404 404 "),
        (counted(10), "200+ 200 405 "),
    ] {
        let mut peers = Vec::new(alloc);
        peers.push(peer_of(alloc, &all)?)?;
        let served = serve(&rt, alloc, peers, 1, setup, 0)?;
        assert_eq!(rt; answers(alloc, &served, 0)?.as_str(), want);
    }
    Ok(())
}
