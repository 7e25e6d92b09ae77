// `serve`: connections in memory, and what is written to each.
use super::{A, NONE, no_polls, numbers, outside_of, said_over};
use rate_io::{MemLink, MemListen};
use rate_types::Seconds;
use std::alloc::Global;
use std::random::RandomSource;
use std::str;
use std::sync::Wait;
use std::test::Fail;
use std::thread::Threads;
use worker_run::Open;

/// The health check.
pub const HEALTH: &str = "GET /healthcheck HTTP/1.1\r\n\r\n";

/// Its answer.
pub const HEALTHY: &str =
    "HTTP/1.1 200 OK\r\nContent-Type: text/plain\r\nContent-Length: 2\r\n\r\nOK";

/// A check of a counter with a limit of 2.
pub const CHECK_A: &str =
    "POST /json HTTP/1.1\r\nContent-Length: 68\r\n\r\n{\"domain\":\"d\",\"descriptors\":[{\"entries\":[{\"key\":\"k\",\"value\":\"a\"}]}]}";

const CHECK_B: &str =
    "POST /json HTTP/1.1\r\nContent-Length: 68\r\n\r\n{\"domain\":\"d\",\"descriptors\":[{\"entries\":[{\"key\":\"k\",\"value\":\"b\"}]}]}";

// The first check without its last byte.
const CUT: &str =
    "POST /json HTTP/1.1\r\nContent-Length: 68\r\n\r\n{\"domain\":\"d\",\"descriptors\":[{\"entries\":[{\"key\":\"k\",\"value\":\"a\"}]}]";

const CHUNKED: &str = "POST /json HTTP/1.1\r\nTransfer-Encoding: chunked\r\n\r\n\
    {\"domain\":\"d\",\"descriptors\":[{\"entries\":[{\"key\":\"k\",\"value\":\"a\"}]}]}";

/// The answers to three checks of one counter, at 65.
pub const FIRST: &str =
    "HTTP/1.1 200 OK\r\nContent-Type: application/json\r\nContent-Length: 146\r\n\r\n\
    {\"overallCode\":\"OK\",\"statuses\":[{\"code\":\"OK\",\"currentLimit\":{\"requestsPerUnit\":2,\"unit\":\"MINUTE\"},\
    \"durationUntilReset\":\"55s\",\"limitRemaining\":1}]}";

pub const SECOND: &str =
    "HTTP/1.1 200 OK\r\nContent-Type: application/json\r\nContent-Length: 127\r\n\r\n\
    {\"overallCode\":\"OK\",\"statuses\":[{\"code\":\"OK\",\"currentLimit\":{\"requestsPerUnit\":2,\"unit\":\"MINUTE\"},\
    \"durationUntilReset\":\"55s\"}]}";

pub const THIRD: &str =
    "HTTP/1.1 429 Too Many Requests\r\nContent-Type: application/json\r\nContent-Length: 143\r\n\r\n\
    {\"overallCode\":\"OVER_LIMIT\",\"statuses\":[{\"code\":\"OVER_LIMIT\",\"currentLimit\":{\"requestsPerUnit\":2,\"unit\":\
    \"MINUTE\"},\"durationUntilReset\":\"55s\"}]}";

const NO_LENGTH: &str =
    "HTTP/1.1 411 Length Required\r\nContent-Type: text/plain\r\nContent-Length: 15\r\nConnection: close\r\n\r\nLength Required";

const NO_CELL: &str =
    "HTTP/1.1 503 Service Unavailable\r\nContent-Type: text/plain\r\nContent-Length: 19\r\n\r\nService Unavailable";

const NO_DESCRIPTORS: &str = "POST /json HTTP/1.1\r\nContent-Length: 14\r\n\r\n{\"domain\":\"d\"}";

const REFUSED: &str =
    "HTTP/1.1 400 Bad Request\r\nContent-Type: application/json\r\nContent-Length: 33\r\n\r\n\
    {\"refused\":{\"at\":\"\",\"number\":21}}";

const NOT_POST: &str =
    "HTTP/1.1 405 Method Not Allowed\r\nContent-Type: text/plain\r\nContent-Length: 18\r\nAllow: POST\r\n\r\n\
    Method Not Allowed";

const NOT_POST_FOR_HEAD: &str =
    "HTTP/1.1 405 Method Not Allowed\r\nContent-Type: text/plain\r\nContent-Length: 18\r\nAllow: POST\r\n\r\n";

/// What `serve` came to: its exit and its output, and what was written to each connection that came back.
#[derive(Drop)]
pub struct Served {
    pub said: String,
    pub written: Vec<String>,
}

// Connections whose peers send these bytes, of which a read hands out at most 20.
fn links_of(alloc: Global, peers: &[&str]) -> Result<Vec<MemLink>, Fail> {
    let now = Seconds::capped(65);
    let mut links = Vec::new(alloc);
    for peer in peers {
        let bytes = Vec::from_slice(alloc, peer.as_bytes())?;
        links.push(
            MemLink::new(alloc, bytes, Vec::new(alloc))
                .in_pieces(20)
                .in_time(now, now),
        )?;
    }
    Ok(links)
}

/// What was written to a connection.
pub fn written_to(alloc: Global, link: &MemLink) -> Result<String, Fail> {
    let bytes = link.written().ok_or("no memory")?;
    Ok(String::from_str(alloc, str::from_utf8(bytes).unwrap_or("no UTF-8"))?)
}

// What the words come to over these connections, where the call of the listener with this number fails.
fn serve_peers<R: Threads + Wait + RandomSource + Sync>(
    rt: &R,
    alloc: Global,
    words: &[&str],
    peers: &[&str],
    failing: u64,
) -> Result<Served, Fail> {
    let links = links_of(alloc, peers)?;
    let listen = MemListen::new(alloc, links, numbers(alloc, failing)?)?;
    let mut outside = outside_of(alloc, &[A], "", NONE, listen, no_polls(alloc)?)?;
    let said = said_over(rt, alloc, words, &mut outside, &Open)?;
    let mut written = Vec::new(alloc);
    for number in 0..peers.len() {
        if let Some(link) = outside.listen.given_back(number) {
            written.push(written_to(alloc, link)?)?;
        }
    }
    Ok(Served { said, written })
}

#[test]
fn the_checks_of_a_connection_are_answered_in_order(rt: HostRuntime) -> Result<(), Fail> {
    let alloc = rt.alloc();
    let three = format!(in alloc; "{CHECK_A}{CHECK_A}{CHECK_A}")?;
    let words = ["serve", "--port", "0", "--connections", "3", "a"];
    let found = serve_peers(&rt, alloc, &words, &[three.as_str(), CHUNKED, CUT], 0)?;
    assert_eq!(rt;
        found.said.as_str(),
        "done\n{\"listening\":1}\n\
        {\"answers\":3,\"connection\":0,\"end\":\"ENDED\"}\n\
        {\"answers\":1,\"connection\":1,\"end\":\"CLOSED\"}\n\
        {\"answers\":0,\"connection\":2,\"end\":\"CUT_SHORT\"}\n"
    );
    let want = [
        format!(in alloc; "{FIRST}{SECOND}{THIRD}")?,
        String::from_str(alloc, NO_LENGTH)?,
        String::new(alloc),
    ];
    assert_eq!(rt; found.written.as_slice(), want.as_slice());
    Ok(())
}

#[test]
fn a_connection_is_answered_and_has_its_line(rt: HostRuntime) -> Result<(), Fail> {
    let words = ["serve", "--port", "0", "--connections", "1", "a"];
    let found = serve_peers(&rt, rt.alloc(), &words, &[HEALTH], 0)?;
    assert_eq!(rt;
        found.said.as_str(),
        "done\n{\"listening\":1}\n{\"answers\":1,\"connection\":0,\"end\":\"ENDED\"}\n"
    );
    let want = [String::from_str(rt.alloc(), HEALTHY)?];
    assert_eq!(rt; found.written.as_slice(), want.as_slice());
    Ok(())
}

/// A request for the statistics, and its answer behind two checks.
pub const STATS: &str = "GET /stats HTTP/1.1\r\n\r\n";

pub const COUNTED: &str =
    "HTTP/1.1 200 OK\r\nContent-Type: application/json\r\nContent-Length: 81\r\n\r\n\
    {\"rules\":[{\"near\":1,\"over\":0,\"rule\":0,\"seen\":0,\"shadow\":0,\"total\":2,\"within\":2}]}";

const NOT_FOUND: &str =
    "HTTP/1.1 404 Not Found\r\nContent-Type: text/plain\r\nContent-Length: 9\r\n\r\nNot Found";

#[test]
fn statistics_are_told_where_they_are_kept(rt: HostRuntime) -> Result<(), Fail> {
    let alloc = rt.alloc();
    let asked = format!(in alloc; "{CHECK_A}{CHECK_A}{STATS}")?;
    for (word, want) in [("--stats", COUNTED), ("--global-shadow", NOT_FOUND)] {
        let words = [
            "serve",
            "--port=0",
            "--connections=1",
            "--workers=1",
            word,
            "a",
        ];
        let found = serve_peers(&rt, alloc, &words, &[asked.as_str()], 0)?;
        assert_eq!(rt;
            found.said.as_str(),
            "done\n{\"listening\":1}\n{\"answers\":3,\"connection\":0,\"end\":\"ENDED\"}\n"
        );
        let want = [format!(in alloc; "{FIRST}{SECOND}{want}")?];
        assert_eq!(rt; found.written.as_slice(), want.as_slice(), "{word}");
    }
    Ok(())
}

// The first call of the listener is for the port, the others are for connections.
#[test]
fn each_call_of_the_listener_can_fail(rt: HostRuntime) -> Result<(), Fail> {
    let words = ["serve", "--port", "0", "--connections", "2", "a"];
    for (failing, want, back) in [
        (1, "listen fault\n", 0),
        (2, "listen fault\n{\"listening\":1}\n", 0),
        (3, "listen fault\n{\"listening\":1}\n", 1),
    ] {
        let found = serve_peers(&rt, rt.alloc(), &words, &[HEALTH, HEALTH], failing)?;
        assert_eq!(rt; found.said.as_str(), want, "call {failing} fails");
        assert_eq!(rt; found.written.len(), back, "call {failing} fails");
        for written in &found.written {
            assert_eq!(rt; written.as_str(), HEALTHY);
        }
    }
    Ok(())
}

// The counter of the first check has the one cell, and the second check finds none.
#[test]
fn a_refused_request_leaves_the_connection_open(rt: HostRuntime) -> Result<(), Fail> {
    const ROWS: &[(&str, &str)] = &[
        (CHECK_A, FIRST),
        (CHECK_B, NO_CELL),
        (NO_DESCRIPTORS, REFUSED),
        ("GET /json HTTP/1.1\r\n\r\n", NOT_POST),
        ("HEAD /json HTTP/1.1\r\n\r\n", NOT_POST_FOR_HEAD),
        (CHECK_A, SECOND),
        (HEALTH, HEALTHY),
    ];
    let alloc = rt.alloc();
    let (mut peer, mut want) = (String::new(alloc), String::new(alloc));
    for &(request, answer) in ROWS {
        peer.push_str(request)?;
        want.push_str(answer)?;
    }
    let words = ["serve", "--port=0", "--connections=1", "--cells=1", "a"];
    let found = serve_peers(&rt, alloc, &words, &[peer.as_str()], 0)?;
    assert_eq!(rt;
        found.said.as_str(),
        "done\n{\"listening\":1}\n{\"answers\":7,\"connection\":0,\"end\":\"ENDED\"}\n"
    );
    assert_eq!(rt; found.written.as_slice(), [want].as_slice());
    Ok(())
}
