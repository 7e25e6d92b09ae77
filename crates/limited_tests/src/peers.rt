// Peers in memory, and what a limiter of 2 hits a minute for each value of `k` answers them.
use config_json::read_config;
use conn_tasks::{MemPeer, MemPollListen};
use descriptor_tree::Config;
use http_endpoint::LinkEnd;
use http_serve::LinksFault;
use limiter_tasks::{TaskSetup, serve_limited_tasks};
use rate_types::limits::{MOST_CELLS, MOST_CONNECTIONS};
use rate_types::{Blob, Blobs, Seconds};
use std::alloc::Global;
use std::hash::RandomState;
use std::random::RandomSource;
use std::sync::Wait;
use std::test::Fail;

const LIMITS: &str =
    r#"{"domain":"d","descriptors":[{"key":"k","rateLimit":{"unit":"MINUTE","requestsPerUnit":2}}]}"#;

/// A check of the value `a`.
pub const CHECK_A: &str =
    "POST /json HTTP/1.1\r\nContent-Length: 68\r\n\r\n{\"domain\":\"d\",\"descriptors\":[{\"entries\":[{\"key\":\"k\",\"value\":\"a\"}]}]}";

/// A check of the value `b`.
pub const CHECK_B: &str =
    "POST /json HTTP/1.1\r\nContent-Length: 68\r\n\r\n{\"domain\":\"d\",\"descriptors\":[{\"entries\":[{\"key\":\"k\",\"value\":\"b\"}]}]}";

/// The health check.
pub const HEALTH: &str = "GET /healthcheck HTTP/1.1\r\n\r\n";

// The limits as a configuration.
fn limits(alloc: Global) -> Result<Config, Fail> {
    let mut files = Vec::new(alloc);
    files.push(Blob::of(Vec::from_slice(alloc, LIMITS.as_bytes())?))?;
    match read_config(alloc, &Blobs::of(files)) {
        Ok(config) => Ok(config),
        Err(_) => Err("the limits are refused".into()),
    }
}

/// A peer that sends these bytes and takes all at once, at a clock that says 65.
pub fn peer_of(alloc: Global, bytes: &str) -> Result<MemPeer, Fail> {
    Ok(MemPeer {
        bytes: Vec::from_slice(alloc, bytes.as_bytes())?,
        read_most: usize::MAX,
        write_most: usize::MAX,
        waiting: Vec::new(alloc),
        failing: Vec::new(alloc),
        moment: Seconds::capped(65),
    })
}

/// A peer that sends so many bytes a read and takes so many a write, and makes each second call wait.
pub fn slow_peer(alloc: Global, bytes: &str, sent: usize, taken: usize) -> Result<MemPeer, Fail> {
    let mut peer = peer_of(alloc, bytes)?;
    peer.read_most = sent;
    peer.write_most = taken;
    for call in 1..1_000u64 {
        peer.waiting.push(call * 2)?;
    }
    Ok(peer)
}

/// What serving came to: how each link ended, unless the listener failed, and the listener with the links that came back.
#[derive(Drop)]
pub struct Served {
    pub ends: Option<Vec<LinkEnd>>,
    pub listen: MemPollListen,
}

/// A limiter of so many cells, without statistics.
pub fn setup_of(cells: u32) -> TaskSetup {
    TaskSetup {
        cells,
        global_shadow: false,
        stats: false,
    }
}

/// Serves these peers, at most so many at a time, by such a limiter, where the call of the listener with this number fails.
pub fn serve<R: Wait + RandomSource>(
    rt: &R,
    alloc: Global,
    peers: Vec<MemPeer>,
    tasks: u32,
    setup: TaskSetup,
    failing: u64,
) -> Result<Served, Fail> {
    let most = MOST_CONNECTIONS as usize;
    let connections = (peers.len().min(most) as u32).min(MOST_CONNECTIONS);
    let failing = Vec::from_slice(alloc, &[failing])?;
    let mut listen = MemPollListen::new(alloc, peers, Vec::new(alloc), failing)?;
    let seed = RandomState::new(rt)?;
    let setup = TaskSetup {
        cells: setup.cells.clamp(1, MOST_CELLS),
        global_shadow: setup.global_shadow,
        stats: setup.stats,
    };
    let config = limits(alloc)?;
    let answer = serve_limited_tasks(
        rt,
        alloc,
        seed,
        config,
        setup,
        &mut listen,
        connections,
        tasks.max(1),
    );
    match answer {
        Ok(ends) => Ok(Served {
            ends: Some(ends),
            listen,
        }),
        Err(LinksFault::Listen) => Ok(Served { ends: None, listen }),
        Err(LinksFault::OutOfMemory) => Err("no memory".into()),
    }
}

/// What was written for the link of a number.
pub fn written(alloc: Global, served: &Served, number: usize) -> Result<String, Fail> {
    let link = served
        .listen
        .given_back(number)
        .ok_or("it didn't come back")?;
    if !link.link().is_shut() {
        return Err("it wasn't shut".into());
    }
    let bytes = link.link().written().ok_or("no memory")?;
    Ok(String::from_utf8(Vec::from_slice(alloc, bytes)?)?)
}

/// The same in short: for each answer its status, and `+` where one more hit is left.
pub fn answers(alloc: Global, served: &Served, number: usize) -> Result<String, Fail> {
    let text = written(alloc, served, number)?;
    let mut all = String::new(alloc);
    for answer in text.as_str().split("HTTP/1.1 ").skip(1) {
        all.push_str(answer.get(..3).unwrap_or("cut"))?;
        all.push_str(if answer.contains("\"limitRemaining\":1}") {
            "+ "
        } else {
            " "
        })?;
    }
    Ok(all)
}
