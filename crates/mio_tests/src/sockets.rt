ghost use Rattle.std.specs.Prelude.{⊤};

use conn_tasks::PollListen;
use http_endpoint::{Checks, LinkCause, LinkEnd};
use mio_links::MioListen;
use rate_types::{OutOfMemory, Request, Seconds, Word};
use rls_core::{CheckFault, Reply};
use serve_tasks::serve_tasks;
use std::alloc::Global;
use std::io::{Read, Write};
use std::net::{Ipv4Addr, Shutdown, TcpStream};
use std::sync::Wait;
use std::test::Fail;
use std::{io, thread};

const HEALTH: &str = "GET /healthcheck HTTP/1.1\r\n\r\n";

const HEALTHY: &str = "HTTP/1.1 200 OK\r\nContent-Type: text/plain\r\nContent-Length: 2\r\n\r\nOK";

const CHECK: &str =
    "POST /json HTTP/1.1\r\nContent-Length: 68\r\n\r\n{\"domain\":\"d\",\"descriptors\":[{\"entries\":[{\"key\":\"k\",\"value\":\"a\"}]}]}";

const FULL: &str =
    "HTTP/1.1 503 Service Unavailable\r\nContent-Type: text/plain\r\nContent-Length: 19\r\n\r\nService Unavailable";

// Each check finds no room.
#[derive(Drop)]
struct NoRoom;

impl Checks for NoRoom {
    ghost answers = { λ _ _ _. ⊤ };

    fn check<R: Wait>(
        &mut self,
        _rt: &R,
        _alloc: Global,
        _request: &Request,
        _now: Seconds,
    ) -> Result<Reply, CheckFault> {
        Err(CheckFault::ClaimsSpent {
            claims: 1,
            wanted: 1,
        })
    }

    fn stats(&mut self, _alloc: Global) -> Result<Option<Word>, OutOfMemory> {
        Ok(None)
    }
}

// The next bytes of a stream are these.
fn comes(stream: &mut TcpStream, want: &str) -> io::Result<bool> {
    let mut left = want.as_bytes();
    let mut buf = [0u8; 1];
    for _ in 0..1_000 {
        let Some((first, rest)) = left.split_first() else {
            return Ok(true);
        };
        stream.read_exact(&mut buf)?;
        if buf[0] != *first {
            return Ok(false);
        }
        left = rest;
    }
    Ok(false)
}

// One peer is answered while the other, which connected first, has sent a part of its head. Then that one sends the rest, a byte a call, and
// a check.
fn talk(mut slow: TcpStream, mut quick: TcpStream) -> io::Result<bool> {
    let (part, rest) = HEALTH.as_bytes().split_at(10);
    slow.write_all(part)?;
    for _ in 0..3 {
        quick.write_all(HEALTH.as_bytes())?;
        if !comes(&mut quick, HEALTHY)? {
            return Ok(false);
        }
    }
    quick.shutdown(Shutdown::Write)?;
    for byte in rest {
        slow.write_all(&[*byte])?;
    }
    slow.write_all(CHECK.as_bytes())?;
    slow.shutdown(Shutdown::Write)?;
    Ok(comes(&mut slow, HEALTHY)? && comes(&mut slow, FULL)?)
}

#[test]
fn a_slow_connection_holds_up_no_other(rt: HostRuntime) -> Result<(), Fail> {
    let alloc = rt.alloc();
    let mut listen = MioListen::new(rt.clone()?, alloc);
    let Ok(port) = listen.bind(0) else {
        return Err("no port".into());
    };
    let slow = TcpStream::connect(&rt, (Ipv4Addr::LOCALHOST, port))?;
    let quick = TcpStream::connect(&rt, (Ipv4Addr::LOCALHOST, port))?;
    let Ok(peers) = thread::spawn(&rt, move || talk(slow, quick).unwrap_or(false)) else {
        return Err("no thread".into());
    };
    let Ok(served) = serve_tasks(&rt, alloc, &mut NoRoom, &mut listen, 2, 2) else {
        return Err("they weren't served".into());
    };
    assert!(rt; peers.join(&rt));
    let cause = LinkCause::Ended;
    let want = [LinkEnd { cause, answers: 2 }, LinkEnd { cause, answers: 3 }];
    assert!(rt; served.is_all && served.ends.as_slice() == want.as_slice());
    Ok(())
}
