// Links, and what takes them.
ghost use Rattle.std.specs.Prelude.{◌≡◌, []};

use rate_io::{Failed, FixedClock, Link, Listen, MemLink, MemListen, StreamLink, StreamListen};
use rate_types::Seconds;
use std::io::{Cursor, Read, Write};
use std::net::{Ipv4Addr, TcpStream};
use std::test::Fail;

// The answers of three calls of a link: a read of at most 4 bytes, a write and a read.
fn ask_and_answer<L: Link>(link: &mut L) -> [Option<usize>; 3] {
    let mut buf = [0u8; 4];
    let first = link.read(&mut buf).ok();
    let second = link.write(b"xy").map(|()| 2).ok();
    let third = link.read(&mut buf).ok();
    [first, second, third]
}

// These bytes were written.
fn has_written(link: &MemLink, want: &str) -> bool {
    match link.written() {
        Some(bytes) => bytes == want.as_bytes(),
        None => false,
    }
}

#[test]
fn a_link_in_memory_fails_where_it_is_told_to(rt: HostRuntime) -> Result<(), Fail> {
    let alloc = rt.alloc();
    for (failing, most, want, out) in [
        (0, 9, [Some(4), Some(2), Some(2)], "xy"),
        (0, 1, [Some(1), Some(2), Some(1)], "xy"),
        (1, 9, [None, Some(2), Some(4)], "xy"),
        (2, 9, [Some(4), None, Some(2)], ""),
        (3, 3, [Some(3), Some(2), None], "xy"),
    ] {
        let bytes = Vec::from_slice(alloc, b"abcdef")?;
        let failing = Vec::from_slice(alloc, &[failing])?;
        let mut link = MemLink::new(alloc, bytes, failing).in_pieces(most);
        assert_eq!(rt; ask_and_answer(&mut link), want);
        assert!(rt; has_written(&link, out));
        assert!(rt; !link.is_shut());
        link.shut();
        assert!(rt; link.is_shut());
    }
    Ok(())
}

#[test]
fn a_stream_is_a_link_until_it_is_shut(rt: HostRuntime) -> Result<(), Fail> {
    let alloc = rt.alloc();
    let bytes = Cursor::new(Vec::from_slice(alloc, b"abcdefgh")?);
    let mut link = StreamLink::new(bytes, FixedClock::new(Seconds::capped(65)));
    assert_eq!(rt; link.now().get(), 65);
    assert_eq!(rt; ask_and_answer(&mut link), [Some(4), Some(2), Some(2)]);
    link.shut();
    assert_eq!(rt; ask_and_answer(&mut link), [None, None, None]);
    Ok(())
}

// Binds a port, takes one link, answers it, shuts it and gives it back.
fn serve_one<L: Listen>(listen: &mut L) -> Result<u16, Failed>
    requires { L.history listen.old ≡ [] }
{
    let port = listen.bind(0)?;
    let mut link = listen.accept()?;
    link.write(b"pong")?;
    link.shut();
    listen.give_back(0, link);
    Ok(port)
}

#[test]
fn a_listener_in_memory_keeps_what_is_given_back(rt: HostRuntime) -> Result<(), Fail> {
    let alloc = rt.alloc();
    for (failing, want) in [(0, Ok(1)), (1, Err(Failed)), (2, Err(Failed))] {
        let mut links = Vec::new(alloc);
        links.push(MemLink::new(alloc, Vec::new(alloc), Vec::new(alloc)))?;
        let mut listen = MemListen::new(alloc, links, Vec::from_slice(alloc, &[failing])?)?;
        assert_eq!(rt; serve_one(&mut listen), want);
        let back = listen.given_back(0).map_or(false, |link| link.is_shut());
        assert_eq!(rt; back, want.is_ok());
        assert_eq!(rt; listen.accept().is_err(), want.is_ok());
    }
    Ok(())
}

#[test]
fn a_listener_of_the_system_takes_connections(rt: HostRuntime) -> Result<(), Fail> {
    let mut listen = StreamListen::new(rt.clone()?);
    let port = listen.bind(0)?;
    let mut client = TcpStream::connect(&rt, (Ipv4Addr::LOCALHOST, port))?;
    client.write_all(b"ping")?;
    let mut link = listen.accept()?;
    let mut buf = [0u8; 8];
    assert_eq!(rt; link.read(&mut buf), Ok(4));
    assert_eq!(rt; link.write(b"pong"), Ok(()));
    link.shut();
    let mut answer = Vec::new(rt.alloc());
    client.read_to_end(&mut answer)?;
    assert_eq!(rt; answer.as_slice(), b"pong".as_slice());
    Ok(())
}
