// Connections that are served side by side.
ghost use Rattle.std.specs.Prelude.{◌≡◌, [], IfOk};

use super::serve::{HEALTH, HEALTHY};
use super::workers::TURNS;
use super::{A, NONE, no_polls, outside_of, said_over};
use rate_io::{Failed, Link, Listen, MemLink, MemListen};
use rate_types::Seconds;
use std::alloc::Global;
use std::sync::atomic::{AtomicU64, Ordering};
use std::test::Fail;
use std::thread;
use worker_run::Open;

// What two connections tell each other.
#[derive(Drop)]
struct Turns {
    // How many have ended.
    ended: AtomicU64,
    // How often the turns were used up.
    late: AtomicU64,
}

impl Turns {
    // Waits until a connection has ended, or the turns are used up.
    fn wait(&self) {
        for _ in 0..TURNS {
            if self.ended.load(Ordering::SeqCst) != 0 {
                return;
            }
            thread::yield_now();
        }
        self.late.fetch_add(1, Ordering::SeqCst);
    }
}

// A connection, of which the first gives its bytes only after the second has ended.
#[derive(Drop)]
struct Turned<'a> {
    link: MemLink,
    is_first: bool,
    turns: &'a Turns,
}

impl Link for Turned<'_> {
    ghost state = { λ t. ⟦<MemLink as Link>⟧.state t.link };

    fn read(&mut self, buf: &mut [u8]) -> Result<usize, Failed> {
        if self.is_first {
            self.turns.wait();
        }
        self.link.read(buf)
    }

    fn write(&mut self, piece: &[u8]) -> Result<(), Failed> {
        self.link.write(piece)
    }

    fn now(&mut self) -> Seconds {
        self.link.now()
    }

    fn shut(&mut self) {
        self.link.shut();
        self.turns.ended.fetch_add(1, Ordering::SeqCst);
    }
}

// A listener to which such connections come.
#[derive(Drop)]
struct TurnedListen<'a> {
    listen: MemListen,
    is_first: bool,
    turns: &'a Turns,
}

impl<'a> Listen for TurnedListen<'a> {
    type Link = Turned<'a>;

    ghost history = { λ t. ⟦<MemListen as Listen>⟧.history t.listen };

    ghost faults = { λ t. ⟦<MemListen as Listen>⟧.faults t.listen };

    fn bind(&mut self, port: u16) -> Result<u16, Failed> {
        self.listen.bind(port)
    }

    fn accept(&mut self) -> Result<Turned<'a>, Failed> {
        let link = self.listen.accept()?;
        let is_first = self.is_first;
        self.is_first = false;
        Ok(Turned {
            link,
            is_first,
            turns: self.turns,
        })
    }

    fn give_back(&mut self, number: u32, link: Turned<'a>) {
        self.listen.give_back(number, link.link);
    }
}

// Two connections whose peers ask for the health.
fn two_peers(alloc: Global) -> Result<MemListen, Fail>
    ensures { IfOk result (λ l. ⟦<MemListen as Listen>⟧.history l ≡ []) }
{
    let mut links = Vec::new(alloc);
    for _ in 0..2 {
        let bytes = Vec::from_slice(alloc, HEALTH.as_bytes())?;
        links.push(MemLink::new(alloc, bytes, Vec::new(alloc)))?;
    }
    Ok(MemListen::new(alloc, links, Vec::new(alloc))?)
}

#[test]
fn two_connections_are_served_side_by_side(rt: HostRuntime) -> Result<(), Fail> {
    let alloc = rt.alloc();
    let turns = Turns {
        ended: AtomicU64::new(0),
        late: AtomicU64::new(0),
    };
    let listen = TurnedListen {
        listen: two_peers(alloc)?,
        is_first: true,
        turns: &turns,
    };
    let mut outside = outside_of(alloc, &[A], "", NONE, listen, no_polls(alloc)?)?;
    let words = ["serve", "--port=0", "--connections=2", "--workers=2", "a"];
    let said = said_over(&rt, alloc, &words, &mut outside, &Open)?;
    assert_eq!(rt;
        said.as_str(),
        "done\n{\"listening\":1}\n\
        {\"answers\":1,\"connection\":0,\"end\":\"ENDED\"}\n\
        {\"answers\":1,\"connection\":1,\"end\":\"ENDED\"}\n"
    );
    for number in 0..2 {
        let link = outside
            .listen
            .listen
            .given_back(number)
            .ok_or("not given back")?;
        assert!(rt; link.written() == Some(HEALTHY.as_bytes()));
    }
    assert_eq!(rt; turns.late.load(Ordering::SeqCst), 0);
    Ok(())
}
