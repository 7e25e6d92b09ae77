// The adapter over a listener of mio, on the loopback address.
ghost use Rattle.std.specs.Prelude.{◌≡◌, [], IfSome};
ghost use Rattle.rate_io.specs.Listeners.{IsPortFor};
ghost use Rattle.mio_links.specs.Told.{woke_of};

use crate::MioLink;
use conn_tasks::{PollListen, Polled, Woke};
use mio::event::Event;
use mio::net::{TcpListener, TcpStream};
use mio::{Events, Interest, Poll, Token};
use rate_io::{Failed, HostClock, ListenCall, ListenHistory};
use std::alloc::Global;
use std::io;
use std::net::{IpAddr, Ipv4Addr, Net, SocketAddr};
use std::time::Duration;

// The place of the listener itself.
const LISTENER: usize = usize::MAX;

// The most things of one sleep.
const MOST_EVENTS: usize = 1_024;

// A port, and the poll in which its listener and the links are registered once.
#[derive(Drop)]
struct Port {
    poll: Poll,
    listener: TcpListener,
    events: Events,
}

/// A listener of the system on the loopback address, with a poll of its own. A link is closed where it is given back.
#[derive(Drop)]
pub struct MioListen<R: Net + std::rt::Clock + Clone + Drop> {
    rt: R,
    alloc: Global,
    port: Option<Port>,
    history: ListenHistory,
    faults: u64,
    waits: u64,
}

impl<R: Net + std::rt::Clock + Clone + Drop> MioListen<R> {
    ghost use Rattle.std.specs.Prelude.{◌≡◌, ◌≤◌, [], ◌∷◌, ◌++◌};
    ghost use Rattle.rate_io.specs.Causes.{Rose};
    ghost use Rattle.rate_io.specs.ListenCalls.{listen_event};

    /// A listener that this runtime makes, not bound yet.
    pub fn new(rt: R, alloc: Global) -> Self
        ensures history { ⟦<MioListen<R> as PollListen>⟧.history result ≡ [] }
        ensures faults { ⟦<MioListen<R> as PollListen>⟧.faults result ≡ 0 }
    {
        MioListen {
            rt,
            alloc,
            port: None,
            history: ListenHistory::new(),
            faults: 0,
            waits: 0,
        }
    }

    // Notes a call that failed.
    fn fail(&mut self, call: &ListenCall<'_>) -> Failed
        ensures event { self.new.history.events ≡ self.old.history.events ++ listen_event call.now ∷ [] }
        ensures later { self.old.faults ≤ self.new.faults }
        ensures rose { Rose self.old.faults self.new.faults }
        ensures waits { self.new.waits ≡ self.old.waits }
        ensures port { self.new.port ≡ self.old.port }
    {
        self.faults = self.faults.saturating_add(1);
        self.history = self.history.and(call);
        Failed
    }
}

// A listener at this port of the loopback address, or at a free one for 0, in a poll, with the port that it has.
fn port_at<R: Net>(rt: &R, alloc: Global, port: u16) -> Option<(Port, u16)>
    ensures { IfSome result (λ had. IsPortFor port had.1) }
{
    let poll = Poll::new(rt).ok()?;
    let events = Events::with_capacity(alloc, MOST_EVENTS).ok()?;
    let addr = SocketAddr::new(IpAddr::V4(Ipv4Addr::LOCALHOST), port);
    let mut listener = TcpListener::bind(rt, addr).ok()?;
    let got = listener.local_addr().ok()?.port();
    if port != 0 && got != port {
        return None;
    }
    let registered = poll
        .registry()
        .register(&mut listener, Token(LISTENER), Interest::READABLE);
    registered.ok()?;
    let had = Port {
        poll,
        listener,
        events,
    };
    Some((had, got))
}

// Has the poll tell of a stream, which delays no small answer where the system takes that wish.
fn enter(poll: &Poll, stream: &mut TcpStream, place: usize) -> io::Result<()> {
    let _wished = stream.set_nodelay(true);
    let both = Interest::READABLE | Interest::WRITABLE;
    poll.registry().register(stream, Token(place), both)
}

// What an accept came to.
enum Accepted {
    Stream(TcpStream),
    Wait,
    Failed,
}

// The next stream of a port, under this place.
fn accept_once(port: &Option<Port>, place: usize) -> Accepted {
    let Some(port) = port.as_ref() else {
        return Accepted::Failed;
    };
    let mut stream = match port.listener.accept() {
        Ok((stream, _)) => stream,
        Err(error) if error.kind() == io::ErrorKind::WouldBlock => return Accepted::Wait,
        Err(_) => return Accepted::Failed,
    };
    if enter(&port.poll, &mut stream, place).is_err() {
        return Accepted::Failed;
    }
    Accepted::Stream(stream)
}

// A clock for a link of its own.
fn clock_of<R: std::rt::Clock + Clone + Drop>(rt: &R) -> Option<HostClock<R>> {
    let made: Result<R, _> = rt.clone();
    let Ok(rt) = made else {
        return None;
    };
    Some(HostClock::new(rt))
}

// What an event tells.
fn woke_of(event: &Event) -> Woke
    ensures { result ≡ woke_of event.now }
{
    let Token(place) = event.token();
    if place == LISTENER {
        return Woke::Listener;
    }
    Woke::Link {
        place,
        is_closed: event.is_read_closed(),
    }
}

impl<R: Net + std::rt::Clock + Clone + Drop> PollListen for MioListen<R> {
    type Link = MioLink<HostClock<R>>;

    ghost history = { λ s. s.history.events };

    ghost faults = { λ s. s.faults };

    ghost waits = { λ s. s.waits };

    ghost use Rattle.mio_links.specs.Told.{told_by};

    ghost told = { λ s. told_by s.port };

    fn bind(&mut self, port: u16) -> Result<u16, Failed> {
        let Some((had, got)) = port_at(&self.rt, self.alloc, port) else {
            return Err(self.fail(&ListenCall::BindFailed { asked: port }));
        };
        self.port = Some(had);
        self.history = self.history.and(&ListenCall::Bound {
            asked: port,
            port: got,
        });
        Ok(got)
    }

    // The clock comes first, so that no stream that came is let go for want of one.
    fn poll_accept(&mut self, place: usize) -> Polled<Result<MioLink<HostClock<R>>, Failed>> {
        let Some(clock) = clock_of(&self.rt) else {
            return Polled::Ready(Err(self.fail(&ListenCall::AcceptFailed)));
        };
        let stream = match accept_once(&self.port, place) {
            Accepted::Stream(stream) => stream,
            Accepted::Wait => {
                self.waits = self.waits.saturating_add(1);
                return Polled::Pending;
            }
            Accepted::Failed => {
                return Polled::Ready(Err(self.fail(&ListenCall::AcceptFailed)));
            }
        };
        self.history = self.history.and(&ListenCall::Accepted);
        Polled::Ready(Ok(MioLink::new(stream, clock)))
    }

    fn sleep(&mut self, most: u64) -> Result<usize, Failed> {
        let most = Duration::from_millis(most);
        let slept = match &mut self.port {
            Some(port) => port.poll.poll(&mut port.events, Some(most)).is_ok(),
            None => false,
        };
        if !slept {
            self.faults = self.faults.saturating_add(1);
            return Err(Failed);
        }
        match &self.port {
            Some(port) => Ok(port.events.iter().len()),
            None => Ok(0),
        }
    }

    fn woke(&self, index: usize) -> Option<Woke> {
        let port = self.port.as_ref()?;
        let event = port.events.iter().as_slice().get(index)?;
        Some(woke_of(event))
    }

    fn give_back(&mut self, number: u32, link: MioLink<HostClock<R>>) {
        self.history = self.history.and(&ListenCall::GaveBack {
            number,
            calls: &link.history,
            is_shut: link.stream.is_none(),
        });
    }
}
