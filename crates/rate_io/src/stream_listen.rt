// The adapter over a real listener, on the loopback address. What std answers is trusted.
ghost use Rattle.std.specs.Prelude.{◌≡◌, [], IfSome};
ghost use Rattle.rate_io.specs.Listeners.{IsPortFor, IsNewLink};

use crate::{Failed, HostClock, Link, Listen, ListenCall, ListenHistory, StreamLink};
use std::net::{Ipv4Addr, Net, OpenListener, OpenStream, TcpListener};

/// A listener of the system on the loopback address. A link is closed where it is given back.
#[derive(Drop)]
pub struct StreamListen<R: Net + std::rt::Clock + Clone + Drop> {
    rt: R,
    listener: Option<R::Listener>,
    history: ListenHistory,
    faults: u64,
}

impl<R: Net + std::rt::Clock + Clone + Drop> StreamListen<R> {
    /// A listener that this runtime makes, not bound yet.
    pub fn new(rt: R) -> Self
        ensures history { ⟦<StreamListen<R> as Listen>⟧.history result ≡ [] }
        ensures faults { ⟦<StreamListen<R> as Listen>⟧.faults result ≡ 0 }
    {
        StreamListen {
            rt,
            listener: None,
            history: ListenHistory::new(),
            faults: 0,
        }
    }
}

// A listener at this port of the loopback address, or at a free one for 0, with the port that it has.
fn listener_at<R: Net>(rt: &R, port: u16) -> Option<(R::Listener, u16)>
    ensures { IfSome result (λ had. IsPortFor port had.1) }
{
    let listener = TcpListener::bind(rt, (Ipv4Addr::LOCALHOST, port)).ok()?;
    let got = listener.local_addr().ok()?.port();
    if port != 0 && got != port {
        return None;
    }
    Some((listener, got))
}

// The next stream of a listener, which delays no small answer where the system takes that wish.
fn next_stream<L: OpenListener>(listener: &L) -> Option<L::Stream>
where
    L::Stream: OpenStream,
{
    let (stream, _) = listener.accept().ok()?;
    let _wished = stream.set_nodelay(true);
    Some(stream)
}

// A clock for a link of its own.
fn clock_of<R: std::rt::Clock + Clone + Drop>(rt: &R) -> Option<HostClock<R>> {
    let made: Result<R, _> = rt.clone();
    let Ok(rt) = made else {
        return None;
    };
    Some(HostClock::new(rt))
}

// The next link of a listener, with a clock of its own. What may fail without a stream comes before it, so that none is waited for in vain,
// and no stream that came is let go.
fn next_link<R: Net + std::rt::Clock + Clone + Drop>(
    rt: &R,
    listener: &Option<R::Listener>,
) -> Option<StreamLink<R::Stream, HostClock<R>>>
    ensures { IfSome result (λ link. IsNewLink (⟦<StreamLink<R::Stream, HostClock<R>> as Link>⟧.state link)) }
{
    let Some(listener) = listener else {
        return None;
    };
    let clock = clock_of(rt)?;
    let stream = next_stream(listener)?;
    Some(StreamLink::new(stream, clock))
}

impl<R: Net + std::rt::Clock + Clone + Drop> Listen for StreamListen<R> {
    type Link = StreamLink<R::Stream, HostClock<R>>;

    ghost history = { λ s. s.history.events };

    ghost faults = { λ s. s.faults };

    fn bind(&mut self, port: u16) -> Result<u16, Failed> {
        let Some((listener, got)) = listener_at(&self.rt, port) else {
            self.faults = self.faults.saturating_add(1);
            self.history = self.history.and(&ListenCall::BindFailed { asked: port });
            return Err(Failed);
        };
        self.listener = Some(listener);
        self.history = self.history.and(&ListenCall::Bound {
            asked: port,
            port: got,
        });
        Ok(got)
    }

    fn accept(&mut self) -> Result<StreamLink<R::Stream, HostClock<R>>, Failed> {
        let Some(link) = next_link(&self.rt, &self.listener) else {
            self.faults = self.faults.saturating_add(1);
            self.history = self.history.and(&ListenCall::AcceptFailed);
            return Err(Failed);
        };
        self.history = self.history.and(&ListenCall::Accepted);
        Ok(link)
    }

    fn give_back(&mut self, number: u32, link: StreamLink<R::Stream, HostClock<R>>) {
        self.history = self.history.and(&ListenCall::GaveBack {
            number,
            calls: &link.history,
            is_shut: link.stream.is_none(),
        });
    }
}
