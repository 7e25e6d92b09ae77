// The adapter over a stream of mio. It tells no content.
ghost use Rattle.std.specs.Prelude.{◌≡◌, ◌≤◌, [], length};
ghost use Rattle.mio_links.specs.Counted.{counted};
ghost use Rattle.rate_io.specs.Links.{stream_state};

use conn_tasks::{PollLink, Polled};
use mio::net::TcpStream;
use rate_io::{Call, Clock, Failed, History};
use rate_types::Seconds;
use std::io;
use std::io::{Read, Write};

/// A stream that doesn't wait.
#[derive(Drop)]
pub struct MioLink<C: Clock + Drop> {
    pub(crate) stream: Option<TcpStream>,
    pub(crate) history: History,
    faults: u64,
    waits: u64,
    // The last read found fewer bytes than it had room for, and nothing has happened since.
    is_drained: bool,
    // The peer may have ended it, so only a read can tell that there is no more.
    is_closed: bool,
    clock: C,
}

impl<C: Clock + Drop> MioLink<C> {
    ghost use Rattle.std.specs.Prelude.{◌≡◌, [], true};
    ghost use Rattle.rate_io.specs.Links.{stream_state};

    /// The link that this stream is, which is registered already, with this clock.
    pub fn new(stream: TcpStream, clock: C) -> Self
        ensures { ⟦<MioLink<C> as PollLink>⟧.state result ≡ record { link = stream_state [] 0 true; waits = 0 } }
    {
        MioLink {
            stream: Some(stream),
            history: History::new(),
            faults: 0,
            waits: 0,
            is_drained: false,
            is_closed: false,
            clock,
        }
    }
}

impl<C: Clock + Drop> MioLink<C> {
    ghost use Rattle.std.specs.Prelude.{◌≡◌, ◌≤◌, [], ◌∷◌, ◌++◌};
    ghost use Rattle.rate_io.specs.Causes.{Rose};
    ghost use Rattle.rate_io.specs.Calls.{event_of};

    // Notes a call that failed.
    fn fail(&mut self, call: &Call<'_>) -> Failed
        ensures event { self.new.history.events ≡ self.old.history.events ++ event_of call.now ∷ [] }
        ensures later { self.old.faults ≤ self.new.faults }
        ensures rose { Rose self.old.faults self.new.faults }
        ensures waits { self.new.waits ≡ self.old.waits }
        ensures stream { self.new.stream ≡ self.old.stream }
    {
        self.faults = self.faults.saturating_add(1);
        self.history = self.history.and(call);
        Failed
    }
}

// What a read of a stream came to.
#[derive(Clone, Copy)]
pub enum Came {
    Count(usize),
    Wait,
    Failed,
}

fn read_once(stream: &Option<TcpStream>, buf: &mut [u8]) -> Came
    ensures { counted result ≤ length buf.new }
{
    let Some(mut stream) = stream.as_ref() else {
        return Came::Failed;
    };
    match stream.read(buf) {
        Ok(count) => Came::Count(count),
        Err(error) => failure(&error),
    }
}

fn write_once(stream: &Option<TcpStream>, piece: &[u8]) -> Came
    ensures { counted result ≤ length piece.now }
{
    let Some(mut stream) = stream.as_ref() else {
        return Came::Failed;
    };
    match stream.write(piece) {
        Ok(count) => Came::Count(count),
        Err(error) => failure(&error),
    }
}

fn failure(error: &io::Error) -> Came
    ensures { counted result ≡ 0 }
{
    if error.kind() == io::ErrorKind::WouldBlock {
        Came::Wait
    } else {
        Came::Failed
    }
}

impl<C: Clock + Drop> PollLink for MioLink<C> {
    ghost use Rattle.std.specs.Option.{is_some};

    ghost state = { λ s. record { link = stream_state s.history.events s.faults (is_some s.stream); waits = s.waits } };

    fn poll_read(&mut self, buf: &mut [u8]) -> Polled<Result<usize, Failed>> {
        if self.is_drained {
            self.waits = self.waits.saturating_add(1);
            return Polled::Pending;
        }
        match read_once(&self.stream, buf) {
            Came::Count(count) => {
                self.is_drained = !self.is_closed && 0 < count && count < buf.len();
                self.history = self.history.and(&Call::of_read(count, buf));
                Polled::Ready(Ok(count))
            }
            Came::Wait => {
                self.waits = self.waits.saturating_add(1);
                Polled::Pending
            }
            Came::Failed => Polled::Ready(Err(self.fail(&Call::ReadFailed))),
        }
    }

    fn poll_write(&mut self, piece: &[u8]) -> Polled<Result<usize, Failed>> {
        match write_once(&self.stream, piece) {
            Came::Count(count) if count > 0 || piece.is_empty() => {
                self.history = self.history.and(&Call::Wrote(&piece[..count]));
                Polled::Ready(Ok(count))
            }
            Came::Wait => {
                self.waits = self.waits.saturating_add(1);
                Polled::Pending
            }
            Came::Count(_) | Came::Failed => Polled::Ready(Err(self.fail(&Call::WriteFailed(
                piece,
            )))),
        }
    }

    fn now(&mut self) -> Seconds {
        let moment = self.clock.now();
        self.history = self.history.and(&Call::Told(moment));
        moment
    }

    fn woken(&mut self, is_closed: bool) {
        self.is_drained = false;
        self.is_closed = self.is_closed || is_closed;
    }

    fn shut(&mut self) {
        self.stream = None;
    }
}
