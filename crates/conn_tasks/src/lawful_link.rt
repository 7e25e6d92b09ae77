use crate::{PollLink, Polled};
use rate_io::Failed;
use rate_types::Seconds;
use std::marker::Model;

/// A link to which only lawful pieces are written: the one way to write to it asks for that (`MayWrite`). So each write that is ever made
/// is lawful, whether or not what makes it returns. Contracts see it as the `PollState` of its link.
#[derive(Drop)]
pub struct LawfulLink<N: PollLink + Drop> {
    link: N,
}

impl<N: PollLink + Drop> Model for LawfulLink<N> {
    ghost use Rattle.conn_tasks.specs.Polls.{PollState};

    ghost Value = { PollState };

    ghost view = { λ l. N.state l.link };
}

impl<N: PollLink + Drop> LawfulLink<N> {
    ghost use Rattle.std.specs.Prelude.{◌≡◌};
    ghost use Rattle.conn_tasks.specs.Polls.{IsPollRead, IsPollWrite, IsPollNow};
    ghost use Rattle.conn_tasks.specs.Lawful.{MayWrite};

    /// The link, of which nothing was lent.
    pub fn new(link: N) -> LawfulLink<N>
        ensures { result ≡ N.state link }
    {
        LawfulLink { link }
    }

    /// Reads, as the link does.
    pub fn poll_read(&mut self, buf: &mut [u8]) -> Polled<Result<usize, Failed>>
        ensures { IsPollRead self.old self.new result buf.new }
    {
        self.link.poll_read(buf)
    }

    /// Writes, as the link does. With what was written before, the piece is a first part of the answers to what was read.
    pub fn poll_write(&mut self, piece: &[u8]) -> Polled<Result<usize, Failed>>
        requires { MayWrite self.old.link.history piece.now }
        ensures { IsPollWrite self.old self.new result piece.now }
    {
        self.link.poll_write(piece)
    }

    /// The moment now.
    pub fn now(&mut self) -> Seconds
        ensures { IsPollNow self.old self.new result }
    {
        self.link.now()
    }

    /// Something happened at the link.
    pub fn woken(&mut self, is_closed: bool)
        ensures { self.new ≡ self.old }
    {
        self.link.woken(is_closed);
    }

    /// The link.
    pub fn link(&self) -> &N
        ensures { N.state result.now ≡ self.now }
    {
        &self.link
    }

    /// The link, once no more is written.
    pub fn into_link(self) -> N
        ensures { N.state result ≡ self }
    {
        self.link
    }
}
