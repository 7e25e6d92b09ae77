// A piece that is written as far as the link takes it.
ghost use Rattle.std.specs.Prelude.{◌≤◌, Option, length, take, drop};
ghost use Rattle.rate_io.specs.Links.{LinkState};
ghost use Rattle.http_endpoint.specs.Answers.{Asked};
ghost use Rattle.conn_tasks.specs.Lawful.{MayWrite};
ghost use Rattle.conn_tasks.specs.SoFar.{Sends, Puts};

use crate::{LawfulLink, PollLink, Polled};

/// What came of writing on.
#[derive(Clone, Copy)]
pub enum Put {
    /// All is written.
    Done,
    /// The link would wait.
    Wait,
    Failed,
}

/// Writes on, where the first `sent` bytes of the piece are written.
pub fn put_on<N: PollLink + Drop>(link: &mut LawfulLink<N>, piece: &[u8], sent: &mut usize) -> Put
    requires within { sent.old ≤ length piece.now }
    requires may { MayWrite link.old.link.history (drop sent.old piece.now) }
    ensures within { sent.new ≤ length piece.now }
    ensures waits { link.old.waits ≤ link.new.waits }
    ensures puts { (mid : LinkState) (asked : Option Asked) → Sends mid link.old.link asked (take sent.old piece.now)
        → Puts mid asked piece.now link.old link.new sent.new result }
{
    'puts: while *sent < piece.len() {
        match link.poll_write(&piece[*sent..]) {
            Polled::Pending => return Put::Wait,
            Polled::Ready(Err(_)) => return Put::Failed,
            Polled::Ready(Ok(count)) => *sent += count,
        }
    }
    Put::Done
}
