ghost use Rattle.std.specs.Prelude.{◌≡◌, ◌≤◌, ◌∷◌, ◌++◌, [], List, ℕ, true, false, IfOk, option_to_list};
ghost use Rattle.std.specs.Option.{is_some};
ghost use Rattle.rate_io.specs.Links.{LinkState};
ghost use Rattle.rate_types.specs.Requests.{RequestParts};
ghost use Rattle.http_endpoint.specs.Answers.{Asked, check, statistics_asked};
ghost use Rattle.conn_tasks.specs.Tasks.{IsOn, IsGoing, IsAsking, IsAskingStats, IsChecking, IsTelling, StillGoes, TurnsTo, StandsBehind, is_live};
ghost use Rattle.rate_io.specs.Listeners.{IsNewLink};

use crate::conn::{Conn, Mode, Turned};
use crate::{PollLink, Room};
use http_front::Method;
use rate_types::{OutOfMemory, Word};
use rls_core::{CheckFault, Reply};
use std::alloc::Global;
use std::marker::Model;

/// A connection that is polled. Contracts see it as a `TaskState`.
#[derive(Drop)]
pub struct ConnTask<N: PollLink + Drop> {
    conn: Box<Conn<N>>,
}

impl<N: PollLink + Drop> Model for ConnTask<N> {
    ghost use Rattle.std.specs.Prelude.{◌≡◌, true};
    ghost use Rattle.std.specs.Option.{is_some};
    ghost use Rattle.conn_tasks.specs.State.{TaskState};

    ghost Value = { TaskState };

    ghost use Rattle.conn_tasks.specs.Conn.{seen, needs_room};

    ghost view = { λ t. seen t.conn.value };

    ghost invariant = { λ t. needs_room t.conn.value.mode ≡ true → is_some t.conn.value.room ≡ true };
}

impl<N: PollLink + Drop> ConnTask<N> {
    /// A connection that was just handed out.
    pub fn make(alloc: Global, link: N) -> Result<ConnTask<N>, OutOfMemory>
        ensures on { IfOk result (λ t. IsOn (N.state link).link [] t) }
        ensures going { IsNewLink (N.state link).link → IfOk result (λ t. IsGoing t) }
        ensures live { IfOk result (λ t. is_live t.mode ≡ true) }
    {
        let conn = Box::new(alloc, Conn::new(link))?;
        Ok(ConnTask { conn })
    }

    /// Something happened at its link: it may be polled again. The peer may have ended the link.
    pub fn woken(&mut self, is_closed: bool)
        ensures { self.new ≡ self.old }
    {
        self.conn.woken(is_closed);
    }

    /// It may be polled.
    pub fn is_live(&self) -> bool
        ensures { result ≡ is_live self.now.mode }
    {
        match self.conn.mode {
            Mode::Reading | Mode::Writing => true,
            Mode::Checking | Mode::Telling | Mode::Ended => false,
        }
    }

    /// Goes on until the link would wait, a check or the statistics are wanted, or the connection ends. Where it stands between two requests
    /// a room is lent to it, which it gives back unless it waits with something half read or half written.
    pub fn poll_turn(&mut self, alloc: Global, spare: &mut Option<Room>) -> Turned
        requires live { is_live self.old.mode ≡ true }
        requires going { IsGoing self.old }
        requires room { self.old.mode ≡ Mode.Reading → is_some spare.old ≡ true }
        ensures turns { (first : LinkState) (asked : List Asked) → IsOn first asked self.old
            → TurnsTo first asked self.old.link.waits self.new result }
        ensures going { StillGoes self.new result }
        ensures mode { StandsBehind result self.new.mode }
        ensures waits { self.old.link.waits ≤ self.new.link.waits }
        ensures given { self.new.mode ≡ Mode.Reading → self.new.kept ≡ [] → is_some spare.new ≡ true }
    {
        self.conn.turn(alloc, spare)
    }

    /// Answers the check that is wanted. Where memory is wanting, 500 is answered in its place.
    pub fn answer(&mut self, alloc: Global, came: Result<Reply, CheckFault>)
        requires { self.old.mode ≡ Mode.Checking }
        ensures answered { (first : LinkState) (asked : List Asked) (request : RequestParts) (now : ℕ)
            → IsChecking first asked request now self.old
            → IsOn first (asked ++ check (record { request = request; now = now; result = came }) ∷ []) self.new }
        ensures going { IsAsking self.old → IsGoing self.new }
        ensures mode { self.new.mode ≡ Mode.Writing }
        ensures link { self.new.link ≡ self.old.link }
    {
        self.conn.answer(alloc, came);
    }

    /// Answers the request for the statistics that is wanted, which has this method, where they came to this: their text, or none where
    /// none are kept. Where memory is wanting, 500 is answered in their place.
    pub fn answer_stats(&mut self, method: Method, came: Result<Option<Word>, OutOfMemory>)
        requires { self.old.mode ≡ Mode.Telling }
        ensures answered { (first : LinkState) (asked : List Asked) → IsTelling first asked method self.old
            → IsOn first (asked ++ option_to_list (statistics_asked came)) self.new }
        ensures going { IsAskingStats method self.old → IsGoing self.new }
        ensures mode { self.new.mode ≡ Mode.Writing }
        ensures link { self.new.link ≡ self.old.link }
    {
        self.conn.answer_stats(method, came);
    }

    /// Its link.
    pub fn link(&self) -> &N
        ensures { N.state result.now ≡ self.now.link }
    {
        self.conn.link.link()
    }

    /// The link of a connection that has ended.
    pub fn into_link(self) -> N
        requires { self.mode ≡ Mode.Ended }
        ensures { N.state result ≡ self.link }
    {
        let Conn {
            link,
            room: _,
            awaited: _,
            printed: _,
            sent: _,
            mode: _,
            closes: _,
            answers: _,
        } = Box::into_inner(self.conn);
        link.into_link()
    }
}
