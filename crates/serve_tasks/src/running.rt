// A connection that is run.
ghost use Rattle.std.specs.Prelude.{◌≡◌, true, List, ℕ, ◌++◌, ◌∷◌, []};
ghost use Rattle.std.specs.Option.{is_some};
ghost use Rattle.rate_io.specs.Links.{LinkState};
ghost use Rattle.http_endpoint.specs.Answers.{Asked, Lead};
ghost use Rattle.conn_tasks.specs.Tasks.{IsOn, IsGoing, IsChecking, IsTelling, is_live};
ghost use Rattle.serve_tasks.specs.Running.{RunsTo};

use conn_tasks::{ConnTask, Mode, PollLink, Room, Turned};
use http_endpoint::{Checks, LinkEnd};
use http_front::Method;
use rate_types::{Request, Seconds};
use std::alloc::Global;
use std::marker::Model;
use std::sync::Wait;

/// A connection that waits at its link since its last poll. Only a poll that answered so makes one. Contracts see it as a `TaskState`.
#[derive(Drop)]
pub struct Parked<N: PollLink + Drop> {
    task: ConnTask<N>,
}

impl<N: PollLink + Drop> Model for Parked<N> {
    ghost use Rattle.std.specs.Prelude.{◌≡◌, true};
    ghost use Rattle.conn_tasks.specs.State.{TaskState};
    ghost use Rattle.conn_tasks.specs.Tasks.{is_live};

    ghost Value = { TaskState };

    ghost view = { λ p. p.task };

    ghost invariant = { λ p. is_live p.task.mode ≡ true };
}

impl<N: PollLink + Drop> Parked<N> {
    /// The connection, at whose link something happened.
    pub fn woken(self, is_closed: bool) -> ConnTask<N>
        ensures same { result ≡ self }
        ensures live { is_live result.mode ≡ true }
    {
        let mut task = self.task;
        task.woken(is_closed);
        task
    }
}

/// A link that was served and shut, under its number. Contracts see it as a `Service`.
#[derive(Drop)]
pub struct ServedTask<N: PollLink + Drop> {
    pub(crate) number: u32,
    pub(crate) link: N,
    pub(crate) link_end: LinkEnd,
}

impl<N: PollLink + Drop> Model for ServedTask<N> {
    ghost use Rattle.std.specs.Prelude.{◌≡◌, true};
    ghost use Rattle.http_serve.specs.Service.{Service};

    ghost Value = { Service };

    ghost view = { λ s. record { number = s.number; calls = (N.state s.link).link.history; link_end = s.link_end } };

    ghost invariant = { λ s. (N.state s.link).link.is_shut ≡ true };
}

/// What running a connection came to.
#[derive(Drop)]
pub enum Ran<N: PollLink + Drop> {
    /// It waits at its link.
    Waits(Parked<N>),
    /// It has ended.
    Ended(ServedTask<N>),
}

// Makes the check that a connection wants.
fn make_check<R: Wait, N: PollLink + Drop, K: Checks>(
    rt: &R,
    alloc: Global,
    checks: &mut K,
    task: &mut ConnTask<N>,
    request: Request,
    moment: Seconds,
)
    requires { task.old.mode ≡ Mode.Checking }
    ensures made { (one : Asked) × Lead K.answers checks.old (one ∷ []) checks.new
        × ((first : LinkState) (asked : List Asked) → IsChecking first asked request moment task.old
        → IsOn first (asked ++ one ∷ []) task.new) }
    ensures mode { task.new.mode ≡ Mode.Writing }
    ensures link { task.new.link ≡ task.old.link }
{
    let came = checks.check(rt, alloc, &request, moment);
    task.answer(alloc, came);
}

// Tells the statistics that a request of this method wants.
fn tell_stats<N: PollLink + Drop, K: Checks>(
    alloc: Global,
    checks: &mut K,
    task: &mut ConnTask<N>,
    method: Method,
)
    requires { task.old.mode ≡ Mode.Telling }
    ensures told { (more : List Asked) × Lead K.answers checks.old more checks.new
        × ((first : LinkState) (asked : List Asked) → IsTelling first asked method task.old → IsOn first (asked ++ more) task.new) }
    ensures mode { task.new.mode ≡ Mode.Writing }
    ensures link { task.new.link ≡ task.old.link }
{
    let came = checks.stats(alloc);
    task.answer_stats(method, came);
}

/// Runs a connection, which has this number, until it waits at its link or has ended, and then shuts the link. Each check that it wants
/// is made, and the statistics are told where it wants them. A room is lent to it.
pub fn run_task<R: Wait, N: PollLink + Drop, K: Checks>(
    rt: &R,
    alloc: Global,
    checks: &mut K,
    number: u32,
    mut task: ConnTask<N>,
    spare: &mut Option<Room>,
) -> Ran<N>
    requires live { is_live task.mode ≡ true }
    requires going { IsGoing task }
    requires room { is_some spare.old ≡ true }
    ensures { (more : List Asked) × Lead K.answers checks.old more checks.new × RunsTo more number task result }
{
    'turns: for _ in rt.forever() {
        match task.poll_turn(alloc, spare) {
            Turned::Pending => return Ran::Waits(Parked { task }),
            Turned::Check(request, moment) => {
                make_check(rt, alloc, checks, &mut task, request, moment);
            }
            Turned::Stats(method) => tell_stats(alloc, checks, &mut task, method),
            Turned::End(link_end) => {
                let mut link = task.into_link();
                link.shut();
                return Ran::Ended(ServedTask {
                    number,
                    link,
                    link_end,
                });
            }
        }
    }
    unreachable!()
}
