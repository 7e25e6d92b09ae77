// Links under their numbers.
ghost use Rattle.std.specs.Prelude.{◌≡◌, ◌<◌, ◌+◌, [], ℕ, None, Some, get_or, set, vec_len, IfOk};
ghost use Rattle.rate_types.specs.declared.limits.TheConstants.{MOST_CONNECTIONS};
ghost use Rattle.rate_io.specs.Listeners.{IsNewLink};
ghost use Rattle.serve_tasks.specs.Running.{Runs, Stand, Follows, WasRun};
ghost use Rattle.serve_tasks.specs.Links.{standing};

use crate::links::Links;
use crate::running::{Parked, Ran, run_task};
use conn_tasks::{ConnTask, PollLink, Room};
use http_endpoint::Checks;
use rate_types::OutOfMemory;
use std::alloc::Global;
use std::sync::Wait;

/// No link.
pub fn no_links<N: PollLink + Drop>(alloc: Global) -> Links<N>
    ensures { (result.tasks.items ≡ []) × (result.served.items ≡ []) }
{
    Links {
        tasks: Vec::new(alloc),
        served: Vec::new(alloc),
        live: 0,
        spare: None,
    }
}

/// Runs a link that was just accepted, under the next number.
pub fn begin<R: Wait, N: PollLink + Drop, K: Checks>(
    rt: &R,
    alloc: Global,
    checks: &mut K,
    links: &mut Links<N>,
    link: N,
) -> Result<(), OutOfMemory>
    requires new { IsNewLink (N.state link).link }
    requires few { vec_len links.old.tasks < MOST_CONNECTIONS }
    ensures runs { IfOk result (λ _. Runs K.answers checks.old checks.new (standing links.old) (standing links.new)) }
    ensures more { IfOk result (λ _. vec_len links.new.tasks ≡ vec_len links.old.tasks + 1) }
{
    links.tasks.reserve(1)?;
    links.served.reserve(1)?;
    Room::refill(alloc, &mut links.spare)?;
    let task = ConnTask::make(alloc, link)?;
    let number = links.tasks.len() as u32;
    match run_task(rt, alloc, checks, number, task, &mut links.spare) {
        Ran::Waits(parked) => {
            links.tasks.push_reserved(Some(parked));
            links.served.push_reserved(None);
            links.live += 1;
        }
        Ran::Ended(served) => {
            links.tasks.push_reserved(None);
            links.served.push_reserved(Some(served));
        }
    }
    Ok(())
}

// Takes the connection of a number, if it goes on.
fn take_at<N: PollLink + Drop>(
    tasks: &mut Vec<Option<Parked<N>>>,
    number: usize,
) -> Option<Parked<N>>
    ensures taken { result ≡ get_or tasks.old.items number None }
    ensures rest { tasks.new.items ≡ set tasks.old.items number None }
    ensures len { vec_len tasks.new ≡ vec_len tasks.old }
{
    if number >= tasks.len() {
        return None;
    }
    tasks[number].take()
}

// Puts a value at the place of a number.
fn put_at<T: Drop>(list: &mut Vec<Option<T>>, number: usize, value: T)
    requires { number < vec_len list.old }
    ensures put { list.new.items ≡ set list.old.items number (Some value) }
    ensures len { vec_len list.new ≡ vec_len list.old }
{
    list[number] = Some(value);
}

/// Runs the link of a number, at which something happened. All others stay, and so does one that was served.
pub fn run_at<R: Wait, N: PollLink + Drop, K: Checks>(
    rt: &R,
    alloc: Global,
    checks: &mut K,
    links: &mut Links<N>,
    number: usize,
    is_closed: bool,
) -> Result<(), OutOfMemory>
    requires stand { Stand (standing links.old) }
    ensures runs { Runs K.answers checks.old checks.new (standing links.old) (standing links.new) }
    ensures as_many { vec_len links.new.tasks ≡ vec_len links.old.tasks }
    ensures run { IfOk result (λ _. WasRun (get_or links.old.tasks.items number None) (get_or links.new.tasks.items number None)) }
    ensures others { (k : ℕ) → Follows (get_or links.old.tasks.items k None) (get_or links.new.tasks.items k None) }
{
    Room::refill(alloc, &mut links.spare)?;
    let Some(parked) = take_at(&mut links.tasks, number) else {
        return Ok(());
    };
    let task = parked.woken(is_closed);
    match run_task(rt, alloc, checks, number as u32, task, &mut links.spare) {
        Ran::Waits(parked) => {
            put_at(&mut links.tasks, number, parked);
            Ok(())
        }
        Ran::Ended(served) => {
            put_at(&mut links.served, number, served);
            links.live -= 1;
            Ok(())
        }
    }
}
