ghost use Rattle.std.specs.Prelude.{◌≡◌, ◌≤◌, [], length, vec_len, All, IfSome};
ghost use Rattle.rate_types.specs.declared.limits.TheConstants.{MOST_PINS};
ghost use Rattle.counter_cells.specs.Opened.{table_of, setup_of};
ghost use Rattle.counter_directory.specs.Passes.{list_of};

use super::lists::may_be_open;
use super::{Worker, name, open, take};
use counter_cells::{CellNaming, Cells, OpenedCells};
use counter_directory::{Directory, DirectoryPass, SoughtName};
use rate_types::{CounterName, Seconds};
use std::alloc::Global;
use std::marker::Brand;
use std::process::Abort;
use std::random::RandomSource;
use std::sync::Wait;
use std::test::*;
use std::thread::{Threads, join};

// The name that each call asks for beside its own, and the call's own.
fn names_of(alloc: Global, number: u32) -> Option<[CounterName; 2]> {
    let own = format!(in alloc; "{number}").ok()?;
    Some([name(alloc, "all")?, name(alloc, &own)?])
}

// Acquires the names; where they are refused, in the next window.
fn take_in_some_window<N: CellNaming, R: Wait>(
    rt: &R,
    directory: &Directory<N>,
    cells: &Cells<N>,
    worker: &mut Worker<N>,
    names: &[SoughtName<'_>],
) -> Option<()>
    requires pass { list_of worker.old.pass ≡ directory.now.list_id }
    requires cell_pass { worker.old.cell_pass.good ≡ [] }
    requires names { (1 ≤ length names.now) × (length names.now ≤ MOST_PINS) }
    ensures pass { list_of worker.new.pass ≡ directory.now.list_id }
    ensures cell_pass { worker.new.cell_pass.good ≡ [] }
{
    for _ in 0..1_000u32 {
        if take(rt, directory, cells, worker, names).is_ok() {
            return Some(());
        }
        let next = worker.cell_pass.moment().get() + 60;
        cells.tick(&mut worker.cell_pass, Seconds::capped(next));
    }
    None
}

// Acquires 2,500 names, of which each has the common one beside it.
fn take_often<N: CellNaming, R: Wait>(
    rt: &R,
    alloc: Global,
    directory: &Directory<N>,
    cells: &Cells<N>,
    mut worker: Worker<N>,
    first: u32,
) -> Option<DirectoryPass<N>>
    requires pass { list_of worker.pass ≡ directory.now.list_id }
    requires cell_pass { worker.cell_pass.good ≡ [] }
    requires first { first ≤ 7500 }
    ensures { IfSome result (λ p. list_of p ≡ directory.now.list_id) }
{
    for round in 0..2_500u32 {
        let both = names_of(alloc, first + round)?;
        let names = [SoughtName::of(&both[0]), SoughtName::of(&both[1])];
        take_in_some_window(rt, directory, cells, &mut worker, names.as_slice())?;
    }
    Some(worker.pass)
}

// Two threads acquire as many names each.
fn take_in_two_threads<N: CellNaming + Send + Sync, R: Threads + Wait + Sync>(
    rt: &R,
    alloc: Global,
    directory: &Directory<N>,
    cells: &Cells<N>,
    one: Worker<N>,
    other: Worker<N>,
    first: u32,
) -> Option<(DirectoryPass<N>, DirectoryPass<N>)>
    requires one { (list_of one.pass ≡ directory.now.list_id) × (one.cell_pass.good ≡ []) }
    requires other { (list_of other.pass ≡ directory.now.list_id) × (other.cell_pass.good ≡ []) }
    requires first { first ≤ 5000 }
    ensures { IfSome result (λ r. (list_of r.0 ≡ directory.now.list_id) × (list_of r.1 ≡ directory.now.list_id)) }
{
    let (one, other) = join(
        rt,
        || -> Option<DirectoryPass<N>>
            requires { (list_of one.pass ≡ directory.now.list_id) × (one.cell_pass.good ≡ []) × (first ≤ 5000) }
            ensures { IfSome result (λ p. list_of p ≡ directory.entry.now.list_id) }
        { take_often(rt, alloc, directory, cells, one, first) },
        || -> Option<DirectoryPass<N>>
            requires { (list_of other.pass ≡ directory.now.list_id) × (other.cell_pass.good ≡ []) × (first ≤ 5000) }
            ensures { IfSome result (λ p. list_of p ≡ directory.entry.now.list_id) }
        { take_often(rt, alloc, directory, cells, other, first + 2_500) },
    );
    Some((one?, other?))
}

// The last two workers.
fn last_two<N: CellNaming>(
    workers: &mut Vec<Worker<N>>,
    directory: &Directory<N>,
) -> Option<(Worker<N>, Worker<N>)>
    requires workers { All (λ w. (w.cell_pass.good ≡ []) × (list_of w.pass ≡ directory.now.list_id)) workers.old.items }
    ensures workers { All (λ w. (w.cell_pass.good ≡ []) × (list_of w.pass ≡ directory.now.list_id)) workers.new.items }
    ensures one { IfSome result (λ r. (r.0.cell_pass.good ≡ []) × (list_of r.0.pass ≡ directory.now.list_id)) }
    ensures other { IfSome result (λ r. (r.1.cell_pass.good ≡ []) × (list_of r.1.pass ≡ directory.now.list_id)) }
{
    let _ = directory;
    let one = workers.pop()?;
    let other = workers.pop()?;
    Some((one, other))
}

// The passes of four threads, which have acquired 10,000 names.
fn take_in_four_threads<N: CellNaming + Send + Sync, R: Threads + Wait + Sync>(
    rt: &R,
    alloc: Global,
    directory: &Directory<N>,
    cells: &Cells<N>,
    mut workers: Vec<Worker<N>>,
) -> Option<Vec<DirectoryPass<N>>>
    requires workers { All (λ w. (w.cell_pass.good ≡ []) × (list_of w.pass ≡ directory.now.list_id)) workers.items }
    ensures count { IfSome result (λ v. vec_len v ≡ 4) }
    ensures passes { IfSome result (λ v. All (λ p. list_of p ≡ directory.now.list_id) v.items) }
{
    let (a, b) = last_two(&mut workers, directory)?;
    let (c, d) = last_two(&mut workers, directory)?;
    let (ab, cd) = join(
        rt,
        || -> Option<(DirectoryPass<N>, DirectoryPass<N>)>
            requires { (list_of a.pass ≡ directory.now.list_id) × (a.cell_pass.good ≡ []) × (list_of b.pass ≡ directory.now.list_id)
                × (b.cell_pass.good ≡ []) }
            ensures { IfSome result (λ r. (list_of r.0 ≡ directory.entry.now.list_id) × (list_of r.1 ≡ directory.entry.now.list_id)) }
        { take_in_two_threads(rt, alloc, directory, cells, a, b, 0) },
        || -> Option<(DirectoryPass<N>, DirectoryPass<N>)>
            requires { (list_of c.pass ≡ directory.now.list_id) × (c.cell_pass.good ≡ []) × (list_of d.pass ≡ directory.now.list_id)
                × (d.cell_pass.good ≡ []) }
            ensures { IfSome result (λ r. (list_of r.0 ≡ directory.entry.now.list_id) × (list_of r.1 ≡ directory.entry.now.list_id)) }
        { take_in_two_threads(rt, alloc, directory, cells, c, d, 5_000) },
    );
    let ((a, b), (c, d)) = (ab?, cd?);
    let mut passes = Vec::with_capacity(alloc, 4).ok()?;
    passes.push_reserved(a);
    passes.push_reserved(b);
    passes.push_reserved(c);
    passes.push_reserved(d);
    Some(passes)
}

// The greatest number of claims that one of the passes knows.
fn most_known<N: CellNaming>(passes: &[DirectoryPass<N>]) -> u64 {
    let mut most = 0;
    for pass in passes {
        most = most.max(pass.claims());
    }
    most
}

#[test]
fn four_threads_make_claims_that_can_stand_together(rt: HostRuntime) -> Result<(), Fail> {
    let opened = OpenedCells::make(rt.alloc(), 64, 4, Seconds::capped(0))?;
    claims_of_four_threads::<Brand, _>(&rt, rt.alloc(), opened)
}

fn claims_of_four_threads<
    N: CellNaming + Send + Sync,
    R: Threads + Abort + RandomSource + Wait + Sync,
>(rt: &R, alloc: Global, opened: OpenedCells) -> Result<(), Fail>
    requires name { (table_of opened ≡ N.table) × (setup_of opened ≡ N.setup) }
    requires workers { N.setup.passes ≡ 4 }
{
    let (cells, directory, workers) = open::<N, _>(rt, alloc, opened, 100_000, 4).ok_or("memory")?;
    let passes = take_in_four_threads(rt, alloc, &directory, &cells, workers).ok_or(
        "each thread ends",
    )?;
    let made = most_known(passes.as_slice());
    let closed = directory.close(passes);
    let last = closed.last.get();
    let open = closed.open_claims(alloc)?;
    assert_eq!(rt; may_be_open(alloc, open.items(), last, 64), Some(true));
    assert!(rt; !open.items().is_empty());
    assert!(rt; made > 10_000, "{made} claims");
    assert!(rt; last >= 60 * 156);
    Ok(())
}
