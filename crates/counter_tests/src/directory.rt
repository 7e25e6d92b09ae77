ghost use Rattle.std.specs.Prelude.{◌≡◌, ℕ, ◌^◌, ◌≤◌, ◌<◌, [], length, All, IfOk, IfSome, OnErr};
ghost use Rattle.rate_types.specs.declared.limits.TheConstants.{MOST_CLAIM_NUMBERS, MOST_PASSES, MOST_PINS};
ghost use Rattle.counter_cells.specs.Views.{good_on};
ghost use Rattle.counter_cells.specs.Opened.{table_of, setup_of};
ghost use Rattle.counter_directory.specs.Passes.{list_of};
ghost use Rattle.counter_directory.specs.Spots.{spots_on};

use counter_cells::{CellNaming, CellPass, Cells, OpenedCells, Spot};
use counter_directory::{AcquireFault, Acquired, Directory, DirectoryPass, SoughtName, give_back};
use rate_types::{CounterName, Entries, Entry, Seconds, Text, Unit};
use std::alloc::Global;
use std::hash::RandomState;
use std::marker::Brand;
use std::process::Abort;
use std::random::RandomSource;
use std::sync::Wait;
use std::test::*;

mod lists;
mod threads;

// What one thread has of a directory and of its cells.
#[derive(Drop)]
struct Worker<N: CellNaming> {
    pass: DirectoryPass<N>,
    cell_pass: CellPass<N>,
}

// Each cell pass with a pass of the directory.
fn pair<N: CellNaming>(
    alloc: Global,
    cell_passes: Vec<CellPass<N>>,
    mut passes: Vec<DirectoryPass<N>>,
    directory: &Directory<N>,
) -> Option<Vec<Worker<N>>>
    requires cell_passes { All (λ h. h.good ≡ []) cell_passes.items }
    requires passes { All (λ p. list_of p ≡ directory.now.list_id) passes.items }
    ensures { IfSome result (λ v. All (λ w. (w.cell_pass.good ≡ []) × (list_of w.pass ≡ directory.now.list_id)) v.items) }
{
    let mut workers = Vec::new(alloc);
    for cell_pass in cell_passes {
        let pass = passes.pop()?;
        workers.push(Worker { pass, cell_pass }).ok()?;
    }
    Some(workers)
}

// A directory on the cells for at most so many claims, and the workers at it.
fn open<N: CellNaming, R: RandomSource>(
    rt: &R,
    alloc: Global,
    opened: OpenedCells,
    claims_max: u64,
    workers: u32,
) -> Option<(Cells<N>, Directory<N>, Vec<Worker<N>>)>
    requires name { (table_of opened ≡ N.table) × (setup_of opened ≡ N.setup) }
    requires claims_max { (1 ≤ claims_max) × (claims_max ≤ MOST_CLAIM_NUMBERS) }
    requires workers { (1 ≤ workers) × (workers ≤ MOST_PASSES) × (workers ≡ N.setup.passes) }
    ensures passes { IfSome result (λ r. r.1.passes ≡ workers) }
    ensures workers { IfSome result (λ r. All (λ w. (w.cell_pass.good ≡ []) × (list_of w.pass ≡ r.1.list_id)) r.2.items) }
{
    let (cells, cell_passes, claimer) = opened.with_name::<N>(alloc).ok()?;
    let (directory, passes) = Directory::make(
        alloc,
        claimer,
        claims_max,
        workers,
        RandomState::new(rt).ok()?,
    )
    .ok()?;
    let workers = pair(alloc, cell_passes, passes, &directory)?;
    Some((cells, directory, workers))
}

// Two of the workers.
fn two_of<N: CellNaming>(
    mut workers: Vec<Worker<N>>,
    directory: &Directory<N>,
) -> Option<(Worker<N>, Worker<N>)>
    requires { All (λ w. (w.cell_pass.good ≡ []) × (list_of w.pass ≡ directory.now.list_id)) workers.items }
    ensures one { IfSome result (λ r. (r.0.cell_pass.good ≡ []) × (list_of r.0.pass ≡ directory.now.list_id)) }
    ensures other { IfSome result (λ r. (r.1.cell_pass.good ≡ []) × (list_of r.1.pass ≡ directory.now.list_id)) }
{
    let _ = directory;
    let one = workers.pop()?;
    let other = workers.pop()?;
    Some((one, other))
}

// The name of the counters of k with this value, for each minute.
fn name(alloc: Global, value: &str) -> Option<CounterName> {
    name_for(alloc, value, Unit::Minute)
}

// The name of the counters of k with this value.
fn name_for(alloc: Global, value: &str, unit: Unit) -> Option<CounterName> {
    let mut items = Vec::new(alloc);
    let entry = Entry {
        key: Text::new(alloc, "k").ok()?,
        value: Text::new(alloc, value).ok()?,
    };
    items.push(entry).ok()?;
    Some(CounterName {
        domain: Text::new(alloc, "d").ok()?,
        entries: Entries::build(items).ok()?,
        unit,
    })
}

// Acquires the names.
fn pin<N: CellNaming, R: Wait>(
    rt: &R,
    directory: &Directory<N>,
    cells: &Cells<N>,
    worker: &mut Worker<N>,
    names: &[SoughtName<'_>],
) -> Result<Acquired, AcquireFault>
    requires pass { list_of worker.old.pass ≡ directory.now.list_id }
    requires cell_pass { worker.old.cell_pass.good ≡ [] }
    requires names { (1 ≤ length names.now) × (length names.now ≤ MOST_PINS) }
    ensures pass { list_of worker.new.pass ≡ directory.now.list_id }
    ensures within { IfOk result (λ a. All (λ s. s.cell < N.setup.cells) a.spots.items) }
    ensures pins { IfOk result (λ a. (cell : ℕ) → good_on cell worker.new.cell_pass ≡ spots_on cell a.spots.items) }
    ensures none { OnErr result (worker.new.cell_pass.good ≡ []) }
{
    let mut acquired = Acquired::new();
    match directory.acquire(
        rt,
        &mut worker.pass,
        cells,
        &mut worker.cell_pass,
        names,
        &mut acquired,
    ) {
        Ok(()) => Ok(acquired),
        Err(fault) => Err(fault),
    }
}

// Acquires the names, and gives the pins back.
fn take<N: CellNaming, R: Wait>(
    rt: &R,
    directory: &Directory<N>,
    cells: &Cells<N>,
    worker: &mut Worker<N>,
    names: &[SoughtName<'_>],
) -> Result<Acquired, AcquireFault>
    requires pass { list_of worker.old.pass ≡ directory.now.list_id }
    requires cell_pass { worker.old.cell_pass.good ≡ [] }
    requires names { (1 ≤ length names.now) × (length names.now ≤ MOST_PINS) }
    ensures pass { list_of worker.new.pass ≡ directory.now.list_id }
    ensures cell_pass { worker.new.cell_pass.good ≡ [] }
{
    let acquired = pin(rt, directory, cells, worker, names)?;
    give_back(cells, &mut worker.cell_pass, acquired.spots.as_slice());
    Ok(acquired)
}

// The moment and the spot of the name with this value, whose pin is given back.
fn take_one<N: CellNaming, R: Wait>(
    rt: &R,
    alloc: Global,
    directory: &Directory<N>,
    cells: &Cells<N>,
    worker: &mut Worker<N>,
    value: &str,
) -> Result<(u64, Spot), AcquireFault>
    requires pass { list_of worker.old.pass ≡ directory.now.list_id }
    requires cell_pass { worker.old.cell_pass.good ≡ [] }
    ensures pass { list_of worker.new.pass ≡ directory.now.list_id }
    ensures cell_pass { worker.new.cell_pass.good ≡ [] }
{
    let name = name(alloc, value).ok_or(AcquireFault::OutOfMemory)?;
    let names = [SoughtName::of(&name)];
    let acquired = take(rt, directory, cells, worker, names.as_slice())?;
    match acquired.spots.as_slice() {
        [spot] => Ok((acquired.moment.get(), *spot)),
        _ => Err(AcquireFault::OutOfMemory),
    }
}

#[test]
fn a_third_claim_of_two_is_refused(rt: HostRuntime) -> Result<(), Fail> {
    let opened = OpenedCells::make(rt.alloc(), 8, 1, Seconds::capped(0))?;
    claim_three::<Brand, _>(&rt, rt.alloc(), opened)
}

fn claim_three<N: CellNaming, R: Abort + RandomSource + Wait>(
    rt: &R,
    alloc: Global,
    opened: OpenedCells,
) -> Result<(), Fail>
    requires name { (table_of opened ≡ N.table) × (setup_of opened ≡ N.setup) }
    requires workers { N.setup.passes ≡ 1 }
{
    let (cells, directory, mut workers) = open::<N, _>(rt, alloc, opened, 2, 1).ok_or("memory")?;
    let mut worker = workers.pop().ok_or("one worker")?;
    let first = take_one(rt, alloc, &directory, &cells, &mut worker, "a");
    let second = take_one(rt, alloc, &directory, &cells, &mut worker, "b");
    let third = take_one(rt, alloc, &directory, &cells, &mut worker, "c");
    let again = take_one(rt, alloc, &directory, &cells, &mut worker, "a");
    assert_eq!(rt; first, Ok((0, Spot { cell: 0, claim: 0 })));
    assert_eq!(rt; second, Ok((0, Spot { cell: 1, claim: 1 })));
    assert_eq!(rt;
        third,
        Err(AcquireFault::ClaimsSpent {
            claims: 2,
            wanted: 1
        })
    );
    assert_eq!(rt; again, first);
    assert_eq!(rt; worker.pass.claims(), 2);
    Ok(())
}

#[test]
fn a_cell_of_a_later_window_is_full(rt: HostRuntime) -> Result<(), Fail> {
    let opened = OpenedCells::make(rt.alloc(), 1, 2, Seconds::capped(0))?;
    take_the_expired_cell::<Brand, _>(&rt, rt.alloc(), opened)
}

// One takes the cell in the first minute, the other in the second, and then the one asks again for its counter.
fn take_the_expired_cell<N: CellNaming, R: Abort + RandomSource + Wait>(
    rt: &R,
    alloc: Global,
    opened: OpenedCells,
) -> Result<(), Fail>
    requires name { (table_of opened ≡ N.table) × (setup_of opened ≡ N.setup) }
    requires workers { N.setup.passes ≡ 2 }
{
    let (cells, directory, workers) = open::<N, _>(rt, alloc, opened, 100, 2).ok_or("memory")?;
    let (mut one, mut other) = two_of(workers, &directory).ok_or("two workers")?;
    let first = take_one(rt, alloc, &directory, &cells, &mut one, "a");
    cells.tick(&mut other.cell_pass, Seconds::capped(60));
    let second = take_one(rt, alloc, &directory, &cells, &mut other, "b");
    let before = one.cell_pass.moment().get();
    let third = take_one(rt, alloc, &directory, &cells, &mut one, "a");
    assert_eq!(rt; first, Ok((0, Spot { cell: 0, claim: 0 })));
    assert_eq!(rt; second, Ok((60, Spot { cell: 0, claim: 1 })));
    assert_eq!(rt; before, 0);
    assert_eq!(rt;
        third,
        Err(AcquireFault::CountersFull {
            moment: Seconds::capped(60),
            live: 1,
            held: 0,
            wanted: 1
        })
    );
    assert_eq!(rt;
        (one.cell_pass.moment().get(), one.cell_pass.pins()),
        (60, 0)
    );
    Ok(())
}

#[test]
fn an_ended_cell_is_held_while_it_is_pinned(rt: HostRuntime) -> Result<(), Fail> {
    let opened = OpenedCells::make(rt.alloc(), 1, 2, Seconds::capped(0))?;
    hold_an_ended_cell::<Brand, _>(&rt, rt.alloc(), opened)
}

fn hold_an_ended_cell<N: CellNaming, R: Abort + RandomSource + Wait>(
    rt: &R,
    alloc: Global,
    opened: OpenedCells,
) -> Result<(), Fail>
    requires name { (table_of opened ≡ N.table) × (setup_of opened ≡ N.setup) }
    requires workers { N.setup.passes ≡ 2 }
{
    let (cells, directory, workers) = open::<N, _>(rt, alloc, opened, 100, 2).ok_or("memory")?;
    let (mut one, mut other) = two_of(workers, &directory).ok_or("two workers")?;
    take_beside_a_pin(rt, alloc, &directory, &cells, &mut one, &mut other)
}

// One pins the cell in the first minute. The other asks for it in the second, before and after the pin is given back.
fn take_beside_a_pin<N: CellNaming, R: Abort + RandomSource + Wait>(
    rt: &R,
    alloc: Global,
    directory: &Directory<N>,
    cells: &Cells<N>,
    one: &mut Worker<N>,
    other: &mut Worker<N>,
) -> Result<(), Fail>
    requires one { (list_of one.old.pass ≡ directory.now.list_id) × (one.old.cell_pass.good ≡ []) }
    requires other { (list_of other.old.pass ≡ directory.now.list_id) × (other.old.cell_pass.good ≡ []) }
{
    let name = name(alloc, "a").ok_or("memory")?;
    let names = [SoughtName::of(&name)];
    let Ok(held) = pin(rt, directory, cells, one, names.as_slice()) else {
        return Err("a cell".into());
    };
    cells.tick(&mut other.cell_pass, Seconds::capped(60));
    let refused = take_one(rt, alloc, directory, cells, other, "b");
    give_back(cells, &mut one.cell_pass, held.spots.as_slice());
    let second = take_one(rt, alloc, directory, cells, other, "b");
    assert_eq!(rt;
        refused,
        Err(AcquireFault::CountersFull {
            moment: Seconds::capped(60),
            live: 0,
            held: 1,
            wanted: 1
        })
    );
    assert_eq!(rt; second, Ok((60, Spot { cell: 0, claim: 1 })));
    Ok(())
}

#[test]
fn a_name_given_twice_is_pinned_twice(rt: HostRuntime) -> Result<(), Fail> {
    let opened = OpenedCells::make(rt.alloc(), 8, 1, Seconds::capped(0))?;
    pin_twice::<Brand, _>(&rt, rt.alloc(), opened)
}

fn pin_twice<N: CellNaming, R: Abort + RandomSource + Wait>(
    rt: &R,
    alloc: Global,
    opened: OpenedCells,
) -> Result<(), Fail>
    requires name { (table_of opened ≡ N.table) × (setup_of opened ≡ N.setup) }
    requires workers { N.setup.passes ≡ 1 }
{
    let (cells, directory, mut workers) = open::<N, _>(rt, alloc, opened, 100, 1).ok_or("memory")?;
    let mut worker = workers.pop().ok_or("one worker")?;
    pin_one_name_twice(rt, alloc, &directory, &cells, &mut worker)
}

fn pin_one_name_twice<N: CellNaming, R: Abort + RandomSource + Wait>(
    rt: &R,
    alloc: Global,
    directory: &Directory<N>,
    cells: &Cells<N>,
    worker: &mut Worker<N>,
) -> Result<(), Fail>
    requires pass { list_of worker.old.pass ≡ directory.now.list_id }
    requires cell_pass { worker.old.cell_pass.good ≡ [] }
{
    let one = name(alloc, "a").ok_or("memory")?;
    let other = name(alloc, "a").ok_or("memory")?;
    let names = [SoughtName::of(&one), SoughtName::of(&other)];
    let Ok(acquired) = pin(rt, directory, cells, worker, names.as_slice()) else {
        return Err("a cell".into());
    };
    let spot = Spot { cell: 0, claim: 0 };
    assert_eq!(rt; acquired.spots.as_slice(), [spot, spot].as_slice());
    assert_eq!(rt; worker.cell_pass.pins(), 2);
    assert_eq!(rt; worker.pass.claims(), 1);
    Ok(())
}

#[test]
fn a_cell_is_free_once_the_window_of_its_unit_ends(rt: HostRuntime) -> Result<(), Fail> {
    let units = [
        (Unit::Second, 1),
        (Unit::Minute, 60),
        (Unit::Hour, 3_600),
        (Unit::Day, 86_400),
    ];
    for (unit, end) in units {
        let opened = OpenedCells::make(rt.alloc(), 1, 1, Seconds::capped(0))?;
        take_around::<Brand, _>(&rt, rt.alloc(), opened, unit, end)?;
    }
    Ok(())
}

// Takes the one cell at 0, and tries it for another name in the window's last second and at its end.
fn take_around<N: CellNaming, R: Abort + RandomSource + Wait>(
    rt: &R,
    alloc: Global,
    opened: OpenedCells,
    unit: Unit,
    end: u64,
) -> Result<(), Fail>
    requires name { (table_of opened ≡ N.table) × (setup_of opened ≡ N.setup) }
    requires workers { N.setup.passes ≡ 1 }
{
    let (cells, directory, mut workers) = open::<N, _>(rt, alloc, opened, 100, 1).ok_or("memory")?;
    let mut worker = workers.pop().ok_or("one worker")?;
    take_thrice(rt, alloc, &directory, &cells, &mut worker, unit, end)
}

fn take_thrice<N: CellNaming, R: Abort + Wait>(
    rt: &R,
    alloc: Global,
    directory: &Directory<N>,
    cells: &Cells<N>,
    worker: &mut Worker<N>,
    unit: Unit,
    end: u64,
) -> Result<(), Fail>
    requires pass { list_of worker.old.pass ≡ directory.now.list_id }
    requires cell_pass { worker.old.cell_pass.good ≡ [] }
{
    let one = name_for(alloc, "a", unit).ok_or("memory")?;
    let one = [SoughtName::of(&one)];
    let other = name_for(alloc, "b", unit).ok_or("memory")?;
    let other = [SoughtName::of(&other)];
    let first = take(rt, directory, cells, worker, one.as_slice()).is_ok();
    cells.tick(
        &mut worker.cell_pass,
        Seconds::capped(end.saturating_sub(1)),
    );
    let early = take(rt, directory, cells, worker, other.as_slice()).is_ok();
    cells.tick(&mut worker.cell_pass, Seconds::capped(end));
    let late = take(rt, directory, cells, worker, other.as_slice()).is_ok();
    assert_eq!(rt; (first, early, late), (true, false, true));
    Ok(())
}
