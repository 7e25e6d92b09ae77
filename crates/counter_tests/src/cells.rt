ghost use Rattle.std.specs.Prelude.{◌≡◌, ℕ, ◌+◌, ◌≤◌, ◌<◌, [], All, IfSome};
ghost use Rattle.rate_types.specs.Sums.{times};
ghost use Rattle.counter_cells.specs.Opened.{table_of, setup_of};

use counter_cells::{CellClaimer, CellNaming, CellPass, Cells, OpenedCells, Pin, Reclaim, Spot};
use rate_types::Seconds;
use std::alloc::Global;
use std::marker::Brand;
use std::process::Abort;
use std::sync::Wait;
use std::test::*;
use std::thread::{Threads, join, map_vec};

#[test]
fn a_pinned_cell_is_held(rt: HostRuntime) -> Result<(), Fail> {
    let opened = OpenedCells::make(rt.alloc(), 1, 1, Seconds::capped(0))
        .ok()
        .ok_or("memory")?;
    hold_and_take::<Brand, _>(&rt, rt.alloc(), opened)
}

// Takes the one cell under claim 0, counts in it under a pin, and takes it under claim 1 once the pin is given back.
fn hold_and_take<N: CellNaming, R: Abort>(
    rt: &R,
    alloc: Global,
    opened: OpenedCells,
) -> Result<(), Fail>
    requires name { (table_of opened ≡ N.table) × (setup_of opened ≡ N.setup) }
    requires one { N.setup.cells ≡ 1 }
{
    let (cells, mut passes, mut claimer) = opened.with_name::<N>(alloc).ok().ok_or("memory")?;
    let mut pass = passes.pop().ok_or("one pass")?;
    assert_eq!(rt; pass.pins(), 0);
    let old = Spot { cell: 0, claim: 0 };
    let Reclaim::Claimed = cells.reclaim(&mut claimer, 0, 0) else {
        return Err("no pin yet".into());
    };
    cells.reset(&mut claimer, 0);
    cells.open_cell(&mut claimer, 0);
    let Pin::Pinned = cells.pin(&mut pass, old) else {
        return Err("the cell is open".into());
    };
    assert_eq!(rt; cells.look(&mut pass, 0), 0);
    assert_eq!(rt; cells.charge(&mut pass, 0, 5), 0);
    assert_eq!(rt; cells.look(&mut pass, 0), 5);
    assert_eq!(rt;
        cells.reclaim(&mut claimer, 0, 1),
        Reclaim::Held { pins: 1 }
    );
    assert_eq!(rt;
        cells.reclaim_for(&mut claimer, &mut pass, 0, 1),
        Reclaim::Held { pins: 1 }
    );
    cells.unpin(&mut pass, 0);
    assert_eq!(rt; cells.reclaim(&mut claimer, 0, 1), Reclaim::Claimed);
    assert_eq!(rt;
        cells.pin(&mut pass, old),
        Pin::Other {
            claim: 1,
            is_open: false
        }
    );
    assert_eq!(rt; pass.pins(), 0);
    Ok(())
}

// One charge of the hits under claim 0, with its own pin and look.
fn charge_once<N: CellNaming>(cells: &Cells<N>, pass: &mut CellPass<N>, hits: u32) -> Option<u64>
    requires one { N.setup.cells ≡ 1 }
    requires bare { pass.old.good ≡ [] }
    requires hits { 1 ≤ hits }
    ensures { IfSome result (λ _. pass.new.good ≡ []) }
{
    let Pin::Pinned = cells.pin(pass, Spot { cell: 0, claim: 0 }) else {
        return None;
    };
    let seen = cells.look(pass, 0);
    if seen > 1_000_000_000 {
        return None;
    }
    let before = cells.charge(pass, 0, hits);
    cells.unpin(pass, 0);
    Some(before)
}

// What a thread has charged: the counts that it found, and the sum of its hits.
#[derive(Drop)]
struct Charged<N: CellNaming> {
    pass: CellPass<N>,
    befores: Vec<u64>,
    sum: u64,
}

fn charge_often<N: CellNaming>(
    alloc: Global,
    cells: &Cells<N>,
    mut pass: CellPass<N>,
) -> Option<Charged<N>>
    requires one { N.setup.cells ≡ 1 }
    requires bare { pass.good ≡ [] }
    ensures { IfSome result (λ c. c.pass.good ≡ []) }
{
    let mut befores = Vec::with_capacity(alloc, 100_000).ok()?;
    let mut sum = 0u64;
    for round in 0..100_000u32 {
        let hits = round % 3 + 1;
        befores.push_reserved(charge_once(cells, &mut pass, hits)?);
        sum = sum.wrapping_add(u64::from(hits));
    }
    Some(Charged { pass, befores, sum })
}

#[test]
fn four_threads_lose_no_addition(rt: HostRuntime) -> Result<(), Fail> {
    let opened = OpenedCells::make(rt.alloc(), 1, 4, Seconds::capped(0))
        .ok()
        .ok_or("memory")?;
    charge_in_threads::<Brand, _>(&rt, rt.alloc(), opened)
}

fn charge_in_threads<N: CellNaming + Send + Sync, R: Threads + Abort + Sync>(
    rt: &R,
    alloc: Global,
    opened: OpenedCells,
) -> Result<(), Fail>
    requires name { (table_of opened ≡ N.table) × (setup_of opened ≡ N.setup) }
    requires one { N.setup.cells ≡ 1 }
{
    let (cells, passes, mut claimer) = opened.with_name::<N>(alloc).ok().ok_or("memory")?;
    let Reclaim::Claimed = cells.reclaim(&mut claimer, 0, 0) else {
        return Err("no pin yet".into());
    };
    cells.reset(&mut claimer, 0);
    cells.open_cell(&mut claimer, 0);
    let done = map_vec(
        rt,
        passes,
        &|pass: CellPass<N>| -> Option<Charged<N>>
            requires { (N.setup.cells ≡ 1) × (pass.good ≡ []) }
            ensures { IfSome result (λ c. c.pass.good ≡ []) }
        { charge_often(alloc, &cells, pass) },
    )?;
    let mut passes = Vec::new(alloc);
    let mut befores = Vec::new(alloc);
    let mut sum = 0u64;
    for charged in done {
        let charged = charged.ok_or("each thread charges")?;
        passes.push(charged.pass)?;
        befores.extend_from_slice(charged.befores.as_slice())?;
        sum = sum.wrapping_add(charged.sum);
    }
    befores.sort_unstable();
    befores.dedup();
    assert_eq!(rt; befores.len(), 400_000);
    let closed = cells.close(alloc, passes, claimer).ok().ok_or("memory")?;
    assert_eq!(rt; closed.counts.items()[0], sum);
    assert_eq!(rt; sum, 4 * 199_999);
    Ok(())
}

#[test]
fn reclaims_end_beside_pins(rt: HostRuntime) -> Result<(), Fail> {
    let opened = OpenedCells::make(rt.alloc(), 1, 3, Seconds::capped(0))
        .ok()
        .ok_or("memory")?;
    pin_beside_reclaims::<Brand, _>(&rt, rt.alloc(), opened)
}

#[test]
fn a_tick_answers_the_clock_where_it_is_later(rt: HostRuntime) -> Result<(), Fail> {
    let opened = OpenedCells::make(rt.alloc(), 1, 2, Seconds::capped(7))
        .ok()
        .ok_or("memory")?;
    tick_in_turn::<Brand, _>(&rt, rt.alloc(), opened)
}

// Two passes tick in turn, and the claimer hears the clock between.
fn tick_in_turn<N: CellNaming, R: Abort>(
    rt: &R,
    alloc: Global,
    opened: OpenedCells,
) -> Result<(), Fail>
    requires name { (table_of opened ≡ N.table) × (setup_of opened ≡ N.setup) }
{
    let (cells, mut passes, mut claimer) = opened.with_name::<N>(alloc).ok().ok_or("memory")?;
    let mut one = passes.pop().ok_or("two passes")?;
    let mut other = passes.pop().ok_or("two passes")?;
    let early = cells.tick(&mut one, Seconds::capped(3)).get();
    let later = cells.tick(&mut one, Seconds::capped(100)).get();
    let heard = cells.hear(&mut claimer).get();
    let behind = cells.tick(&mut other, Seconds::capped(5)).get();
    let ahead = cells.tick(&mut other, Seconds::capped(200)).get();
    let last = cells.tick(&mut one, Seconds::capped(150)).get();
    assert_eq!(rt; (early, later, heard), (7, 100, 100));
    assert_eq!(rt; (behind, ahead, last), (100, 200, 200));
    assert_eq!(rt; cells.hear(&mut claimer).get(), 200);
    Ok(())
}

// Charges one hit where the cell is open under the claim, and answers the claim that the gate showed.
fn charge_if_open<N: CellNaming>(
    cells: &Cells<N>,
    pass: &mut CellPass<N>,
    claim: u64,
) -> Option<u64>
    requires one { N.setup.cells ≡ 1 }
    requires bare { pass.old.good ≡ [] }
    ensures { IfSome result (λ _. pass.new.good ≡ []) }
{
    match cells.pin(pass, Spot { cell: 0, claim }) {
        Pin::Other { claim, is_open: _ } => Some(claim),
        Pin::Pinned => {
            let seen = cells.look(pass, 0);
            if seen > 1_000_000_000 {
                return None;
            }
            cells.charge(pass, 0, 1);
            cells.unpin(pass, 0);
            Some(claim)
        }
    }
}

fn charge_while_claims_change<N: CellNaming>(
    cells: &Cells<N>,
    mut pass: CellPass<N>,
) -> Option<CellPass<N>>
    requires one { N.setup.cells ≡ 1 }
    requires bare { pass.good ≡ [] }
    ensures { IfSome result (λ p. p.good ≡ []) }
{
    let mut claim = 0;
    for round in 0..20_000u32 {
        let _ = round;
        claim = charge_if_open(cells, &mut pass, claim)?;
    }
    Some(pass)
}

// One try to take the cell under the next claim, and to open it.
fn take_once<N: CellNaming>(cells: &Cells<N>, claimer: &mut CellClaimer<N>, next: u64) -> u64
    requires one { N.setup.cells ≡ 1 }
    requires next { (next < 100000) × ((c : ℕ) → next ≤ c → times c claimer.old.used_claims ≡ 0) }
    ensures next { (result ≤ next + 1) × ((c : ℕ) → result ≤ c → times c claimer.new.used_claims ≡ 0) }
{
    match cells.reclaim(claimer, 0, next) {
        Reclaim::Held { pins: _ } => next,
        Reclaim::Claimed => {
            cells.reset(claimer, 0);
            cells.open_cell(claimer, 0);
            next + 1
        }
    }
}

fn take_in_turns<N: CellNaming>(
    cells: &Cells<N>,
    mut claimer: CellClaimer<N>,
    first: u64,
) -> (CellClaimer<N>, u64)
    requires one { N.setup.cells ≡ 1 }
    requires first { (first ≤ 1) × ((c : ℕ) → first ≤ c → times c claimer.used_claims ≡ 0) }
{
    let mut next = first;
    for round in 0..5_000u32 {
        let _ = round;
        next = take_once(cells, &mut claimer, next);
    }
    (claimer, next)
}

// All passes charge, each in a thread of its own.
fn charge_all<N: CellNaming + Send + Sync, R: Threads + Sync>(
    rt: &R,
    alloc: Global,
    cells: &Cells<N>,
    passes: Vec<CellPass<N>>,
) -> Option<Vec<CellPass<N>>>
    requires one { N.setup.cells ≡ 1 }
    requires bare { All (λ p. p.good ≡ []) passes.items }
    ensures { IfSome result (λ v. All (λ p. p.good ≡ []) v.items) }
{
    let done = map_vec(
        rt,
        passes,
        &|pass: CellPass<N>| -> Option<CellPass<N>>
            requires { (N.setup.cells ≡ 1) × (pass.good ≡ []) }
            ensures { IfSome result (λ p. p.good ≡ []) }
        { charge_while_claims_change(cells, pass) },
    )
    .ok()?;
    let mut passes = Vec::new(alloc);
    for pass in done {
        passes.push(pass?).ok()?;
    }
    Some(passes)
}

fn pin_beside_reclaims<N: CellNaming + Send + Sync, R: Threads + Abort + Sync>(
    rt: &R,
    alloc: Global,
    opened: OpenedCells,
) -> Result<(), Fail>
    requires name { (table_of opened ≡ N.table) × (setup_of opened ≡ N.setup) }
    requires one { N.setup.cells ≡ 1 }
{
    let (cells, passes, mut claimer) = opened.with_name::<N>(alloc).ok().ok_or("memory")?;
    let first = take_once(&cells, &mut claimer, 0);
    assert_eq!(rt; first, 1);
    let ((claimer, next), done) = join(
        rt,
        || -> (CellClaimer<N>, u64)
            requires { (first ≤ 1) × (N.setup.cells ≡ 1) × ((c : ℕ) → first ≤ c → times c claimer.used_claims ≡ 0) }
        { take_in_turns(&cells, claimer, first) },
        || -> Option<Vec<CellPass<N>>>
            requires { (N.setup.cells ≡ 1) × All (λ p. p.good ≡ []) passes.items }
            ensures { IfSome result (λ v. All (λ p. p.good ≡ []) v.items) }
        { charge_all(rt, alloc, &cells, passes) },
    );
    assert!(rt; next >= 1);
    let passes = done.ok_or("each pass ends")?;
    let closed = cells.close(alloc, passes, claimer).ok().ok_or("memory")?;
    assert!(rt; closed.counts.items()[0] <= 60_000);
    Ok(())
}
