// Tables that are played on a limiter of their own.
ghost use Rattle.std.specs.Prelude.{◌≡◌, ◌≤◌, ◌+◌, All, IfOk, OnOk, vec_len};
ghost use Rattle.rate_types.specs.declared.limits.TheConstants.{MOST_CELLS, MOST_CLAIM_NUMBERS};
ghost use Rattle.counter_cells.specs.Opened.{table_of, setup_of};

use super::steps::step;
use crate::configs::config;
use counter_cells::{CellNaming, OpenedCells};
use rate_limiter::{Closed, Limiter, Limits, Pass};
use rate_types::Seconds;
use std::alloc::Global;
use std::hash::RandomState;
use std::marker::Brand;
use std::process::Abort;
use std::random::RandomSource;
use std::sync::Wait;
use std::test::Fail;

/// What the limiter of a table is made for.
#[derive(Clone, Copy)]
pub struct Setup {
    /// How many hits a minute each value of key `k` may have.
    pub limit: u32,
    pub cells: u32,
    pub claims_max: u64,
    /// The moment at which the limiter begins, in seconds.
    pub start: u64,
}

// One line of a table, asked and answered as it says.
fn play_row<N: CellNaming, R: Abort + Wait>(
    rt: &R,
    alloc: Global,
    limiter: &Limiter<N>,
    one: &mut Pass<N>,
    other: &mut Pass<N>,
    row: &str,
) -> Result<(), Fail>
    requires one { one.old.limiter ≡ limiter.now.id }
    requires other { other.old.limiter ≡ limiter.now.id }
    ensures one { one.new.limiter ≡ limiter.now.id }
    ensures other { other.new.limiter ≡ limiter.now.id }
{
    let (asked, want) = row.split_once(" => ").ok_or("a row")?;
    let answered = step(rt, alloc, limiter, one, other, asked)?;
    assert_eq!(rt; answered.as_str(), want, "{asked}");
    Ok(())
}

// Each line of a table.
fn play<N: CellNaming, R: Abort + Wait>(
    rt: &R,
    alloc: Global,
    limiter: &Limiter<N>,
    one: &mut Pass<N>,
    other: &mut Pass<N>,
    table: &str,
) -> Result<(), Fail>
    requires one { one.old.limiter ≡ limiter.now.id }
    requires other { other.old.limiter ≡ limiter.now.id }
    ensures one { one.new.limiter ≡ limiter.now.id }
    ensures other { other.new.limiter ≡ limiter.now.id }
{
    'rows: for row in table.lines() {
        play_row(rt, alloc, limiter, one, other, row)?;
    }
    Ok(())
}

// A limiter with its passes.
fn open<N: CellNaming, R: RandomSource>(
    rt: &R,
    alloc: Global,
    opened: OpenedCells,
    setup: Setup,
) -> Result<(Limiter<N>, Vec<Pass<N>>), Fail>
    requires name { (table_of opened ≡ N.table) × (setup_of opened ≡ N.setup) }
    requires passes { N.setup.passes ≡ 2 }
    requires claims_max { (1 ≤ setup.claims_max) × (setup.claims_max ≤ MOST_CLAIM_NUMBERS) }
    ensures count { IfOk result (λ r. (vec_len r.1 ≡ 2) × (r.0.passes ≡ 2)) }
    ensures passes { IfOk result (λ r. All (λ p. p.limiter ≡ r.0.id) r.1.items) }
{
    let limits = Limits {
        claims_max: setup.claims_max,
        global_shadow: false,
    };
    let seed = RandomState::new(rt)?;
    Ok(Limiter::<N>::make(alloc, config(alloc, setup.limit)?, opened, limits, seed)?)
}

// One of the passes.
fn take<N: CellNaming>(limiter: &Limiter<N>, passes: &mut Vec<Pass<N>>) -> Result<Pass<N>, Fail>
    requires passes { All (λ p. p.limiter ≡ limiter.now.id) passes.old.items }
    ensures pass { IfOk result (λ p. p.limiter ≡ limiter.now.id) }
    ensures passes { All (λ p. p.limiter ≡ limiter.now.id) passes.new.items }
    ensures count { IfOk result (λ _. vec_len passes.old ≡ vec_len passes.new + 1) }
{
    let _ = limiter;
    match passes.pop() {
        Some(pass) => Ok(pass),
        None => Err(Fail::new("a pass")),
    }
}

// Gives a pass back.
fn give<N: CellNaming>(
    limiter: &Limiter<N>,
    passes: &mut Vec<Pass<N>>,
    pass: Pass<N>,
) -> Result<(), Fail>
    requires pass { pass.limiter ≡ limiter.now.id }
    requires passes { All (λ p. p.limiter ≡ limiter.now.id) passes.old.items }
    ensures passes { OnOk result (All (λ p. p.limiter ≡ limiter.now.id) passes.new.items) }
    ensures count { OnOk result (vec_len passes.new ≡ vec_len passes.old + 1) }
{
    let _ = limiter;
    passes.push(pass)?;
    Ok(())
}

// Plays a table with two of the passes, and gives them back.
fn play_passes<N: CellNaming, R: Abort + Wait>(
    rt: &R,
    alloc: Global,
    limiter: &Limiter<N>,
    passes: &mut Vec<Pass<N>>,
    table: &str,
) -> Result<(), Fail>
    requires passes { All (λ p. p.limiter ≡ limiter.now.id) passes.old.items }
    ensures passes { OnOk result (All (λ p. p.limiter ≡ limiter.now.id) passes.new.items) }
    ensures count { OnOk result (vec_len passes.new ≡ vec_len passes.old) }
{
    let mut other = take(limiter, passes)?;
    let mut one = take(limiter, passes)?;
    play(rt, alloc, limiter, &mut one, &mut other, table)?;
    give(limiter, passes, one)?;
    give(limiter, passes, other)
}

// Plays a table, and closes the limiter. The table is a `String`, since a call that picks the name of the cells takes no `&str`.
fn played<N: CellNaming, R: Abort + RandomSource + Wait>(
    rt: &R,
    alloc: Global,
    opened: OpenedCells,
    setup: Setup,
    table: &String,
) -> Result<Closed, Fail>
    requires name { (table_of opened ≡ N.table) × (setup_of opened ≡ N.setup) }
    requires passes { N.setup.passes ≡ 2 }
    requires claims_max { (1 ≤ setup.claims_max) × (setup.claims_max ≤ MOST_CLAIM_NUMBERS) }
{
    let (limiter, mut passes) = open::<N, _>(rt, alloc, opened, setup)?;
    play_passes(rt, alloc, &limiter, &mut passes, table)?;
    Ok(limiter.close(alloc, passes)?)
}

/// Plays a table on a limiter that has two passes, and closes it.
pub fn play_table<R: Abort + RandomSource + Wait>(
    rt: &R,
    alloc: Global,
    setup: Setup,
    table: &str,
) -> Result<Closed, Fail>
    requires cells { (1 ≤ setup.cells) × (setup.cells ≤ MOST_CELLS) }
    requires claims_max { (1 ≤ setup.claims_max) × (setup.claims_max ≤ MOST_CLAIM_NUMBERS) }
{
    let table = String::from_str(alloc, table)?;
    let opened = OpenedCells::make(alloc, setup.cells, 2, Seconds::capped(setup.start))?;
    played::<Brand, _>(rt, alloc, opened, setup, &table)
}
