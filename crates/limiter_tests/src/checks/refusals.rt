// Counters that find no claim, or no cell.
use super::tables::{Setup, play_table};
use std::test::Fail;

const ONE_CELL: Setup = Setup {
    limit: 2,
    cells: 1,
    claims_max: 2,
    start: 0,
};

const TWO_VALUES: &str = "\
one checks 5 k=a => ok before 0
one checks 6 k=a k=b => CountersFull { moment: Seconds { value: 6 }, live: 1, held: 0, wanted: 1 }
one checks 6 k=a => ok before 1
one checks 60 k=a k=b => ClaimsSpent { claims: 1, wanted: 2 }
one shows => version 0, moment 60, 2 looks, 2 refused";

#[test]
fn a_cell_too_few_refuses_the_check(rt: HostRuntime) -> Result<(), Fail> {
    let _closed = play_table(&rt, rt.alloc(), ONE_CELL, TWO_VALUES)?;
    Ok(())
}

// One pass has the cell in the first minute, the other in the second, and then the one asks again for its counter.
const TWO_MINUTES: &str = "\
one checks 0 k=a => ok before 0
other checks 60 k=b => ok before 0
one shows => version 0, moment 0, 1 looks, 0 refused
one checks 0 k=a => CountersFull { moment: Seconds { value: 60 }, live: 1, held: 0, wanted: 1 }
one shows => version 0, moment 60, 1 looks, 1 refused";

#[test]
fn a_cell_of_a_later_window_is_full(rt: HostRuntime) -> Result<(), Fail> {
    let setup = Setup {
        claims_max: 100,
        ..ONE_CELL
    };
    let _closed = play_table(&rt, rt.alloc(), setup, TWO_MINUTES)?;
    Ok(())
}

// Each of the first two counters has one of the two claims.
const THREE_VALUES: &str = "\
one checks 0 k=a => ok before 0
one checks 0 k=b => ok before 0
one checks 0 k=c => ClaimsSpent { claims: 2, wanted: 1 }
one checks 0 k=a => ok before 1
one shows => version 0, moment 0, 3 looks, 1 refused";

#[test]
fn a_third_counter_of_two_claims_is_refused(rt: HostRuntime) -> Result<(), Fail> {
    let setup = Setup {
        cells: 8,
        ..ONE_CELL
    };
    let _closed = play_table(&rt, rt.alloc(), setup, THREE_VALUES)?;
    Ok(())
}
