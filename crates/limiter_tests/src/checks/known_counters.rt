// Counters that a pass knows, and those that it doesn't.
use super::tables::{Setup, play_table};
use std::test::Fail;

const SETUP: Setup = Setup {
    limit: 2,
    cells: 8,
    claims_max: 100,
    start: 0,
};

// A descriptor without a rule has no counter to know. One with a rule is known once a check has counted it, and is then counted as by any
// check. The first counter that isn't known is told, also where it is one of the next window.
const ONE_PASS: &str = "\
one opens 0 x=a => ok
one opens 5 k=a => Unknown { place: 0 }
one checks 5 k=a => ok before 0
one opens 6 k=a => ok before 1
one opens 6 k=a => over before 2
one opens 6 k=a => over seen 3
one checks 6 k=a => over seen 3
one opens 7 x=a k=a:0 k=b => Unknown { place: 2 }
one shows => version 0, moment 7, 3 looks, 0 refused
one opens 60 k=a => Unknown { place: 0 }
one shows => version 0, moment 60, 3 looks, 0 refused";

#[test]
fn a_known_counter_is_counted_without_a_turn(rt: HostRuntime) -> Result<(), Fail> {
    let _closed = play_table(&rt, rt.alloc(), SETUP, ONE_PASS)?;
    Ok(())
}

// What one pass counts isn't known to the other.
const TWO_PASSES: &str = "\
one reloads 5 => Ok(1)
other opens 9 k=a => Behind { version: 1 }
other shows => version 0, moment 0, 0 looks, 0 refused
other checks 1 k=a => ok before 0
other opens 1 k=a => ok before 1
other shows => version 1, moment 1, 2 looks, 0 refused
one opens 0 k=a => Unknown { place: 0 }
both meet => Ok(())
one shows => version 1, moment 1, 0 looks, 0 refused
other shows => version 1, moment 1, 2 looks, 0 refused";

#[test]
fn a_newer_version_comes_before_a_counter_that_is_not_known(rt: HostRuntime) -> Result<(), Fail> {
    let _closed = play_table(&rt, rt.alloc(), SETUP, TWO_PASSES)?;
    Ok(())
}

const TWO_CELLS: Setup = Setup {
    limit: 2,
    cells: 2,
    claims_max: 100,
    start: 0,
};

// Neither a check of a counter that the pass doesn't know yet nor a refused one makes it forget the others.
const NONE_FORGOTTEN: &str = "\
one checks 5 k=a => ok before 0
one checks 5 k=b => ok before 0
one opens 5 k=a => ok before 1
one checks 6 k=c => CountersFull { moment: Seconds { value: 6 }, live: 2, held: 0, wanted: 1 }
one opens 6 k=b => ok before 1
one opens 6 k=a => over before 2";

#[test]
fn a_pass_forgets_no_counter(rt: HostRuntime) -> Result<(), Fail> {
    let _closed = play_table(&rt, rt.alloc(), TWO_CELLS, NONE_FORGOTTEN)?;
    Ok(())
}
