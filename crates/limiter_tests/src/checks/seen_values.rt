// Counters that a pass has seen above their limits.
use super::tables::{Setup, play_table};
use std::test::Fail;

const SETUP: Setup = Setup {
    limit: 1,
    cells: 8,
    claims_max: 100,
    start: 0,
};

// The second check leaves the counter above the limit, so the third one needs no look. A descriptor of no hits is looked at always. Where the
// limit is raised, the counter is charged again; where it falls again, what the last charge left is known.
const LOOKS: &str = "\
one checks 0 k=a => ok before 0
one shows => version 0, moment 0, 1 looks, 0 refused
one checks 0 k=a => over before 1
one shows => version 0, moment 0, 2 looks, 0 refused
one checks 0 k=a => over seen 2
one opens 0 k=a => over seen 2
one shows => version 0, moment 0, 2 looks, 0 refused
one checks 0 k=a:0 k=a => over seen 2, over seen 2
one shows => version 0, moment 0, 3 looks, 0 refused
one reloads 5 => Ok(1)
one checks 0 k=a => ok before 2
one shows => version 1, moment 0, 4 looks, 0 refused
one reloads 2 => Ok(2)
one checks 0 k=a => over seen 3
one shows => version 2, moment 0, 4 looks, 0 refused";

#[test]
fn a_counter_that_was_seen_over_is_not_looked_at(rt: HostRuntime) -> Result<(), Fail> {
    let _closed = play_table(&rt, rt.alloc(), SETUP, LOOKS)?;
    Ok(())
}

// Three descriptors of one counter: not yet known to the pass, and known to it.
const THREE_OF_ONE: &str = "\
one checks 0 k=a k=a k=a => ok before 0, over before 1, over seen 2
one shows => version 0, moment 0, 2 looks, 0 refused
one checks 0 k=a k=a k=a => over seen 2, over seen 2, over seen 2
one shows => version 0, moment 0, 2 looks, 0 refused";

#[test]
fn what_one_descriptor_left_is_known_to_the_next_one(rt: HostRuntime) -> Result<(), Fail> {
    let _closed = play_table(&rt, rt.alloc(), SETUP, THREE_OF_ONE)?;
    Ok(())
}

// Two counters, of which one and then both were seen above their limits, and a descriptor without a rule.
const ONE_OF_TWO: &str = "\
one checks 0 k=a k=b => ok before 0, ok before 0
one checks 0 k=a => over before 1
one opens 0 k=a k=b => over seen 2, over before 1
one shows => version 0, moment 0, 4 looks, 0 refused
one opens 0 x=a k=b k=a => ok, over seen 2, over seen 2
one opens 0 k=b:0 k=a => over seen 2, over seen 2
one shows => version 0, moment 0, 5 looks, 0 refused
one reloads 2 => Ok(1)
one checks 0 k=a k=b => over before 2, over before 2";

#[test]
fn a_counter_is_counted_beside_one_that_was_seen_over(rt: HostRuntime) -> Result<(), Fail> {
    let _closed = play_table(&rt, rt.alloc(), SETUP, ONE_OF_TWO)?;
    Ok(())
}
