// Limits within a window, and after a reload.
use super::tables::{Setup, play_table};
use rls_core::Total;
use std::test::Fail;

const SETUP: Setup = Setup {
    limit: 2,
    cells: 8,
    claims_max: 100,
    start: 0,
};

// What was charged in all, of the one total.
fn charged(totals: &[Total]) -> u64 {
    match totals {
        [one] => one.charged,
        _ => 0,
    }
}

const ONE_VALUE: &str = "\
one checks 5 k=a => ok before 0
one checks 0 k=a:0 k=a:2 x=a => ok seen 1, over before 1, ok
one checks 59 k=a => over seen 3
one shows => version 0, moment 59, 3 looks, 0 refused
one checks 60 k=a => ok before 0
one shows => version 0, moment 60, 4 looks, 0 refused";

#[test]
fn a_value_is_over_its_limit_until_its_window_ends(rt: HostRuntime) -> Result<(), Fail> {
    let closed = play_table(&rt, rt.alloc(), SETUP, ONE_VALUE)?;
    assert_eq!(rt; closed.moment.get(), 60);
    assert_eq!(rt; charged(closed.totals.items()), 1);
    Ok(())
}

const RELOADED: &str = "\
one shows => version 0, moment 7, 0 looks, 0 refused
other checks 0 k=a => ok before 0
other ticks 8 => 8
one reloads 0 => Ok(1)
other checks 0 k=a => over seen 1
both meet => Ok(())
one shows => version 1, moment 8, 0 looks, 0 refused";

#[test]
fn a_reload_of_one_pass_is_used_by_the_other(rt: HostRuntime) -> Result<(), Fail> {
    let setup = Setup { start: 7, ..SETUP };
    let _closed = play_table(&rt, rt.alloc(), setup, RELOADED)?;
    Ok(())
}
