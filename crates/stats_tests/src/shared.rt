// Numbers that several threads add to.
ghost use Rattle.std.specs.Prelude.{◌≡◌};
ghost use Rattle.shared_stats.specs.Passes.{stats_id, stats_of};

use crate::statuses::{code_after, status};
use rls_core::{Code, Count};
use shared_stats::{SharedStats, StatsPass};
use std::test::Fail;
use std::thread::map_vec;

// Notes seven hits of one counter, of which the last was only seen over.
fn note_seven(stats: &SharedStats, pass: &mut StatsPass, rule: u32)
    requires { stats_of pass.old ≡ stats_id stats.now }
    ensures { stats_of pass.new ≡ stats_of pass.old }
{
    for before in 0..6u64 {
        stats.note(
            pass,
            1,
            &status(rule, code_after(before), Count::Before(before)),
        );
    }
    stats.note(pass, 1, &status(rule, Code::OverLimit, Count::Seen(6)));
}

#[test]
fn the_text_has_the_rules_that_counted(rt: HostRuntime) -> Result<(), Fail> {
    let (stats, mut passes) = SharedStats::make(rt.alloc(), 3, 1)?;
    let Some(mut pass) = passes.pop() else {
        unreachable!()
    };
    let none = stats.text(rt.alloc(), &mut pass)?;
    note_seven(&stats, &mut pass, 0);
    let one = stats.text(rt.alloc(), &mut pass)?;
    note_seven(&stats, &mut pass, 2);
    note_seven(&stats, &mut pass, 2);
    let two = stats.text(rt.alloc(), &mut pass)?;
    assert_eq!(rt; none.as_str(), "{\"rules\":[]}");
    assert_eq!(rt;
        one.as_str(),
        "{\"rules\":[{\"near\":1,\"over\":2,\"rule\":0,\"seen\":1,\"shadow\":0,\"total\":7,\"within\":5}]}"
    );
    assert_eq!(rt;
        two.as_str(),
        "{\"rules\":[{\"near\":1,\"over\":2,\"rule\":0,\"seen\":1,\"shadow\":0,\"total\":7,\"within\":5},\
         {\"near\":2,\"over\":4,\"rule\":2,\"seen\":2,\"shadow\":0,\"total\":14,\"within\":10}]}"
    );
    Ok(())
}

#[test]
fn a_rule_that_is_not_among_them_adds_nothing(rt: HostRuntime) -> Result<(), Fail> {
    let (stats, mut passes) = SharedStats::make(rt.alloc(), 2, 1)?;
    let Some(mut pass) = passes.pop() else {
        unreachable!()
    };
    note_seven(&stats, &mut pass, 2);
    let text = stats.text(rt.alloc(), &mut pass)?;
    assert_eq!(rt; text.as_str(), "{\"rules\":[]}");
    Ok(())
}

// Notes seven hits a thousand times, of 20 rules in turn.
fn note_rounds(stats: &SharedStats, mut pass: StatsPass) -> StatsPass
    requires { stats_of pass ≡ stats_id stats.now }
    ensures { stats_of result ≡ stats_of pass }
{
    for round in 0..1_000u32 {
        note_seven(stats, &mut pass, round % 20);
    }
    pass
}

#[test]
fn four_threads_lose_no_note(rt: HostRuntime) -> Result<(), Fail> {
    let alloc = rt.alloc();
    let (stats, passes) = SharedStats::make(alloc, 20, 4)?;
    let done = map_vec(
        &rt,
        passes,
        &|pass: StatsPass| -> StatsPass
            requires { stats_of pass ≡ stats_id stats }
            ensures { stats_of result ≡ stats_id stats }
        { note_rounds(&stats, pass) },
    )?;
    let numbers = stats.close(alloc, done)?;
    assert_eq!(rt; numbers.len(), 20);
    for rule in 0..numbers.len() {
        let n = numbers[rule];
        assert_eq!(rt; (n.total, n.within, n.near), (1_400, 1_000, 200));
        assert_eq!(rt; (n.over, n.seen, n.shadow), (400, 200, 0));
    }
    Ok(())
}
