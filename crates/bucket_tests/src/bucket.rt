use quota_bucket::{
    Advance, AtExpiry, BucketRules, BucketState, InForce, Meter, Strategy, TimedPhase, Usage,
};
use rate_types::{Millis, Unit};
use std::num::NonZeroU64;
use std::test::Fail;

fn moment(millis: u64) -> Result<Millis, Fail> {
    let moment = Millis::new(millis).ok_or("a moment")?;
    Ok(moment)
}

// Reports each 5 seconds, all allowed before the first assignment, and an expired one that goes on for 3 seconds.
fn rules(expired: AtExpiry) -> Result<BucketRules, Fail> {
    let reporting = NonZeroU64::new(5_000).ok_or("not 0")?;
    Ok(BucketRules {
        reporting,
        unassigned: Strategy::AllowAll,
        expired,
        timeout: Some(moment(3_000)?),
    })
}

#[test]
fn strategies_decide(rt: HostRuntime) -> Result<(), Fail> {
    let count = Strategy::PerUnit {
        count: 1,
        unit: Unit::Second,
    };
    let mut meter = Meter::Fresh;
    for (elapsed, want) in [(0, true), (999, false), (1_000, true), (1_000, false)] {
        let verdict = count.judge(meter, elapsed);
        assert_eq!(rt; verdict.allowed, want, "after {elapsed}");
        meter = verdict.meter;
    }
    let tokens = Strategy::TokenBucket {
        max: 3,
        per_fill: 2,
        interval: moment(1_000)?,
    };
    let rows = [
        (0, true),
        (0, true),
        (10, true),
        (999, false),
        (1_000, true),
        (1_001, true),
        (1_999, false),
        (9_000, true),
        (9_000, true),
        (9_000, true),
        (9_999, false),
    ];
    let mut meter = Meter::Fresh;
    for (elapsed, want) in rows {
        let verdict = tokens.judge(meter, elapsed);
        assert_eq!(rt; verdict.allowed, want, "after {elapsed}");
        meter = verdict.meter;
    }
    assert!(rt; Strategy::AllowAll.judge(meter, 0).allowed);
    assert!(rt; !Strategy::DenyAll.judge(meter, 0).allowed);
    assert!(rt;
        count.is_same(&Strategy::PerUnit {
            count: 1,
            unit: Unit::Second
        })
    );
    assert!(rt;
        !count.is_same(&Strategy::PerUnit {
            count: 1,
            unit: Unit::Minute
        })
    );
    assert!(rt; !count.is_same(&tokens));
    Ok(())
}

#[test]
fn a_bucket_reports_and_expires(rt: HostRuntime) -> Result<(), Fail> {
    let fallback = AtExpiry::Fallback(Strategy::DenyAll);
    assert!(rt; fallback.has_fallback());
    let rules = rules(fallback)?;
    let at = moment(1_000)?;
    let first = BucketState::new(at).asked(&rules, at, true);
    assert!(rt; first.allowed);
    let usage = Usage {
        at,
        elapsed: moment(0)?,
        allowed: 1,
        denied: 0,
    };
    assert_eq!(rt; first.report, Some(usage));
    assert!(rt; !first.state.waits());
    assert_eq!(rt; first.state.due(&rules, at), None);
    let given = first
        .state
        .assigned(moment(2_000)?, Some(moment(1_000)?), Strategy::AllowAll);
    assert_eq!(rt; given.due(&rules, moment(2_000)?), Some(3_000));
    let advance = Advance {
        from: moment(2_000)?,
        to: moment(4_000)?,
        up: true,
    };
    let expired = given.advanced(&rules, &advance);
    let phase = TimedPhase::Expired {
        strategy: Strategy::DenyAll,
        effect: moment(3_000)?,
        since: moment(3_000)?,
    };
    assert_eq!(rt; expired.phase, phase);
    assert_eq!(rt; expired.due(&rules, moment(4_000)?), Some(6_000));
    let denied = expired.asked(&rules, moment(4_000)?, true);
    assert!(rt; !denied.allowed && denied.state.waits());
    let advance = Advance {
        from: moment(4_000)?,
        to: moment(6_000)?,
        up: true,
    };
    assert_eq!(rt; denied.state.advance_report(&rules, &advance), None);
    assert_eq!(rt;
        denied.state.advanced(&rules, &advance).phase,
        TimedPhase::Gone
    );
    Ok(())
}

#[test]
fn a_strategy_is_in_force_where_there_is_a_bucket(rt: HostRuntime) -> Result<(), Fail> {
    let rules = rules(AtExpiry::Abandon)?;
    let at = moment(1_000)?;
    assert_eq!(rt; TimedPhase::Gone.in_force(&rules), None);
    let first = InForce {
        strategy: Strategy::AllowAll,
        effect: at,
    };
    assert_eq!(rt; TimedPhase::Gone.force_for(&rules, at), first);
    let phase = TimedPhase::Live {
        strategy: Strategy::DenyAll,
        effect: at,
        expiry: None,
    };
    let force = InForce {
        strategy: Strategy::DenyAll,
        effect: at,
    };
    assert_eq!(rt; phase.in_force(&rules), Some(force));
    assert_eq!(rt; phase.force_for(&rules, moment(2_000)?), force);
    Ok(())
}

// When a bucket with a waiting request is due first, which reports after so many milliseconds.
fn first_due(interval: u64) -> Result<Option<u64>, Fail> {
    let at = moment(1_000)?;
    let reporting = NonZeroU64::new(interval).ok_or("not 0")?;
    let rules = BucketRules {
        reporting,
        unassigned: Strategy::AllowAll,
        expired: AtExpiry::Abandon,
        timeout: None,
    };
    let waiting = BucketState::new(at).asked(&rules, at, false).state;
    Ok(waiting.due(&rules, at))
}

#[test]
fn a_moment_beyond_64_bits_is_none(rt: HostRuntime) -> Result<(), Fail> {
    assert_eq!(rt; first_due(u64::MAX - 1_000)?, Some(u64::MAX));
    assert_eq!(rt; first_due(u64::MAX - 999)?, None);
    Ok(())
}
