use super::steps::{Step, moment, run};
use quota_buckets::Strategy;
use rate_types::Unit;
use std::test::Fail;

// Each request belongs to the bucket b, which an assignment that expires erases.
const PLAIN: &str =
    r#"{"domain":"q","buckets":[{"bucketIdBuilder":{"bucketIdBuilder":{"name":{"stringValue":"b"}}},"reportingInterval":"5s"}]}"#;

// The same, but an assignment that expires is followed by DENY_ALL.
const DENYING: &str =
    r#"{"domain":"q","buckets":[{"bucketIdBuilder":{"bucketIdBuilder":{"name":{"stringValue":"b"}}},"reportingInterval":"5s",
    "expiredAssignmentBehavior":{"fallbackRateLimit":{"blanketRule":"DENY_ALL"}}}]}"#;

// The same with reports each minute, and an assignment that expires goes on for 3 seconds.
const REUSING: &str =
    r#"{"domain":"q","buckets":[{"bucketIdBuilder":{"bucketIdBuilder":{"name":{"stringValue":"b"}}},"reportingInterval":"60s",
    "expiredAssignmentBehavior":{"expiredAssignmentBehaviorTimeout":"3s","reuseLastAssignment":{}}}]}"#;

fn per_second(count: u64) -> Strategy {
    Strategy::PerUnit {
        count,
        unit: Unit::Second,
    }
}

#[test]
fn intervals_begin_at_the_effect(rt: HostRuntime) -> Result<(), Fail> {
    let rows = [
        (
            0,
            Step::Request("b"),
            "allow b [b at 0 after 0: 1 allowed, 0 denied]",
        ),
        (500, Step::Assign("b", None, per_second(1)), "new"),
        (1_499, Step::Request("b"), "allow b"),
        (1_500, Step::Request("b"), "allow b"),
        (1_500, Step::Request("b"), "deny b"),
    ];
    run(&rt, rt.alloc(), PLAIN, &rows)
}

#[test]
fn an_equal_assignment_goes_on_counting(rt: HostRuntime) -> Result<(), Fail> {
    let rows = [
        (
            0,
            Step::Request("b"),
            "allow b [b at 0 after 0: 1 allowed, 0 denied]",
        ),
        (1_000, Step::Assign("b", Some(10_000), per_second(2)), "new"),
        (1_100, Step::Request("b"), "allow b"),
        (1_200, Step::Request("b"), "allow b"),
        (1_300, Step::Request("b"), "deny b"),
        (1_400, Step::SetUp(false), ""),
        (1_500, Step::SetUp(true), ""),
        (
            1_600,
            Step::Assign("b", Some(10_000), per_second(2)),
            "renewed",
        ),
        (1_700, Step::Request("b"), "deny b"),
    ];
    run(&rt, rt.alloc(), PLAIN, &rows)
}

#[test]
fn the_fallback_decides_after_expiry(rt: HostRuntime) -> Result<(), Fail> {
    let rows = [
        (
            0,
            Step::Request("b"),
            "allow b [b at 0 after 0: 1 allowed, 0 denied]",
        ),
        (1_000, Step::Assign("b", Some(0), Strategy::AllowAll), "new"),
        (1_000, Step::Request("b"), "deny b"),
        (2_000, Step::Abandon("b"), "abandoned"),
        (
            3_000,
            Step::Request("b"),
            "allow b [b at 3000 after 0: 1 allowed, 0 denied]",
        ),
        (2_000, Step::Wait, "before 3000"),
    ];
    run(&rt, rt.alloc(), DENYING, &rows)
}

#[test]
fn tokens_go_on_until_the_timeout(rt: HostRuntime) -> Result<(), Fail> {
    let tokens = Strategy::TokenBucket {
        max: 2,
        per_fill: 1,
        interval: moment(1_000)?,
    };
    let rows = [
        (
            0,
            Step::Request("b"),
            "allow b [b at 0 after 0: 1 allowed, 0 denied]",
        ),
        (1_000, Step::Assign("b", Some(2_000), tokens), "new"),
        (1_100, Step::Request("b"), "allow b"),
        (1_100, Step::Request("b"), "allow b"),
        (1_100, Step::Request("b"), "deny b"),
        (2_000, Step::Request("b"), "allow b"),
        (3_000, Step::Request("b"), "allow b"),
        (3_500, Step::Request("b"), "deny b"),
        (
            6_000,
            Step::Request("b"),
            "allow b [b at 6000 after 0: 1 allowed, 0 denied]",
        ),
    ];
    run(&rt, rt.alloc(), REUSING, &rows)
}

#[test]
fn an_assignment_lasts_to_its_expiry_and_no_longer(rt: HostRuntime) -> Result<(), Fail> {
    let rows = [
        (
            0,
            Step::Request("b"),
            "allow b [b at 0 after 0: 1 allowed, 0 denied]",
        ),
        (
            1_000,
            Step::Assign("b", Some(500), Strategy::AllowAll),
            "new",
        ),
        (1_499, Step::Request("b"), "allow b"),
        (1_500, Step::Request("b"), "deny b"),
        (1_600, Step::Assign("b", None, Strategy::AllowAll), "new"),
        (1_600, Step::Decide("b"), "allow"),
    ];
    run(&rt, rt.alloc(), DENYING, &rows)
}
