use super::steps::{Step, run};
use quota_buckets::Strategy;
use std::test::Fail;

// The attribute `name` names the bucket, which reports each 5 seconds. An assignment that expires erases it.
const EACH: &str =
    r#"{"domain":"q","buckets":[{"bucketIdBuilder":{"bucketIdBuilder":{"name":{"attribute":"name"}}},"reportingInterval":"5s"}]}"#;

#[test]
fn usage_is_reported_once(rt: HostRuntime) -> Result<(), Fail> {
    let rows = [
        (
            1_000,
            Step::Request("b"),
            "allow b [b at 1000 after 0: 1 allowed, 0 denied]",
        ),
        (1_500, Step::Request("b"), "allow b"),
        (2_000, Step::Assign("b", None, Strategy::DenyAll), "new"),
        (5_999, Step::Request("b"), "deny b"),
        (
            6_000,
            Step::Request("b"),
            "[b at 6000 after 5000: 1 allowed, 1 denied] deny b",
        ),
        (6_000, Step::Request("b"), "deny b"),
        (
            30_000,
            Step::Wait,
            "[b at 11000 after 5000: 0 allowed, 2 denied]",
        ),
        (31_000, Step::Request("b"), "deny b"),
        (
            36_000,
            Step::Wait,
            "[b at 36000 after 25000: 0 allowed, 1 denied]",
        ),
    ];
    run(&rt, rt.alloc(), EACH, &rows)
}

#[test]
fn reports_come_by_moment_and_then_by_age(rt: HostRuntime) -> Result<(), Fail> {
    let rows = [
        (
            0,
            Step::Request("c"),
            "allow c [c at 0 after 0: 1 allowed, 0 denied]",
        ),
        (
            1_000,
            Step::Request("b"),
            "allow b [b at 1000 after 0: 1 allowed, 0 denied]",
        ),
        (
            1_000,
            Step::Request("a"),
            "allow a [a at 1000 after 0: 1 allowed, 0 denied]",
        ),
        (2_000, Step::Request("a"), "allow a"),
        (2_000, Step::Request("b"), "allow b"),
        (5_000, Step::Request("c"), "allow c"),
        (
            10_000,
            Step::Wait,
            "[b at 6000 after 5000: 1 allowed, 0 denied] \
             [a at 6000 after 5000: 1 allowed, 0 denied] [c at 10000 after 10000: 1 allowed, 0 denied]",
        ),
    ];
    run(&rt, rt.alloc(), EACH, &rows)
}

#[test]
fn usage_waits_while_the_stream_is_lost(rt: HostRuntime) -> Result<(), Fail> {
    let rows = [
        (0, Step::SetUp(false), ""),
        (1_000, Step::Request("b"), "allow b"),
        (6_000, Step::Request("b"), "allow b"),
        (7_000, Step::SetUp(true), ""),
        (8_000, Step::Request("b"), "allow b"),
        (
            11_000,
            Step::Request("b"),
            "[b at 11000 after 10000: 3 allowed, 0 denied] allow b",
        ),
        (15_999, Step::SetUp(false), ""),
        (16_000, Step::SetUp(true), ""),
        (
            21_000,
            Step::Wait,
            "[b at 21000 after 10000: 1 allowed, 0 denied]",
        ),
    ];
    run(&rt, rt.alloc(), EACH, &rows)
}

#[test]
fn an_erased_bucket_reports_nothing(rt: HostRuntime) -> Result<(), Fail> {
    let rows = [
        (
            0,
            Step::Request("b"),
            "allow b [b at 0 after 0: 1 allowed, 0 denied]",
        ),
        (
            1_000,
            Step::Assign("b", Some(4_000), Strategy::AllowAll),
            "new",
        ),
        (2_000, Step::Request("b"), "allow b"),
        (5_000, Step::Decide("b"), "none"),
        (
            5_000,
            Step::Request("b"),
            "allow b [b at 5000 after 0: 1 allowed, 0 denied]",
        ),
        (6_000, Step::Request("b"), "allow b"),
        (7_000, Step::Abandon("b"), "abandoned"),
        (20_000, Step::Wait, ""),
        (20_000, Step::Abandon("b"), "no bucket"),
        (
            20_000,
            Step::Assign("b", None, Strategy::AllowAll),
            "no bucket",
        ),
    ];
    run(&rt, rt.alloc(), EACH, &rows)
}
