use super::steps::{Step, buckets_of, id_named, moment, named, run, value_of};
use quota_buckets::{Assigned, Buckets, Phase, Strategy};
use std::test::Fail;

// A request with the name `a` belongs to the bucket `first`, one with the name `c` to none, and each other to the
// bucket `b`. An assignment to `first` that expires is followed by DENY_ALL.
const TWO: &str = r#"{"domain":"q","buckets":[
{"match":{"name":"a"},"bucketIdBuilder":{"bucketIdBuilder":{"name":{"stringValue":"first"}}},"reportingInterval":"5s",
 "expiredAssignmentBehavior":{"fallbackRateLimit":{"blanketRule":"DENY_ALL"}}},
{"match":{"name":"b"},"bucketIdBuilder":{"bucketIdBuilder":{"name":{"attribute":"name"}}},"reportingInterval":"5s"}]}"#;

// Two settings that give one name. A bucket that the first of them makes denies all.
const ONE_NAME: &str = r#"{"domain":"q","buckets":[
{"match":{"name":"a"},"bucketIdBuilder":{"bucketIdBuilder":{"name":{"stringValue":"same"}}},"reportingInterval":"5s",
 "noAssignmentBehavior":{"fallbackRateLimit":{"blanketRule":"DENY_ALL"}}},
{"match":{"name":"b"},"bucketIdBuilder":{"bucketIdBuilder":{"name":{"stringValue":"same"}}},"reportingInterval":"5s"}]}"#;

#[test]
fn a_bucket_keeps_the_settings_that_made_it(rt: HostRuntime) -> Result<(), Fail> {
    let rows = [
        (
            0,
            Step::Request("a"),
            "deny same [same at 0 after 0: 0 allowed, 1 denied]",
        ),
        (0, Step::Request("b"), "deny same"),
        (1_000, Step::Abandon("same"), "abandoned"),
        (
            1_000,
            Step::Request("b"),
            "allow same [same at 1000 after 0: 1 allowed, 0 denied]",
        ),
        (1_000, Step::Request("a"), "allow same"),
    ];
    run(&rt, rt.alloc(), ONE_NAME, &rows)
}

fn needs_send<T: Send>() {}

/// Each worker owns the buckets of its streams.
fn crosses_threads() {
    needs_send::<Buckets>();
}

#[test]
fn a_request_without_settings_is_allowed(rt: HostRuntime) -> Result<(), Fail> {
    let rows = [
        (0, Step::Request("c"), "allow"),
        (0, Step::Decide("c"), "none"),
        (0, Step::Decide("first"), "none"),
        (
            0,
            Step::Request("a"),
            "allow first [first at 0 after 0: 1 allowed, 0 denied]",
        ),
        (0, Step::Decide("first"), "allow"),
        (0, Step::Assign("b", None, Strategy::DenyAll), "no bucket"),
        (0, Step::Assign("first", None, Strategy::DenyAll), "new"),
        (1_000, Step::Request("a"), "deny first"),
        (
            1_000,
            Step::Request("b"),
            "allow b [b at 1000 after 0: 1 allowed, 0 denied]",
        ),
    ];
    run(&rt, rt.alloc(), TWO, &rows)
}

#[test]
fn a_bucket_is_found_without_being_made(rt: HostRuntime) -> Result<(), Fail> {
    let alloc = rt.alloc();
    let buckets = buckets_of(&rt, alloc, TWO)?;
    for (name, want) in [("a", Some("first")), ("b", Some("b")), ("c", None)] {
        let found = buckets.find(&named(alloc, name)?)?;
        assert_eq!(rt; found.as_ref().map(|id| value_of(id)), want, "at {name}");
    }
    assert_eq!(rt; buckets.phase(&id_named(alloc, "first")?), Phase::None);
    Ok(())
}

#[test]
fn a_bucket_goes_through_its_phases(rt: HostRuntime) -> Result<(), Fail> {
    let alloc = rt.alloc();
    let mut buckets = buckets_of(&rt, alloc, TWO)?;
    let id = id_named(alloc, "first")?;
    let _first = buckets.request(&named(alloc, "a")?)?;
    assert_eq!(rt; buckets.phase(&id), Phase::NoAssignment);
    let assigned = buckets.assign(&id, Some(moment(2_000)?), Strategy::AllowAll);
    assert_eq!(rt; assigned, Ok(Assigned::New));
    let live = Phase::Live {
        strategy: Strategy::AllowAll,
        effect: moment(0)?,
    };
    assert_eq!(rt; buckets.phase(&id), live);
    let _sent = buckets.advance(moment(9_000)?)?;
    let expired = Phase::Expired {
        strategy: Strategy::DenyAll,
        effect: moment(2_000)?,
    };
    assert_eq!(rt; buckets.phase(&id), expired);
    assert_eq!(rt; buckets.abandon(&id), Ok(()));
    assert_eq!(rt; buckets.phase(&id), Phase::None);
    Ok(())
}
