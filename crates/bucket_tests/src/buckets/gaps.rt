// Buckets that are made and abandoned again and again.
use super::steps::{buckets_of, id_named, moment, named, value_of};
use quota_buckets::{Buckets, NoBucket, Phase};
use std::alloc::Global;
use std::test::Fail;

// Each name is a bucket.
const EACH: &str = r#"{"domain":"q","buckets":[
{"bucketIdBuilder":{"bucketIdBuilder":{"name":{"attribute":"name"}}},"reportingInterval":"5s"}]}"#;

fn make(alloc: Global, buckets: &mut Buckets, from: u32, to: u32) -> Result<(), Fail> {
    for number in from..to {
        let name = format!(in alloc; "{number}")?;
        let _made = buckets.request(&named(alloc, &name)?)?;
    }
    Ok(())
}

fn abandon(
    alloc: Global,
    buckets: &mut Buckets,
    from: u32,
    to: u32,
) -> Result<Result<(), NoBucket>, Fail> {
    let mut all = Ok(());
    for number in from..to {
        let name = format!(in alloc; "{number}")?;
        let one = buckets.abandon(&id_named(alloc, &name)?);
        all = all.and(one);
    }
    Ok(all)
}

// The names of the buckets that report at a moment, in order.
fn reported(alloc: Global, buckets: &mut Buckets, at: u64) -> Result<String, Fail> {
    let mut names = String::new(alloc);
    for report in buckets
        .advance(moment(at)?)
        .ok()
        .ok_or("a later moment")?
        .items()
    {
        names.push_str(value_of(&report.bucket))?;
        names.push(' ')?;
    }
    Ok(names)
}

#[test]
fn buckets_keep_their_order_where_others_were_abandoned(rt: HostRuntime) -> Result<(), Fail> {
    let alloc = rt.alloc();
    let mut buckets = buckets_of(&rt, alloc, EACH)?;
    make(alloc, &mut buckets, 0, 40)?;
    assert_eq!(rt; abandon(alloc, &mut buckets, 1, 39)?, Ok(()));
    make(alloc, &mut buckets, 40, 120)?;
    assert_eq!(rt; abandon(alloc, &mut buckets, 41, 119)?, Ok(()));
    assert_eq!(rt; buckets.phase(&id_named(alloc, "5")?), Phase::None);
    assert_eq!(rt; buckets.phase(&id_named(alloc, "39")?), Phase::NoAssignment);
    for name in ["119", "40", "39", "0"] {
        assert_eq!(rt; buckets.decide(&id_named(alloc, name)?), Some(true));
    }
    let names = reported(alloc, &mut buckets, 5_000)?;
    assert_eq!(rt; names.as_str(), "0 39 40 119 ");
    Ok(())
}
