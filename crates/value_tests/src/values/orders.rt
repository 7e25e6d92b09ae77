use super::single;
use rate_types::{CounterKey, CounterName, Entries, Entry, Seconds, Text, Unit};
use std::alloc::Global;
use std::cmp::Ordering;
use std::collections::HashSet;
use std::test::Fail;

fn counter(
    alloc: Global,
    domain: &str,
    key: &str,
    value: &str,
    unit: Unit,
    start: u64,
) -> Result<CounterKey, Fail> {
    let name = CounterName {
        domain: Text::new(alloc, domain)?,
        entries: single(alloc, key, value)?,
        unit,
    };
    Ok(CounterKey {
        name,
        start: Seconds::capped(start),
    })
}

#[test]
fn counters_go_by_domain_entries_unit_and_start(rt: HostRuntime) -> Result<(), Fail> {
    let alloc = rt.alloc();
    let mut counters = Vec::new(alloc);
    for (domain, key, value, unit, start) in [
        ("", "b", "b", Unit::Day, 86_400),
        ("Z", "b", "b", Unit::Day, 86_400),
        ("a", "a", "z", Unit::Day, 86_400),
        ("a", "b", "", Unit::Second, 5),
        ("a", "b", "", Unit::Second, 10),
        ("a", "b", "", Unit::Minute, 0),
        ("a", "b", "", Unit::Hour, 0),
        ("a", "b", "", Unit::Day, 0),
        ("a", "b", "a", Unit::Second, 0),
        ("a", "ba", "", Unit::Second, 0),
        ("aa", "a", "", Unit::Second, 0),
        ("é", "a", "", Unit::Second, 0),
    ] {
        counters.push(counter(alloc, domain, key, value, unit, start)?)?;
    }
    for (i, one) in counters.iter().enumerate() {
        for (j, other) in counters.iter().enumerate() {
            assert_eq!(rt; one.cmp(other), i.cmp(&j), "{i} and {j}");
            assert_eq!(rt; one == other, i == j, "{i} and {j}");
        }
        assert!(rt; one.copy()? == *one, "at {i}");
    }
    Ok(())
}

#[test]
fn entries_go_item_by_item(rt: HostRuntime) -> Result<(), Fail> {
    let alloc = rt.alloc();
    let one = single(alloc, "a", "b")?;
    let mut items = Vec::new(alloc);
    items.push(Entry {
        key: Text::new(alloc, "a")?,
        value: Text::new(alloc, "b")?,
    })?;
    items.push(Entry {
        key: Text::new(alloc, "0")?,
        value: Text::new(alloc, "0")?,
    })?;
    let both = Entries::build(items)?;
    let other = single(alloc, "a", "c")?;
    assert_eq!(rt; one.cmp(&both), Ordering::Less);
    assert_eq!(rt; both.cmp(&other), Ordering::Less);
    assert!(rt; one != both);
    Ok(())
}

#[test]
fn equal_names_are_one_member_of_a_set(rt: HostRuntime) -> Result<(), Fail> {
    let alloc = rt.alloc();
    let mut names = HashSet::new(alloc);
    for (key, value, unit) in [
        ("k", "a", Unit::Minute),
        ("k", "a", Unit::Minute),
        ("ka", "", Unit::Minute),
        ("k", "a", Unit::Hour),
    ] {
        names.insert(counter(alloc, "d", key, value, unit, 0)?.name)?;
    }
    assert_eq!(rt; names.len(), 3);
    Ok(())
}
