use rate_types::{Descriptor, Entries, Entry, Seconds, Text, Unit};
use std::alloc::Global;
use std::test::Fail;
use window_keys::{KeyBuffer, counter_at, end, end_of, reset, start, write_key};

#[test]
fn windows_start_at_multiples_of_their_length(rt: HostRuntime) {
    for (unit, moment, starts, ends, left) in [
        (Unit::Minute, 65, 60, 120, 55),
        (Unit::Minute, 59, 0, 60, 1),
        (Unit::Minute, 60, 60, 120, 60),
        (Unit::Second, 7, 7, 8, 1),
        (Unit::Hour, 3599, 0, 3600, 1),
        (Unit::Day, 0, 0, 86_400, 86_400),
        (
            Unit::Day,
            1_000_000_000_000,
            999_999_993_600,
            1_000_000_080_000,
            80_000,
        ),
    ] {
        let at = Seconds::capped(moment);
        assert_eq!(rt; start(unit, at), starts, "at {moment}");
        assert_eq!(rt; end(unit, at), ends, "at {moment}");
        assert_eq!(rt; reset(unit, at), left, "at {moment}");
    }
}

// One entry after the other: a key and a value.
fn entries(alloc: Global, texts: &[(&str, &str)]) -> Result<Entries, Fail> {
    let mut items = Vec::new(alloc);
    for (key, value) in texts {
        items.push(Entry {
            key: Text::new(alloc, key)?,
            value: Text::new(alloc, value)?,
        })?;
    }
    Ok(Entries::build(items)?)
}

#[test]
fn a_counter_has_the_window_of_its_moment(rt: HostRuntime) -> Result<(), Fail> {
    let alloc = rt.alloc();
    let domain = Text::new(alloc, "d")?;
    let descriptor = Descriptor {
        entries: entries(alloc, &[("k", "a")])?,
        own: None,
        hits: None,
    };
    let counter = counter_at(&domain, &descriptor, Unit::Minute, Seconds::capped(65))?;
    assert_eq!(rt; counter.name.domain.as_str(), "d");
    assert_eq!(rt; counter.start.get(), 60);
    assert_eq!(rt; end_of(&counter), 120);
    Ok(())
}

#[test]
fn a_key_replaces_the_one_before(rt: HostRuntime) -> Result<(), Fail> {
    let alloc = rt.alloc();
    let domain = Text::new(alloc, "d")?;
    let mut key = KeyBuffer::new();
    let long = entries(alloc, &[("message_type", "marketing"), ("to", "1")])?;
    write_key(&domain, &long, Unit::Day, 0, &mut key);
    assert_eq!(rt; key.len(), 3 + 1 + 8 + 1 + 25 + 7);
    let short = entries(alloc, &[("k", "ab")])?;
    write_key(&domain, &short, Unit::Minute, 66_051, &mut key);
    assert_eq!(rt;
        key.as_slice(),
        b"\x00\x01d\x01\x00\x00\x00\x00\x00\x01\x02\x03\x01\x00\x01k\x00\x02ab".as_slice()
    );
    Ok(())
}

#[test]
fn texts_that_join_alike_have_different_keys(rt: HostRuntime) -> Result<(), Fail> {
    let alloc = rt.alloc();
    let domain = Text::new(alloc, "d")?;
    let mut one = KeyBuffer::new();
    let mut other = KeyBuffer::new();
    write_key(
        &domain,
        &entries(alloc, &[("a_b", "c")])?,
        Unit::Minute,
        0,
        &mut one,
    );
    write_key(
        &domain,
        &entries(alloc, &[("a", "b_c")])?,
        Unit::Minute,
        0,
        &mut other,
    );
    assert_eq!(rt; one.len(), other.len());
    assert!(rt; one.as_slice() != other.as_slice());
    Ok(())
}

#[test]
fn the_longest_key_fits(rt: HostRuntime) -> Result<(), Fail> {
    let alloc = rt.alloc();
    let long = "x".repeat(alloc, 1024)?;
    let domain = Text::new(alloc, &long)?;
    let mut items = Vec::new(alloc);
    for _ in 0..32 {
        items.push(Entry {
            key: Text::new(alloc, &long)?,
            value: Text::new(alloc, &long)?,
        })?;
    }
    let mut key = KeyBuffer::new();
    write_key(
        &domain,
        &Entries::build(items)?,
        Unit::Day,
        1_000_000_000_000,
        &mut key,
    );
    assert_eq!(rt; key.len(), 66_700);
    Ok(())
}
