use super::single;
use rate_types::{
    Blob, Blobs, Descriptor, Entries, EntriesFault, Entry, Millis, Names, Place, Request,
    RequestFault, Seconds, Text, TextFault, Unit, Word,
};
use std::alloc::Global;
use std::test::Fail;

#[test]
fn numbers_are_at_most_their_bounds(rt: HostRuntime) {
    for (value, is_within, capped) in [
        (0, true, 0),
        (1_000_000_000_000, true, 1_000_000_000_000),
        (1_000_000_000_001, false, 1_000_000_000_000),
        (u64::MAX, false, 1_000_000_000_000),
    ] {
        assert_eq!(rt;
            Seconds::new(value).map(Seconds::get),
            is_within.then_some(value)
        );
        assert_eq!(rt;
            Millis::new(value).map(Millis::get),
            is_within.then_some(value)
        );
        assert_eq!(rt; Seconds::capped(value).get(), capped, "at {value}");
    }
    for (unit, seconds, rank) in [
        (Unit::Second, 1, 0),
        (Unit::Minute, 60, 1),
        (Unit::Hour, 3600, 2),
        (Unit::Day, 86_400, 3),
    ] {
        assert_eq!(rt; unit.seconds(), seconds);
        assert_eq!(rt; unit.rank(), rank);
    }
}

#[test]
fn texts_have_at_most_1024_bytes(rt: HostRuntime) -> Result<(), Fail> {
    let alloc = rt.alloc();
    for (character, count, bytes) in [("x", 0, 0), ("x", 1024, 1024), ("é", 512, 1024)] {
        let long = character.repeat(alloc, count)?;
        let text = Text::new(alloc, &long)?;
        assert_eq!(rt; text.as_str().len(), bytes);
        assert_eq!(rt; text.copy()?.as_str(), long.as_str());
        assert!(rt; Text::of(long).is_some());
    }
    for (character, count, len) in [("x", 1025, 1025), ("é", 513, 1026)] {
        let long = character.repeat(alloc, count)?;
        match Text::new(alloc, &long) {
            Err(fault) => assert_eq!(rt; fault, TextFault::TooLong { len }),
            Ok(_) => assert!(rt; false, "{len} bytes are a text"),
        }
        assert!(rt; Text::of(long).is_none());
    }
    assert_eq!(rt; Text::empty(alloc).as_str(), "");
    Ok(())
}

// So many entries, of which those at two places have empty keys.
fn many_entries(alloc: Global, count: u32, empty: u32, other: u32) -> Result<Vec<Entry>, Fail> {
    let mut items = Vec::new(alloc);
    for i in 0..count {
        let key = if i == empty || i == other { "" } else { "k" };
        items.push(Entry {
            key: Text::new(alloc, key)?,
            value: Text::empty(alloc),
        })?;
    }
    Ok(items)
}

#[test]
fn entries_are_refused_in_order(rt: HostRuntime) -> Result<(), Fail> {
    let alloc = rt.alloc();
    for (count, empty, other, want) in [
        (0, 99, 99, Some(EntriesFault::NoEntries)),
        (1, 99, 99, None),
        (1, 0, 99, Some(EntriesFault::EmptyKey { index: 0 })),
        (32, 99, 99, None),
        (32, 5, 7, Some(EntriesFault::EmptyKey { index: 5 })),
        (32, 31, 99, Some(EntriesFault::EmptyKey { index: 31 })),
        (33, 99, 99, Some(EntriesFault::TooMany { count: 33 })),
        (33, 5, 7, Some(EntriesFault::TooMany { count: 33 })),
    ] {
        match Entries::build(many_entries(alloc, count, empty, other)?) {
            Ok(entries) => {
                assert_eq!(rt; want, None, "{count} entries");
                assert_eq!(rt; entries.items().len(), count as usize);
                assert!(rt; entries.copy()? == entries);
            }
            Err(fault) => assert_eq!(rt; Some(fault), want, "{count} entries"),
        }
    }
    Ok(())
}

#[test]
fn one_entry_is_as_in_a_list(rt: HostRuntime) -> Result<(), Fail> {
    let alloc = rt.alloc();
    for (key, want) in [("k", None), ("", Some(EntriesFault::EmptyKey { index: 0 }))] {
        let entry = Entry {
            key: Text::new(alloc, key)?,
            value: Text::new(alloc, "a")?,
        };
        match Entries::one(entry) {
            Ok(entries) => {
                assert_eq!(rt; want, None);
                assert!(rt; entries == single(alloc, key, "a")?);
                assert!(rt; entries.copy()? == entries);
            }
            Err(fault) => assert_eq!(rt; Some(fault), want),
        }
    }
    Ok(())
}

#[test]
fn one_descriptor_is_as_in_a_list(rt: HostRuntime) -> Result<(), Fail> {
    let alloc = rt.alloc();
    for (domain, want) in [("d", None), ("", Some(RequestFault::EmptyDomain))] {
        let descriptor = Descriptor {
            entries: single(alloc, "k", "a")?,
            own: None,
            hits: Some(3),
        };
        match Request::one(Text::new(alloc, domain)?, descriptor, 0) {
            Ok(request) => {
                assert_eq!(rt; want, None);
                assert_eq!(rt; request.descriptors().len(), 1);
                assert_eq!(rt; request.descriptors()[0].hits, Some(3));
                assert_eq!(rt; request.hits(), 1);
            }
            Err(fault) => assert_eq!(rt; Some(fault), want),
        }
    }
    Ok(())
}

#[test]
fn requests_are_refused_in_order(rt: HostRuntime) -> Result<(), Fail> {
    let alloc = rt.alloc();
    for (domain, count, want) in [
        ("", 0, Some(RequestFault::EmptyDomain)),
        ("", 33, Some(RequestFault::EmptyDomain)),
        ("d", 0, Some(RequestFault::NoDescriptors)),
        ("d", 1, None),
        ("d", 32, None),
        ("d", 33, Some(RequestFault::TooMany { count: 33 })),
    ] {
        let mut descriptors = Vec::new(alloc);
        for _ in 0..count {
            descriptors.push(Descriptor {
                entries: single(alloc, "k", "a")?,
                own: None,
                hits: None,
            })?;
        }
        match Request::build(Text::new(alloc, domain)?, descriptors, 0) {
            Ok(request) => {
                assert_eq!(rt; want, None, "{count} descriptors");
                assert_eq!(rt; request.domain().as_str(), domain);
                assert_eq!(rt; request.descriptors().len(), count);
                assert_eq!(rt; request.hits(), 1);
            }
            Err(fault) => assert_eq!(rt; Some(fault), want, "{count} descriptors"),
        }
    }
    Ok(())
}

#[test]
fn places_are_json_pointers(rt: HostRuntime) -> Result<(), Fail> {
    let alloc = rt.alloc();
    let whole = Place::empty(alloc);
    assert_eq!(rt; whole.as_str(), "");
    for (name, want) in [
        ("foo", "/foo/0"),
        ("", "//0"),
        ("a/b", "/a~1b/0"),
        ("m~n", "/m~0n/0"),
        ("~1", "/~01/0"),
        ("é", "/é/0"),
    ] {
        let place = whole.child(name)?.item(alloc, 0)?;
        assert_eq!(rt; place.as_str(), want);
    }
    let last = whole.item(alloc, u64::MAX)?;
    assert_eq!(rt; last.as_str(), "/18446744073709551615");
    Ok(())
}

#[test]
fn lists_of_words_and_of_bytes_are_kept(rt: HostRuntime) -> Result<(), Fail> {
    let alloc = rt.alloc();
    let mut words = Vec::new(alloc);
    words.push(Word::of(String::from_str(alloc, "drive")?))?;
    let words = Names::of(words);
    assert_eq!(rt; words.items().len(), 1);
    assert_eq!(rt; words.items()[0].as_str(), "drive");
    let mut blobs = Vec::new(alloc);
    blobs.push(Blob::of(Vec::from_slice(alloc, b"{}")?))?;
    let blobs = Blobs::of(blobs);
    assert_eq!(rt; blobs.items().len(), 1);
    assert_eq!(rt; blobs.items()[0].bytes(), b"{}".as_slice());
    Ok(())
}
