use counter_cells::Spot;
use over_cache::{Known, MOST_KNOWN, OverCache};
use std::hash::RandomState;
use std::test::Fail;

fn spot(claim: u64) -> Spot {
    Spot { cell: 7, claim }
}

#[test]
fn the_greatest_value_of_a_claim_is_known(rt: HostRuntime) -> Result<(), Fail> {
    let mut cache = OverCache::make(rt.alloc(), RandomState::new(&rt)?)?;
    assert_eq!(rt; cache.known(b"a"), None);
    for (claim, seen, greatest) in [(1, 5, 5), (1, 3, 5), (1, 9, 9), (2, 4, 4), (1, 1, 1)] {
        cache.note(b"a", spot(claim), seen)?;
        let known = Known {
            spot: spot(claim),
            seen: greatest,
        };
        assert_eq!(rt; cache.known(b"a"), Some(known), "{seen} under {claim}");
    }
    assert_eq!(rt; cache.known(b"b"), None);
    assert_eq!(rt; cache.len(), 1);
    Ok(())
}

// A key for each number.
fn key(number: u64) -> [u8; 8] {
    number.to_be_bytes()
}

#[test]
fn the_keys_used_last_are_known(rt: HostRuntime) -> Result<(), Fail> {
    let mut cache = OverCache::make(rt.alloc(), RandomState::new(&rt)?)?;
    for number in 0..1024u64 {
        cache.note(&key(number), spot(number), number)?;
    }
    assert_eq!(rt; cache.len(), MOST_KNOWN);
    // A question and a note are uses, so that of these three the key in the middle goes.
    assert!(rt; cache.known(&key(0)).is_some());
    cache.note(&key(2), spot(2), 0)?;
    assert_eq!(rt; cache.known(&key(5000)), None);
    cache.note(&key(1024), spot(1024), 0)?;
    assert_eq!(rt; cache.len(), MOST_KNOWN);
    for (number, is_known) in [
        (0, true),
        (1, false),
        (2, true),
        (3, true),
        (1023, true),
        (1024, true),
    ] {
        assert_eq!(rt; cache.known(&key(number)).is_some(), is_known, "{number}");
    }
    Ok(())
}

#[test]
fn keys_of_any_length_differ_by_their_bytes(rt: HostRuntime) -> Result<(), Fail> {
    let mut cache = OverCache::make(rt.alloc(), RandomState::new(&rt)?)?;
    let long = [7; 66_700].to_vec(rt.alloc())?;
    for (claim, key) in [
        (0, b"".as_slice()),
        (1, b"\0"),
        (2, b"\0\0"),
        (3, long.as_slice()),
    ] {
        cache.note(key, spot(claim), claim)?;
    }
    assert_eq!(rt; cache.len(), 4);
    assert_eq!(rt; cache.known(b"\0").map(|known| known.seen), Some(1));
    assert_eq!(rt; cache.known(&long).map(|known| known.seen), Some(3));
    Ok(())
}
