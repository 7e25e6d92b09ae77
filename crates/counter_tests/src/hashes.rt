use keyed_hash::KeyedState;
use rate_types::{Entry, Text};
use std::alloc::Global;
use std::hash::{BuildHasher, Hash, Hasher, RandomState};
use std::test::Fail;

fn hash(state: &KeyedState, bytes: &[u8]) -> u64 {
    let mut hasher = state.build_hasher();
    hasher.write(bytes);
    hasher.finish()
}

// The first so many bytes, or all where they are fewer.
fn first(bytes: &[u8], len: usize) -> &[u8] {
    if len <= bytes.len() {
        &bytes[..len]
    } else {
        bytes
    }
}

#[test]
fn equal_bytes_hash_alike(rt: HostRuntime) -> Result<(), Fail> {
    let seed = RandomState::new(&rt)?;
    let bytes = b"descriptors of a request";
    let first = KeyedState::of(&seed);
    let again = KeyedState::of(&seed);
    assert_eq!(rt; hash(&first, bytes), hash(&again, bytes));
    let other = KeyedState::of(&RandomState::new(&rt)?);
    assert_ne!(rt; hash(&first, bytes), hash(&other, bytes));
    Ok(())
}

#[test]
fn each_byte_counts(rt: HostRuntime) -> Result<(), Fail> {
    let state = KeyedState::of(&RandomState::new(&rt)?);
    let zeros = [0u8; 40];
    for len in 1..zeros.len() {
        let plain = hash(&state, first(&zeros, len));
        for place in 0..len {
            let mut bytes = zeros;
            bytes[place] = 1;
            assert_ne!(rt;
                hash(&state, first(&bytes, len)),
                plain,
                "byte {place} of {len}"
            );
        }
    }
    Ok(())
}

// As many keys as places: hashes that are as good as drawn fill 63 of 100 places, and each of the 128 beginnings that a table tells keys by.
#[test]
fn hashes_of_like_keys_spread(rt: HostRuntime) -> Result<(), Fail> {
    let state = KeyedState::of(&RandomState::new(&rt)?);
    let mut places = [false; 4096];
    let mut beginnings = [false; 128];
    for number in 0..4096u32 {
        let key = format!(in rt.alloc(); "domain/user{number}")?;
        let hash = hash(&state, key.as_bytes());
        places[(hash % 4096) as usize] = true;
        beginnings[(hash / 0x0200_0000_0000_0000 % 128) as usize] = true;
    }
    let mut filled = 0u32;
    for is_filled in places {
        if is_filled && filled < 4096 {
            filled += 1;
        }
    }
    assert!(rt; filled > 2300, "{filled} of 4096 places");
    for is_met in beginnings {
        assert!(rt; is_met);
    }
    Ok(())
}

fn hash_of_entry(state: &KeyedState, alloc: Global, key: &str, value: &str) -> Result<u64, Fail> {
    let entry = Entry {
        key: Text::new(alloc, key)?,
        value: Text::new(alloc, value)?,
    };
    let mut hasher = state.build_hasher();
    entry.hash(&mut hasher);
    Ok(hasher.finish())
}

// The words of the two entries would be the same if a long text began with its length alone, as a short one does.
#[test]
fn a_long_key_is_no_short_one_and_a_value(rt: HostRuntime) -> Result<(), Fail> {
    let alloc = rt.alloc();
    let state = KeyedState::of(&RandomState::new(&rt)?);
    let zeros = "\0".repeat(alloc, 256)?;
    let long = format!(in alloc; "\0\u{1}{}", &zeros[..255])?;
    assert_ne!(rt;
        hash_of_entry(&state, alloc, &long, "")?,
        hash_of_entry(&state, alloc, "\u{1}", &zeros)?
    );
    Ok(())
}
