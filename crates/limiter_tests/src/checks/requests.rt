use rate_types::{Descriptor, Entries, Entry, Request, Text};
use std::alloc::Global;
use std::test::Fail;

// The entries of one key and one value.
fn entries(alloc: Global, key: &str, value: &str) -> Result<Entries, Fail> {
    let mut entries = Vec::with_capacity(alloc, 1)?;
    entries.push_reserved(Entry {
        key: Text::new(alloc, key)?,
        value: Text::new(alloc, value)?,
    });
    Ok(Entries::build(entries)?)
}

// The descriptor of a word: a key, `=` and a value, and where it has hits of its own a `:` and their number.
fn descriptor(alloc: Global, word: &str) -> Result<Descriptor, Fail> {
    let (pair, hits) = match word.split_once(":") {
        Some((pair, hits)) => (pair, Some(hits.parse::<u32>()?)),
        None => (word, None),
    };
    let (key, value) = pair.split_once("=").ok_or("a key and a value")?;
    Ok(Descriptor {
        entries: entries(alloc, key, value)?,
        own: None,
        hits,
    })
}

/// The request of one hit with a descriptor for each of these words.
pub fn request(alloc: Global, words: &str) -> Result<Request, Fail> {
    let mut descriptors = Vec::new(alloc);
    for word in words.split(" ") {
        descriptors.push(descriptor(alloc, word)?)?;
    }
    Ok(Request::build(Text::new(alloc, "d")?, descriptors, 1)?)
}
