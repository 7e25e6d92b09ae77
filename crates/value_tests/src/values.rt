mod durations;
mod orders;
mod values;

use rate_types::{Entries, Entry, Text};
use std::alloc::Global;
use std::test::Fail;

// Entries of one key and one value.
fn single(alloc: Global, key: &str, value: &str) -> Result<Entries, Fail> {
    let mut items = Vec::new(alloc);
    items.push(Entry {
        key: Text::new(alloc, key)?,
        value: Text::new(alloc, value)?,
    })?;
    Ok(Entries::build(items)?)
}
