ghost use Rattle.std.specs.Prelude.{◌≡◌, Some, None, if◌then◌else◌, OnOk};
ghost use Rattle.std.specs.Option.{option_or};
ghost use Rattle.indexmap.specs.IndexMap.{get};

use indexmap::IndexMap;
use rate_types::OutOfMemory;
use std::hash::Hash;

/// Gives a key a value, unless it has one.
pub fn put<K: Eq + Hash + Drop, V: Drop>(
    map: &mut IndexMap<K, V>,
    key: K,
    value: V,
) -> Result<(), OutOfMemory>
    ensures { OnOk result ((k : K) → get K.eq map.new k
        ≡ option_or (get K.eq map.old k) (if K.eq key k then Some value else None)) }
{
    if map.contains_key(&key) {
        return Ok(());
    }
    map.insert(key, value)?;
    Ok(())
}
