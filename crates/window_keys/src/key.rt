ghost use Rattle.std.specs.Prelude.{◌≡◌, ◌≤◌, ℕ, ◌+◌, List, ◌++◌, length};
ghost use Rattle.arrayvec.specs.ArrayVec.{array_vec_len};
ghost use Rattle.rate_types.specs.declared.entries.Entry.{Entry as EntryValue};
ghost use Rattle.rate_types.specs.declared.unit.Unit.{Unit as UnitValue};
ghost use Rattle.window_keys.specs.Key.{sized, key_bytes};

use arrayvec::ArrayVec;
use rate_types::{Entries, Text, Unit};

/// Room for the key of any counter: the longest key has 66,700 bytes.
pub type KeyBuffer = ArrayVec<u8, 66_700>;

/// Replaces the content of `out` by the key of a counter, of which `start` is the start of the window in seconds.
///
/// The key is the length of the domain in two bytes, the domain, the unit as 0 to 3, the start in eight bytes, the
/// number of entries in one byte, and for each entry its key and its value, each behind its length in two bytes.
/// Numbers are big-endian. Different counters have different keys. It takes no memory.
pub fn write_key(domain: &Text, entries: &Entries, unit: Unit, start: u64, out: &mut KeyBuffer)
    ensures bytes { out.new.items ≡ key_bytes domain.now entries.now unit start }
    ensures of_no_other { (d : List ℕ) (es : List EntryValue) (u : UnitValue) (s : ℕ) → key_bytes d es u s ≡ out.new.items
        → (d ≡ domain.now) × (es ≡ entries.now) × (u ≡ unit) × (s ≡ start) }
{
    let items = entries.items();
    out.clear();
    append_text(out, domain);
    out.push(unit.rank());
    append(out, &start.to_be_bytes());
    out.push(items.len() as u8);
    for entry in items {
        append_text(out, &entry.key);
        append_text(out, &entry.value);
    }
}

/// Appends a text behind its length.
fn append_text(out: &mut KeyBuffer, text: &Text)
    requires room { array_vec_len out.old + 1026 ≤ 66700 }
    ensures items { out.new.items ≡ out.old.items ++ sized text.now }
    ensures growth { array_vec_len out.new ≤ array_vec_len out.old + 1026 }
{
    let bytes = text.as_str().as_bytes();
    append(out, &(bytes.len() as u16).to_be_bytes());
    append(out, bytes);
}

fn append(out: &mut KeyBuffer, bytes: &[u8])
    requires { array_vec_len out.old + length bytes.now ≤ 66700 }
    ensures { out.new.items ≡ out.old.items ++ bytes.now }
{
    out.try_extend_from_slice(bytes).unwrap();
}
