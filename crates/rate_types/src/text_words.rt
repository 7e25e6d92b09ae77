// How a text is hashed: in words of eight bytes, since std hashes what doesn't fill one byte by byte.
ghost use Rattle.std.specs.Prelude.{◌≡◌, ◌≤◌, ◌<◌, length, slice_index_or};
ghost use Rattle.std.specs.List.{fold};
ghost use Rattle.rate_types.specs.Hashes.{short_word, long_word, long_writes, text_writes};

use keyed_hash::word_at;
use std::hash::Hasher;

/// How many bytes a word has.
const IN_WORD: usize = 8;

/// A byte of a text, or 0 behind its end.
fn byte_at(bytes: &[u8], index: usize) -> u8
    ensures { result ≡ slice_index_or bytes.now index 0 }
{
    match bytes.get(index) {
        Some(byte) => *byte,
        None => 0,
    }
}

/// The number of a text's bytes, less than eight, and these bytes.
fn short_word(bytes: &[u8]) -> u64
    requires { length bytes.now < IN_WORD }
    ensures { result ≡ short_word bytes.now }
{
    u64::from_le_bytes([
        bytes.len() as u8,
        byte_at(bytes, 0),
        byte_at(bytes, 1),
        byte_at(bytes, 2),
        byte_at(bytes, 3),
        byte_at(bytes, 4),
        byte_at(bytes, 5),
        byte_at(bytes, 6),
    ])
}

/// What a text of eight bytes or more begins with: a number that is no shorter text's length, and its own length in two bytes.
fn long_word(len: usize) -> u64
    ensures { result ≡ long_word len }
{
    u64::from_le_bytes([
        IN_WORD as u8,
        (len % 256) as u8,
        (len / 256 % 256) as u8,
        0,
        0,
        0,
        0,
        0,
    ])
}

/// Hashes a text of eight bytes or more. Its last eight bytes are a word, some of which may stand in the word before as well.
fn hash_long<H: Hasher>(bytes: &[u8], state: &mut H)
    requires { IN_WORD ≤ length bytes.now }
    ensures { state.new ≡ fold H.write state.old (long_writes bytes.now) }
{
    let len = bytes.len();
    state.write_u64(long_word(len));
    let (whole, _) = bytes.split_at(len - len % IN_WORD);
    state.write(whole);
    state.write_u64(word_at(bytes, len - IN_WORD));
}

/// Hashes the bytes of a text. Their number comes first, so that texts behind one another aren't hashed as others of the
/// same bytes.
pub(crate) fn hash_bytes<H: Hasher>(bytes: &[u8], state: &mut H)
    ensures { state.new ≡ fold H.write state.old (text_writes bytes.now) }
{
    if bytes.len() < IN_WORD {
        state.write_u64(short_word(bytes));
    } else {
        hash_long(bytes, state);
    }
}
