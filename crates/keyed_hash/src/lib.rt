//! A fast hash of keys that clients choose.
//!
//! A [`KeyedState`] is what `std::hash::RandomState` is to a map: it makes the hasher of each key, by two secrets of 64 bits. A
//! [`KeyedHasher`] joins each word of eight bytes to its state by xor, multiplies what that makes by the secret factor to 128 bits, and joins
//! the halves of the product by xor. That is one multiplication a word and one at the end, where `RandomState` takes a round of SipHash for
//! each and four more at the end.
//!
//! The promise (`specs/KeyedHash.antt`): the hash is that function of the secrets and of what is written. So equal keys have equal hashes.
//!
//! The limits: whoever knows neither secret can't say which keys collide, as with the hashes of Go's maps, but nothing is proved of that; nor is
//! a hash fit to sign or to compare data by. The secrets are drawn by SipHash from a seed, and never shown.
#![tactic(auto)]

mod hasher;
mod state;
mod words;

pub use hasher::KeyedHasher;
pub use state::KeyedState;
pub use words::word_at;
