ghost use Rattle.std.specs.Prelude.{◌≡◌, ◌≤◌, ◌<◌, ◌==◌, ◌↔◌, [], ℕ, length, string_bytes, IfOk, Err, IfSome, IfNone};
ghost use Rattle.std.proofs.Common.{rules};
ghost use Rattle.std.specs.Cmp.{partial_order_from_own_ties};
ghost use Rattle.std.specs.Cmp.Rules.{comparing};
ghost use Rattle.std.specs.Cmp.Lexicographic.{slice_cmp, pointwise};
ghost use Rattle.std.specs.Ordering.{nat_cmp, as_partial_cmp};
ghost use Rattle.rate_types.specs.declared.text.TextFault.TheVariants.{TooLong};
ghost use Rattle.rate_types.specs.Hashes.{text_writes, text_alike};

use crate::OutOfMemory;
use crate::limits::LONGEST_TEXT;
use crate::text_words::hash_bytes;
use arrayvec::ArrayString;
use std::alloc::{AllocError, Global};
use std::cmp::Ordering;
use std::hash::{Hash, Hasher};
use std::marker::Model;
use thiserror::Error;

/// Why a text isn't made.
#[derive(Clone, Copy, Debug, PartialEq, Eq, Error)]
pub enum TextFault {
    /// The text has `len` bytes, more than 1,024.
    #[error("{len} bytes, more than {LONGEST_TEXT}")]
    TooLong { len: u64 },
    /// There was no memory for its bytes.
    #[error("out of memory")]
    OutOfMemory,
}

/// The most bytes of a text that lie in the value itself.
const SHORT: usize = 16;

/// Where the bytes of a text lie: in the value itself, so that a short text takes no memory of its own, or apart.
#[derive(Drop)]
enum Held {
    Inside(ArrayString<SHORT>),
    Apart(String),
}

/// A text of at most 1,024 bytes, in UTF-8: a domain, a key, a value or a name. Texts are compared byte by byte.
#[derive(Drop)]
pub struct Text {
    held: Held,
}

impl Model for Text {
    ghost use Rattle.std.specs.Prelude.{◌≤◌, List, ℕ, length};
    ghost use Rattle.rate_types.specs.Texts.{held_bytes};
    ghost use Rattle.rate_types.specs.declared.limits.TheConstants.{LONGEST_TEXT};

    ghost Value = { List ℕ };

    ghost view = { λ t. held_bytes t.held };

    ghost invariant = { λ t. length (held_bytes t.held) ≤ LONGEST_TEXT };
}

impl Text {
    /// A copy of a text of at most 1,024 bytes.
    pub fn new(alloc: Global, text: &str) -> Result<Text, TextFault>
        ensures same { IfOk result (λ t. t ≡ text.now) }
        ensures too_long { (len : ℕ) → (result ≡ Err (TextFault.TooLong len))
            ↔ ((LONGEST_TEXT < length text.now) × (len ≡ length text.now)) }
    {
        if text.len() > LONGEST_TEXT {
            return Err(TextFault::TooLong {
                len: text.len() as u64,
            });
        }
        if let Ok(short) = ArrayString::from(text) {
            return Ok(Text {
                held: Held::Inside(short),
            });
        }
        match String::from_str(alloc, text) {
            Ok(text) => Ok(Text {
                held: Held::Apart(text),
            }),
            Err(_) => Err(TextFault::OutOfMemory),
        }
    }

    /// The empty text. It takes no memory.
    pub fn empty(alloc: Global) -> Text
        ensures { result ≡ [] }
    {
        Text {
            held: Held::Apart(String::new(alloc)),
        }
    }

    /// The text itself, where it isn't too long. It takes no memory.
    pub fn of(text: String) -> Option<Text>
        ensures same { IfSome result (λ t. (t ≡ string_bytes text) × (length (string_bytes text) ≤ LONGEST_TEXT)) }
        ensures too_long { IfNone result (LONGEST_TEXT < length (string_bytes text)) }
    {
        if text.len() > LONGEST_TEXT {
            return None;
        }
        match ArrayString::from(text.as_str()) {
            Ok(short) => Some(Text {
                held: Held::Inside(short),
            }),
            Err(_) => Some(Text {
                held: Held::Apart(text),
            }),
        }
    }

    /// The text as std has it.
    pub fn as_str(&self) -> &str
        ensures bytes { result.now ≡ self.now }
        ensures bound { length self.now ≤ LONGEST_TEXT }
    {
        match &self.held {
            Held::Inside(text) => text.as_str(),
            Held::Apart(text) => text.as_str(),
        }
    }

    /// An equal text.
    pub fn copy(&self) -> Result<Text, OutOfMemory>
        ensures { IfOk result (λ t. t ≡ self.now) }
    {
        Ok(self.clone()?)
    }
}

impl Clone for Text {
    ghost is_clone = { λ text copy. copy ≡ text };

    fn clone(&self) -> Result<Text, AllocError> {
        let held = match &self.held {
            Held::Inside(text) => Held::Inside(*text),
            Held::Apart(text) => Held::Apart(text.clone()?),
        };
        Ok(Text { held })
    }
}

impl PartialEq for Text {
    ghost eq = { pointwise ◌==◌ };

    ghost laws = { Prim.search (comparing, rules) };

    fn eq(&self, other: &Text) -> bool {
        self.as_str() == other.as_str()
    }
}

impl Eq for Text {
    ghost laws = { Prim.search (comparing, rules) };
}

impl Ord for Text {
    ghost cmp = { slice_cmp nat_cmp };

    ghost total = { Prim.search (comparing, rules) };

    ghost matches_partial_cmp = { Prim.search (comparing, rules) };

    ghost matches_eq = { Prim.search (comparing, rules) };

    fn cmp(&self, other: &Text) -> Ordering {
        self.as_str().cmp(other.as_str())
    }
}

impl PartialOrd for Text {
    ghost partial_cmp = { as_partial_cmp (slice_cmp nat_cmp) };

    ghost laws = { partial_order_from_own_ties (Prim.search (comparing, rules)) (Prim.search (comparing, rules)) };

    fn partial_cmp(&self, other: &Text) -> Option<Ordering> {
        Some(self.cmp(other))
    }
}

impl Hash for Text {
    ghost hash_input = { text_writes };

    ghost respects_eq = { text_alike.fed };

    fn hash<H: Hasher>(&self, state: &mut H) {
        hash_bytes(self.as_str().as_bytes(), state);
    }
}
