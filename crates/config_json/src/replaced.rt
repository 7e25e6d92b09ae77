ghost use Rattle.std.specs.Prelude.{◌≡◌, ◌≢◌, ◌≤◌, [], length};
ghost use Rattle.std.specs.List.{All};

use descriptor_tree::Texts;
use rate_types::Text;
use rate_types::limits::MOST_REPLACED;
use std::alloc::Global;
use std::marker::Model;

/// The names of the rules that a rule replaces: at most 32, and none of them empty.
#[derive(Drop)]
pub struct Replaced {
    names: Texts,
}

impl Model for Replaced {
    ghost use Rattle.std.specs.Prelude.{◌≢◌, ◌≤◌, ℕ, List, [], length};
    ghost use Rattle.std.specs.List.{All};
    ghost use Rattle.rate_types.specs.declared.limits.TheConstants.{MOST_REPLACED};

    ghost Value = { List (List ℕ) };

    ghost view = { λ r. r.names };

    ghost invariant = { λ r. (length r.names ≤ MOST_REPLACED) × All (λ n. n ≢ []) r.names };
}

impl Replaced {
    /// No names.
    pub fn none(alloc: Global) -> Replaced
        ensures { result ≡ [] }
    {
        Replaced {
            names: Texts::of(Vec::new(alloc)),
        }
    }

    /// These names.
    pub fn of(names: Vec<Text>) -> Replaced
        requires few { length names.items ≤ MOST_REPLACED }
        requires there { All (λ n. n ≢ []) names.items }
        ensures { result ≡ names.items }
    {
        Replaced {
            names: Texts::of(names),
        }
    }

    /// The names.
    pub fn names(&self) -> &[Text]
        ensures { result.now ≡ self.now }
    {
        self.names.items()
    }

    /// The names as a list of texts.
    pub fn into_texts(self) -> Texts
        ensures same { result ≡ self }
        ensures few { length self ≤ MOST_REPLACED }
        ensures there { All (λ n. n ≢ []) self }
    {
        self.names
    }
}
