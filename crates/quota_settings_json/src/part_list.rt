ghost use Rattle.std.specs.Prelude.{◌≡◌, ◌<◌, ◌≤◌, [], length};
ghost use Rattle.quota_settings.specs.Parts.{ArePartsSorted};
ghost use Rattle.rate_types.specs.declared.limits.TheConstants.{MOST_PARTS};

use quota_settings::{Part, Parts};
use std::alloc::Global;
use std::marker::Model;

/// Any number of parts, sorted by the bytes of their names, which differ.
#[derive(Drop)]
pub struct PartList {
    items: Vec<Part>,
}

impl Model for PartList {
    ghost use Rattle.std.specs.Prelude.{List};
    ghost use Rattle.quota_settings.specs.Parts.{NamePart, ArePartsSorted};

    ghost Value = { List NamePart };

    ghost view = { λ p. p.items.items };

    ghost invariant = { λ p. ArePartsSorted p.items.items };
}

impl PartList {
    /// No parts.
    pub fn none(alloc: Global) -> PartList
        ensures { result ≡ [] }
    {
        PartList {
            items: Vec::new(alloc),
        }
    }

    /// These parts.
    pub fn sorted(items: Vec<Part>) -> PartList
        requires { ArePartsSorted items.items }
        ensures { result ≡ items.items }
    {
        PartList { items }
    }

    /// How many parts.
    pub fn len(&self) -> usize
        ensures { result ≡ length self.now }
    {
        self.items.len()
    }

    /// The parts of a bucket's name.
    pub fn into_parts(self) -> Parts
        requires some { 0 < length self }
        requires few { length self ≤ MOST_PARTS }
        ensures { result ≡ self }
    {
        Parts::of(self.items)
    }
}
