ghost use Rattle.std.specs.Prelude.{◌≡◌, IfOk, option_map};
ghost use Rattle.std.specs.Option.{option_copied};

use crate::pair::Pair;
use rate_types::{OutOfMemory, Text};
use std::alloc::Global;
use std::marker::Model;

/// The attributes of a request: pairs sorted by the bytes of their names, which differ.
#[derive(Drop)]
pub struct Attributes {
    pairs: Vec<Pair>,
}

impl Model for Attributes {
    ghost use Rattle.std.specs.Prelude.{List};
    ghost use Rattle.quota_settings.specs.declared.pair.Pair.{Pair};
    ghost use Rattle.quota_settings.specs.Pairs.{IsSorted};

    ghost Value = { List Pair };

    ghost view = { λ a. a.pairs.items };

    ghost invariant = { λ a. IsSorted a.pairs.items };
}

impl Attributes {
    ghost use Rattle.quota_settings.specs.Pairs.{value_of, has_pair, IsSorted};

    /// These pairs. It takes no memory.
    pub fn sorted(pairs: Vec<Pair>) -> Attributes
        requires { IsSorted pairs.items }
        ensures { result ≡ pairs.items }
    {
        Attributes { pairs }
    }

    /// The pairs.
    pub fn items(&self) -> &[Pair]
        ensures { result.now ≡ self.now }
    {
        self.pairs.as_slice()
    }

    /// Equal attributes.
    pub fn copy(&self, alloc: Global) -> Result<Attributes, OutOfMemory>
        ensures { IfOk result (λ a. a ≡ self.now) }
    {
        let pairs = copies(alloc, &self.pairs)?;
        Ok(Attributes { pairs })
    }

    /// The value of a name.
    pub fn get(&self, name: &Text) -> Option<&Text>
        ensures { option_copied result ≡ value_of name.now self.now }
    {
        self.pairs
            .iter()
            .find(|pair| pair.name == *name)
            .map(|pair| &pair.value)
    }

    /// Whether a name has this value.
    pub fn has(&self, pair: &Pair) -> bool
        ensures { result ≡ has_pair self.now pair.now }
    {
        match self.get(&pair.name) {
            Some(value) => *value == pair.value,
            None => false,
        }
    }
}

fn copies(alloc: Global, pairs: &[Pair]) -> Result<Vec<Pair>, OutOfMemory>
    ensures { IfOk result (λ v. v.items ≡ pairs.now) }
{
    let mut copies = Vec::new(alloc);
    for pair in pairs {
        copies.push(pair.copy()?)?;
    }
    Ok(copies)
}
