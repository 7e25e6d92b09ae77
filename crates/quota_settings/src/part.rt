ghost use Rattle.std.specs.Prelude.{◌≡◌, ◌++◌, OnOk, IfOk, is_some, length, true};
ghost use Rattle.std.specs.Option.{option_copied};
ghost use Rattle.quota_settings.specs.Parts.{pairs_of};

use crate::attributes::Attributes;
use crate::bucket_id::BucketId;
use crate::pair::Pair;
use rate_types::{OutOfMemory, Text};
use std::alloc::Global;
use std::marker::Model;

/// Where the value of a part of a bucket's name comes from.
#[derive(Drop)]
pub enum PartSource {
    /// Envoy's `stringValue`: this text.
    Fixed(Text),
    /// The value of the attribute with this name.
    Attribute(Text),
}

/// A part of a bucket's name.
#[derive(Drop)]
pub struct Part {
    name: Text,
    source: PartSource,
}

impl Model for Part {
    ghost use Rattle.quota_settings.specs.Parts.{NamePart};

    ghost Value = { NamePart };

    ghost view = { λ p. record { name = p.name; source = p.source } };
}

impl Part {
    ghost use Rattle.quota_settings.specs.Parts.{part_value, pair_of};

    /// A part with this name and source. It takes no memory.
    pub fn of(name: Text, source: PartSource) -> Part
        ensures { result ≡ record { name = name; source = source } }
    {
        Part { name, source }
    }

    /// An equal part.
    fn copy(&self) -> Result<Part, OutOfMemory>
        ensures { IfOk result (λ p. p ≡ self.now) }
    {
        let name = self.name.copy()?;
        let source = match &self.source {
            PartSource::Fixed(text) => PartSource::Fixed(text.copy()?),
            PartSource::Attribute(name) => PartSource::Attribute(name.copy()?),
        };
        Ok(Part { name, source })
    }

    /// Its value for these attributes.
    fn value<'a>(&'a self, attributes: &'a Attributes) -> Option<&'a Text>
        ensures { option_copied result ≡ part_value attributes.now self.now }
    {
        match &self.source {
            PartSource::Fixed(text) => Some(text),
            PartSource::Attribute(name) => attributes.get(name),
        }
    }

    /// Adds its pair, where it has a value.
    fn give(&self, pairs: &mut Vec<Pair>, attributes: &Attributes) -> Result<(), OutOfMemory>
        ensures { OnOk result (pairs.new.items ≡ pairs.old.items ++ pair_of attributes.now self.now) }
    {
        if let Some(value) = self.value(attributes) {
            let name = self.name.copy()?;
            let value = value.copy()?;
            pairs.push(Pair { name, value })?;
        }
        Ok(())
    }

    /// Whether it has a value for these attributes.
    fn is_given(&self, attributes: &Attributes) -> bool
        ensures { result ≡ is_some (part_value attributes.now self.now) }
    {
        self.value(attributes).is_some()
    }
}

/// The parts of a bucket's name: 1 to 32, sorted by the bytes of their names, which differ.
#[derive(Drop)]
pub struct Parts {
    items: Vec<Part>,
}

impl Model for Parts {
    ghost use Rattle.std.specs.Prelude.{List};
    ghost use Rattle.quota_settings.specs.Parts.{NamePart, AreParts};

    ghost Value = { List NamePart };

    ghost view = { λ p. p.items.items };

    ghost invariant = { λ p. AreParts p.items.items };
}

impl Parts {
    ghost use Rattle.quota_settings.specs.Parts.{AreParts, all_given, pairs_of};

    /// These parts. It takes no memory.
    pub fn of(items: Vec<Part>) -> Parts
        requires { AreParts items.items }
        ensures { result ≡ items.items }
    {
        Parts { items }
    }

    /// Equal parts.
    pub fn copy(&self, alloc: Global) -> Result<Parts, OutOfMemory>
        ensures { IfOk result (λ p. p ≡ self.now) }
    {
        let items = copies(alloc, &self.items)?;
        Ok(Parts { items })
    }

    /// Whether each part has a value for these attributes.
    pub fn are_given(&self, attributes: &Attributes) -> bool
        ensures { result ≡ all_given self.now attributes.now }
    {
        self.items.iter().all(|part| part.is_given(attributes))
    }

    /// The bucket's name for attributes that give each part a value.
    pub fn id(&self, alloc: Global, attributes: &Attributes) -> Result<BucketId, OutOfMemory>
        requires { all_given self.now attributes.now ≡ true }
        ensures { IfOk result (λ id. id ≡ pairs_of self.now attributes.now) }
    {
        let pairs = given(alloc, &self.items, attributes)?;
        Ok(BucketId::of(Attributes::sorted(pairs)).unwrap())
    }
}

fn copies(alloc: Global, parts: &[Part]) -> Result<Vec<Part>, OutOfMemory>
    ensures { IfOk result (λ v. v.items ≡ parts.now) }
{
    let mut copies = Vec::new(alloc);
    for part in parts {
        copies.push(part.copy()?)?;
    }
    Ok(copies)
}

/// The pairs that the parts give.
fn given(alloc: Global, parts: &[Part], attributes: &Attributes) -> Result<Vec<Pair>, OutOfMemory>
    ensures { IfOk result (λ pairs. pairs.items ≡ pairs_of parts.now attributes.now) }
{
    let mut pairs = Vec::new(alloc);
    for part in parts {
        part.give(&mut pairs, attributes)?;
    }
    Ok(pairs)
}
