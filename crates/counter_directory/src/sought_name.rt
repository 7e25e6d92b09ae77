ghost use Rattle.std.specs.Prelude.{◌≡◌, IfOk};
ghost use Rattle.rate_types.specs.Counters.{same_name};
ghost use Rattle.rate_types.specs.Hashes.{name_writes, name_alike};
ghost use Rattle.rate_types.specs.contracts.counter_name.CounterNameEq.TheImpl.Laws.{laws-law as name_equiv};

use rate_types::{CounterName, Entries, OutOfMemory, Text, Unit};
use std::collections::hash_map::Equivalent;
use std::hash::{Hash, Hasher};
use std::marker::Model;

/// The name of a counter that is asked for. Its parts are lent, so that nothing is copied for a counter that has a claim. Contracts see
/// the `CounterName` of these parts.
#[derive(Drop)]
pub struct SoughtName<'a> {
    domain: &'a Text,
    entries: &'a Entries,
    unit: Unit,
}

impl<'a> Model for SoughtName<'a> {
    ghost use Rattle.rate_types.specs.declared.counter_name.CounterName.{CounterName as CounterNameValue};

    ghost Value = { CounterNameValue };

    ghost view = { λ n. record { domain = n.domain.now; entries = n.entries.now; unit = n.unit } };
}

impl<'a> SoughtName<'a> {
    /// The name of these parts.
    pub fn new(domain: &'a Text, entries: &'a Entries, unit: Unit) -> SoughtName<'a>
        ensures { result ≡ record { domain = domain.now; entries = entries.now; unit = unit } }
    {
        SoughtName {
            domain,
            entries,
            unit,
        }
    }

    /// A name whose parts stand together.
    pub fn of(name: &'a CounterName) -> SoughtName<'a>
        ensures { result ≡ name.now }
    {
        SoughtName::new(&name.domain, &name.entries, name.unit)
    }

    /// The domain.
    pub fn domain(&self) -> &'a Text
        ensures { result.now ≡ self.now.domain }
    {
        self.domain
    }

    /// The entries.
    pub fn entries(&self) -> &'a Entries
        ensures { result.now ≡ self.now.entries }
    {
        self.entries
    }

    /// The unit.
    pub fn unit(&self) -> Unit
        ensures { result ≡ self.now.unit }
    {
        self.unit
    }

    /// An equal name that owns its parts.
    pub(crate) fn copy(&self) -> Result<CounterName, OutOfMemory>
        ensures { IfOk result (λ n. n ≡ self.now) }
    {
        Ok(CounterName {
            domain: self.domain.copy()?,
            entries: self.entries.copy()?,
            unit: self.unit,
        })
    }
}

impl PartialEq for SoughtName<'_> {
    ghost use Rattle.std.specs.Cmp.{partial_equiv_from_equiv};

    ghost eq = { same_name };

    ghost laws = { partial_equiv_from_equiv name_equiv };

    fn eq(&self, other: &Self) -> bool {
        self.domain == other.domain
            && self.entries == other.entries
            && self.unit.rank() == other.unit.rank()
    }
}

impl Eq for SoughtName<'_> {
    ghost laws = { name_equiv };
}

impl Hash for SoughtName<'_> {
    ghost hash_input = { name_writes };

    ghost respects_eq = { name_alike.fed };

    fn hash<H: Hasher>(&self, state: &mut H) {
        self.domain.hash(state);
        self.entries.hash(state);
        u64::from(self.unit.rank()).hash(state);
    }
}

impl<'a> Equivalent<CounterName> for &SoughtName<'a> {
    ghost equivalent = { λ q. same_name q.now };

    ghost respects_hash = { λ q. name_alike.fed q.now };

    ghost respects_eq = { λ q. name_equiv.congr q.now };

    fn equivalent(&self, name: &CounterName) -> bool {
        **self == SoughtName::of(name)
    }
}
