ghost use Rattle.std.specs.Prelude.{◌≡◌, IfOk, IfSome, option_map, true};
ghost use Rattle.std.specs.Arc.{arc_value};
ghost use Rattle.std.specs.Option.{option_copied};

use crate::attributes::Attributes;
use crate::bucket_id::BucketId;
use crate::part::Parts;
use quota_bucket::BucketRules;
use rate_types::{OutOfMemory, Text};
use std::alloc::Global;
use std::marker::Model;
use std::sync::Arc;

/// The settings of one kind of bucket: Envoy's `BucketSettings` of the rate limit quota filter. Its buckets share the rules, which are
/// in memory once.
#[derive(Drop)]
pub struct BucketSettings {
    matches: Attributes,
    parts: Parts,
    rules: Arc<BucketRules>,
}

impl Model for BucketSettings {
    ghost use Rattle.std.specs.Arc.{arc_value};
    ghost use Rattle.quota_settings.specs.Covering.{OneSettings};

    ghost Value = { OneSettings };

    ghost view = { λ s. record { matches = s.matches; parts = s.parts; rules = arc_value s.rules } };
}

impl BucketSettings {
    ghost use Rattle.quota_settings.specs.Covering.{covers, id_of, matches_all};

    /// These settings. It takes no memory.
    pub fn of(matches: Attributes, parts: Parts, rules: Arc<BucketRules>) -> BucketSettings
        ensures { result ≡ record { matches = matches; parts = parts; rules = arc_value rules } }
    {
        BucketSettings {
            matches,
            parts,
            rules,
        }
    }

    /// Equal settings.
    pub fn copy(&self, alloc: Global) -> Result<BucketSettings, OutOfMemory>
        ensures { IfOk result (λ s. s ≡ self.now) }
    {
        let matches = self.matches.copy(alloc)?;
        let parts = self.parts.copy(alloc)?;
        let rules = Arc::try_clone(&self.rules)?;
        Ok(BucketSettings {
            matches,
            parts,
            rules,
        })
    }

    /// The rules for its buckets.
    pub fn rules(&self) -> &Arc<BucketRules>
        ensures { arc_value result.now ≡ self.now.rules }
    {
        &self.rules
    }

    /// Whether each name to match is an attribute with that value.
    fn matches(&self, attributes: &Attributes) -> bool
        ensures { result ≡ matches_all self.now.matches attributes.now }
    {
        self.matches.items().iter().all(|pair| attributes.has(pair))
    }

    /// Whether the settings fit these attributes.
    pub fn covers(&self, attributes: &Attributes) -> bool
        ensures { result ≡ covers self.now attributes.now }
    {
        self.matches(attributes) && self.parts.are_given(attributes)
    }

    /// The name of the bucket for attributes that the settings fit.
    pub fn id_of(&self, alloc: Global, attributes: &Attributes) -> Result<BucketId, OutOfMemory>
        requires { covers self.now attributes.now ≡ true }
        ensures { IfOk result (λ id. id ≡ id_of self.now attributes.now) }
    {
        self.parts.id(alloc, attributes)
    }
}

/// The settings of a domain: Envoy's `RateLimitQuotaFilterConfig`, with a list in place of its matchers.
#[derive(Drop)]
pub struct Settings {
    domain: Text,
    buckets: Vec<BucketSettings>,
}

impl Model for Settings {
    ghost use Rattle.quota_settings.specs.Covering.{AllSettings};

    ghost Value = { AllSettings };

    ghost view = { λ s. record { domain = s.domain; buckets = s.buckets.items } };
}

impl Settings {
    ghost use Rattle.quota_settings.specs.Covering.{covering, covers};

    /// The settings of this domain. It takes no memory.
    pub fn of(domain: Text, buckets: Vec<BucketSettings>) -> Settings
        ensures { result ≡ record { domain = domain; buckets = buckets.items } }
    {
        Settings { domain, buckets }
    }

    /// The domain that each report carries.
    pub fn domain(&self) -> &Text
        ensures { result.now ≡ self.now.domain }
    {
        &self.domain
    }

    /// Equal settings.
    pub fn copy(&self, alloc: Global) -> Result<Settings, OutOfMemory>
        ensures { IfOk result (λ s. s ≡ self.now) }
    {
        let domain = self.domain.copy()?;
        let buckets = copies(alloc, &self.buckets)?;
        Ok(Settings { domain, buckets })
    }

    /// The first settings that fit these attributes.
    pub fn covering(&self, attributes: &Attributes) -> Option<&BucketSettings>
        ensures first { option_copied result ≡ covering self.now attributes.now }
        ensures fit { IfSome (option_copied result) (λ s. covers s attributes.now ≡ true) }
    {
        self.buckets.iter().find(|bucket| bucket.covers(attributes))
    }
}

fn copies(alloc: Global, buckets: &[BucketSettings]) -> Result<Vec<BucketSettings>, OutOfMemory>
    ensures { IfOk result (λ v. v.items ≡ buckets.now) }
{
    let mut copies = Vec::new(alloc);
    for bucket in buckets {
        copies.push(bucket.copy(alloc)?)?;
    }
    Ok(copies)
}
