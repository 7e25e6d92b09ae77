ghost use Rattle.std.specs.Prelude.{◌≡◌, ◌≤◌, [], ◌∷◌, IfOk, length};
ghost use Rattle.rate_types.specs.Requests.{held_descriptors, request_of};

use crate::limits::MOST_DESCRIPTORS;
use crate::{Entries, OutOfMemory, Text, Unit};
use std::marker::Model;
use std::slice;
use thiserror::Error;

/// A limit: so many hits in each window of a unit. A descriptor may carry one of its own (Envoy's
/// `RateLimitDescriptor.limit`).
#[derive(Clone, Copy, Debug, PartialEq, Eq)]
pub struct OwnLimit {
    pub limit: u32,
    pub unit: Unit,
}

/// A descriptor of a request (Envoy's `RateLimitDescriptor`).
#[derive(Drop)]
pub struct Descriptor {
    pub entries: Entries,
    /// A limit of its own replaces the rule that the configuration has.
    pub own: Option<OwnLimit>,
    /// Hits of its own, 0 included, stand in place of the request's.
    pub hits: Option<u32>,
}

/// Why a request isn't made. They are tried in this order.
#[derive(Clone, Copy, Debug, PartialEq, Eq, Error)]
pub enum RequestFault {
    /// The domain is empty.
    #[error("the domain is empty")]
    EmptyDomain,
    /// There is no descriptor.
    #[error("no descriptor")]
    NoDescriptors,
    /// There are `count` descriptors, more than 32.
    #[error("{count} descriptors, more than {MOST_DESCRIPTORS}")]
    TooMany { count: u64 },
}

/// Where the descriptors of a request lie: one descriptor in the value itself, so that it takes no memory of its own, or several
/// apart.
#[derive(Drop)]
enum HeldDescriptors {
    One(Descriptor),
    Several(Vec<Descriptor>),
}

/// A request (Envoy's `RateLimitRequest`): a domain that isn't empty, 1 to 32 descriptors, and hits of at least 1.
#[derive(Drop)]
pub struct Request {
    domain: Text,
    held: HeldDescriptors,
    hits: u32,
}

impl Model for Request {
    ghost use Rattle.std.specs.Prelude.{◌≡◌, Ok};
    ghost use Rattle.rate_types.specs.Requests.{RequestParts, held_descriptors, request_of};

    ghost Value = { RequestParts };

    ghost view = { λ r. record { domain = r.domain; descriptors = held_descriptors r.held; hits = r.hits } };

    ghost invariant = { λ r. request_of r.domain (held_descriptors r.held) r.hits
        ≡ Ok (record { domain = r.domain; descriptors = held_descriptors r.held; hits = r.hits }) };
}

impl Request {
    /// The request of these parts; hits of 0 count as 1. It takes no memory.
    pub fn build(
        domain: Text,
        descriptors: Vec<Descriptor>,
        hits: u32,
    ) -> Result<Request, RequestFault>
        ensures { result ≡ request_of domain descriptors.items hits }
    {
        of_held(domain, held_of(descriptors), hits)
    }

    /// The request of one descriptor; hits of 0 count as 1. It takes no memory.
    #[inline(always)]
    pub fn one(domain: Text, descriptor: Descriptor, hits: u32) -> Result<Request, RequestFault>
        ensures { result ≡ request_of domain (descriptor ∷ []) hits }
    {
        of_held(domain, HeldDescriptors::One(descriptor), hits)
    }

    /// The domain, which isn't empty.
    #[tactic(auto, unfolding(crate::specs::Requests::request_of))]
    pub fn domain(&self) -> &Text
        ensures same { result.now ≡ self.now.domain }
        ensures bounds { 1 ≤ length result.now }
    {
        &self.domain
    }

    /// The descriptors in order, 1 to 32.
    #[tactic(auto, unfolding(crate::specs::Requests::request_of))]
    pub fn descriptors(&self) -> &[Descriptor]
        ensures all { result.now ≡ self.now.descriptors }
        ensures bounds { (1 ≤ length result.now) × (length result.now ≤ MOST_DESCRIPTORS) }
    {
        items_of(&self.held)
    }

    /// The hits of each descriptor that has none of its own, at least 1.
    #[tactic(auto, unfolding(crate::specs::Requests::request_of))]
    pub fn hits(&self) -> u32
        ensures same { result ≡ self.now.hits }
        ensures bounds { 1 ≤ result }
    {
        self.hits
    }
}

fn items_of(held: &HeldDescriptors) -> &[Descriptor]
    ensures { result.now ≡ held_descriptors held.now }
{
    match held {
        HeldDescriptors::One(descriptor) => slice::from_ref(descriptor),
        HeldDescriptors::Several(descriptors) => descriptors,
    }
}

#[inline(always)]
#[tactic(auto, unfolding(crate::specs::Requests::request_of))]
fn of_held(domain: Text, held: HeldDescriptors, hits: u32) -> Result<Request, RequestFault>
    ensures { result ≡ request_of domain (held_descriptors held) hits }
{
    let count = items_of(&held).len();
    if domain.as_str().is_empty() {
        return Err(RequestFault::EmptyDomain);
    }
    if count == 0 {
        return Err(RequestFault::NoDescriptors);
    }
    if count > MOST_DESCRIPTORS {
        return Err(RequestFault::TooMany {
            count: count as u64,
        });
    }
    Ok(Request {
        domain,
        held,
        hits: hits.max(1),
    })
}

fn held_of(mut descriptors: Vec<Descriptor>) -> HeldDescriptors
    ensures { held_descriptors result ≡ descriptors.items }
{
    if descriptors.len() != 1 {
        return HeldDescriptors::Several(descriptors);
    }
    match descriptors.pop() {
        Some(descriptor) => HeldDescriptors::One(descriptor),
        None => HeldDescriptors::Several(descriptors),
    }
}
