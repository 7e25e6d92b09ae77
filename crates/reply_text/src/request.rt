ghost use Rattle.std.specs.Prelude.{◌≡◌, [], Some};
ghost use Rattle.serde_json.specs.View.{view};
ghost use Rattle.rate_types.specs.Reading.{AnswersReading};
ghost use Rattle.proto_json.specs.Said.{reading_of};
ghost use Rattle.proto_json.specs.Held.{object_of};
ghost use Rattle.reply_text.specs.ReadRequest as reading;

use crate::descriptor_list::DescriptorList;
use crate::field_names::{DOMAIN, HITS_ADDEND};
use crate::read_descriptors::take_descriptors;
use proto_json::{Fields, FormFault};
use rate_types::refusals::{NO_DESCRIPTORS, REQUEST_EMPTY_DOMAIN, REQUEST_TEXT_TOO_LONG};
use rate_types::{Place, Refused, Request, RequestFault, Text};
use serde_json::Value;
use std::alloc::Global;

// The request of these parts.
#[tactic(auto, using(crate::proofs::Lawful::request_reads, crate::proofs::Lawful::never_too_many))]
fn request_of(
    at: Place,
    domain: Text,
    descriptors: DescriptorList,
    hits: u32,
) -> Result<Request, FormFault>
    ensures { AnswersReading (λ r. Some r) result (reading_of (reading.request_rules at domain descriptors hits)) }
{
    match Request::build(domain, descriptors.into_items(), hits) {
        Ok(request) => Ok(request),
        Err(RequestFault::EmptyDomain) => Err(FormFault::Refused(Refused {
            at,
            number: REQUEST_EMPTY_DOMAIN,
        })),
        Err(RequestFault::NoDescriptors) => Err(FormFault::Refused(Refused {
            at,
            number: NO_DESCRIPTORS,
        })),
        Err(RequestFault::TooMany { .. }) => unreachable!(),
    }
}

// The request of its fields.
#[tactic(auto, using(proto_json::specs::Laws::reading_then), unfolding(crate::specs::ReadRequest::request_in))]
fn request_in(alloc: Global, mut fields: Fields) -> Result<Request, FormFault>
    ensures { AnswersReading (λ r. Some r) result (reading_of (reading.request_in (object_of fields))) }
{
    let domain = fields.take_short_text(DOMAIN, REQUEST_TEXT_TOO_LONG)?;
    let descriptors = take_descriptors(alloc, &mut fields)?;
    let hits = fields.take_u32(HITS_ADDEND)?;
    let at = fields.end()?;
    let domain = domain.unwrap_or(Text::empty(alloc));
    let descriptors = descriptors.unwrap_or(DescriptorList::none(alloc));
    let request = request_of(at, domain, descriptors, hits.unwrap_or(0))?;
    Ok(request)
}

/// Reads a request (Envoy's `RateLimitRequest` in the proto3 JSON mapping), which stands at this place. It answers the
/// request that the value spells, or its first fault: 20 EmptyDomain and 21 NoDescriptors at the request, 22
/// TooManyDescriptors and 25 TooManyEntries at a list of more than 32 items, 23 NoEntries at a descriptor, 14 UnitMissing at
/// a descriptor's own limit, 24 EmptyKey at an entry, 26 TextTooLong at a text of more than 1,024 bytes, and those of every
/// message.
#[tactic(auto, using(proto_json::specs::Laws::reading_then), unfolding(proto_json::specs::Kinds::and_read))]
pub fn read_request(alloc: Global, value: Value, place: Place) -> Result<Request, FormFault>
    ensures { AnswersReading (λ r. Some r) result (reading_of (reading.request place (view value))) }
{
    let fields = Fields::of(value, place)?;
    let request = request_in(alloc, fields)?;
    Ok(request)
}
