// A request of the usual form, from the tokens of a reader.
ghost use Rattle.std.specs.Prelude.{◌≡◌, ◌≤◌, [], ◌∷◌, length, IfOk, IfSome};
ghost use Rattle.std.specs.List.{AllByRecursion};
ghost use Rattle.rate_types.specs.declared.limits.TheConstants.{LONGEST_TEXT, MOST_ENTRIES, MOST_DESCRIPTORS};
ghost use Rattle.request_tokens.specs.Usual.{IsShort, IsPlain, IsUsual, list_tokens, entry_tokens, descriptor_tokens, request_tokens};

use crate::tokens::{closes_object, opens_array, opens_object, take_text, takes_key};
use json::Reader;
use rate_types::limits::{LONGEST_TEXT, MOST_DESCRIPTORS, MOST_ENTRIES};
use rate_types::{Descriptor, Entries, Entry, OutOfMemory, Request, Text};
use std::alloc::Global;

// A copy of a text that isn't too long.
#[inline(always)]
pub(crate) fn copy_of(alloc: Global, text: &str) -> Result<Text, OutOfMemory>
    requires { length text.now ≤ LONGEST_TEXT }
    ensures { IfOk result (λ t. t ≡ text.now) }
{
    match Text::new(alloc, text) {
        Ok(text) => Ok(text),
        Err(_) => Err(OutOfMemory),
    }
}

// Takes an entry with a key that isn't empty.
fn read_entry(alloc: Global, reader: &mut Reader<'_>) -> Result<Option<Entry>, OutOfMemory>
    ensures tokens { IfOk result (λ o. IfSome o (λ e. reader.old ≡ entry_tokens e reader.new)) }
    ensures short { IfOk result (λ o. IfSome o (λ e. IsShort e)) }
{
    if !opens_object(reader) || !takes_key(reader, "key") {
        return Ok(None);
    }
    let Some(key) = take_text(reader) else {
        return Ok(None);
    };
    if !takes_key(reader, "value") {
        return Ok(None);
    }
    let Some(value) = take_text(reader) else {
        return Ok(None);
    };
    if !closes_object(reader)
        || key.is_empty()
        || key.len() > LONGEST_TEXT
        || value.len() > LONGEST_TEXT
    {
        return Ok(None);
    }
    let key = copy_of(alloc, key)?;
    let value = copy_of(alloc, value)?;
    Ok(Some(Entry { key, value }))
}

// Takes entries up to the end of their list, at most 32.
fn read_entries(alloc: Global, reader: &mut Reader<'_>) -> Result<Option<Vec<Entry>>, OutOfMemory>
    ensures tokens { IfOk result (λ o. IfSome o (λ v. reader.old ≡ list_tokens entry_tokens v.items reader.new)) }
    ensures few { IfOk result (λ o. IfSome o (λ v. length v.items ≤ MOST_ENTRIES)) }
    ensures short { IfOk result (λ o. IfSome o (λ v. AllByRecursion IsShort v.items)) }
{
    let mut list = Vec::with_capacity(alloc, 1)?;
    'entries: for _ in 0..MOST_ENTRIES + 1 {
        if reader.take_end_array() {
            return Ok(Some(list));
        }
        let Some(entry) = read_entry(alloc, reader)? else {
            return Ok(None);
        };
        list.push(entry)?;
    }
    Ok(None)
}

// The entries of a list of some, not too many, each with a key that isn't empty.
#[tactic(auto, using(crate::proofs::Making::entries_made))]
fn entries_of(list: Vec<Entry>) -> Option<Entries>
    requires some { 1 ≤ length list.items }
    requires few { length list.items ≤ MOST_ENTRIES }
    requires short { AllByRecursion IsShort list.items }
    ensures { IfSome result (λ es. es ≡ list.items) }
{
    match Entries::build(list) {
        Ok(entries) => Some(entries),
        Err(_) => None,
    }
}

// Takes a descriptor that has entries alone.
fn read_descriptor(
    alloc: Global,
    reader: &mut Reader<'_>,
) -> Result<Option<Descriptor>, OutOfMemory>
    ensures tokens { IfOk result (λ o. IfSome o (λ d. reader.old ≡ descriptor_tokens d reader.new)) }
    ensures plain { IfOk result (λ o. IfSome o (λ d. IsPlain d)) }
{
    if !opens_object(reader) || !takes_key(reader, "entries") || !opens_array(reader) {
        return Ok(None);
    }
    let Some(list) = read_entries(alloc, reader)? else {
        return Ok(None);
    };
    if !closes_object(reader) || list.is_empty() {
        return Ok(None);
    }
    let Some(entries) = entries_of(list) else {
        return Ok(None);
    };
    Ok(Some(Descriptor {
        entries,
        own: None,
        hits: None,
    }))
}

// Takes descriptors up to the end of their list, at most 32.
fn read_descriptors(
    alloc: Global,
    reader: &mut Reader<'_>,
) -> Result<Option<Vec<Descriptor>>, OutOfMemory>
    ensures tokens { IfOk result (λ o. IfSome o (λ v. reader.old ≡ list_tokens descriptor_tokens v.items reader.new)) }
    ensures few { IfOk result (λ o. IfSome o (λ v. length v.items ≤ MOST_DESCRIPTORS)) }
    ensures plain { IfOk result (λ o. IfSome o (λ v. AllByRecursion IsPlain v.items)) }
{
    let mut list = Vec::with_capacity(alloc, 1)?;
    'descriptors: for _ in 0..MOST_DESCRIPTORS + 1 {
        if reader.take_end_array() {
            return Ok(Some(list));
        }
        let Some(descriptor) = read_descriptor(alloc, reader)? else {
            return Ok(None);
        };
        list.push(descriptor)?;
    }
    Ok(None)
}

// The request of these parts, with the hits that a request has that names none.
#[tactic(auto, using(crate::proofs::Making::request_made))]
pub(crate) fn request_of(domain: Text, descriptors: Vec<Descriptor>) -> Option<Request>
    requires domain { 1 ≤ length domain }
    requires some { 1 ≤ length descriptors.items }
    requires few { length descriptors.items ≤ MOST_DESCRIPTORS }
    ensures { IfSome result (λ r. r ≡ record { domain = domain; descriptors = descriptors.items; hits = 1 }) }
{
    match Request::build(domain, descriptors, 1) {
        Ok(request) => Some(request),
        Err(_) => None,
    }
}

// The request of a domain and one descriptor, with the hits that a request has that names none.
#[inline(always)]
#[tactic(auto, using(crate::proofs::Making::request_made))]
pub(crate) fn request_of_one(domain: Text, descriptor: Descriptor) -> Option<Request>
    requires { 1 ≤ length domain }
    ensures { IfSome result (λ r. r ≡ record { domain = domain; descriptors = descriptor ∷ []; hits = 1 }) }
{
    match Request::one(domain, descriptor, 1) {
        Ok(request) => Some(request),
        Err(_) => None,
    }
}

/// Takes a request of the usual form from the front of the tokens: its domain, and descriptors that have entries alone. None where
/// they begin with no such request, which says nothing of what else they may be.
pub fn read_usual(alloc: Global, reader: &mut Reader<'_>) -> Result<Option<Request>, OutOfMemory>
    ensures tokens { IfOk result (λ o. IfSome o (λ r. reader.old ≡ request_tokens r reader.new)) }
    ensures usual { IfOk result (λ o. IfSome o (λ r. IsUsual r)) }
{
    if !opens_object(reader) || !takes_key(reader, "domain") {
        return Ok(None);
    }
    let Some(domain) = take_text(reader) else {
        return Ok(None);
    };
    if domain.is_empty() || domain.len() > LONGEST_TEXT {
        return Ok(None);
    }
    let domain = copy_of(alloc, domain)?;
    if !takes_key(reader, "descriptors") || !opens_array(reader) {
        return Ok(None);
    }
    let Some(descriptors) = read_descriptors(alloc, reader)? else {
        return Ok(None);
    };
    if !closes_object(reader) || descriptors.is_empty() {
        return Ok(None);
    }
    Ok(request_of(domain, descriptors))
}
