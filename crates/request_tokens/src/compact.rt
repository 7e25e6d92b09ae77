// A request of the usual form, from a text with no space between its tokens and no escape.
ghost use Rattle.std.specs.Prelude.{◌≡◌, ◌≤◌, ◌∷◌, ◌++◌, codes, length, IfOk, IfSome};
ghost use Rattle.json.specs.Print.{quoted};
ghost use Rattle.std.specs.List.{AllByRecursion};
ghost use Rattle.rate_types.specs.declared.limits.TheConstants.{LONGEST_TEXT, MOST_ENTRIES, MOST_DESCRIPTORS};
ghost use Rattle.request_tokens.specs.Usual.{IsShort, IsPlain, IsUsual};
ghost use Rattle.request_tokens.specs.Compact.{list_text, entry_text, descriptor_text, request_text};

use crate::cursor::Cursor;
use crate::request::{copy_of, request_of, request_of_one};
use rate_types::limits::{LONGEST_TEXT, MOST_DESCRIPTORS, MOST_ENTRIES};
use rate_types::{Descriptor, Entries, Entry, OutOfMemory, Request, Text};
use std::alloc::Global;

// Takes an entry with a key that isn't empty.
#[inline(always)]
fn read_entry(alloc: Global, cursor: &mut Cursor<'_>) -> Result<Option<Entry>, OutOfMemory>
    ensures text { IfOk result (λ o. IfSome o (λ e. cursor.old ≡ entry_text e cursor.new)) }
    ensures short { IfOk result (λ o. IfSome o (λ e. IsShort e)) }
{
    if !cursor.takes("{\"key\":") {
        return Ok(None);
    }
    let Some(key) = cursor.take_quoted() else {
        return Ok(None);
    };
    if !cursor.takes(",\"value\":") {
        return Ok(None);
    }
    let Some(value) = cursor.take_quoted() else {
        return Ok(None);
    };
    if !cursor.takes("}")
        || key.is_empty()
        || key.len() > LONGEST_TEXT
        || value.len() > LONGEST_TEXT
    {
        return Ok(None);
    }
    let key = copy_of(alloc, key)?;
    let value = copy_of(alloc, value)?;
    Ok(Some(Entry { key, value }))
}

// Takes the entries behind the first one and a comma, up to the end of their list of at most 32.
fn read_more(
    alloc: Global,
    cursor: &mut Cursor<'_>,
    first: Entry,
) -> Result<Option<Vec<Entry>>, OutOfMemory>
    requires { IsShort first }
    ensures text { IfOk result (λ o. IfSome o (λ v. entry_text first (44 ∷ cursor.old) ≡ list_text entry_text v.items cursor.new)) }
    ensures some { IfOk result (λ o. IfSome o (λ v. 1 ≤ length v.items)) }
    ensures few { IfOk result (λ o. IfSome o (λ v. length v.items ≤ MOST_ENTRIES)) }
    ensures short { IfOk result (λ o. IfSome o (λ v. AllByRecursion IsShort v.items)) }
{
    let mut list = Vec::with_capacity(alloc, 2)?;
    list.push(first)?;
    'entries: for _ in 1..MOST_ENTRIES {
        let Some(entry) = read_entry(alloc, cursor)? else {
            return Ok(None);
        };
        list.push(entry)?;
        if cursor.takes("]") {
            return Ok(Some(list));
        }
        if !cursor.takes(",") {
            return Ok(None);
        }
    }
    Ok(None)
}

// Takes entries up to the end of their list, 1 to 32. One entry takes no memory for a list.
#[inline(always)]
#[tactic(auto, using(crate::proofs::Making::entries_made))]
fn read_entries(alloc: Global, cursor: &mut Cursor<'_>) -> Result<Option<Entries>, OutOfMemory>
    ensures text { IfOk result (λ o. IfSome o (λ es. cursor.old ≡ list_text entry_text es cursor.new)) }
    ensures some { IfOk result (λ o. IfSome o (λ es. 1 ≤ length es)) }
    ensures few { IfOk result (λ o. IfSome o (λ es. length es ≤ MOST_ENTRIES)) }
    ensures short { IfOk result (λ o. IfSome o (λ es. AllByRecursion IsShort es)) }
{
    let Some(first) = read_entry(alloc, cursor)? else {
        return Ok(None);
    };
    if cursor.takes("]") {
        return Ok(Entries::one(first).ok());
    }
    if !cursor.takes(",") {
        return Ok(None);
    }
    let Some(list) = read_more(alloc, cursor, first)? else {
        return Ok(None);
    };
    Ok(Entries::build(list).ok())
}

// Takes a descriptor that has entries alone.
#[inline(always)]
fn read_descriptor(
    alloc: Global,
    cursor: &mut Cursor<'_>,
) -> Result<Option<Descriptor>, OutOfMemory>
    ensures text { IfOk result (λ o. IfSome o (λ d. cursor.old ≡ descriptor_text d cursor.new)) }
    ensures plain { IfOk result (λ o. IfSome o (λ d. IsPlain d)) }
{
    if !cursor.takes("{\"entries\":[") {
        return Ok(None);
    }
    let Some(entries) = read_entries(alloc, cursor)? else {
        return Ok(None);
    };
    if !cursor.takes("}") {
        return Ok(None);
    }
    Ok(Some(Descriptor {
        entries,
        own: None,
        hits: None,
    }))
}

// Takes the descriptors behind the first one and a comma, up to the end of their list of at most 32.
fn read_more_descriptors(
    alloc: Global,
    cursor: &mut Cursor<'_>,
    first: Descriptor,
) -> Result<Option<Vec<Descriptor>>, OutOfMemory>
    requires { IsPlain first }
    ensures text { IfOk result (λ o. IfSome o (λ v.
        descriptor_text first (44 ∷ cursor.old) ≡ list_text descriptor_text v.items cursor.new)) }
    ensures some { IfOk result (λ o. IfSome o (λ v. 1 ≤ length v.items)) }
    ensures few { IfOk result (λ o. IfSome o (λ v. length v.items ≤ MOST_DESCRIPTORS)) }
    ensures plain { IfOk result (λ o. IfSome o (λ v. AllByRecursion IsPlain v.items)) }
{
    let mut list = Vec::with_capacity(alloc, 2)?;
    list.push(first)?;
    'descriptors: for _ in 1..MOST_DESCRIPTORS {
        let Some(descriptor) = read_descriptor(alloc, cursor)? else {
            return Ok(None);
        };
        list.push(descriptor)?;
        if cursor.takes("]") {
            return Ok(Some(list));
        }
        if !cursor.takes(",") {
            return Ok(None);
        }
    }
    Ok(None)
}

// Takes what stands before the descriptors: a domain that isn't empty.
#[inline(always)]
fn take_domain(alloc: Global, cursor: &mut Cursor<'_>) -> Result<Option<Text>, OutOfMemory>
    ensures text { IfOk result (λ o. IfSome o (λ d.
        cursor.old ≡ codes "{\"domain\":" ++ (quoted d ++ (codes ",\"descriptors\":[" ++ cursor.new)))) }
    ensures some { IfOk result (λ o. IfSome o (λ d. 1 ≤ length d)) }
    ensures short { IfOk result (λ o. IfSome o (λ d. length d ≤ LONGEST_TEXT)) }
{
    if !cursor.takes("{\"domain\":") {
        return Ok(None);
    }
    let Some(domain) = cursor.take_quoted() else {
        return Ok(None);
    };
    if !cursor.takes(",\"descriptors\":[") || domain.is_empty() || domain.len() > LONGEST_TEXT {
        return Ok(None);
    }
    let domain = copy_of(alloc, domain)?;
    Ok(Some(domain))
}

/// Takes a request of the usual form from the front of a text that spells its tokens with no space between them and no escape. None
/// where it begins with no such text, which says nothing of what else it may be. A request of one descriptor with one entry takes no memory
/// but for texts of more than 16 bytes.
pub fn read_compact(alloc: Global, cursor: &mut Cursor<'_>) -> Result<Option<Request>, OutOfMemory>
    ensures text { IfOk result (λ o. IfSome o (λ r. cursor.old ≡ request_text r cursor.new)) }
    ensures usual { IfOk result (λ o. IfSome o (λ r. IsUsual r)) }
{
    let Some(domain) = take_domain(alloc, cursor)? else {
        return Ok(None);
    };
    let Some(first) = read_descriptor(alloc, cursor)? else {
        return Ok(None);
    };
    if cursor.takes("]}") {
        return Ok(request_of_one(domain, first));
    }
    if !cursor.takes(",") {
        return Ok(None);
    }
    let Some(descriptors) = read_more_descriptors(alloc, cursor, first)? else {
        return Ok(None);
    };
    if !cursor.takes("}") {
        return Ok(None);
    }
    Ok(request_of(domain, descriptors))
}
