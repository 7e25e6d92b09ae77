// What is known of the front while its request may still be coming.
ghost use Rattle.std.specs.Prelude.{◌≡◌, ◌≤◌, length, take, IfOk, OnErr};
ghost use Rattle.http_front.specs.Part.{IsPart, NeedsMemory};
ghost use Rattle.http_front.specs.Steps.{body_count, GivesPart, IsPartAfter, IsPartHeadless, LacksAfter};

use crate::Front;
use crate::asks::{Asks, BodyLength};
use crate::front::{asked, fixed, sends_body};
use crate::head::{after_blank, has_too_many_lines, head_length, read_head};
use http::StatusCode;
use rate_types::OutOfMemory;
use std::alloc::Global;

/// The most bytes of a head, the line ends before it included.
const MAX_HEAD: usize = 16_384;

/// What is known of the front of the bytes so far.
#[derive(Drop)]
pub enum Part {
    /// The front, whatever bytes follow.
    Whole(Front),
    /// No head ends in the bytes, which may be line ends alone.
    NoHead { is_blank: bool },
    /// The request has `total` bytes, more than are there. The body of its answer is sent or not.
    NoBody { total: usize, sends_body: bool },
}

fn body_count(length: BodyLength) -> usize
    ensures { result ≡ body_count length }
{
    match length {
        BodyLength::Given(count) => count as usize,
        BodyLength::Absent | BodyLength::Unclear => 0,
    }
}

// By what a head asks for, and the bytes after it.
fn part_asked(alloc: Global, asks: Asks, used: usize, after: &[u8]) -> Result<Part, OutOfMemory>
    requires { used ≤ 16384 }
    ensures { GivesPart asks used after.now result }
{
    let front = match asked(alloc, asks, used, after) {
        Ok(front) => front,
        Err(fault) => return Err(fault),
    };
    if !front.is_waiting() {
        return Ok(Part::Whole(front));
    }
    Ok(Part::NoBody {
        total: used + body_count(asks.length),
        sends_body: sends_body(asks.method),
    })
}

// By the bytes of a head, and those after it.
fn part_after(alloc: Global, head: &[u8], after: &[u8]) -> Result<Part, OutOfMemory>
    requires { length head.now ≤ 16384 }
    ensures part { IfOk result (IsPartAfter head.now after.now) }
    ensures memory { OnErr result (LacksAfter head.now after.now) }
{
    let used = head.len();
    if has_too_many_lines(head) {
        let status = StatusCode::REQUEST_HEADER_FIELDS_TOO_LARGE;
        return Ok(Part::Whole(fixed(status, true, true, used)));
    }
    match read_head(head) {
        None => Ok(Part::Whole(fixed(StatusCode::BAD_REQUEST, true, true, used))),
        Some(asks) => part_asked(alloc, asks, used, after),
    }
}

// Where no head ends in the first bytes.
fn part_headless(bytes: &[u8]) -> Part
    ensures { IsPartHeadless bytes.now result }
{
    if bytes.len() >= MAX_HEAD {
        let status = StatusCode::REQUEST_HEADER_FIELDS_TOO_LARGE;
        return Part::Whole(fixed(status, true, true, MAX_HEAD));
    }
    let is_blank = after_blank(bytes).is_empty();
    Part::NoHead { is_blank }
}

// The first bytes, as many as a head may have.
fn first_bytes(bytes: &[u8]) -> &[u8]
    ensures { result.now ≡ take 16384 bytes.now }
{
    if bytes.len() > MAX_HEAD {
        bytes.split_at(MAX_HEAD).0
    } else {
        bytes
    }
}

/// What is known of the front of the bytes. It takes memory only to read a JSON body that is whole.
pub fn read_front(alloc: Global, bytes: &[u8]) -> Result<Part, OutOfMemory>
    ensures part { IfOk result (IsPart bytes.now) }
    ensures memory { OnErr result (NeedsMemory bytes.now) }
{
    match head_length(first_bytes(bytes)) {
        Some(used) => {
            let (head, after) = bytes.split_at(used);
            part_after(alloc, head, after)
        }
        None => Ok(part_headless(bytes)),
    }
}
