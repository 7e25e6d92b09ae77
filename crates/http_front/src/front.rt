// What stands at the front of a connection's bytes, from what its head asks for.
ghost use Rattle.std.specs.Prelude.{◌≡◌, ◌≤◌, ◌<◌, ◌+◌, ◌^◌, length, true, None, Some, Err};
ghost use Rattle.http_front.specs.Front as fronts;
ghost use Rattle.http_front.specs.Steps.{Gives};
ghost use Rattle.http_front.specs.Requests.{body_reading};

use crate::asks::{Asks, BodyLength, Method, Target};
use crate::request::{read_body, refusal_text};
use crate::{Allow, HttpAnswer};
use http::StatusCode;
use proto_json::FormFault;
use rate_types::{OutOfMemory, Refused, Request, Word};
use std::alloc::Global;

/// The most bytes of a body.
const MAX_BODY: u64 = 1_048_576;

/// What stands at the front of a connection's bytes. `used` is the number of bytes before the rest.
#[derive(Drop)]
pub enum Front {
    /// No byte of a request.
    Ended,
    /// A part of a request.
    CutShort,
    /// A request whose answer takes no check.
    Fixed {
        answer: HttpAnswer,
        used: usize,
    },
    /// A request for a check.
    Check {
        request: Request,
        closes: bool,
        used: usize,
    },
    /// A request for the statistics of rules. Whether there are any isn't known here.
    Stats {
        method: Method,
        closes: bool,
        used: usize,
    },
}

impl Front {
    /// The number of bytes before the rest.
    pub fn used(&self) -> usize
        ensures { result ≡ fronts.used_of self.now }
    {
        match self {
            Front::Fixed { used, .. } => *used,
            Front::Check { used, .. } => *used,
            Front::Stats { used, .. } => *used,
            Front::Ended | Front::CutShort => 0,
        }
    }

    /// More bytes are wanted, unless the input ends here.
    pub fn is_waiting(&self) -> bool
        ensures { result ≡ fronts.is_waiting self.now }
    {
        matches!(self, Front::Ended | Front::CutShort)
    }
}

fn is_post(method: Method) -> bool
    ensures { result ≡ fronts.is_post method }
{
    matches!(method, Method::Post)
}

fn is_get(method: Method) -> bool
    ensures { result ≡ fronts.is_get method }
{
    matches!(method, Method::Get)
}

/// The body of an answer is sent, but to HEAD.
pub fn sends_body(method: Method) -> bool
    ensures { result ≡ fronts.sends_body method }
{
    !matches!(method, Method::Head)
}

/// A front that is answered with the phrase of a status.
pub fn fixed(status: StatusCode, sends_body: bool, closes: bool, used: usize) -> Front
    ensures { result ≡ Front.Fixed (fronts.plain status None sends_body closes) used }
{
    let answer = HttpAnswer::plain(status, sends_body, closes);
    Front::Fixed { answer, used }
}

fn refusal(status: StatusCode, asks: Asks, used: usize) -> Front
    ensures { result ≡ fronts.refusal status asks used }
{
    fixed(status, sends_body(asks.method), true, used)
}

fn not_allowed(allow: Allow, asks: Asks, used: usize) -> Front
    ensures { result ≡ fronts.not_allowed allow asks used }
{
    let answer = HttpAnswer::not_allowed(allow, sends_body(asks.method), asks.closes);
    Front::Fixed { answer, used }
}

/// The answer to a request for the statistics, by their text where there are any. It takes no memory.
pub fn stats_answer(method: Method, text: Option<Word>, closes: bool) -> HttpAnswer
    ensures { result ≡ fronts.stats_answer method text closes }
{
    match text {
        None => HttpAnswer::plain(StatusCode::NOT_FOUND, sends_body(method), closes),
        Some(text) if is_get(method) => HttpAnswer::json(StatusCode::OK, text, closes),
        Some(_) => HttpAnswer::not_allowed(Allow::Get, sends_body(method), closes),
    }
}

// The refusal of a body, as an answer.
fn refused_front(
    alloc: Global,
    asks: Asks,
    used: usize,
    refused: &Refused,
) -> Result<Front, OutOfMemory>
    ensures { Gives result (fronts.json_front asks used (Err refused.now)) }
{
    let text = refusal_text(alloc, refused)?;
    let answer = HttpAnswer::json(StatusCode::BAD_REQUEST, text, asks.closes);
    Ok(Front::Fixed { answer, used })
}

#[tactic(auto, using(crate::proofs::Bodies::json_has, crate::proofs::Bodies::json_sends))]
fn json_front(alloc: Global, asks: Asks, used: usize, body: &[u8]) -> Result<Front, OutOfMemory>
    ensures { Gives result (fronts.json_front asks used (body_reading body.now)) }
{
    match read_body(alloc, body) {
        Ok(request) => Ok(Front::Check {
            request,
            closes: asks.closes,
            used,
        }),
        Err(FormFault::Refused(refused)) => refused_front(alloc, asks, used, &refused),
        Err(FormFault::OutOfMemory) => Err(OutOfMemory),
    }
}

// What a whole request asks for.
fn routed(alloc: Global, asks: Asks, used: usize, body: &[u8]) -> Result<Front, OutOfMemory>
    ensures { Gives result (fronts.routed asks asks.target used body.now) }
{
    match asks.target {
        Target::Json if is_post(asks.method) => json_front(alloc, asks, used, body),
        Target::Json => Ok(not_allowed(Allow::Post, asks, used)),
        Target::Healthcheck if is_get(asks.method) => {
            Ok(fixed(StatusCode::OK, true, asks.closes, used))
        }
        Target::Healthcheck => Ok(not_allowed(Allow::Get, asks, used)),
        Target::Stats => Ok(Front::Stats {
            method: asks.method,
            closes: asks.closes,
            used,
        }),
        Target::Unknown => Ok(fixed(
            StatusCode::NOT_FOUND,
            sends_body(asks.method),
            asks.closes,
            used,
        )),
    }
}

// With a body of so many bytes.
fn with_body(
    alloc: Global,
    asks: Asks,
    count: usize,
    used: usize,
    after: &[u8],
) -> Result<Front, OutOfMemory>
    requires { used + count < 2 ^ 64 }
    ensures { Gives result (fronts.with_body asks count used after.now) }
{
    if after.len() < count {
        return Ok(Front::CutShort);
    }
    routed(alloc, asks, used + count, &after[..count])
}

fn by_length(alloc: Global, asks: Asks, used: usize, after: &[u8]) -> Result<Front, OutOfMemory>
    requires { used < 2 ^ 63 }
    ensures { Gives result (fronts.by_length asks asks.length used after.now) }
{
    match asks.length {
        BodyLength::Absent if is_post(asks.method) => {
            Ok(refusal(StatusCode::LENGTH_REQUIRED, asks, used))
        }
        BodyLength::Absent => with_body(alloc, asks, 0, used, after),
        BodyLength::Unclear => Ok(refusal(StatusCode::BAD_REQUEST, asks, used)),
        BodyLength::Given(count) if count > MAX_BODY => {
            Ok(refusal(StatusCode::PAYLOAD_TOO_LARGE, asks, used))
        }
        BodyLength::Given(count) => with_body(alloc, asks, count as usize, used, after),
    }
}

/// By a head of `used` bytes, which these bytes follow.
pub fn asked(alloc: Global, asks: Asks, used: usize, after: &[u8]) -> Result<Front, OutOfMemory>
    requires { used < 2 ^ 63 }
    ensures { Gives result (fronts.after_head (Some asks) used after.now) }
{
    if asks.has_coding {
        return Ok(refusal(StatusCode::LENGTH_REQUIRED, asks, used));
    }
    by_length(alloc, asks, used, after)
}
