//! What the head of a request asks for.
ghost use Rattle.std.specs.Prelude.{◌≡◌, ◌≤◌, ◌<◌, ◌+◌, ◌*◌, ◌^◌, true, ◌∷◌, ◌==◌, ◌||◌, [], All, map, length, take, codes, IfSome};
ghost use Rattle.std.specs.Prelude.{position, MatchOption};
ghost use Rattle.std.specs.List.{before_first, slice_split};
ghost use Rattle.std.specs.Char.{is_ascii_digit, digit_value};
ghost use Rattle.httparse.specs.Grammar.{RequestHead, is_ows, skip_ows, trim_ows};
ghost use Rattle.httparse.specs.Spans.{header_bytes, IsHeaderWithin, IsRequestWithin, IsRequestAt};
ghost use Rattle.http_front.specs.Asks.{asks_of, method_of, target_of, body_length, length_of, is_name, is_there, values_of, has_close};
ghost use Rattle.http_front.specs.Asks.{says_close};

use httparse::spans::{HeaderSpan, RequestSpans};

/// The method of a request.
#[derive(Clone, Copy, Debug, PartialEq, Eq)]
pub enum Method {
    Get,
    Head,
    Post,
    Other,
}

#[derive(Clone, Copy, Debug, PartialEq, Eq)]
pub enum Target {
    Json,
    Healthcheck,
    Stats,
    Unknown,
}

/// What the fields `Content-Length` say of the body.
#[derive(Clone, Copy, Debug, PartialEq, Eq)]
pub enum BodyLength {
    Absent,
    Unclear,
    Given(u64),
}

/// What a head asks for.
#[derive(Clone, Copy, Debug, PartialEq, Eq)]
pub struct Asks {
    pub method: Method,
    pub target: Target,
    pub has_coding: bool,
    pub length: BodyLength,
    pub closes: bool,
}

fn method_of(name: &[u8]) -> Method
    ensures { result ≡ method_of name.now }
{
    if name == b"GET".as_slice() {
        Method::Get
    } else if name == b"HEAD".as_slice() {
        Method::Head
    } else if name == b"POST".as_slice() {
        Method::Post
    } else {
        Method::Other
    }
}

// Where a byte first stands.
fn place_of(byte: u8, bytes: &[u8]) -> Option<usize>
    ensures at { result ≡ position (λ b. b == byte) bytes.now }
    ensures within { IfSome result (λ at. at < length bytes.now) }
{
    bytes.iter().position(|b| *b == byte)
}

// The target without its query.
fn path_of(target: &[u8]) -> &[u8]
    ensures { result.now ≡ before_first (λ b. b == 63) target.now }
{
    match place_of(b'?', target) {
        Some(at) => &target[..at],
        None => target,
    }
}

fn target_of(target: &[u8]) -> Target
    ensures { result ≡ target_of target.now }
{
    let path = path_of(target);
    if path == b"/json".as_slice() {
        Target::Json
    } else if path == b"/healthcheck".as_slice() {
        Target::Healthcheck
    } else if path == b"/stats".as_slice() {
        Target::Stats
    } else {
        Target::Unknown
    }
}

fn is_name(name: &[u8], bytes: &[u8]) -> bool
    ensures { result ≡ is_name name.now bytes.now }
{
    bytes.eq_ignore_ascii_case(name)
}

// The first value under a name, and the fields after it.
fn first_value<'b>(
    head: &'b [u8],
    fields: &'b [HeaderSpan],
    name: &[u8],
) -> Option<(&'b [u8], &'b [HeaderSpan])>
    requires { All (IsHeaderWithin (length head.now)) fields.now }
    ensures cases { MatchOption result (values_of name.now (map (header_bytes head.now) fields.now) ≡ [])
        (λ r. values_of name.now (map (header_bytes head.now) fields.now)
        ≡ r.0.now ∷ values_of name.now (map (header_bytes head.now) r.1.now)) }
    ensures rest { IfSome result (λ r. All (IsHeaderWithin (length head.now)) r.1.now) }
    ensures shorter { IfSome result (λ r. length r.1.now < length fields.now) }
{
    let mut rest = fields;
    'fields: while let [field, after @ ..] = rest {
        if is_name(name, field.name.of(head)) {
            return Some((field.value.of(head), after));
        }
        rest = after;
    }
    None
}

// The number with one more digit.
#[tactic(auto, using(std::proofs::lemmas::Grind::common_steps))]
fn with_digit(count: u64, digit: u8) -> u64
    requires digit { is_ascii_digit digit ≡ true }
    requires room { count < 10 ^ 10 }
    ensures value { result ≡ count * 10 + digit_value digit }
    ensures small { digit_value digit ≤ 9 }
{
    count * 10 + (digit - b'0') as u64
}

// The number that 1 to 10 digits write.
#[tactic(auto, using(crate::proofs::Digits::one_more, crate::proofs::Digits::some_power))]
fn length_of(value: &[u8]) -> BodyLength
    ensures { result ≡ length_of value.now }
{
    if value.is_empty() || value.len() > 10 {
        return BodyLength::Unclear;
    }
    let mut rest = value;
    let mut count: u64 = 0;
    'digits: while let Some((digit, after)) = rest.split_first() {
        if !digit.is_ascii_digit() {
            return BodyLength::Unclear;
        }
        count = with_digit(count, *digit);
        rest = after;
    }
    BodyLength::Given(count)
}

fn body_length(head: &[u8], fields: &[HeaderSpan]) -> BodyLength
    requires { All (IsHeaderWithin (length head.now)) fields.now }
    ensures { result ≡ body_length (values_of (codes "content-length") (map (header_bytes head.now) fields.now)) }
{
    let Some((value, rest)) = first_value(head, fields, b"content-length") else {
        return BodyLength::Absent;
    };
    match first_value(head, rest, b"content-length") {
        Some(_) => BodyLength::Unclear,
        None => length_of(value),
    }
}

fn has_coding(head: &[u8], fields: &[HeaderSpan]) -> bool
    requires { All (IsHeaderWithin (length head.now)) fields.now }
    ensures { result ≡ is_there (values_of (codes "transfer-encoding") (map (header_bytes head.now) fields.now)) }
{
    first_value(head, fields, b"transfer-encoding").is_some()
}

fn is_blank(b: u8) -> bool
    ensures { result ≡ is_ows b }
{
    b == b' ' || b == b'\t'
}

fn skip_blanks(bytes: &[u8]) -> &[u8]
    ensures { result.now ≡ skip_ows bytes.now }
{
    let mut rest = bytes;
    'blanks: while let [b, after @ ..] = rest {
        if !is_blank(*b) {
            return rest;
        }
        rest = after;
    }
    rest
}

// The bytes without the blanks at both ends.
#[tactic(auto, using(crate::proofs::Trims::trimmed, crate::proofs::Trims::trimmed_empty, crate::proofs::Trims::one_less))]
fn trim(bytes: &[u8]) -> &[u8]
    ensures { result.now ≡ trim_ows bytes.now }
{
    let mut rest = skip_blanks(bytes);
    'blanks: while let Some((b, before)) = rest.split_last() {
        if !is_blank(*b) {
            return rest;
        }
        rest = before;
    }
    rest
}

fn is_close(word: &[u8]) -> bool
    ensures { result ≡ is_name (codes "close") (trim_ows word.now) }
{
    is_name(b"close", trim(word))
}

// The bytes before the first comma and those after it.
fn cut_word(value: &[u8]) -> Option<(&[u8], &[u8])>
    ensures cases { MatchOption result (slice_split (λ b. b == 44) value.now ≡ value.now ∷ [])
        (λ r. slice_split (λ b. b == 44) value.now ≡ r.0.now ∷ slice_split (λ b. b == 44) r.1.now) }
    ensures shorter { IfSome result (λ r. length r.1.now < length value.now) }
{
    match place_of(b',', value) {
        Some(at) => Some((&value[..at], &value[at + 1..])),
        None => None,
    }
}

fn has_close(value: &[u8]) -> bool
    ensures { result ≡ has_close value.now }
{
    let mut rest = value;
    'words: while let Some((word, after)) = cut_word(rest) {
        if is_close(word) {
            return true;
        }
        rest = after;
    }
    is_close(rest)
}

fn says_close(head: &[u8], fields: &[HeaderSpan]) -> bool
    requires { All (IsHeaderWithin (length head.now)) fields.now }
    ensures { result ≡ says_close (values_of (codes "connection") (map (header_bytes head.now) fields.now)) }
{
    let mut rest = fields;
    'values: while let Some((value, after)) = first_value(head, rest, b"connection") {
        if has_close(value) {
            return true;
        }
        rest = after;
    }
    false
}

fn closes(version: u8, head: &[u8], fields: &[HeaderSpan]) -> bool
    requires { All (IsHeaderWithin (length head.now)) fields.now }
    ensures { result ≡ (version == 0 || says_close (values_of (codes "connection") (map (header_bytes head.now) fields.now))) }
{
    version == 0 || says_close(head, fields)
}

/// What the parsed head asks for.
#[tactic(auto, unfolding(crate::specs::Asks::asks_of))]
pub fn asks_of(head: &[u8], fields: &[HeaderSpan], found: &RequestSpans) -> Asks
    requires { IsRequestWithin head.now fields.now found.now }
    ensures { (h : RequestHead) → IsRequestAt head.now fields.now found.now h → result ≡ asks_of h }
{
    let fields = &fields[..found.headers];
    Asks {
        method: method_of(found.method.of(head)),
        target: target_of(found.path.of(head)),
        has_coding: has_coding(head, fields),
        length: body_length(head, fields),
        closes: closes(found.version, head, fields),
    }
}
