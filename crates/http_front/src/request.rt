// The request that a body is, and the text of its refusal.
ghost use Rattle.std.specs.Prelude.{◌≡◌, [], false, IfOk, IfSome, Some, Ok};
ghost use Rattle.json.specs.Lex.{tokens};
ghost use Rattle.serde_json.specs.View.{view};
ghost use Rattle.serde_json.specs.Written.{has_float};
ghost use Rattle.rate_types.specs.Reading.{AnswersReading};
ghost use Rattle.reply_text.specs.Texts.{refused_data};
ghost use Rattle.request_tokens.specs.Usual.{IsUsual, request_tokens};
ghost use Rattle.http_front.specs.Requests.{body_reading, refusal_data, refusal_text};

use json::{Reader, Scratch};
use proto_json::{FormFault, parse};
use rate_types::{OutOfMemory, Place, Refused, Request, Word};
use reply_text::{read_request, refused_value};
use request_tokens::{Cursor, is_at_end, read_compact, read_usual};
use serde_json::{Value, json};
use simdutf8::compat::from_utf8;
use std::alloc::{AllocError, Global};

// The request that a text is, where it has no space between its tokens and no escape, as proxies send it.
#[tactic(auto, using(crate::proofs::Compact::compact_tokens))]
fn compact_body(alloc: Global, text: &str) -> Result<Option<Request>, OutOfMemory>
    ensures tokens { IfOk result (λ o. IfSome o (λ r. tokens text.now ≡ request_tokens r [])) }
    ensures usual { IfOk result (λ o. IfSome o (λ r. IsUsual r)) }
{
    let mut cursor = Cursor::new(text);
    let Some(request) = read_compact(alloc, &mut cursor)? else {
        return Ok(None);
    };
    if cursor.is_empty() {
        Ok(Some(request))
    } else {
        Ok(None)
    }
}

// The same, whatever spaces and escapes it has.
fn spaced_body(alloc: Global, text: &str) -> Result<Option<Request>, OutOfMemory>
    ensures tokens { IfOk result (λ o. IfSome o (λ r. tokens text.now ≡ request_tokens r [])) }
    ensures usual { IfOk result (λ o. IfSome o (λ r. IsUsual r)) }
{
    let mut scratch = Scratch::new(alloc);
    let mut reader = Reader::new(text, &mut scratch)?;
    let Some(request) = read_usual(alloc, &mut reader)? else {
        return Ok(None);
    };
    if is_at_end(&mut reader) {
        Ok(Some(request))
    } else {
        Ok(None)
    }
}

// The request that a body is, where it has the form that proxies send: no value is made of it.
#[tactic(auto, using(request_tokens::proofs::Laws::usual_reads), unfolding(crate::specs::Requests::body_reading))]
fn usual_body(alloc: Global, body: &[u8]) -> Result<Option<Request>, OutOfMemory>
    ensures { IfOk result (λ o. IfSome o (λ r. body_reading body.now ≡ Ok (Some r))) }
{
    let Ok(text) = from_utf8(body) else {
        return Ok(None);
    };
    match compact_body(alloc, text)? {
        Some(request) => Ok(Some(request)),
        None => spaced_body(alloc, text),
    }
}

// The request that a body is, by its value.
#[tactic(auto, using(proto_json::specs::Laws::reading_then), unfolding(crate::specs::Requests::body_reading))]
fn any_body(alloc: Global, body: &[u8]) -> Result<Request, FormFault>
    ensures { AnswersReading (λ r. Some r) result (body_reading body.now) }
{
    let value = parse(alloc, body)?;
    let request = read_request(alloc, value, Place::empty(alloc))?;
    Ok(request)
}

/// The request that a body is.
pub fn read_body(alloc: Global, body: &[u8]) -> Result<Request, FormFault>
    ensures { AnswersReading (λ r. Some r) result (body_reading body.now) }
{
    match usual_body(alloc, body)? {
        Some(request) => Ok(request),
        None => any_body(alloc, body),
    }
}

#[tactic(auto, unfolding(crate::specs::Requests::refusal_data))]
fn refusal_value(alloc: Global, why: Value) -> Result<Value, AllocError>
    requires { has_float (view why) ≡ false }
    ensures value { IfOk result (λ v. view v ≡ refusal_data (view why)) }
    ensures whole { IfOk result (λ v. has_float (view v) ≡ false) }
{
    json!(in alloc; {"refused": why})
}

/// The text that says why a body is refused.
pub fn refusal_text(alloc: Global, refused: &Refused) -> Result<Word, OutOfMemory>
    ensures { IfOk result (λ w. w ≡ refusal_text (refused_data refused.now)) }
{
    let why = refused_value(alloc, refused)?;
    let value = refusal_value(alloc, why)?;
    let text = value.to_string(alloc)?;
    Ok(Word::of(text))
}
