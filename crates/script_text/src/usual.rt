// Lines that check a request in the form that proxies send: no value is made of them.
ghost use Rattle.std.specs.Prelude.{◌≡◌, IfOk, IfSome};
ghost use Rattle.json.specs.Lex.{tokens};
ghost use Rattle.request_tokens.specs.Usual.{IsUsual};
ghost use Rattle.script_text.specs.Script.{line_of};
ghost use Rattle.script_text.specs.Usual.{check_tokens};
ghost use Rattle.script_run.specs.Views.{line_view};

use json::{Reader, Scratch};
use rate_types::{OutOfMemory, Request};
use request_tokens::{
    Cursor, closes_object, is_at_end, opens_object, read_compact, read_usual, takes_key,
};
use script_run::Line;
use simdutf8::compat::from_utf8;
use std::alloc::Global;
use std::str::from_utf8_unchecked;

// The request of a line that has no space between its tokens and no escape.
#[inline(always)]
#[tactic(auto, using(crate::proofs::UsualLine::compact_tokens))]
fn compact_check(alloc: Global, text: &str) -> Result<Option<Request>, OutOfMemory>
    ensures tokens { IfOk result (λ o. IfSome o (λ r. tokens text.now ≡ check_tokens r)) }
    ensures usual { IfOk result (λ o. IfSome o (λ r. IsUsual r)) }
{
    let mut cursor = Cursor::new(text);
    if !cursor.takes("{\"check\":") {
        return Ok(None);
    }
    let Some(request) = read_compact(alloc, &mut cursor)? else {
        return Ok(None);
    };
    if cursor.takes("}") && cursor.is_empty() {
        Ok(Some(request))
    } else {
        Ok(None)
    }
}

// The request of a line, whatever spaces and escapes it has.
fn spaced_check(
    alloc: Global,
    scratch: &mut Scratch,
    text: &str,
) -> Result<Option<Request>, OutOfMemory>
    ensures tokens { IfOk result (λ o. IfSome o (λ r. tokens text.now ≡ check_tokens r)) }
    ensures usual { IfOk result (λ o. IfSome o (λ r. IsUsual r)) }
{
    let mut reader = Reader::new(text, scratch)?;
    if !opens_object(&mut reader) || !takes_key(&mut reader, "check") {
        return Ok(None);
    }
    let Some(request) = read_usual(alloc, &mut reader)? else {
        return Ok(None);
    };
    if closes_object(&mut reader) && is_at_end(&mut reader) {
        Ok(Some(request))
    } else {
        Ok(None)
    }
}

// The text of these bytes, where they are UTF-8. Most lines are ASCII, which is seen in less time.
fn text_of(bytes: &[u8]) -> Option<&str>
    ensures { IfSome result (λ text. text.now ≡ bytes.now) }
{
    if bytes.is_ascii() {
        return Some(unsafe { from_utf8_unchecked(bytes) });
    }
    from_utf8(bytes).ok()
}

/// The line of these bytes, where it checks a request in the usual form. None says nothing of what else it may be.
#[inline(always)]
#[tactic(auto, using(crate::proofs::UsualLine::usual_line))]
pub fn usual_line(
    alloc: Global,
    scratch: &mut Scratch,
    bytes: &[u8],
) -> Result<Option<Line>, OutOfMemory>
    ensures { IfOk result (λ o. IfSome o (λ l. line_view l ≡ line_of bytes.now)) }
{
    let Some(text) = text_of(bytes) else {
        return Ok(None);
    };
    if let Some(request) = compact_check(alloc, text)? {
        return Ok(Some(Line::Check(request)));
    }
    match spaced_check(alloc, scratch, text)? {
        Some(request) => Ok(Some(Line::Check(request))),
        None => Ok(None),
    }
}
