// The bytes of an answer.
ghost use Rattle.std.specs.Prelude.{◌≡◌, ◌≤◌, ◌<◌, ◌+◌, ◌++◌, [], true, None, ℕ, length as size, decimal, OnOk, OnErr, if◌then◌else◌, string_bytes, string_len, string_capacity};
ghost use Rattle.std.specs.List.{flat_map};
ghost use Rattle.http_front.specs.Front.{plain, is_json};
ghost use Rattle.http_front.specs.Printed as printed;

use crate::{Allow, Body, HttpAnswer};
use http::StatusCode;
use itoa::Buffer;
use rate_types::OutOfMemory;
use std::alloc::AllocError;

fn phrase(status: StatusCode) -> &'static str
    ensures { result.now ≡ printed.phrase status }
{
    status.canonical_reason().unwrap_or("")
}

// The text of a body.
fn body_text<'a>(status: StatusCode, body: &'a Body) -> &'a str
    ensures { result.now ≡ printed.body_bytes status body.now }
{
    match body {
        Body::Phrase => phrase(status),
        Body::Json(text) => text.as_str(),
    }
}

fn content_type(body: &Body) -> &'static str
    ensures { result.now ≡ printed.content_type body.now }
{
    match body {
        Body::Phrase => "text/plain",
        Body::Json(_) => "application/json",
    }
}

fn allow_line(allow: Option<Allow>) -> &'static str
    ensures { result.now ≡ printed.allow_line allow }
{
    match allow {
        Some(Allow::Post) => "Allow: POST\r\n",
        Some(Allow::Get) => "Allow: GET\r\n",
        None => "",
    }
}

fn close_line(closes: bool) -> &'static str
    ensures { result.now ≡ printed.close_line closes }
{
    if closes { "Connection: close\r\n" } else { "" }
}

// Pieces behind what the text says. Where they don't fit, there may be no memory for them.
fn push_all(out: &mut String, pieces: &[&str]) -> Result<(), AllocError>
    ensures text { OnOk result (string_bytes out.new ≡ string_bytes out.old ++ flat_map (λ piece. piece.now) pieces.now) }
    ensures capacity { string_capacity out.old ≤ string_capacity out.new }
    ensures full { OnErr result (string_capacity out.old < string_len out.old + size (flat_map (λ piece. piece.now) pieces.now)) }
{
    let Some((first, rest)) = pieces.split_first() else {
        return Ok(());
    };
    out.push_str(first)?;
    push_all(out, rest)
}

// The body, where it is sent.
fn sent_text<'a>(answer: &'a HttpAnswer) -> &'a str
    ensures { result.now ≡ (if answer.now.sends_body then printed.body_bytes answer.now.status answer.now.body else []) }
{
    if answer.sends_body {
        body_text(answer.status, &answer.body)
    } else {
        ""
    }
}

// The lines of the head, and the body.
#[tactic(auto, unfolding(crate::specs::Printed::head_lines))]
fn print_pieces<'a>(
    out: &mut String,
    status: &'a str,
    phrase: &'a str,
    kind: &'a str,
    length: &'a str,
    allow: &'a str,
    close: &'a str,
    body: &'a str,
) -> Result<(), AllocError>
    ensures text { (count : ℕ) → length.now ≡ decimal count → OnOk result (string_bytes out.new
        ≡ string_bytes out.old ++ (printed.head_lines status.now phrase.now kind.now count allow.now close.now ++ body.now)) }
    ensures capacity { string_capacity out.old ≤ string_capacity out.new }
    ensures full { OnErr result (string_capacity out.old < string_len out.old + (57 + (size status.now + (size phrase.now
        + (size kind.now + (size length.now + (size allow.now + (size close.now + size body.now)))))))) }
{
    let pieces = [
        "HTTP/1.1 ",
        status,
        " ",
        phrase,
        "\r\nContent-Type: ",
        kind,
        "\r\nContent-Length: ",
        length,
        "\r\n",
        allow,
        close,
        "\r\n",
        body,
    ];
    push_all(out, &pieces)
}

/// Prints an answer in place of what the text says. Where the text has room for 256 bytes, want of memory comes only over a JSON body.
pub fn print_answer(out: &mut String, answer: &HttpAnswer) -> Result<(), OutOfMemory>
    ensures text { OnOk result (string_bytes out.new ≡ printed.answer_bytes answer.now) }
    ensures capacity { string_capacity out.old ≤ string_capacity out.new }
    ensures memory { OnErr result (256 ≤ string_capacity out.old → is_json answer.now.body ≡ true) }
{
    let status = answer.status;
    let mut buffer = Buffer::new();
    let length = buffer.format(body_text(status, &answer.body).len());
    out.clear();
    print_pieces(
        out,
        status.as_str(),
        phrase(status),
        content_type(&answer.body),
        length,
        allow_line(answer.allow),
        close_line(answer.closes),
        sent_text(answer),
    )?;
    Ok(())
}

/// The answer to want of memory, which takes none.
pub fn out_of_memory_answer(sends_body: bool) -> &'static [u8]
    ensures { result.now ≡ printed.answer_bytes (plain 500 None sends_body true) }
{
    if sends_body {
        b"HTTP/1.1 500 Internal Server Error\r\nContent-Type: text/plain\r\nContent-Length: 21\r\nConnection: close\r\n\r\nInternal Server Error"
    } else {
        b"HTTP/1.1 500 Internal Server Error\r\nContent-Type: text/plain\r\nContent-Length: 21\r\nConnection: close\r\n\r\n"
    }
}
