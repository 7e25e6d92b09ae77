// From lines of the input to lines of the output of `lookup`.
ghost use Rattle.std.specs.Prelude.{◌≡◌, ◌≤◌, false, IfOk, Some, map, length, string_bytes};
ghost use Rattle.rate_types.specs.declared.limits.TheConstants.{MOST_LINES};
ghost use Rattle.text_lines.specs.Lines.{cut};
ghost use Rattle.cli_exits.specs.Output.{with_line_feed};
ghost use Rattle.serde_json.specs.View.{view};
ghost use Rattle.serde_json.specs.Written.{has_float};
ghost use Rattle.rate_types.specs.Reading.{AnswersReading};
ghost use Rattle.proto_json.specs.Said.{reading_of};
ghost use Rattle.cli_lookup.specs.Lookup as texts;
ghost use Rattle.reply_text.specs.Texts.{refused_data};

use crate::found_json::founds_value;
use proto_json::{FormFault, parse};
use rate_types::{OutOfMemory, Place, Refused, Request};
use reply_text::{read_request, refused_value};
use rule_lookup::Index;
use serde_json::{Value, json};
use std::alloc::{AllocError, Global};
use text_lines::cut_line;

// The request that a line is.
#[tactic(auto, using(proto_json::specs::Laws::reading_then), unfolding(crate::specs::Lookup::request_line))]
fn read_line(alloc: Global, bytes: &[u8]) -> Result<Request, FormFault>
    ensures { AnswersReading (λ r. Some r) result (reading_of (texts.request_line bytes.now)) }
{
    let value = parse(alloc, bytes)?;
    let request = read_request(alloc, value, Place::empty(alloc))?;
    Ok(request)
}

#[tactic(auto, unfolding(crate::specs::Lookup::found_line_data))]
fn found_line_value(alloc: Global, line: u32, found: Value) -> Result<Value, AllocError>
    requires { has_float (view found) ≡ false }
    ensures value { IfOk result (λ v. view v ≡ texts.found_line_data line (view found)) }
    ensures whole { IfOk result (λ v. has_float (view v) ≡ false) }
{
    json!(in alloc; {"found": found, "line": line})
}

#[tactic(auto, unfolding(crate::specs::Lookup::refused_line_data))]
fn refused_line_value(alloc: Global, line: u32, refused: Value) -> Result<Value, AllocError>
    requires { has_float (view refused) ≡ false }
    ensures value { IfOk result (λ v. view v ≡ texts.refused_line_data line (view refused)) }
    ensures whole { IfOk result (λ v. has_float (view v) ≡ false) }
{
    json!(in alloc; {"line": line, "refused": refused})
}

// What a request finds, as the value of its line.
fn found_line(
    alloc: Global,
    index: &Index,
    line: u32,
    request: &Request,
) -> Result<Value, AllocError>
    ensures value { IfOk result (λ v. view v ≡ texts.found_line_data line (texts.founds_data index.now request.now)) }
    ensures whole { IfOk result (λ v. has_float (view v) ≡ false) }
{
    let found = founds_value(alloc, index, request)?;
    found_line_value(alloc, line, found)
}

// A refusal, as the value of its line.
fn refused_line(alloc: Global, line: u32, refused: &Refused) -> Result<Value, AllocError>
    ensures value { IfOk result (λ v. view v ≡ texts.refused_line_data line (refused_data refused.now)) }
    ensures whole { IfOk result (λ v. has_float (view v) ≡ false) }
{
    let refused = refused_value(alloc, refused)?;
    refused_line_value(alloc, line, refused)
}

// The value of a line of this number.
fn line_value(alloc: Global, index: &Index, line: u32, bytes: &[u8]) -> Result<Value, OutOfMemory>
    ensures value { IfOk result (λ v. view v ≡ texts.answer_data index.now line (reading_of (texts.request_line bytes.now))) }
    ensures whole { IfOk result (λ v. has_float (view v) ≡ false) }
{
    match read_line(alloc, bytes) {
        Ok(request) => Ok(found_line(alloc, index, line, &request)?),
        Err(FormFault::Refused(refused)) => Ok(refused_line(alloc, line, &refused)?),
        Err(FormFault::OutOfMemory) => Err(OutOfMemory),
    }
}

// The output line of a line of the input of this number, with its line feed.
fn lookup_line(alloc: Global, index: &Index, line: u32, bytes: &[u8]) -> Result<String, OutOfMemory>
    ensures { IfOk result (λ t. string_bytes t ≡ with_line_feed (texts.lookup_line_of index.now line bytes.now)) }
{
    let value = line_value(alloc, index, line, bytes)?;
    let mut text = value.to_string(alloc)?;
    text.push('\n')?;
    Ok(text)
}

/// The output of `lookup`: one line for each line of the input, in order.
#[tactic(auto, using(cli_exits::proofs::Lines::none_cut))]
pub fn lookup_lines(alloc: Global, index: &Index, bytes: &[u8]) -> Result<Vec<String>, OutOfMemory>
    requires { length (cut bytes.now) ≤ MOST_LINES }
    ensures { IfOk result (λ v. map (λ t. string_bytes t) v.items ≡ texts.lookup_output index.now bytes.now) }
{
    let mut lines = Vec::new(alloc);
    let mut rest = bytes;
    let mut line = 0u32;
    'lines: while rest.len() > 0 {
        let (first, after) = cut_line(rest);
        line += 1;
        lines.push(lookup_line(alloc, index, line, first)?)?;
        rest = after;
    }
    Ok(lines)
}
