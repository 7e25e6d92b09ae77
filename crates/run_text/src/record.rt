ghost use Rattle.std.specs.Prelude.{◌≡◌, IfOk, IfNone, IfSome, Some, None, string_bytes, false, option_map};
ghost use Rattle.std.specs.Str.{IsUtf8, bytes_eq};
ghost use Rattle.serde_json.specs.Read.{read};
ghost use Rattle.serde_json.specs.View.{view};
ghost use Rattle.serde_json.specs.Written.{has_float};
ghost use Rattle.reply_text.specs.Shown.{Shown};
ghost use Rattle.reply_text.specs.Texts as texts;
ghost use Rattle.run_text.specs.Found as found;
ghost use Rattle.run_text.specs.Views.{shown_of};
ghost use Rattle.run_text.specs.Reading.{IsRecordText};

use crate::bytes::value_of;
use crate::members::{at, text_of};
use crate::outcomes::said_in;
use crate::pointer::is_pointer;
use crate::{BadLine, Said};
use rate_types::OutOfMemory;
use reply_text::record_text;
use serde_json::{Value, json};
use std::alloc::{AllocError, Global};

// Why a line was refused, as a JSON value.
#[tactic(auto, unfolding(reply_text::specs::Texts::refused_data))]
fn why_value(alloc: Global, at: &str, number: u32) -> Result<Value, AllocError>
    ensures value { IfOk result (λ v. view v ≡ texts.refused_data (record { at = at.now; number = number })) }
    ensures whole { IfOk result (λ v. has_float (view v) ≡ false) }
{
    json!(in alloc; {"at": at, "number": number})
}

// The record of a refused line as a JSON value.
#[tactic(auto, unfolding(reply_text::specs::Texts::refused_line_data))]
fn line_value(alloc: Global, bad: &BadLine, why: Value) -> Result<Value, AllocError>
    requires { has_float (view why) ≡ false }
    ensures value { IfOk result (λ v. view v
        ≡ texts.refused_line_data bad.now.line bad.now.moment bad.now.version bad.now.worker (view why)) }
    ensures whole { IfOk result (λ v. has_float (view v) ≡ false) }
{
    let line = bad.line;
    let moment = bad.moment.get();
    let version = bad.version;
    let worker = bad.worker;
    json!(in alloc; {"line": line, "moment": moment, "refused": why, "version": version, "worker": worker})
}

// The text of the record of a refused line.
#[tactic(auto, unfolding(reply_text::specs::Texts::record_data))]
fn bad_text(alloc: Global, bad: &BadLine) -> Result<String, OutOfMemory>
    ensures { IfOk result (λ t. string_bytes t ≡ texts.record_text_of (shown_of (Said.Bad bad.now))) }
{
    let why = why_value(alloc, bad.at.as_str(), bad.number)?;
    let value = line_value(alloc, bad, why)?;
    let text = value.to_string(alloc)?;
    Ok(text)
}

// The text of a record.
fn said_text(alloc: Global, said: &Said) -> Result<String, OutOfMemory>
    ensures { IfOk result (λ t. string_bytes t ≡ texts.record_text_of (shown_of said.now)) }
{
    match said {
        Said::Run(rec) => record_text(alloc, rec),
        Said::Bad(bad) => bad_text(alloc, bad),
    }
}

// Whether a record has this text.
fn has_text(alloc: Global, said: &Said, bytes: &[u8]) -> Result<bool, OutOfMemory>
    ensures { IfOk result (λ b. b ≡ bytes_eq (texts.record_text_of (shown_of said.now)) bytes.now) }
{
    let text = said_text(alloc, said)?;
    Ok(text.as_bytes() == bytes)
}

fn is_placed(place: Option<&Value>) -> bool
    ensures { result ≡ found.is_placed (option_map (λ v. view v.now) place.entry) }
{
    match place {
        Some(place) => is_pointer(text_of(Some(place))),
        None => true,
    }
}

// The record that a value shows, where it has this text.
#[tactic(auto, using(crate::proofs::Reading::record_found, crate::proofs::Reading::record_missing, crate::proofs::Reading::placed_there))]
fn read_value(alloc: Global, value: &Value, bytes: &[u8]) -> Result<Option<Said>, OutOfMemory>
    requires { IsUtf8 bytes.now × (read bytes.now ≡ Some (view value.now)) }
    ensures some { IfOk result (λ o. IfSome o (λ s. IsRecordText bytes.now (shown_of s))) }
    ensures only { IfOk result (λ o. IfSome o (λ s. (r : Shown) → IsRecordText bytes.now r → r ≡ shown_of s)) }
    ensures none { IfOk result (λ o. IfNone o ((r : Shown) → ¬ (IsRecordText bytes.now r))) }
{
    if !is_placed(at(value.get("refused"), "at")) {
        return Ok(None);
    }
    let said = said_in(alloc, value)?;
    if has_text(alloc, &said, bytes)? {
        Ok(Some(said))
    } else {
        Ok(None)
    }
}

/// The record whose text these bytes are, and None exactly where they are the text of no record.
#[tactic(auto, using(crate::proofs::Reading::no_record))]
pub fn read_record(alloc: Global, bytes: &[u8]) -> Result<Option<Said>, OutOfMemory>
    ensures some { IfOk result (λ o. IfSome o (λ s. IsRecordText bytes.now (shown_of s))) }
    ensures only { IfOk result (λ o. IfSome o (λ s. (r : Shown) → IsRecordText bytes.now r → r ≡ shown_of s)) }
    ensures none { IfOk result (λ o. IfNone o ((r : Shown) → ¬ (IsRecordText bytes.now r))) }
{
    match value_of(alloc, bytes)? {
        Some(value) => read_value(alloc, &value, bytes),
        None => Ok(None),
    }
}
