// Why a line is refused, as JSON.
ghost use Rattle.std.specs.Prelude.{◌≡◌, false, IfOk, string_bytes};
ghost use Rattle.serde_json.specs.View.{view};
ghost use Rattle.serde_json.specs.Written.{compact_text, has_float};
ghost use Rattle.reply_text.specs.Texts as texts;

use rate_types::{OutOfMemory, Refused};
use serde_json::{Value, json};
use std::alloc::{AllocError, Global};

/// A refusal as a JSON value.
#[tactic(auto, unfolding(crate::specs::Texts::refused_data))]
pub fn refused_value(alloc: Global, refused: &Refused) -> Result<Value, AllocError>
    ensures value { IfOk result (λ v. view v ≡ texts.refused_data refused.now) }
    ensures whole { IfOk result (λ v. has_float (view v) ≡ false) }
{
    let at = refused.at.as_str();
    let number = refused.number;
    json!(in alloc; {"at": at, "number": number})
}

/// A refusal as a text.
pub fn refused_text(alloc: Global, refused: &Refused) -> Result<String, OutOfMemory>
    ensures { IfOk result (λ t. string_bytes t ≡ compact_text (texts.refused_data refused.now)) }
{
    let value = refused_value(alloc, refused)?;
    let text = value.to_string(alloc)?;
    Ok(text)
}

#[tactic(auto, unfolding(crate::specs::Texts::full_data))]
fn full_value(alloc: Global, live: u32, held: u32, wanted: u32) -> Result<Value, AllocError>
    ensures value { IfOk result (λ v. view v ≡ texts.full_data live held wanted) }
    ensures whole { IfOk result (λ v. has_float (view v) ≡ false) }
{
    json!(in alloc; {"held": held, "live": live, "name": "CountersFull", "wanted": wanted})
}

/// The numbers of a check that is refused for want of cells, as a text.
pub fn full_text(alloc: Global, live: u32, held: u32, wanted: u32) -> Result<String, OutOfMemory>
    ensures { IfOk result (λ t. string_bytes t ≡ compact_text (texts.full_data live held wanted)) }
{
    let value = full_value(alloc, live, held, wanted)?;
    let text = value.to_string(alloc)?;
    Ok(text)
}

#[tactic(auto, unfolding(crate::specs::Texts::spent_data))]
fn spent_value(alloc: Global, claims: u64, wanted: u32) -> Result<Value, AllocError>
    ensures value { IfOk result (λ v. view v ≡ texts.spent_data claims wanted) }
    ensures whole { IfOk result (λ v. has_float (view v) ≡ false) }
{
    json!(in alloc; {"claims": claims, "name": "ClaimsSpent", "wanted": wanted})
}

/// The numbers of a check that is refused for want of claims, as a text.
pub fn spent_text(alloc: Global, claims: u64, wanted: u32) -> Result<String, OutOfMemory>
    ensures { IfOk result (λ t. string_bytes t ≡ compact_text (texts.spent_data claims wanted)) }
{
    let value = spent_value(alloc, claims, wanted)?;
    let text = value.to_string(alloc)?;
    Ok(text)
}

#[tactic(auto, unfolding(crate::specs::Texts::versions_full_data))]
fn versions_full_value(alloc: Global, versions: u32) -> Result<Value, AllocError>
    ensures value { IfOk result (λ v. view v ≡ texts.versions_full_data versions) }
    ensures whole { IfOk result (λ v. has_float (view v) ≡ false) }
{
    json!(in alloc; {"name": "VersionsFull", "versions": versions})
}

/// The number of versions where no more may be installed, as a text.
pub fn versions_full_text(alloc: Global, versions: u32) -> Result<String, OutOfMemory>
    ensures { IfOk result (λ t. string_bytes t ≡ compact_text (texts.versions_full_data versions)) }
{
    let value = versions_full_value(alloc, versions)?;
    let text = value.to_string(alloc)?;
    Ok(text)
}
