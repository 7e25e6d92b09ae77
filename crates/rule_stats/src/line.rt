// The text of the numbers of a rule.
ghost use Rattle.std.specs.Prelude.{◌≡◌, IfOk, false, string_bytes};
ghost use Rattle.serde_json.specs.View.{view};
ghost use Rattle.serde_json.specs.Written.{has_float};
ghost use Rattle.rule_stats.specs.Lines as spec;

use crate::numbers::RuleNumbers;
use rate_types::OutOfMemory;
use serde_json::{Value, json};
use std::alloc::{AllocError, Global};

#[tactic(auto, unfolding(crate::specs::Lines::numbers_data))]
fn numbers_value(
    alloc: Global,
    version: u64,
    rule: u64,
    numbers: &RuleNumbers,
) -> Result<Value, AllocError>
    ensures value { IfOk result (λ v. view v ≡ spec.numbers_data version rule numbers.now) }
    ensures whole { IfOk result (λ v. has_float (view v) ≡ false) }
{
    json!(in alloc; {
        "near": numbers.near,
        "over": numbers.over,
        "rule": rule,
        "seen": numbers.seen,
        "shadow": numbers.shadow,
        "total": numbers.total,
        "version": version,
        "within": numbers.within
    })
}

#[tactic(auto, unfolding(crate::specs::Lines::line_data))]
fn line_value(
    alloc: Global,
    version: u64,
    rule: u64,
    numbers: &RuleNumbers,
) -> Result<Value, AllocError>
    ensures value { IfOk result (λ v. view v ≡ spec.line_data version rule numbers.now) }
    ensures whole { IfOk result (λ v. has_float (view v) ≡ false) }
{
    let numbers = numbers_value(alloc, version, rule, numbers)?;
    json!(in alloc; {"stats": numbers})
}

/// The text of the numbers of a rule of a version, without a line feed.
pub(crate) fn line_text(
    alloc: Global,
    version: u64,
    rule: u64,
    numbers: &RuleNumbers,
) -> Result<String, OutOfMemory>
    ensures { IfOk result (λ t. string_bytes t ≡ spec.line_text version rule numbers.now) }
{
    let value = line_value(alloc, version, rule, numbers)?;
    let text = value.to_string(alloc)?;
    Ok(text)
}
