// The summary of a run.
ghost use Rattle.std.specs.Prelude.{◌≡◌, ◌≤◌, length, false, IfOk, string_bytes};
ghost use Rattle.serde_json.specs.View.{view};
ghost use Rattle.serde_json.specs.Written.{has_float};
ghost use Rattle.rate_types.specs.declared.limits.TheConstants.{MOST_LINES};
ghost use Rattle.load_gen.specs.Summary as spec;

use rate_types::OutOfMemory;
use script_run::{AnswerCounts, RunJournals, count_answers};
use serde_json::{Value, json};
use std::alloc::{AllocError, Global};

/// How many checks of a run were answered.
#[derive(Clone, Copy)]
pub struct CheckCounts {
    /// Those whose overall code is OK.
    pub admitted: u32,
    /// All of them.
    pub checks: u32,
    /// Those whose overall code is OVER_LIMIT.
    pub denied: u32,
}

fn count_checks(records: RunJournals) -> CheckCounts
    requires { length records ≤ MOST_LINES }
    ensures { result ≡ spec.counted records }
{
    let AnswerCounts { admitted, denied } = count_answers(records);
    CheckCounts {
        admitted: admitted as u32,
        checks: (admitted + denied) as u32,
        denied: denied as u32,
    }
}

#[tactic(auto, unfolding(crate::specs::Summary::counts_data))]
fn counts_value(alloc: Global, counts: CheckCounts) -> Result<Value, AllocError>
    ensures value { IfOk result (λ v. view v ≡ spec.counts_data counts) }
    ensures whole { IfOk result (λ v. has_float (view v) ≡ false) }
{
    let CheckCounts {
        admitted,
        checks,
        denied,
    } = counts;
    json!(in alloc; {"admitted": admitted, "checks": checks, "denied": denied})
}

// The line of counts, without its line feed.
fn counts_line(alloc: Global, counts: CheckCounts) -> Result<String, OutOfMemory>
    ensures { IfOk result (λ t. string_bytes t ≡ spec.counts_line counts) }
{
    let value = counts_value(alloc, counts)?;
    let text = value.to_string(alloc)?;
    Ok(text)
}

/// What came of the checks of a run, by its records: how many were answered, how many of them admitted and how many denied. Each lawful
/// run of a made-up load has the summary of that load. The records are dropped.
pub fn summary(alloc: Global, records: RunJournals) -> Result<String, OutOfMemory>
    requires { length records ≤ MOST_LINES }
    ensures counted { IfOk result (λ t. string_bytes t ≡ spec.counts_line (spec.counted records)) }
    ensures same { IfOk result (λ t. spec.IsSameForEachRun records (string_bytes t)) }
{
    let counts = count_checks(records);
    let text = counts_line(alloc, counts)?;
    Ok(text)
}
