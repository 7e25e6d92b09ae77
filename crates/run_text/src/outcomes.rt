// What came of a line, as a record shows it.
ghost use Rattle.std.specs.Prelude.{◌≡◌, IfOk};
ghost use Rattle.serde_json.specs.View.{view};
ghost use Rattle.run_text.specs.Found as found;
ghost use Rattle.run_text.specs.Views.{shown_of};

use crate::members::{at, moment_of, text_of, u32_of, whole_of};
use crate::statuses::answer_in;
use crate::{BadLine, Said};
use rate_types::OutOfMemory;
use reply_text::{Outcome, Record};
use serde_json::Value;
use std::alloc::Global;

// Why a check or a reload was refused.
fn refused_in(why: &Value) -> Outcome
    ensures { result ≡ found.refused_in (view why.now) }
{
    match (why.get("live"), why.get("claims")) {
        (Some(live), _) => Outcome::Full {
            live: u32_of(Some(live)),
            held: u32_of(why.get("held")),
            wanted: u32_of(why.get("wanted")),
        },
        (None, Some(claims)) => Outcome::Spent {
            claims: whole_of(Some(claims)),
            wanted: u32_of(why.get("wanted")),
        },
        (None, None) => Outcome::VersionsFull {
            versions: u32_of(why.get("versions")),
        },
    }
}

// What came of a line that was run.
#[tactic(auto, unfolding(crate::specs::Found::outcome_in))]
fn outcome_in(alloc: Global, value: &Value) -> Result<Outcome, OutOfMemory>
    ensures { IfOk result (λ o. o ≡ found.outcome_in (view value.now)) }
{
    match (
        value.get("counts"),
        value.get("ticked"),
        value.get("refused"),
    ) {
        (Some(counts), _, _) => {
            let answer = answer_in(alloc, Some(counts), value.get("reply"))?;
            Ok(Outcome::Checked(answer))
        }
        (None, Some(ticked), _) => Ok(Outcome::Ticked(moment_of(Some(ticked)))),
        (None, None, Some(why)) => Ok(refused_in(why)),
        (None, None, None) => Ok(Outcome::Installed),
    }
}

/// The record that a value shows.
#[tactic(auto, unfolding(crate::specs::Found::record_in))]
pub fn said_in(alloc: Global, value: &Value) -> Result<Said, OutOfMemory>
    ensures { IfOk result (λ s. shown_of s ≡ found.record_in (view value.now)) }
{
    let line = u32_of(value.get("line"));
    let worker = u32_of(value.get("worker"));
    let version = u32_of(value.get("version"));
    let moment = moment_of(value.get("moment"));
    let refused = value.get("refused");
    if let Some(place) = at(refused, "at") {
        let number = u32_of(at(refused, "number"));
        let at = String::from_str(alloc, text_of(Some(place)))?;
        return Ok(Said::Bad(BadLine {
            line,
            worker,
            version,
            moment,
            at,
            number,
        }));
    }
    let outcome = outcome_in(alloc, value)?;
    Ok(Said::Run(Record {
        line,
        worker,
        version,
        moment,
        outcome,
    }))
}
