// How many checks of a run were answered.
ghost use Rattle.std.specs.Prelude.{◌≡◌, ◌≤◌, length};
ghost use Rattle.script_run.specs.Answers.{is_admitted, is_denied, admitted_among, denied_among};

use crate::RunJournals;
use reply_text::{Outcome, Record};

/// How many checks were answered, by their overall codes.
#[derive(Clone, Copy, Debug, PartialEq, Eq)]
pub struct AnswerCounts {
    /// Those whose overall code is OK.
    pub admitted: usize,
    /// Those whose overall code is OVER_LIMIT.
    pub denied: usize,
}

fn is_admitted(outcome: &Outcome) -> bool
    ensures { result ≡ is_admitted outcome.now }
{
    match outcome {
        Outcome::Checked(answer) => !answer.over(),
        _ => false,
    }
}

fn is_denied(outcome: &Outcome) -> bool
    ensures { result ≡ is_denied outcome.now }
{
    match outcome {
        Outcome::Checked(answer) => answer.over(),
        _ => false,
    }
}

// Those of one journal, whose records are read once: each is dropped where it is counted.
fn count_journal(journal: Vec<Record>) -> AnswerCounts
    ensures admitted { result.admitted ≡ admitted_among journal.items }
    ensures denied { result.denied ≡ denied_among journal.items }
{
    let mut admitted = 0;
    let mut denied = 0;
    for rec in journal {
        if is_admitted(&rec.outcome) {
            admitted += 1;
        }
        if is_denied(&rec.outcome) {
            denied += 1;
        }
    }
    AnswerCounts { admitted, denied }
}

/// How many checks of a run were answered. The records are counted where they lie, whatever their order, and dropped.
pub fn count_answers(records: RunJournals) -> AnswerCounts
    ensures admitted { result.admitted ≡ admitted_among records }
    ensures denied { result.denied ≡ denied_among records }
    ensures few { (result.admitted ≤ length records) × (result.denied ≤ length records) }
{
    // There are fewer records than a usize can count, and so are those of each kind.
    let _most = records.len();
    let mut admitted = 0;
    let mut denied = 0;
    for journal in records.into_journals() {
        let counts = count_journal(journal.into_items());
        admitted += counts.admitted;
        denied += counts.denied;
    }
    AnswerCounts { admitted, denied }
}
