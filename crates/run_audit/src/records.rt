// From what texts show to records.
ghost use Rattle.std.specs.Prelude.{◌≡◌, ◌==◌, ◌&&◌, ℕ, IfOk, IfSome, IfNone, length, map, string_bytes};
ghost use Rattle.std.specs.Str.{bytes_eq};
ghost use Rattle.script_run.specs.Kinds.{IsOfKind, OneRecordPerLine};
ghost use Rattle.script_run.specs.ScriptLine.{bad};
ghost use Rattle.script_run.specs.Views.{line_view};
ghost use Rattle.run_text.specs.Views.{shown_of};

use rate_types::{OutOfMemory, Refused};
use reply_text::{Outcome, Record, Records};
use run_text::{BadLine, Said};
use script_run::Line;
use std::alloc::Global;

fn is_shown(shown: &BadLine, refused: &Refused) -> bool
    ensures { result ≡ (refused.now.number == shown.now.number && bytes_eq refused.now.at (string_bytes shown.now.at)) }
{
    refused.number == shown.number && refused.at.as_str() == shown.at.as_str()
}

// The refusal of a line, where the record shows it.
fn refusal_of(line: &Line, shown: &BadLine) -> Result<Option<Refused>, OutOfMemory>
    ensures some { IfOk result (λ o. IfSome o (λ r. r ≡ record { at = string_bytes shown.now.at; number = shown.now.number })) }
    ensures none { IfOk result (λ o. IfNone o
        (line_view line.now ≡ bad (record { at = string_bytes shown.now.at; number = shown.now.number }) → ⊥)) }
{
    match line {
        Line::Bad(refused) => {
            if is_shown(shown, refused) {
                Ok(Some(refused.clone()?))
            } else {
                Ok(None)
            }
        }
        Line::Check(_) => Ok(None),
        Line::Reload(_) => Ok(None),
        Line::Tick(_) => Ok(None),
    }
}

// The record that was read, where it shows what the line's kind asks for.
fn record_of(line: &Line, said: Said) -> Result<Option<Record>, OutOfMemory>
    ensures some { IfOk result (λ o. IfSome o (λ r. r ≡ shown_of said)) }
    ensures none { IfOk result (λ o. IfNone o (¬ (IsOfKind (line_view line.now) (shown_of said).outcome))) }
{
    match said {
        Said::Run(rec) => Ok(Some(rec)),
        Said::Bad(shown) => {
            let Some(refused) = refusal_of(line, &shown)? else {
                return Ok(None);
            };
            Ok(Some(Record {
                line: shown.line,
                worker: shown.worker,
                version: shown.version,
                moment: shown.moment,
                outcome: Outcome::Bad(refused),
            }))
        }
    }
}

/// The records that were read, and None only where they can't be one record for each line.
pub fn records_of(
    alloc: Global,
    lines: &[Line],
    said: Vec<Said>,
) -> Result<Option<Records>, OutOfMemory>
    ensures some { IfOk result (λ o. IfSome o (λ r. r ≡ map shown_of said.items)) }
    ensures none { IfOk result (λ o. IfNone o
        ((workers : ℕ) → ¬ (OneRecordPerLine workers (map line_view lines.now) (map shown_of said.items)))) }
{
    if said.len() != lines.len() {
        return Ok(None);
    }
    let mut records = Vec::with_capacity(alloc, lines.len())?;
    'said: for one in said {
        let Some(rec) = record_of(&lines[records.len()], one)? else {
            return Ok(None);
        };
        records.push_reserved(rec);
    }
    Ok(Some(Records::of(records)))
}
