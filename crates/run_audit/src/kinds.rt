ghost use Rattle.std.specs.Prelude.{◌≡◌, ◌↔◌, ◌&&◌, ◌==◌, ◌+◌, ◌<◌, IsTrue, length, map};
ghost use Rattle.std.specs.Str.{bytes_eq};
ghost use Rattle.script_run.specs.Kinds.{IsOfKind, IsRecordOf, OneRecordPerLine};
ghost use Rattle.script_run.specs.Views.{line_view};

use crate::connectives::both;
use crate::{Fact, each_line};
use rate_types::Refused;
use reply_text::{Outcome, Record};
use script_run::Line;

fn is_same(shown: &Refused, refused: &Refused) -> bool
    ensures { result ≡ (shown.now.number == refused.now.number && bytes_eq shown.now.at refused.now.at) }
{
    shown.number == refused.number && shown.at.as_str() == refused.at.as_str()
}

// Whether two refusals are equal.
#[tactic(auto, using(crate::proofs::SameRefusal::same_refusal))]
fn is_refusal(shown: &Refused, refused: &Refused) -> bool
    ensures { IsTrue result ↔ (shown.now ≡ refused.now) }
{
    let same = is_same(shown, refused);
    same
}

// Whether an outcome is one of a line's kind.
fn is_of_kind(line: &Line, outcome: &Outcome) -> bool
    ensures { IsTrue result ↔ IsOfKind (line_view line.now) outcome.now }
{
    match (line, outcome) {
        (Line::Check(_), Outcome::Checked(_)) => true,
        (Line::Check(_), Outcome::Full { .. }) => true,
        (Line::Check(_), Outcome::Spent { .. }) => true,
        (Line::Check(_), Outcome::Ticked(_)) => false,
        (Line::Check(_), Outcome::Installed) => false,
        (Line::Check(_), Outcome::Bad(_)) => false,
        (Line::Check(_), Outcome::VersionsFull { .. }) => false,
        (Line::Reload(_), Outcome::Installed) => true,
        (Line::Reload(_), Outcome::VersionsFull { .. }) => true,
        (Line::Reload(_), Outcome::Checked(_)) => false,
        (Line::Reload(_), Outcome::Full { .. }) => false,
        (Line::Reload(_), Outcome::Spent { .. }) => false,
        (Line::Reload(_), Outcome::Ticked(_)) => false,
        (Line::Reload(_), Outcome::Bad(_)) => false,
        (Line::Tick(_), Outcome::Ticked(_)) => true,
        (Line::Tick(_), Outcome::Checked(_)) => false,
        (Line::Tick(_), Outcome::Full { .. }) => false,
        (Line::Tick(_), Outcome::Spent { .. }) => false,
        (Line::Tick(_), Outcome::Installed) => false,
        (Line::Tick(_), Outcome::Bad(_)) => false,
        (Line::Tick(_), Outcome::VersionsFull { .. }) => false,
        (Line::Bad(refused), Outcome::Bad(shown)) => is_refusal(shown, refused),
        (Line::Bad(_), Outcome::Checked(_)) => false,
        (Line::Bad(_), Outcome::Full { .. }) => false,
        (Line::Bad(_), Outcome::Spent { .. }) => false,
        (Line::Bad(_), Outcome::Installed) => false,
        (Line::Bad(_), Outcome::Ticked(_)) => false,
        (Line::Bad(_), Outcome::VersionsFull { .. }) => false,
    }
}

// The kind of a record is its line's.
fn has_kind(line: &Line, rec: &Record) -> bool
    ensures { IsTrue result ↔ IsOfKind (line_view line.now) rec.now.outcome }
{
    is_of_kind(line, &rec.outcome)
}

fn is_numbered(before: &[Line], rec: &Record) -> bool
    ensures { IsTrue result ↔ (rec.now.line ≡ length before.now + 1) }
{
    rec.line as u64 == before.len() as u64 + 1
}

fn is_by_worker(workers: u32, rec: &Record) -> bool
    ensures { IsTrue result ↔ (rec.now.worker < workers) }
{
    rec.worker < workers
}

/// A record has its line's number, one of the workers, and an outcome of the line's kind.
#[derive(Clone, Copy)]
pub struct RecordOf {
    pub workers: u32,
}

impl Fact for RecordOf {
    ghost use Rattle.script_run.specs.Kinds.{IsRecordOf};

    ghost stands = { λ f before earlier l r. IsRecordOf f.workers before l r };

    fn decide(&self, before: &[Line], _earlier: &[Record], line: &Line, rec: &Record) -> bool {
        let numbered = is_numbered(before, rec);
        let by_worker = is_by_worker(self.workers, rec);
        let kind = has_kind(line, rec);
        let head = both(numbered, by_worker);
        let stands = both(head, kind);
        stands
    }
}

/// Whether there are as many records as lines, each that of the line at its place, by one of so many workers.
pub fn one_record_per_line(workers: u32, lines: &[Line], records: &[Record]) -> bool
    ensures { IsTrue result ↔ OneRecordPerLine workers (map line_view lines.now) records.now }
{
    if records.len() != lines.len() {
        return false;
    }
    let each = each_line(&RecordOf { workers }, lines, records);
    each
}
