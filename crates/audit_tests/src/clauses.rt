// Clauses of a lawful run, decided.
ghost use Rattle.std.specs.Prelude.{◌≡◌};

use rate_types::{Place, Refused, Seconds};
use reply_text::{Outcome, Record};
use run_audit::{moments_never_fall, one_record_per_line, versions_never_fall, versions_numbered};
use script_run::Line;
use std::alloc::Global;
use std::test::Fail;

fn record(line: u32, worker: u32, version: u32, moment: u64, outcome: Outcome) -> Record
    ensures { result.line ≡ line }
{
    Record {
        line,
        worker,
        version,
        moment: Seconds::capped(moment),
        outcome,
    }
}

fn ticked(line: u32, worker: u32, version: u32, moment: u64, now: u64) -> Record {
    record(
        line,
        worker,
        version,
        moment,
        Outcome::Ticked(Seconds::capped(now)),
    )
}

fn ticks(alloc: Global, first: u64, second: u64) -> Result<Vec<Line>, Fail> {
    Ok(vec![in alloc;
        Line::Tick(Seconds::capped(first)),
        Line::Tick(Seconds::capped(second)),
    ]?)
}

// Which of the clauses stand of two ticks from moment 1 on, by at most two workers.
fn stand(
    alloc: Global,
    lines: &[Line],
    records: &[Record],
) -> Result<(bool, bool, bool, bool), Fail> {
    let one_each = one_record_per_line(2, lines, records);
    if records.len() != lines.len() {
        return Ok((one_each, false, false, false));
    }
    let numbered = versions_numbered(alloc, lines, records)?;
    let versions = versions_never_fall(alloc, lines, records)?;
    let moments = moments_never_fall(alloc, Seconds::capped(1), lines, records)?;
    Ok((one_each, numbered, versions, moments))
}

#[test]
fn a_lawful_run_meets_the_clauses(rt: HostRuntime) -> Result<(), Fail> {
    let alloc = rt.alloc();
    let lines = ticks(alloc, 5, 3)?;
    let records = vec![in alloc; ticked(1, 0, 0, 5, 5), ticked(2, 0, 0, 5, 3)]?;
    let found = stand(alloc, &lines, &records)?;
    assert!(rt; found == (true, true, true, true));
    let records = vec![in alloc; ticked(1, 0, 0, 5, 5), ticked(2, 1, 0, 3, 3)]?;
    let found = stand(alloc, &lines, &records)?;
    assert!(rt; found == (true, true, true, true));
    Ok(())
}

#[test]
fn each_clause_is_broken_alone(rt: HostRuntime) -> Result<(), Fail> {
    let alloc = rt.alloc();
    let lines = ticks(alloc, 5, 3)?;
    let short = vec![in alloc; ticked(1, 0, 0, 5, 5)]?;
    let found = stand(alloc, &lines, &short)?;
    assert!(rt; found == (false, false, false, false));
    let swapped = vec![in alloc; ticked(2, 0, 0, 5, 5), ticked(1, 0, 0, 5, 3)]?;
    let found = stand(alloc, &lines, &swapped)?;
    assert!(rt; found == (false, true, true, true));
    let third_worker = vec![in alloc; ticked(1, 2, 0, 5, 5), ticked(2, 2, 0, 5, 3)]?;
    let found = stand(alloc, &lines, &third_worker)?;
    assert!(rt; found == (false, true, true, true));
    let unknown = vec![in alloc; ticked(1, 0, 0, 5, 5), ticked(2, 0, 1, 5, 3)]?;
    let found = stand(alloc, &lines, &unknown)?;
    assert!(rt; found == (true, false, true, true));
    let falling = vec![in alloc; ticked(1, 0, 1, 5, 5), ticked(2, 0, 0, 5, 3)]?;
    let found = stand(alloc, &lines, &falling)?;
    assert!(rt; found == (true, false, false, true));
    let earlier = vec![in alloc; ticked(1, 0, 0, 5, 5), ticked(2, 0, 0, 3, 3)]?;
    let found = stand(alloc, &lines, &earlier)?;
    assert!(rt; found == (true, true, true, false));
    let invented = vec![in alloc; ticked(1, 0, 0, 5, 5), ticked(2, 0, 0, 9, 3)]?;
    let found = stand(alloc, &lines, &invented)?;
    assert!(rt; found == (true, true, true, false));
    let another_number = vec![in alloc; ticked(1, 0, 0, 5, 4), ticked(2, 0, 0, 5, 3)]?;
    let found = stand(alloc, &lines, &another_number)?;
    assert!(rt; found == (true, true, true, false));
    Ok(())
}

#[test]
fn a_refused_line_shows_its_refusal(rt: HostRuntime) -> Result<(), Fail> {
    let alloc = rt.alloc();
    let refused = Refused {
        at: Place::empty(alloc).child("tick")?,
        number: 6,
    };
    let lines = vec![in alloc; Line::Bad(refused)]?;
    for (name, number, want) in [("tick", 6, true), ("tick", 7, false), ("tack", 6, false)] {
        let shown = Refused {
            at: Place::empty(alloc).child(name)?,
            number,
        };
        let records = vec![in alloc; record(1, 0, 0, 1, Outcome::Bad(shown))]?;
        assert!(rt; one_record_per_line(1, &lines, &records) == want);
    }
    Ok(())
}
