// Journals merged by line.
ghost use Rattle.std.specs.Prelude.{◌≡◌};

use rate_types::{OutOfMemory, Seconds};
use reply_text::{Outcome, Record};
use script_run::{Journal, RunRecords, merge};
use std::alloc::Global;
use std::test::Fail;

fn record(line: u32, worker: u32) -> Record
    ensures { result.line ≡ line }
{
    Record {
        line,
        worker,
        version: 0,
        moment: Seconds::capped(7),
        outcome: Outcome::Installed,
    }
}

// A journal of one record for each of two lines, the second line's first.
fn merge_two(alloc: Global, first: Record, second: Record) -> Result<RunRecords, OutOfMemory>
    requires { (first.line ≡ 1) × (second.line ≡ 2) }
{
    let mut one = Journal::with_room(alloc, 1)?;
    one.push(second)?;
    let mut two = Journal::with_room(alloc, 1)?;
    two.push(first)?;
    let mut journals = Vec::with_capacity(alloc, 2)?;
    journals.push_reserved(one);
    journals.push_reserved(two);
    merge(2, journals).in_order(alloc)
}

#[test]
fn records_come_in_the_order_of_their_lines(rt: HostRuntime) -> Result<(), Fail> {
    let records = merge_two(rt.alloc(), record(1, 5), record(2, 3))?;
    let (Some(first), Some(second), None) = (records.get(0), records.get(1), records.get(2)) else {
        return Err("two records".into());
    };
    assert_eq!(rt; (first.line, first.worker), (1, 5));
    assert_eq!(rt; (second.line, second.worker), (2, 3));
    Ok(())
}

// A record that isn't short.
fn refused(line: u32, worker: u32) -> Record
    ensures { result.line ≡ line }
{
    Record {
        line,
        worker,
        version: 0,
        moment: Seconds::capped(7),
        outcome: Outcome::VersionsFull { versions: 1 },
    }
}

#[test]
fn journals_tell_whether_all_records_are_short(rt: HostRuntime) -> Result<(), Fail> {
    let short = merge_two(rt.alloc(), record(1, 5), record(2, 3))?;
    assert!(rt; short.are_short());
    let first = merge_two(rt.alloc(), refused(1, 5), record(2, 3))?;
    assert!(rt; !first.are_short());
    let last = merge_two(rt.alloc(), record(1, 5), refused(2, 3))?;
    assert!(rt; !last.are_short());
    Ok(())
}
