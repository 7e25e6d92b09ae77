// Which statuses are equal.
ghost use Rattle.std.specs.Prelude.{◌≡◌};
ghost use Rattle.run_audit.specs.Equal as equal;

use rate_types::OwnLimit;
use rls_core::{Code, Count, Status};

fn same_code(one: Code, other: Code) -> bool
    ensures { result ≡ equal.same_code one other }
{
    match (one, other) {
        (Code::Ok, Code::Ok) => true,
        (Code::OverLimit, Code::OverLimit) => true,
        (Code::Ok, Code::OverLimit) => false,
        (Code::OverLimit, Code::Ok) => false,
    }
}

fn same_limit(one: Option<OwnLimit>, other: Option<OwnLimit>) -> bool
    ensures { result ≡ equal.same_limit one other }
{
    match (one, other) {
        (None, None) => true,
        (Some(one), Some(other)) => one.limit == other.limit
            && one.unit.rank() == other.unit.rank(),
        (None, Some(_)) => false,
        (Some(_), None) => false,
    }
}

fn same_count(one: Count, other: Count) -> bool
    ensures { result ≡ equal.same_count one other }
{
    match (one, other) {
        (Count::NoCount, Count::NoCount) => true,
        (Count::Before(one), Count::Before(other)) => one == other,
        (Count::Seen(one), Count::Seen(other)) => one == other,
        (Count::NoCount, Count::Before(_)) => false,
        (Count::NoCount, Count::Seen(_)) => false,
        (Count::Before(_), Count::NoCount) => false,
        (Count::Before(_), Count::Seen(_)) => false,
        (Count::Seen(_), Count::NoCount) => false,
        (Count::Seen(_), Count::Before(_)) => false,
    }
}

/// Whether two statuses are equal but for their rules.
pub fn same_shown(one: Status, other: Status) -> bool
    ensures { result ≡ equal.same_shown one other }
{
    same_code(one.code, other.code)
        && (same_limit(one.limit, other.limit)
            && (one.remaining == other.remaining
                && (one.reset == other.reset && same_count(one.count, other.count))))
}
