// A plain program that says of claims of open windows whether they can stand beside each other.
use counter_directory::OpenClaim;
use rate_types::CounterKey;
use std::alloc::Global;

/// Whether the claims may be open at the moment on so many cells: each window has begun and hasn't ended, and no two
/// claims have one cell, one number or one counter.
pub(super) fn may_be_open(
    alloc: Global,
    claims: &[OpenClaim],
    moment: u64,
    cells: u32,
) -> Option<bool> {
    let may_be_open = are_timely(claims, moment)
        && are_below(claims, cells)
        && have_cells_of_their_own(alloc, claims)?
        && have_numbers_of_their_own(alloc, claims)?
        && have_counters_of_their_own(alloc, claims)?;
    Some(may_be_open)
}

fn are_timely(claims: &[OpenClaim], moment: u64) -> bool {
    for claim in claims {
        let start = claim.key.start.get();
        if moment < start || moment >= start + 60 {
            return false;
        }
    }
    true
}

fn are_below(claims: &[OpenClaim], cells: u32) -> bool {
    for claim in claims {
        if claim.spot.cell >= cells {
            return false;
        }
    }
    true
}

fn have_cells_of_their_own(alloc: Global, claims: &[OpenClaim]) -> Option<bool> {
    let mut cells = Vec::new(alloc);
    for claim in claims {
        cells.push(claim.spot.cell).ok()?;
    }
    cells.sort_unstable();
    cells.dedup();
    Some(cells.len() == claims.len())
}

fn have_numbers_of_their_own(alloc: Global, claims: &[OpenClaim]) -> Option<bool> {
    let mut numbers = Vec::new(alloc);
    for claim in claims {
        numbers.push(claim.spot.claim).ok()?;
    }
    numbers.sort_unstable();
    numbers.dedup();
    Some(numbers.len() == claims.len())
}

fn have_counters_of_their_own(alloc: Global, claims: &[OpenClaim]) -> Option<bool> {
    let mut counters: Vec<&CounterKey> = Vec::new(alloc);
    for claim in claims {
        counters.push(&claim.key).ok()?;
    }
    counters.sort_unstable();
    counters.dedup();
    Some(counters.len() == claims.len())
}
