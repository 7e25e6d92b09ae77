ghost use Rattle.std.specs.Prelude.{◌≡◌, ◌<◌, ◌+◌, ◌*◌, ◌/◌, List, ℕ, None, length, slice_set, IfOk, slice_index_or, ◌++◌, OnOk};
ghost use Rattle.agenda.specs.Reached.{is_reached};
ghost use Rattle.agenda.specs.Halves.{halves, index_if, below};

use crate::moment::{earlier, is_reached};
use std::alloc::{AllocError, Global};
use std::marker::Model;

/// The moments of one row.
#[derive(Drop)]
pub struct Row {
    moments: Vec<Option<u64>>,
}

impl Model for Row {
    ghost use Rattle.std.specs.Prelude.{ℕ, List, Option};

    ghost Value = { List (Option ℕ) };

    ghost view = { λ r. r.moments.items };
}

impl Row {
    /// A row of these moments. It takes no memory.
    pub fn of(moments: Vec<Option<u64>>) -> Row
        ensures { result ≡ moments.items }
    {
        Row { moments }
    }

    /// Its moments.
    pub fn moments(&self) -> &[Option<u64>]
        ensures { result.now ≡ self.now }
    {
        self.moments.as_slice()
    }

    /// Sets the moment of an index.
    pub fn set(&mut self, index: usize, moment: Option<u64>)
        requires { index < length self.old }
        ensures { self.new ≡ slice_set self.old index moment }
    {
        self.moments[index] = moment;
    }
}

/// The earlier of the two moments to which an index belongs.
#[tactic(auto, using(crate::proofs::Halving::halving))]
pub fn earlier_of_pair(moments: &[Option<u64>], index: usize) -> Option<u64>
    requires { index < length moments.now }
    ensures { result ≡ slice_index_or (halves moments.now) (index / 2) None }
{
    let first = 2 * (index / 2);
    if first + 1 < moments.len() {
        earlier(moments[first], moments[first + 1])
    } else {
        moments[first]
    }
}

/// The next row over these moments.
#[tactic(auto, using(crate::proofs::Halving::rows))]
pub fn next_row(alloc: Global, moments: &[Option<u64>]) -> Result<Row, AllocError>
    ensures { IfOk result (λ row. row ≡ halves moments.now) }
{
    let mut row = Vec::new(alloc);
    for pair in 0..moments.len() - moments.len() / 2 {
        row.push(earlier_of_pair(moments, 2 * pair))?;
    }
    Ok(Row::of(row))
}

/// Whether the moment of an index, if it has one, isn't later than `at`.
fn reaches(moments: &[Option<u64>], index: usize, at: u64) -> bool
    ensures { result ≡ is_reached at (slice_index_or moments.now index None) }
{
    match moments.get(index) {
        Some(moment) => is_reached(*moment, at),
        None => false,
    }
}

/// Adds an index of these moments, if `at` reaches it.
fn add_index(
    found: &mut Vec<usize>,
    moments: &[Option<u64>],
    index: usize,
    at: u64,
) -> Result<(), AllocError>
    ensures { OnOk result (found.new.items ≡ found.old.items ++ index_if at moments.now index) }
{
    if reaches(moments, index, at) {
        found.push(index)?;
    }
    Ok(())
}

/// Adds the indices of these moments that `at` reaches below an index of the last of the rows over them, in rising order.
#[tactic(auto, using(crate::proofs::Reaching::below_cases))]
pub fn add_below(
    found: &mut Vec<usize>,
    moments: &[Option<u64>],
    rows: &[Row],
    index: usize,
    at: u64,
) -> Result<(), AllocError>
    ensures { OnOk result (found.new.items ≡ found.old.items ++ below at moments.now rows.now index) }
{
    let Some((row, rest)) = rows.split_last() else {
        return add_index(found, moments, index, at);
    };
    if reaches(row.moments(), index, at) {
        add_below(found, moments, rest, 2 * index, at)?;
        add_below(found, moments, rest, 2 * index + 1, at)?;
    }
    Ok(())
}
