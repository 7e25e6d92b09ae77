ghost use Rattle.std.specs.Prelude.{◌≡◌, ◌<◌, List, [], ℕ, length, slice_set, IfOk};
ghost use Rattle.agenda.specs.Reached.{reached};
ghost use Rattle.agenda.specs.Halves.{IsTower};

use crate::row::{Row, add_below, earlier_of_pair, next_row};
use std::alloc::{AllocError, Global};
use std::marker::Model;

/// The next moment of each index that has one.
#[derive(Drop)]
pub struct Agenda {
    base: Row,
    above: Vec<Row>,
}

impl Model for Agenda {
    ghost use Rattle.std.specs.Prelude.{ℕ, List, Option};
    ghost use Rattle.agenda.specs.Halves.{IsTower};

    ghost Value = { List (Option ℕ) };

    ghost view = { λ a. a.base };

    ghost invariant = { λ a. IsTower a.base a.above.items };
}

impl Agenda {
    /// An agenda without indices. It takes no memory.
    pub fn empty(alloc: Global) -> Agenda
        ensures { result ≡ [] }
    {
        Agenda {
            base: Row::of(Vec::new(alloc)),
            above: Vec::new(alloc),
        }
    }

    /// An agenda of these moments.
    pub fn of(alloc: Global, moments: Vec<Option<u64>>) -> Result<Agenda, AllocError>
        ensures { IfOk result (λ agenda. agenda ≡ moments.items) }
    {
        let base = Row::of(moments);
        let above = rows_over(alloc, base.moments())?;
        Ok(Agenda { base, above })
    }

    /// How many indices it has.
    pub fn len(&self) -> usize
        ensures { result ≡ length self.now }
    {
        self.base.moments().len()
    }

    /// Sets the moment of an index.
    pub fn set(&mut self, index: usize, moment: Option<u64>)
        requires { index < length self.old }
        ensures { self.new ≡ slice_set self.old index moment }
    {
        set_in(&mut self.base, &mut self.above, index, moment);
    }

    /// The indices whose moment isn't later than `at`, in rising order.
    #[tactic(auto, using(crate::proofs::Reaching::tower_reached))]
    pub fn reached(&self, alloc: Global, at: u64) -> Result<Vec<usize>, AllocError>
        ensures { IfOk result (λ found. found.items ≡ reached at self.now) }
    {
        let mut found = Vec::new(alloc);
        add_below(&mut found, self.base.moments(), &self.above, 0, at)?;
        Ok(found)
    }
}

/// The rows over these moments.
fn rows_over(alloc: Global, moments: &[Option<u64>]) -> Result<Vec<Row>, AllocError>
    ensures { IfOk result (λ above. IsTower moments.now above.items) }
{
    if moments.len() < 2 {
        return Ok(Vec::new(alloc));
    }
    let row = next_row(alloc, moments)?;
    let mut above = rows_over(alloc, row.moments())?;
    above.insert(0, row)?;
    Ok(above)
}

/// Sets the moment of an index of a row, and brings the rows above up to date as far as they change.
fn set_in(row: &mut Row, above: &mut [Row], index: usize, moment: Option<u64>)
    requires within { index < length row.old }
    requires tower { IsTower row.old above.old }
    ensures row { row.new ≡ slice_set row.old index moment }
    ensures tower { IsTower row.new above.new }
{
    if row.moments()[index] == moment {
        return;
    }
    row.set(index, moment);
    if let Some((next, rest)) = above.split_first_mut() {
        let earlier = earlier_of_pair(row.moments(), index);
        set_in(next, rest, index / 2, earlier);
    }
}
