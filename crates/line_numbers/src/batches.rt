ghost use Rattle.std.specs.Prelude.{◌≡◌, ◌≤◌, ◌<◌, ◌+◌, ◌*◌, ◌^◌, ℕ, [], ◌∷◌, ◌++◌, true, false, All, IfOk, OnOk, MatchOption, vec_len};
ghost use Rattle.std.specs.Bool.{IsTrue};
ghost use Rattle.rate_types.specs.declared.limits.TheConstants.{MOST_PASSES};

use crate::batch_drawer::BatchDrawer;
use crate::batch_drawers::{single_drawers, with_batches};
use crate::numbers::LineNumbers;
use rate_types::OutOfMemory;
use std::alloc::Global;

/// The numbers from 0 on, one for each line of a script, each drawn once. A drawer takes a batch of them by one addition to the word that all
/// drawers share, and gives them out one after the other.
#[derive(Drop)]
pub struct Batches {
    numbers: LineNumbers,
    lines: u64,
    size: u64,
    ghost sized: { 1 ≤ size },
    ghost few: { lines < 2 ^ 63 },
    ghost some: { 1 ≤ numbers.table.shared.key.drawers },
    ghost all: { (lines ≤ numbers.lines * size) × (numbers.lines * size < lines + size) },
}

// How many batches of a size there are, the last of which may be smaller.
fn batch_count(lines: u64, size: u64) -> u64
    requires size { 1 ≤ size }
    ensures all { (lines ≤ result * size) × (result * size < lines + size) }
    ensures few { result ≤ lines }
{
    let whole = lines / size;
    if lines % size == 0 { whole } else { whole + 1 }
}

impl Batches {
    ghost use Rattle.rate_types.specs.Sums.{total, times};
    ghost use Rattle.line_numbers.specs.Rising.{IsRising, IsDrawnOnce};
    ghost use Rattle.line_numbers.specs.Batches.{batches_id, batches_of, lines_in, drawers_in, given, is_done, IsNew};

    /// The numbers of so many lines, fewer than 2 ^ 63, in batches of this size, at least 1, and so many drawers, 1 to 1,024, which have
    /// drawn none.
    pub fn make(
        alloc: Global,
        lines: u64,
        size: u64,
        drawers: u32,
    ) -> Result<(Batches, Vec<BatchDrawer>), OutOfMemory>
        requires lines { lines < 2 ^ 63 }
        requires size { 1 ≤ size }
        requires drawers { (1 ≤ drawers) × (drawers ≤ MOST_PASSES) }
        ensures batches { IfOk result (λ r. (lines_in r.0 ≡ lines) × (drawers_in r.0 ≡ drawers)) }
        ensures count { IfOk result (λ r. vec_len r.1 ≡ drawers) }
        ensures fresh { IfOk result (λ r. All (λ d. (batches_of d ≡ batches_id r.0) × IsNew d) r.1.items) }
    {
        let (numbers, drawers) = LineNumbers::make(alloc, batch_count(lines, size), drawers)?;
        let drawers = with_batches(alloc, &numbers, drawers, lines, size)?;
        let batches = Batches {
            numbers,
            lines,
            size,
        };
        Ok((batches, drawers))
    }

    // Takes the next batch for a drawer that has given out its own. False where all were taken.
    fn take(&self, drawer: &mut BatchDrawer) -> bool
        requires drawer { batches_of drawer.old ≡ batches_id self.now }
        requires empty { drawer.old.end ≤ drawer.old.next }
        ensures drawer { batches_of drawer.new ≡ batches_of drawer.old }
        ensures given { given drawer.new ≡ given drawer.old }
        ensures some { IsTrue result → (drawer.new.next < drawer.new.end) × (is_done drawer.new ≡ false) }
        ensures none { result ≡ false → is_done drawer.new ≡ true }
        ensures done { is_done drawer.old ≡ true → is_done drawer.new ≡ true }
    {
        let Some(batch) = self.numbers.draw(&mut drawer.drawer) else {
            return false;
        };
        let start = batch * self.size;
        drawer.next = start;
        drawer.end = start.saturating_add(self.size).min(self.lines);
        true
    }

    // Gives out the next number of a drawer's batch.
    fn give(&self, drawer: &mut BatchDrawer) -> u64
        requires drawer { batches_of drawer.old ≡ batches_id self.now }
        requires some { drawer.old.next < drawer.old.end }
        ensures drawer { batches_of drawer.new ≡ batches_of drawer.old }
        ensures given { given drawer.new ≡ given drawer.old ++ result ∷ [] }
        ensures below { All (λ n. n < lines_in self.now) (given drawer.new) }
        ensures rising { IsRising (given drawer.new) }
        ensures done { is_done drawer.new ≡ is_done drawer.old }
    {
        let number = drawer.next;
        drawer.next = number + 1;
        drawer.log = drawer.log.and(&number, &());
        number
    }

    /// The next number, or none where all were drawn. It takes no memory and waits for nobody, and makes at most one step. A drawer that
    /// was told that there are no more takes no further step.
    pub fn draw(&self, drawer: &mut BatchDrawer) -> Option<u64>
        requires drawer { batches_of drawer.old ≡ batches_id self.now }
        ensures drawn { MatchOption result (given drawer.new ≡ given drawer.old) (λ n. given drawer.new ≡ given drawer.old ++ n ∷ []) }
        ensures told { MatchOption result (is_done drawer.new ≡ true) (λ _. is_done drawer.new ≡ false) }
        ensures once_told { is_done drawer.old ≡ true → is_done drawer.new ≡ true }
        ensures below { All (λ n. n < lines_in self.now) (given drawer.new) }
        ensures rising { IsRising (given drawer.new) }
        ensures drawer { batches_of drawer.new ≡ batches_of drawer.old }
    {
        if drawer.next < drawer.end {
            return Some(self.give(drawer));
        }
        if self.take(drawer) {
            Some(self.give(drawer))
        } else {
            None
        }
    }

    /// All drawers, each of which was told that there are no more, are given back: then each number was drawn once, by one of them. It
    /// waits for nobody.
    pub fn close(self, alloc: Global, drawers: Vec<BatchDrawer>) -> Result<(), OutOfMemory>
        requires drawers { All (λ d. batches_of d ≡ batches_id self) drawers.items }
        requires every { vec_len drawers ≡ drawers_in self }
        requires done { All (λ d. is_done d ≡ true) drawers.items }
        ensures once { OnOk result ((n : ℕ) → IsDrawnOnce (lines_in self) n (total (λ d. times n (given d)) drawers.items)) }
    {
        let Batches {
            numbers,
            lines: _,
            size: _,
        } = self;
        let drawers = single_drawers(alloc, drawers)?;
        numbers.close(drawers);
        Ok(())
    }
}
