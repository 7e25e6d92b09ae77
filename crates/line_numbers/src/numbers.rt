ghost use Rattle.std.specs.Prelude.{◌≡◌, ◌≤◌, ◌<◌, ◌+◌, ◌^◌, ℕ, [], ◌∷◌, ◌++◌, true, false, All, IfOk, MatchOption, vec_len};
ghost use Rattle.rate_types.specs.declared.limits.TheConstants.{MOST_PASSES};

use crate::drawer::Drawer;
use crate::drawers::{join_drawers, split_drawers};
use crate::rule::{ASKED, DrawerView, Draws, NumbersRule, Setup};
use atomic_table::Table;
use rate_types::OutOfMemory;
use std::alloc::Global;

/// The numbers from 0 on, one for each line of a script, each drawn once.
#[derive(Drop)]
pub struct LineNumbers {
    table: Table<u8, DrawerView, Setup, NumbersRule, Global>,
    lines: u64,
    ghost words: { (table.shared.table_id.words ≡ 1) × (table.shared.table_id.slots ≡ 0) },
    ghost setup: { table.shared.key.lines ≡ lines },
}

impl LineNumbers {
    ghost use Rattle.rate_types.specs.Sums.{total, times};
    ghost use Rattle.line_numbers.specs.Rising.{IsRising, IsDrawnOnce};
    ghost use Rattle.line_numbers.specs.Drawers.{numbers_id, lines_of, drawers_of, numbers_of, drawn, is_told, IsFresh};

    /// The numbers of so many lines, fewer than 2 ^ 63, and so many drawers, 1 to 1,024, which have drawn none.
    pub fn make(
        alloc: Global,
        lines: u64,
        drawers: u32,
    ) -> Result<(LineNumbers, Vec<Drawer>), OutOfMemory>
        requires lines { lines < 2 ^ 63 }
        requires drawers { (1 ≤ drawers) × (drawers ≤ MOST_PASSES) }
        ensures numbers { IfOk result (λ r. (lines_of r.0 ≡ lines) × (drawers_of r.0 ≡ drawers)) }
        ensures count { IfOk result (λ r. vec_len r.1 ≡ drawers) }
        ensures fresh { IfOk result (λ r. All (λ d. (numbers_of d ≡ numbers_id r.0) × IsFresh d) r.1.items) }
    {
        let setup = Setup {
            lines,
            drawers: u64::from(drawers),
        };
        let (table, seat) = Table::of_words(alloc, &[0], &setup)?;
        let seats = split_drawers(alloc, &table.shared, seat, drawers)?;
        Ok((LineNumbers { table, lines }, seats))
    }

    /// The next number, or none where all were drawn. It is one step, takes no memory and waits for nobody. A drawer
    /// that was told that there are no more takes no further step.
    pub fn draw(&self, drawer: &mut Drawer) -> Option<u64>
        requires drawer { numbers_of drawer.old ≡ numbers_id self.now }
        ensures drawn { MatchOption result (drawn drawer.new ≡ drawn drawer.old) (λ n. drawn drawer.new ≡ drawn drawer.old ++ n ∷ []) }
        ensures told { MatchOption result (is_told drawer.new ≡ true) (λ _. is_told drawer.new ≡ false) }
        ensures once_told { is_told drawer.old ≡ true → is_told drawer.new ≡ true }
        ensures below { All (λ n. n < lines_of self.now) (drawn drawer.new) }
        ensures rising { IsRising (drawn drawer.new) }
        ensures drawer { numbers_of drawer.new ≡ numbers_of drawer.old }
    {
        if drawer.has_ended {
            return None;
        }
        let found = self
            .table
            .shared
            .fetch_add::<Draws>(&mut drawer.seat, ASKED, 1);
        if found < self.lines {
            Some(found)
        } else {
            drawer.has_ended = true;
            None
        }
    }

    /// How many numbers were drawn, for which all drawers are given back: those from 0 on, each by one of them and once.
    /// All were drawn where one drawer was told that there are no more. It waits for nobody.
    pub fn close(self, drawers: Vec<Drawer>) -> u64
        requires drawers { All (λ d. numbers_of d ≡ numbers_id self) drawers.items }
        requires every { vec_len drawers ≡ drawers_of self }
        ensures once { (n : ℕ) → IsDrawnOnce result n (total (λ d. times n (drawn d)) drawers.items) }
        ensures most { result ≤ lines_of self }
        ensures whole { All (λ d. is_told d ≡ true → result ≡ lines_of self) drawers.items }
    {
        let LineNumbers { table, lines } = self;
        let all = join_drawers(&table.shared, drawers);
        let closed = table.close_with(all);
        let asked = closed.word(ASKED);
        closed.free();
        asked.min(lines)
    }
}
