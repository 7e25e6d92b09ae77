// The index of each word in the table: first the clock, then of each cell its gate and its count. The clock has eight words to itself, a
// line of memory. The cells lie in blocks of 64 lines, four on a line: the first 64 cells of a block begin one line each, so that
// threads on few cells share no line, and the next 64 stand behind them.
ghost use Rattle.std.specs.Prelude.{◌≡◌, ◌≤◌};
ghost use Rattle.counter_cells.specs.WordIndex.{words_of, gate_at, count_at};

pub(crate) const CLOCK: usize = 0;

/// How many words a table of so many cells has.
pub(crate) fn words(cells: u32) -> usize
    ensures { result ≡ words_of cells }
{
    512 * (cells as usize).div_ceil(256) + 8
}

pub(crate) fn gate(cell: u32) -> usize
    ensures { result ≡ gate_at cell }
{
    let cell = cell as usize;
    512 * (cell / 256) + 8 * (cell % 64) + 2 * (cell / 64 % 4) + 8
}

pub(crate) fn count(cell: u32) -> usize
    ensures { result ≡ count_at cell }
{
    gate(cell) + 1
}
