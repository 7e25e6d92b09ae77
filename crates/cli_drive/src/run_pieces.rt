// The lines of a run, written piece by piece.
use cli_exits::Pieces;
use run_lines::RunLines;

/// The lines of a run, each of which is made when its turn to be written has come.
#[derive(Drop)]
pub struct RunPieces {
    pub lines: RunLines,
}

impl Pieces for RunPieces {
    ghost here = { λ r. r.lines.line };

    ghost rest = { λ r. r.lines.rest };

    fn next_piece(&mut self) -> bool {
        self.lines.advance()
    }

    fn piece(&self) -> &[u8] {
        self.lines.line()
    }
}
