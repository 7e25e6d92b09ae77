// What is written piece by piece.

/// Pieces of output, each of which is come to in its turn.
pub trait Pieces {
    ghost use Rattle.std.specs.Prelude.{◌≡◌, ℕ, List, [], ◌∷◌, false};
    ghost use Rattle.std.specs.Bool.{OnTrue};

    /// The piece that was come to last.
    ghost here: { Self → List ℕ };

    /// Those that are left, in order.
    ghost rest: { Self → List (List ℕ) };

    /// Comes to the next piece. False where none is left.
    fn next_piece(&mut self) -> bool
        ensures more { OnTrue result (rest self.old ≡ here self.new ∷ rest self.new) }
        ensures end { result ≡ false → rest self.old ≡ [] };

    /// The piece that was come to last.
    fn piece(&self) -> &[u8]
        ensures { result.now ≡ here self.now };
}

/// Texts as pieces.
#[derive(Drop)]
pub struct TextPieces<'a> {
    pub here: &'a [u8],
    pub rest: &'a [String],
}

impl Pieces for TextPieces<'_> {
    ghost use Rattle.std.specs.Prelude.{map, string_bytes};

    ghost here = { λ p. p.here.now };

    ghost rest = { λ p. map (λ t. string_bytes t) p.rest.now };

    fn next_piece(&mut self) -> bool {
        match self.rest.split_first() {
            Some((text, rest)) => {
                self.here = text.as_bytes();
                self.rest = rest;
                true
            }
            None => false,
        }
    }

    fn piece(&self) -> &[u8] {
        self.here
    }
}
