// What is left of a text whose tokens are spelled in one way each: no space between them, and no escape.
ghost use Rattle.std.specs.Prelude.{◌≡◌, ◌++◌, position, IfSome};
ghost use Rattle.std.specs.Bool.{MatchBool};
ghost use Rattle.json.specs.Print.{quoted};
ghost use Rattle.json.specs.Run.{is_stop};

use json_text::needs_escape;
use std::marker::Model;

/// What is left of a text.
#[derive(Drop)]
pub struct Cursor<'a> {
    rest: &'a str,
}

impl<'a> Model for Cursor<'a> {
    ghost use Rattle.std.specs.Prelude.{ℕ, List};

    ghost Value = { List ℕ };

    ghost view = { λ c. c.rest.now };
}

// The place of the first byte at which the plain text of a string stops.
fn first_stop(bytes: &[u8]) -> Option<usize>
    ensures { result ≡ position is_stop bytes.now }
{
    bytes.iter().position(|byte| needs_escape(*byte))
}

impl<'a> Cursor<'a> {
    ghost use Rattle.std.specs.Prelude.{◌≢◌, ℕ, List, []};

    /// All of a text is left.
    pub fn new(text: &'a str) -> Cursor<'a>
        ensures { result ≡ text.now }
    {
        Cursor { rest: text }
    }

    /// Whether nothing is left.
    pub fn is_empty(&self) -> bool
        ensures { MatchBool result (self.now ≡ []) (self.now ≢ []) }
    {
        self.rest.is_empty()
    }

    /// Takes a literal, where the text goes on with it.
    pub fn takes(&mut self, literal: &str) -> bool
        ensures { MatchBool result (self.old ≡ literal.now ++ self.new)
            ((self.new ≡ self.old) × ((rest : List ℕ) → self.old ≢ literal.now ++ rest)) }
    {
        match self.rest.strip_prefix(literal) {
            Some(rest) => {
                self.rest = rest;
                true
            }
            None => false,
        }
    }

    /// Takes a text with its quotes, where it is written without an escape.
    pub(crate) fn take_quoted(&mut self) -> Option<&'a str>
        ensures { IfSome result (λ text. self.old ≡ quoted text.now ++ self.new) }
    {
        if !self.takes("\"") {
            return None;
        }
        let left = self.rest;
        let end = first_stop(left.as_bytes())?;
        if !left.is_char_boundary(end) {
            return None;
        }
        let (text, rest) = left.split_at(end);
        self.rest = rest;
        if !self.takes("\"") {
            return None;
        }
        Some(text)
    }
}
