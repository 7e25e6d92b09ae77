// The lines of texts as pieces of output.
ghost use Rattle.std.specs.Prelude.{◌≡◌, ◌++◌, [], ◌≤◌, length};
ghost use Rattle.std.specs.List.{flat_map};
ghost use Rattle.quota_stream.specs.Output.{with_feeds};

use cli_exits::Pieces;
use quota_stream::cut_output_line;
use rate_types::Word;

// What is left of a text, and the texts behind it: where the one has no byte, none of the others has any.
fn come_to_text<'a>(text: &'a [u8], texts: &'a [Word]) -> (&'a [u8], &'a [Word])
    ensures lines { with_feeds result.0.now ++ flat_map with_feeds result.1.now ≡ with_feeds text.now ++ flat_map with_feeds texts.now }
    ensures end { length result.0.now ≤ 0 → result.1.now ≡ [] }
{
    let mut text = text;
    let mut texts = texts;
    'texts: while text.len() == 0 {
        let Some((first, rest)) = texts.split_first() else {
            return (text, texts);
        };
        text = first.as_str().as_bytes();
        texts = rest;
    }
    (text, texts)
}

/// The lines of texts, each with its line feed.
#[derive(Drop)]
pub struct OutputLines<'a> {
    pub here: &'a [u8],
    pub text: &'a [u8],
    pub texts: &'a [Word],
}

impl Pieces for OutputLines<'_> {
    ghost here = { λ p. p.here.now };

    ghost rest = { λ p. with_feeds p.text.now ++ flat_map with_feeds p.texts.now };

    fn next_piece(&mut self) -> bool {
        let (text, texts) = come_to_text(self.text, self.texts);
        self.texts = texts;
        if text.len() == 0 {
            self.text = text;
            return false;
        }
        let (line, rest) = cut_output_line(text);
        self.here = line;
        self.text = rest;
        true
    }

    fn piece(&self) -> &[u8] {
        self.here
    }
}
