ghost use Rattle.std.specs.Prelude.{◌≡◌, ◌<◌, ◌∷◌, length};
ghost use Rattle.quota_stream.specs.Output.{with_feeds};

use text_lines::line_feed;

/// The first line of an output with its line feed, and the bytes after it.
pub fn cut_output_line(bytes: &[u8]) -> (&[u8], &[u8])
    requires { 0 < length bytes.now }
    ensures cut { with_feeds bytes.now ≡ result.0.now ∷ with_feeds result.1.now }
    ensures less { length result.1.now < length bytes.now }
{
    match line_feed(bytes) {
        Some(at) => bytes.split_at(at + 1),
        None => (bytes, &[]),
    }
}
