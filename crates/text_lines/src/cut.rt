// The first line of bytes, and the rest.
ghost use Rattle.std.specs.Prelude.{◌≡◌, ◌<◌, ◌∷◌, ◌==◌, length, position, IfSome};
ghost use Rattle.text_lines.specs.Lines.{cut};

use memchr::memchr;

/// The place of the first line feed.
#[tactic(auto, using(crate::proofs::Finding::first_byte))]
pub fn line_feed(bytes: &[u8]) -> Option<usize>
    ensures at { result ≡ position (λ b. b == 10) bytes.now }
    ensures within { IfSome result (λ at. at < length bytes.now) }
{
    memchr(b'\n', bytes)
}

/// The first line without its line feed, and the bytes after that line feed, which are none where the line has none.
pub fn cut_line(bytes: &[u8]) -> (&[u8], &[u8])
    requires { 0 < length bytes.now }
    ensures cut { cut bytes.now ≡ result.0.now ∷ cut result.1.now }
    ensures less { length result.1.now < length bytes.now }
{
    match line_feed(bytes) {
        Some(at) => (&bytes[..at], &bytes[at + 1..]),
        None => (bytes, &[]),
    }
}
