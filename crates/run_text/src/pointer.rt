// JSON pointers.
ghost use Rattle.std.specs.Prelude.{◌≡◌, false};
ghost use Rattle.run_text.specs.Pointers.{tildes, is_pointer};

// Whether each `~` stands before `0` or `1`.
fn escapes(bytes: &[u8]) -> bool
    ensures { result ≡ tildes false bytes.now }
{
    let mut after = false;
    'bytes: for b in bytes {
        if after && *b != b'0' && *b != b'1' {
            return false;
        }
        after = !after && *b == b'~';
    }
    !after
}

/// Whether a text is a JSON pointer (RFC 6901).
pub fn is_pointer(text: &str) -> bool
    ensures { result ≡ is_pointer text.now }
{
    match text.as_bytes() {
        [] => true,
        [first, rest @ ..] => *first == b'/' && escapes(rest),
    }
}
