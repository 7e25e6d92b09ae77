// Texts that need no escape in a JSON string.
ghost use Rattle.std.specs.Prelude.{◌≡◌};
ghost use Rattle.std.specs.List.{list_any};
ghost use Rattle.json.specs.Run.{is_stop};

/// Whether a byte of a text stands in a JSON string otherwise than as itself: a quote, a backslash or a control character.
#[inline(always)]
pub fn needs_escape(byte: u8) -> bool
    ensures { result ≡ is_stop byte }
{
    (byte == b'"') | (byte == b'\\') | (byte < 0x20)
}

/// Whether a byte of these needs an escape.
pub(crate) fn any_needs_escape(bytes: &[u8]) -> bool
    ensures { result ≡ list_any is_stop bytes.now }
{
    bytes.iter().any(|byte| needs_escape(*byte))
}
