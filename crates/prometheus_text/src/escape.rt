// The value of a label, as a line spells it between double quotes.
ghost use Rattle.std.specs.Prelude.{◌≡◌, ◌++◌, OnOk, string_bytes, encode_utf8};
ghost use Rattle.std.specs.List.{list_any};
ghost use Rattle.prometheus_text.specs.Escapes.{is_special, escaped};

use rate_types::OutOfMemory;

// Whether a byte stands in a label otherwise than as itself.
fn is_special(byte: u8) -> bool
    ensures { result ≡ is_special byte }
{
    (byte == b'\\') | (byte == b'"') | (byte == b'\n')
}

// Whether a byte of these does.
fn any_special(bytes: &[u8]) -> bool
    ensures { result ≡ list_any is_special bytes.now }
{
    bytes.iter().any(|byte| is_special(*byte))
}

// A character of a label.
fn put_char(out: &mut String, c: char) -> Result<(), OutOfMemory>
    ensures { OnOk result (string_bytes out.new ≡ string_bytes out.old ++ escaped (encode_utf8 c)) }
{
    match c {
        '\\' => out.push_str("\\\\")?,
        '"' => out.push_str("\\\"")?,
        '\n' => out.push_str("\\n")?,
        _ => out.push(c)?,
    }
    Ok(())
}

// A label, character by character.
fn put_chars(out: &mut String, label: &str) -> Result<(), OutOfMemory>
    ensures { OnOk result (string_bytes out.new ≡ string_bytes out.old ++ escaped label.now) }
{
    for c in label.chars() {
        put_char(out, c)?;
    }
    Ok(())
}

/// A label's value. One that needs no escape is copied as it is.
pub(crate) fn put_escaped(out: &mut String, label: &str) -> Result<(), OutOfMemory>
    ensures { OnOk result (string_bytes out.new ≡ string_bytes out.old ++ escaped label.now) }
{
    if any_special(label.as_bytes()) {
        return put_chars(out, label);
    }
    out.push_str(label)?;
    Ok(())
}
