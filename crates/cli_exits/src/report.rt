// What the program says of its exit on standard error.
ghost use Rattle.std.specs.Prelude.{◌≡◌, ◌++◌, ◌<◌, IfOk, OnOk, Some, None, option_map, string_bytes};
ghost use Rattle.std.specs.List.{flat_map};
ghost use Rattle.std.specs.Str.{chars};
ghost use Rattle.cli_exits.specs.Reports as reports;

use crate::Exit;
use rate_types::{At, OutOfMemory, Refused};
use std::alloc::Global;

fn hex_digit(n: u8) -> u8
    requires { n < 16 }
    ensures value { result ≡ reports.hex_digit n }
    ensures ascii { result < 128 }
{
    if n < 10 { b'0' + n } else { b'a' + (n - 10) }
}

// Adds a character, or what shows a control character.
fn push_shown(text: &mut String, c: char) -> Result<(), OutOfMemory>
    ensures { OnOk result (string_bytes text.new ≡ string_bytes text.old ++ reports.shown c) }
{
    if !c.is_control() {
        text.push(c)?;
        return Ok(());
    }
    let code = c as u32 as u8;
    text.push_str("\\u00")?;
    text.push(hex_digit(code / 16) as char)?;
    text.push(hex_digit(code % 16) as char)?;
    Ok(())
}

// Adds a place, on one line.
#[tactic(auto, unfolding(crate::specs::Reports::shown_place))]
fn push_place(text: &mut String, place: &str) -> Result<(), OutOfMemory>
    ensures { OnOk result (string_bytes text.new ≡ string_bytes text.old ++ reports.shown_place place.now) }
{
    for c in place.chars() {
        push_shown(text, c)?;
    }
    Ok(())
}

// The line of a refused configuration.
#[tactic(auto, unfolding(crate::specs::Reports::text_of))]
fn refused_text(alloc: Global, at: &At) -> Result<String, OutOfMemory>
    ensures { IfOk result (λ t. Some (string_bytes t) ≡ reports.text_of (Exit.ConfigRefused at.now)) }
{
    let file = at.file;
    let number = at.refused.number;
    let mut text = format!(in alloc; "ratelimit: config {file}: refused {number} at ")?;
    push_place(&mut text, at.refused.at.as_str())?;
    Ok(text)
}

// The line of refused settings.
#[tactic(auto, unfolding(crate::specs::Reports::text_of))]
fn settings_text(alloc: Global, refused: &Refused) -> Result<String, OutOfMemory>
    ensures { IfOk result (λ t. Some (string_bytes t) ≡ reports.text_of (Exit.SettingsRefused refused.now)) }
{
    let number = refused.number;
    let mut text = format!(in alloc; "ratelimit: settings: refused {number} at ")?;
    push_place(&mut text, refused.at.as_str())?;
    Ok(text)
}

impl Exit {
    /// The line on standard error, without its line feed; none after a whole run. It has no control character.
    #[tactic(auto, unfolding(crate::specs::Reports::text_of))]
    pub fn text(&self, alloc: Global) -> Result<Option<String>, OutOfMemory>
        ensures { IfOk result (λ t. option_map string_bytes t ≡ reports.text_of self.now) }
    {
        let text = match self {
            Exit::Done => return Ok(None),
            Exit::Usage => "ratelimit: usage",
            Exit::ConfigRefused(at) => return Ok(Some(refused_text(alloc, at)?)),
            Exit::TooLong => "ratelimit: input too long",
            Exit::ReadFault => "ratelimit: read failed",
            Exit::WriteFault => "ratelimit: write failed",
            Exit::FileFault(index) => {
                return Ok(Some(format!(in alloc; "ratelimit: file {index}: read failed")?));
            }
            Exit::OutOfMemory => "ratelimit: out of memory",
            Exit::ListenFault => "ratelimit: listen failed",
            Exit::SettingsRefused(refused) => return Ok(Some(settings_text(alloc, refused)?)),
        };
        Ok(Some(String::from_str(alloc, text)?))
    }
}
