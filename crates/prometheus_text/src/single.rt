// Metrics of one number.
ghost use Rattle.std.specs.Prelude.{◌≡◌, ◌++◌, OnOk, string_bytes};
ghost use Rattle.prometheus_text.specs.Text.{single};

use crate::kind::Kind;
use crate::lines::{put_head, put_plain_line};
use rate_types::OutOfMemory;

// A metric of one number.
fn put_single(
    out: &mut String,
    name: &str,
    help: &str,
    kind: Kind,
    number: u64,
) -> Result<(), OutOfMemory>
    ensures { OnOk result (string_bytes out.new ≡ string_bytes out.old ++ single name.now help.now kind number) }
{
    put_head(out, name, help, kind)?;
    put_plain_line(out, name, number)
}

/// Puts a number that rises and falls, under this name, behind a text. What it counts is said in plain words on one line.
pub fn put_gauge(out: &mut String, name: &str, help: &str, number: u64) -> Result<(), OutOfMemory>
    ensures { OnOk result (string_bytes out.new ≡ string_bytes out.old ++ single name.now help.now Kind.Gauge number) }
{
    put_single(out, name, help, Kind::Gauge, number)
}

/// Puts a number that never falls while the process runs, under this name, behind a text. What it counts is said in plain words on one
/// line.
pub fn put_counter(out: &mut String, name: &str, help: &str, number: u64) -> Result<(), OutOfMemory>
    ensures { OnOk result (string_bytes out.new ≡ string_bytes out.old ++ single name.now help.now Kind.Counter number) }
{
    put_single(out, name, help, Kind::Counter, number)
}
