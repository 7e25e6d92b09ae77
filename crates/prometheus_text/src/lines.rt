// The lines of a metric.
ghost use Rattle.std.specs.Prelude.{◌≡◌, ◌++◌, OnOk, string_bytes};
ghost use Rattle.prometheus_text.specs.Text.{head, labels_part, label_line, plain_line};

use crate::Labels;
use crate::escape::put_escaped;
use crate::kind::{Kind, kind_word};
use json_text::put_number;
use rate_types::OutOfMemory;
use std::fmt::Write;

/// The two lines that begin a metric.
pub(crate) fn put_head(
    out: &mut String,
    name: &str,
    help: &str,
    kind: Kind,
) -> Result<(), OutOfMemory>
    ensures { OnOk result (string_bytes out.new ≡ string_bytes out.old ++ head name.now help.now kind) }
{
    let kind = kind_word(kind);
    write!(out, "# HELP {name} {help}\n# TYPE {name} {kind}\n")?;
    Ok(())
}

// The labels of a line.
#[tactic(auto, using(crate::proofs::Spelling::grown_by_5))]
fn put_labels(out: &mut String, labels: &Labels) -> Result<(), OutOfMemory>
    ensures { OnOk result (string_bytes out.new ≡ string_bytes out.old ++ labels_part labels.now) }
{
    out.push_str("{domain=\"")?;
    put_escaped(out, labels.domain.as_str())?;
    out.push_str("\",path=\"")?;
    put_escaped(out, labels.path.as_str())?;
    out.push_str("\"}")?;
    Ok(())
}

/// The line of a rule.
#[tactic(auto, using(crate::proofs::Spelling::grown_by_4))]
pub(crate) fn put_label_line(
    out: &mut String,
    name: &str,
    labels: &Labels,
    number: u64,
) -> Result<(), OutOfMemory>
    ensures { OnOk result (string_bytes out.new ≡ string_bytes out.old ++ label_line name.now labels.now number) }
{
    out.push_str(name)?;
    put_labels(out, labels)?;
    put_number(out, " ", number)?;
    out.push_str("\n")?;
    Ok(())
}

/// The line of a metric without labels.
pub(crate) fn put_plain_line(out: &mut String, name: &str, number: u64) -> Result<(), OutOfMemory>
    ensures { OnOk result (string_bytes out.new ≡ string_bytes out.old ++ plain_line name.now number) }
{
    out.push_str(name)?;
    put_number(out, " ", number)?;
    out.push_str("\n")?;
    Ok(())
}
