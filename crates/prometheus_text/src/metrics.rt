// The metrics of rules.
ghost use Rattle.std.specs.Prelude.{◌≡◌, ◌++◌, length, OnOk, string_bytes};
ghost use Rattle.prometheus_text.specs.Escapes.{AreReadBack};
ghost use Rattle.prometheus_text.specs.Text as text;

use crate::Labels;
use crate::kind::Kind;
use crate::lines::{put_head, put_label_line};
use crate::metric::{Metric, help_of, name_of, number_of};
use rate_types::OutOfMemory;
use rule_stats::RuleNumbers;

// The line of a rule, if it counted anything.
fn put_counted(
    out: &mut String,
    metric: Metric,
    labels: &Labels,
    numbers: &RuleNumbers,
) -> Result<(), OutOfMemory>
    ensures { OnOk result (string_bytes out.new ≡ string_bytes out.old ++ text.counted_line metric labels.now numbers.now) }
{
    if numbers.total == 0 {
        return Ok(());
    }
    put_label_line(out, name_of(metric), labels, number_of(metric, numbers))
}

// A metric of all rules.
fn put_metric(
    out: &mut String,
    metric: Metric,
    labels: &[Labels],
    numbers: &[RuleNumbers],
) -> Result<(), OutOfMemory>
    requires { length labels.now ≡ length numbers.now }
    ensures { OnOk result (string_bytes out.new ≡ string_bytes out.old ++ text.metric metric labels.now numbers.now) }
{
    put_head(out, name_of(metric), help_of(metric), Kind::Counter)?;
    'rules: for rule in 0..labels.len() {
        put_counted(out, metric, &labels[rule], &numbers[rule])?;
    }
    Ok(())
}

/// Puts the six metrics of rules, given by their labels and by their numbers in the same order, behind a text. Want of memory may leave a
/// first part of them there.
pub fn put_metrics(
    out: &mut String,
    labels: &[Labels],
    numbers: &[RuleNumbers],
) -> Result<(), OutOfMemory>
    requires { length labels.now ≡ length numbers.now }
    ensures text { OnOk result (string_bytes out.new ≡ string_bytes out.old ++ text.prometheus_text labels.now numbers.now) }
    ensures read_back { OnOk result AreReadBack }
    ensures told_apart { OnOk result text.AreToldApart }
{
    put_metric(out, Metric::TotalHits, labels, numbers)?;
    put_metric(out, Metric::WithinLimit, labels, numbers)?;
    put_metric(out, Metric::NearLimit, labels, numbers)?;
    put_metric(out, Metric::OverLimit, labels, numbers)?;
    put_metric(out, Metric::OverLimitWithLocalCache, labels, numbers)?;
    put_metric(out, Metric::ShadowMode, labels, numbers)?;
    Ok(())
}
