// The text of the numbers of rules.
ghost use Rattle.std.specs.Prelude.{◌≡◌, ◌++◌, IfOk, OnOk, string_bytes};
ghost use Rattle.serde_json.specs.Data.{Items};
ghost use Rattle.serde_json.specs.Written.{compact_text, items_text};
ghost use Rattle.shared_stats.specs.Text.{rule_data, counted_before};

use json_text::{put_comma, put_number};
use rate_types::OutOfMemory;
use rule_stats::RuleNumbers;

// The numbers of a rule.
#[tactic(auto, unfolding(serde_json::proofs::OnLiterals::serde_json_on_literals, crate::specs::Text::rule_data))]
fn put_rule(out: &mut String, rule: u32, numbers: &RuleNumbers) -> Result<(), OutOfMemory>
    ensures { OnOk result (string_bytes out.new ≡ string_bytes out.old ++ compact_text (rule_data rule numbers.now)) }
{
    put_number(out, "{\"near\":", numbers.near)?;
    put_number(out, ",\"over\":", numbers.over)?;
    put_number(out, ",\"rule\":", u64::from(rule))?;
    put_number(out, ",\"seen\":", numbers.seen)?;
    put_number(out, ",\"shadow\":", numbers.shadow)?;
    put_number(out, ",\"total\":", numbers.total)?;
    put_number(out, ",\"within\":", numbers.within)?;
    out.push_str("}")?;
    Ok(())
}

/// The numbers of a rule among others, if it counted anything. Answers whether a rule stands there now, as one may have before.
pub(crate) fn put_counted(
    out: &mut String,
    later: bool,
    rule: u32,
    numbers: &RuleNumbers,
) -> Result<bool, OutOfMemory>
    ensures { IfOk result (λ now. (rest : Items) → string_bytes out.new ++ items_text now rest
        ≡ string_bytes out.old ++ items_text later (counted_before rule numbers.now rest)) }
{
    if numbers.total == 0 {
        return Ok(later);
    }
    put_comma(out, later)?;
    put_rule(out, rule, numbers)?;
    Ok(true)
}
