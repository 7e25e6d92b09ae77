// The texts of the numbers of rules.
ghost use Rattle.std.specs.Prelude.{◌≡◌, ◌++◌, List, map, OnOk, string_bytes};
ghost use Rattle.rule_stats.specs.Lines.{rule_texts, version_texts};

use crate::line::line_text;
use crate::numbers::RuleNumbers;
use crate::version_numbers::VersionNumbers;
use rate_types::OutOfMemory;
use std::alloc::Global;

// Adds the texts of the rules of a version that counted anything.
fn push_rules(
    alloc: Global,
    texts: &mut Vec<String>,
    version: u64,
    rules: &[RuleNumbers],
) -> Result<(), OutOfMemory>
    ensures { OnOk result (map (λ t. string_bytes t) texts.new.items
        ≡ map (λ t. string_bytes t) texts.old.items ++ rule_texts version 0 rules.now) }
{
    'rules: for place in 0..rules.len() {
        if rules[place].total > 0 {
            texts.push(line_text(alloc, version, place as u64, &rules[place])?)?;
        }
    }
    Ok(())
}

/// Adds the texts of the rules of all versions that counted anything.
pub(crate) fn push_versions(
    alloc: Global,
    texts: &mut Vec<String>,
    versions: &[VersionNumbers],
) -> Result<(), OutOfMemory>
    ensures { OnOk result (map (λ t. string_bytes t) texts.new.items
        ≡ map (λ t. string_bytes t) texts.old.items ++ version_texts 0 versions.now) }
{
    'versions: for place in 0..versions.len() {
        push_rules(alloc, texts, place as u64, versions[place].rules())?;
    }
    Ok(())
}
