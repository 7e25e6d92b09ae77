// How often each version was installed.
ghost use Rattle.std.specs.Prelude.{◌≡◌, ◌+◌, ◌<◌, ◌==◌, ◌&&◌, ℕ, IfOk, count_by, if◌then◌else◌};
ghost use Rattle.script_run.specs.Versions.{is_installed, installs};
ghost use Rattle.run_audit.specs.Greatest.{number_in};

use crate::at_least::is_installed;
use crate::earlier::{number_in, put};
use crate::of_record::version_of;
use rate_types::OutOfMemory;
use reply_text::Record;
use std::alloc::Global;
use std::collections::BTreeMap;

/// How many reloads were installed.
pub fn installs(records: &[Record]) -> usize
    ensures { result ≡ installs records.now }
{
    let mut count = 0usize;
    'records: for rec in records {
        if is_installed(&rec.outcome) {
            count += 1;
        }
    }
    count
}

fn has_installed(rec: &Record) -> bool
    ensures { result ≡ is_installed rec.now.outcome }
{
    is_installed(&rec.outcome)
}

// Counts a record, where it installed a version.
fn count_install(counts: &mut BTreeMap<u32, u64>, rec: &Record) -> Result<(), OutOfMemory>
    requires { (v : ℕ) → number_in counts.old.entries v < 18446744073709551615 }
    ensures { IfOk result (λ _. (v : ℕ) → number_in counts.new.entries v
        ≡ number_in counts.old.entries v + (if is_installed rec.now.outcome && (rec.now.version == v) then 1 else 0)) }
{
    let installed = has_installed(rec);
    if !installed {
        return Ok(());
    }
    let version = version_of(rec);
    let count = number_in(counts, version) + 1;
    put(counts, version, count)?;
    Ok(())
}

/// How often each version was installed.
pub fn installs_by_version(
    alloc: Global,
    records: &[Record],
) -> Result<BTreeMap<u32, u64>, OutOfMemory>
    ensures { IfOk result (λ counts. (v : ℕ) → number_in counts.entries v
        ≡ count_by (λ r. is_installed r.outcome && (r.version == v)) records.now) }
{
    let mut counts = BTreeMap::new(alloc);
    'records: for i in 0..records.len() {
        let rec = &records[i];
        count_install(&mut counts, rec)?;
    }
    Ok(counts)
}
