ghost use Rattle.std.specs.Prelude.{◌≡◌, ◌↔◌, ℕ, ◌≤◌, ◌==◌, ◌&&◌, IsTrue, IfOk, count_by, length, map, nat_le};
ghost use Rattle.std.specs.List.{list_all};
ghost use Rattle.script_run.specs.Versions.{is_installed, installs, VersionsNeverFall, VersionsNumbered};
ghost use Rattle.script_run.specs.Views.{line_view};

use crate::at_least::{Above, VersionAtLeast};
use crate::connectives::both;
use crate::each_by_earlier;
use crate::earlier::number_in;
use crate::installs::{installs, installs_by_version};
use rate_types::OutOfMemory;
use rate_types::limits::MOST_VERSIONS;
use reply_text::Record;
use script_run::Line;
use std::alloc::Global;

// Whether each version from 1 on was installed by one line.
fn all_once(alloc: Global, records: &[Record], most: u32) -> Result<bool, OutOfMemory>
    ensures { IfOk result (λ b. IsTrue b ↔ ((v : ℕ) → 1 ≤ v → v ≤ most
        → count_by (λ r. is_installed r.outcome && (r.version == v)) records.now ≡ 1)) }
{
    let counts = installs_by_version(alloc, records)?;
    'versions: for k in 0..most {
        if number_in(&counts, k + 1) != 1 {
            return Ok(false);
        }
    }
    Ok(true)
}

fn all_known(records: &[Record], most: u32) -> bool
    ensures { result ≡ list_all (λ r. nat_le r.version most) records.now }
{
    records.iter().all(|r| r.version <= most)
}

/// Whether the versions are numbered: those from 1 on are installed without a gap, by one line each, each record is by one of them or
/// by the first, and an installed version is greater than those of its worker's earlier records.
pub fn versions_numbered(
    alloc: Global,
    lines: &[Line],
    records: &[Record],
) -> Result<bool, OutOfMemory>
    requires { length records.now ≡ length lines.now }
    ensures { IfOk result (λ b. IsTrue b ↔ VersionsNumbered (map line_view lines.now) records.now) }
{
    let most = installs(records);
    if most >= MOST_VERSIONS as usize {
        return Ok(false);
    }
    let once = all_once(alloc, records, most as u32)?;
    let known = all_known(records, most as u32);
    let above = each_by_earlier(alloc, &Above, lines, records)?;
    let first = both(once, known);
    let stands = both(first, above);
    Ok(stands)
}

/// Whether along the records of one worker the versions never fall.
pub fn versions_never_fall(
    alloc: Global,
    lines: &[Line],
    records: &[Record],
) -> Result<bool, OutOfMemory>
    requires { length records.now ≡ length lines.now }
    ensures { IfOk result (λ b. IsTrue b ↔ VersionsNeverFall (map line_view lines.now) records.now) }
{
    let stands = each_by_earlier(alloc, &VersionAtLeast, lines, records)?;
    Ok(stands)
}
