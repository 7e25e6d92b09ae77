// What a record shows beside the earlier records of its worker.
ghost use Rattle.std.specs.Prelude.{◌≡◌, ◌+◌, not, nat_le, ◌||◌};
ghost use Rattle.script_run.specs.Versions.{is_installed};

use crate::ByEarlier;
use crate::of_record::moment_of;
use reply_text::{Outcome, Record};

/// The version is at least those of the worker's earlier records.
#[derive(Clone, Copy)]
pub struct VersionAtLeast;

fn version_number(rec: &Record) -> u64
    ensures { result ≡ rec.now.version }
{
    u64::from(rec.version)
}

fn version_after(rec: &Record) -> u64
    ensures { result ≡ rec.now.version + 1 }
{
    u64::from(rec.version) + 1
}

fn has_version(least: u64, rec: &Record) -> bool
    ensures { result ≡ nat_le least rec.now.version }
{
    least <= version_number(rec)
}

fn has_moment(least: u64, rec: &Record) -> bool
    ensures { result ≡ nat_le least rec.now.moment }
{
    least <= moment_of(rec).get()
}

impl ByEarlier for VersionAtLeast {
    ghost use Rattle.script_run.specs.Lines.{IsAtLeastEarlier};

    ghost number = { λ f r. r.version };

    ghost stands = { λ f earlier r. IsAtLeastEarlier (λ s. s.version) earlier r };

    fn number(&self, rec: &Record) -> u64 {
        version_number(rec)
    }

    fn decide(&self, most: u64, rec: &Record) -> bool {
        let stands = has_version(most, rec);
        stands
    }
}

/// The moment is at least those of the worker's earlier records.
#[derive(Clone, Copy)]
pub struct MomentAtLeast;

impl ByEarlier for MomentAtLeast {
    ghost use Rattle.script_run.specs.Lines.{IsAtLeastEarlier};

    ghost number = { λ f r. r.moment };

    ghost stands = { λ f earlier r. IsAtLeastEarlier (λ s. s.moment) earlier r };

    fn number(&self, rec: &Record) -> u64 {
        moment_of(rec).get()
    }

    fn decide(&self, most: u64, rec: &Record) -> bool {
        let stands = has_moment(most, rec);
        stands
    }
}

/// Whether a configuration was installed.
pub fn is_installed(outcome: &Outcome) -> bool
    ensures { result ≡ is_installed outcome.now }
{
    match outcome {
        Outcome::Installed => true,
        _ => false,
    }
}

fn was_installed(rec: &Record) -> bool
    ensures { result ≡ is_installed rec.now.outcome }
{
    is_installed(&rec.outcome)
}

fn stands_above(most: u64, rec: &Record) -> bool
    ensures { result ≡ (not (is_installed rec.now.outcome) || nat_le most rec.now.version) }
{
    !was_installed(rec) || has_version(most, rec)
}

/// An installed version is greater than those of the worker's earlier records.
#[derive(Clone, Copy)]
pub struct Above;

impl ByEarlier for Above {
    ghost use Rattle.std.specs.Prelude.{◌+◌};
    ghost use Rattle.script_run.specs.Versions.{IsAbove};

    ghost number = { λ f r. r.version + 1 };

    ghost stands = { λ f earlier r. IsAbove earlier r r.outcome };

    fn number(&self, rec: &Record) -> u64 {
        version_after(rec)
    }

    fn decide(&self, most: u64, rec: &Record) -> bool {
        let stands = stands_above(most, rec);
        stands
    }
}
