ghost use Rattle.std.specs.Prelude.{◌≡◌, ℕ, ◌<◌, IfOk, OnOk, length, map, option_map, replicate, slice_index_or};
ghost use Rattle.std.specs.Arc.{arc_value};
ghost use Rattle.descriptor_tree.specs.Views.{config_view};
ghost use Rattle.script_run.specs.Versions.{version_in, VersionsNumbered};
ghost use Rattle.script_run.specs.Views.{line_view};
ghost use Rattle.run_audit.specs.VersionAt.{config_at, installed_by, put_at};

use crate::installs::installs;
use crate::of_record::version_of;
use descriptor_tree::Config;
use rate_types::OutOfMemory;
use reply_text::{Outcome, Record};
use rule_lookup::Index;
use script_run::Line;
use std::alloc::Global;
use std::sync::Arc;

/// The configurations of a run by their versions, each indexed.
#[derive(Drop)]
pub struct Configs {
    pub(crate) first: Index,
    pub(crate) numbered: Vec<Index>,
}

// The configuration that a line installed.
fn installed_by<'a>(line: &'a Line, outcome: &Outcome) -> Option<&'a Arc<Config>>
    ensures { option_map (λ a. config_view (arc_value a.now)) result ≡ installed_by (line_view line.now) outcome.now }
{
    match line {
        Line::Reload(config) => match outcome {
            Outcome::Installed => Some(config),
            _ => None,
        },
        Line::Check(_) => None,
        Line::Tick(_) => None,
        Line::Bad(_) => None,
    }
}

// So many times this configuration.
fn copies(
    alloc: Global,
    first: &Arc<Config>,
    number: usize,
) -> Result<Vec<Arc<Config>>, OutOfMemory>
    ensures { IfOk result (λ v. map (λ a. config_view (arc_value a)) v.items ≡ replicate number (config_view (arc_value first.now))) }
{
    let mut configs = Vec::new(alloc);
    for _ in 0..number {
        configs.push(first.clone()?)?;
    }
    Ok(configs)
}

// The configuration that a record's line installed.
fn installed_in<'a>(line: &'a Line, rec: &Record) -> Option<&'a Arc<Config>>
    ensures { option_map (λ a. config_view (arc_value a.now)) result ≡ installed_by (line_view line.now) rec.now.outcome }
{
    installed_by(line, &rec.outcome)
}

// Puts a configuration at the place of its version, where there is one.
fn put(
    configs: &mut Vec<Arc<Config>>,
    version: u32,
    config: Option<&Arc<Config>>,
) -> Result<(), OutOfMemory>
    ensures { OnOk result (map (λ a. config_view (arc_value a)) configs.new.items
        ≡ put_at version (option_map (λ a. config_view (arc_value a.now)) config.entry)
        (map (λ a. config_view (arc_value a)) configs.old.items)) }
{
    let place = version as usize;
    if let Some(config) = config {
        if place < configs.len() {
            configs[place] = config.clone()?;
        }
    }
    Ok(())
}

// The configurations of the versions below a number.
fn numbered(
    alloc: Global,
    first: &Arc<Config>,
    number: usize,
    lines: &[Line],
    records: &[Record],
) -> Result<Vec<Arc<Config>>, OutOfMemory>
    requires { length records.now ≡ length lines.now }
    ensures len { IfOk result (λ v. length v.items ≡ number) }
    ensures each { IfOk result (λ v. (n : ℕ) → n < number
        → slice_index_or (map (λ a. config_view (arc_value a)) v.items) n (config_view (arc_value first.now))
        ≡ version_in (config_view (arc_value first.now)) (map line_view lines.now) records.now n) }
{
    let mut configs = copies(alloc, first, number)?;
    'lines: for k in 0..records.len() {
        let i = records.len() - 1 - k;
        let rec = &records[i];
        let config = installed_in(&lines[i], rec);
        put(&mut configs, version_of(rec), config)?;
    }
    Ok(configs)
}

// Each configuration, indexed.
fn indexed(alloc: Global, configs: Vec<Arc<Config>>) -> Result<Vec<Index>, OutOfMemory>
    ensures { IfOk result (λ v. v.items ≡ map (λ a. config_view (arc_value a)) configs.items) }
{
    let mut indexes = Vec::new(alloc);
    for config in configs {
        indexes.push(Index::make(alloc, config)?)?;
    }
    Ok(indexes)
}

impl Configs {
    /// The configurations of the versions that these records number.
    pub fn make(
        alloc: Global,
        first: &Arc<Config>,
        lines: &[Line],
        records: &[Record],
    ) -> Result<Configs, OutOfMemory>
        requires same { length records.now ≡ length lines.now }
        requires numbered { VersionsNumbered (map line_view lines.now) records.now }
        ensures { IfOk result (λ c. (v : ℕ) → config_at c v
            ≡ version_in (config_view (arc_value first.now)) (map line_view lines.now) records.now v) }
    {
        let most = installs(records);
        let configs = numbered(alloc, first, most + 1, lines, records)?;
        let config = first.clone()?;
        let zeroth = Index::make(alloc, config)?;
        let indexes = indexed(alloc, configs)?;
        Ok(Configs {
            first: zeroth,
            numbered: indexes,
        })
    }

    /// The configuration of a version.
    pub fn at(&self, version: u32) -> &Index
        ensures { result.now ≡ config_at self.now version }
    {
        let place = version as usize;
        if place < self.numbered.len() {
            &self.numbered[place]
        } else {
            &self.first
        }
    }
}

/// The configuration of a record's version.
pub fn index_of<'a>(configs: &'a Configs, rec: &Record) -> &'a Index
    ensures { result.now ≡ config_at configs.now rec.now.version }
{
    configs.at(version_of(rec))
}
