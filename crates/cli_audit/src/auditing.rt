// `audit`: a printed run of a script, judged.
ghost use Rattle.std.specs.Prelude.{◌≡◌, ◌≤◌, ◌∷◌, [], ◌++◌, length, IfOk, IfErr, string_bytes};
ghost use Rattle.rate_types.specs.declared.limits.TheConstants.{MOST_LINES};
ghost use Rattle.rate_io.specs.Events.{Grew};
ghost use Rattle.descriptor_tree.specs.Views.{config_view};
ghost use Rattle.text_lines.specs.Lines.{cut};
ghost use Rattle.script_text.specs.Script.{script_of};
ghost use Rattle.run_audit.specs.Verdict.{IsVerdict};
ghost use Rattle.cli_exits.specs.Jobs.{files_of};
ghost use Rattle.cli_exits.specs.World.{AreFilesOf, exit_of};
ghost use Rattle.cli_exits.specs.Output.{with_line_feed};
ghost use Rattle.cli_exits.specs.Parts.{IsOfFiles, IsOfOutput};
ghost use Rattle.cli_audit.specs.Audited.{IsOfVerdict};
ghost use Rattle.cli_audit.specs.Audited as spec;
ghost use Rattle.command_words.specs.declared.command.Command.TheVariants.{Audit};

use cli_exits::{Exit, MOST_RUN_BYTES, read_files, write_line};
use command_words::AuditJob;
use descriptor_tree::Config;
use rate_io::{FileFault, Files, Sink};
use rate_types::{Blob, Blobs, OutOfMemory};
use run_audit::{Setup, Verdict, audit};
use script_text::{Script, ScriptFault};
use std::alloc::Global;
use std::sync::Arc;

/// What the files of a job hold: its configuration files, and the run behind them.
#[derive(Drop)]
pub struct RunFiles {
    /// The configuration files, in order.
    pub configs: Blobs,
    /// The printed run.
    pub run: Blob,
}

/// Reads the files of a job, in order.
pub fn read_run_files<F: Files>(
    alloc: Global,
    files: &mut F,
    job: &AuditJob,
) -> Result<RunFiles, Exit>
    ensures contents { IfOk result (λ r. Grew (F.history files.old) (F.history files.new)
        (λ calls. AreFilesOf (F.content files.old) (files_of (Audit job.now)) calls (r.configs ++ r.run ∷ []))) }
    ensures fault { IfErr result (λ exit. Grew (F.history files.old) (F.history files.new)
        (IsOfFiles (F.content files.old) (files_of (Audit job.now)) (F.faults files.old, F.faults files.new) exit)) }
{
    let configs = match read_files(alloc, files, job.configs.items()) {
        Ok(configs) => configs,
        Err(exit) => return Err(exit),
    };
    let run = match files.read(alloc, job.run.as_str(), MOST_RUN_BYTES) {
        Ok(run) => run,
        Err(FileFault::Failed) => return Err(Exit::FileFault(job.configs.items().len() as u64)),
        Err(FileFault::TooLong { .. }) => return Err(Exit::TooLong),
        Err(FileFault::OutOfMemory) => return Err(Exit::OutOfMemory),
    };
    Ok(RunFiles {
        configs,
        run: Blob::of(run),
    })
}

// The verdict on a run of an input as a script.
fn verdict_of(
    alloc: Global,
    job: &AuditJob,
    config: Config,
    bytes: &[u8],
    run: &[u8],
) -> Result<Verdict, OutOfMemory>
    requires { length (cut bytes.now) ≤ MOST_LINES }
    ensures { IfOk result (IsVerdict (config_view config) (spec.setup_of job.now) (script_of bytes.now) run.now) }
{
    let script = match Script::read(alloc, bytes) {
        Ok(script) => script,
        Err(ScriptFault::TooManyLines { .. }) => unreachable!(),
        Err(ScriptFault::OutOfMemory) => return Err(OutOfMemory),
    };
    let lines = script.read_lines(alloc)?;
    let first = Arc::new(alloc, config)?;
    let setup = Setup {
        workers: job.workers,
        cells: job.cells,
        start: job.start,
        global_shadow: job.global_shadow,
    };
    audit(alloc, &first, setup, &lines, run)
}

// The line of a verdict, with its line feed.
#[tactic(auto, unfolding(crate::specs::Audited::verdict_text))]
fn verdict_line(alloc: Global, verdict: Verdict) -> Result<String, OutOfMemory>
    ensures { IfOk result (λ t. string_bytes t ≡ with_line_feed (spec.verdict_text verdict)) }
{
    let mut text = match verdict {
        Verdict::Lawful { records } => format!(in alloc;
            "{{\"lawful\":true,\"records\":{records}}}"
        )?,
        Verdict::Form { line } => format!(in alloc; "{{\"lawful\":false,\"line\":{line}}}")?,
        Verdict::Breaks(clause) => {
            let number = clause.number();
            format!(in alloc; "{{\"clause\":{number},\"lawful\":false}}")?
        }
    };
    text.push('\n')?;
    Ok(text)
}

/// Judges a run, writes the line of the verdict, and flushes.
pub fn judge_and_write<K: Sink>(
    alloc: Global,
    job: &AuditJob,
    config: Config,
    bytes: &[u8],
    run: &[u8],
    sink: &mut K,
) -> Result<(), Exit>
    requires { length (cut bytes.now) ≤ MOST_LINES }
    ensures { Grew (K.history sink.old) (K.history sink.new)
        (IsOfOutput (IsOfVerdict (config_view config) (spec.setup_of job.now) bytes.now run.now) (record {
          written = K.written sink.old;
          after = K.written sink.new;
          faults = (K.faults sink.old, K.faults sink.new);
        }) (exit_of result)) }
{
    let Ok(verdict) = verdict_of(alloc, job, config, bytes, run) else {
        return Err(Exit::OutOfMemory);
    };
    let Ok(line) = verdict_line(alloc, verdict) else {
        return Err(Exit::OutOfMemory);
    };
    write_line(alloc, line, sink)
}
