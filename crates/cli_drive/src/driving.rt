// `drive`: a script, run by several workers.
ghost use Rattle.std.specs.Prelude.{◌≡◌, ◌≤◌, IfOk, List, length, map, string_bytes, true};
ghost use Rattle.rate_types.specs.declared.limits.TheConstants.{MOST_LINES};
ghost use Rattle.rate_io.specs.Events.{Grew};
ghost use Rattle.descriptor_tree.specs.Views.{config_view};
ghost use Rattle.text_lines.specs.Lines.{cut};
ghost use Rattle.cli_exits.specs.World.{exit_of};
ghost use Rattle.cli_exits.specs.Parts.{IsOfOutput};
ghost use Rattle.reply_text.specs.declared.record.Record.{Record};
ghost use Rattle.rule_stats.specs.Sums.{AreSums};
ghost use Rattle.run_stats.specs.RunStats.{notes_of};
ghost use Rattle.script_run.specs.ScriptLine.{ScriptLine};
ghost use Rattle.cli_drive.specs.Driven.{IsRunText, HasStats};

use crate::run_pieces::RunPieces;
use cli_exits::{Exit, write_all};
use descriptor_tree::Config;
use drive_run::{Setup, drive_script};
use rate_io::Sink;
use rate_types::OutOfMemory;
use rule_stats::Tally;
use run_lines::RunLines;
use script_text::{Script, ScriptFault};
use std::alloc::Global;
use std::sync::{Arc, Wait};
use std::thread::Threads;
use worker_run::Gate;

// The texts of the statistics of a run, where they are asked for.
fn stats_of(alloc: Global, tally: &Tally, stats: bool) -> Result<Vec<String>, OutOfMemory>
    ensures { IfOk result (λ texts. (lines : List ScriptLine) (records : List Record)
        → (stats ≡ true → AreSums (notes_of lines records) tally.now.versions)
        → HasStats stats lines records (map (λ t. string_bytes t) texts.items)) }
{
    if stats {
        tally.texts()
    } else {
        Ok(Vec::new(alloc))
    }
}

// The lines of a run of an input as a script.
fn driven_lines<R: Threads + Wait + Sync, G: Gate>(
    rt: &R,
    alloc: Global,
    config: Config,
    bytes: &[u8],
    setup: Setup,
    stats: bool,
    gate: &G,
) -> Result<RunLines, OutOfMemory>
    requires { length (cut bytes.now) ≤ MOST_LINES }
    ensures { IfOk result (λ r. IsRunText (config_view config) setup.workers setup.cells setup.start setup.global_shadow stats bytes.now
        r.rest) }
{
    let script = match Script::read(alloc, bytes) {
        Ok(script) => script,
        Err(ScriptFault::TooManyLines { .. }) => unreachable!(),
        Err(ScriptFault::OutOfMemory) => return Err(OutOfMemory),
    };
    let config = Arc::new(alloc, config)?;
    let driven = drive_script(rt, alloc, &script, config, setup, stats, gate)?;
    let records = driven.records.in_order(alloc)?;
    let texts = stats_of(alloc, &driven.tally, stats)?;
    let lines = RunLines::make(alloc, records, driven.totals.items(), texts)?;
    Ok(lines)
}

/// Runs an input as a script, writes the lines of the run, behind them with `stats` those of its statistics, and flushes. All memory is
/// taken before the first line is written.
pub fn drive_and_write<R: Threads + Wait + Sync, K: Sink, G: Gate>(
    rt: &R,
    alloc: Global,
    setup: Setup,
    stats: bool,
    config: Config,
    bytes: &[u8],
    sink: &mut K,
    gate: &G,
) -> Result<(), Exit>
    requires { length (cut bytes.now) ≤ MOST_LINES }
    ensures { Grew (K.history sink.old) (K.history sink.new)
        (IsOfOutput (IsRunText (config_view config) setup.workers setup.cells setup.start setup.global_shadow stats bytes.now) (record {
          written = K.written sink.old;
          after = K.written sink.new;
          faults = (K.faults sink.old, K.faults sink.new);
        }) (exit_of result)) }
{
    let Ok(lines) = driven_lines(rt, alloc, config, bytes, setup, stats, gate) else {
        return Err(Exit::OutOfMemory);
    };
    let mut pieces = RunPieces { lines };
    match write_all(sink, &mut pieces) {
        Ok(()) => Ok(()),
        Err(_) => Err(Exit::WriteFault),
    }
}
