// `pool`: recorded reports of clients, answered by pools of quota.
ghost use Rattle.std.specs.Prelude.{◌≡◌, Some, Ok, map, string_bytes, IfOk, IfErr};
ghost use Rattle.rate_io.specs.Events.{Grew};
ghost use Rattle.cli_exits.specs.World.{exit_of};
ghost use Rattle.cli_quota.specs.Parts.{Answers, IsOfSharing};
ghost use Rattle.cli_exits.specs.Parts.{IsOfOutput, IsOfSettings};
ghost use Rattle.cli_quota.specs.Pooled.{pools_of};

use cli_exits::{Exit, are_few_lines, write_lines};
use proto_json::FormFault;
use quota_pools::{Pools, read_pools};
use quota_server::pool_lines;
use rate_io::Sink;
use std::alloc::Global;
use std::hash::RandomState;

// The pools that a file spells.
fn pools_in(alloc: Global, file: &[u8]) -> Result<Pools, Exit>
    ensures spells { IfOk result (λ p. pools_of file.now ≡ Ok (Some p)) }
    ensures fault { IfErr result (IsOfSettings (pools_of file.now)) }
{
    match read_pools(alloc, file) {
        Ok(pools) => Ok(pools),
        Err(FormFault::Refused(refused)) => Err(Exit::SettingsRefused(refused)),
        Err(FormFault::OutOfMemory) => Err(Exit::OutOfMemory),
    }
}

/// The answers to events by a file of pools, line by line.
pub fn answered(
    alloc: Global,
    seed: &RandomState,
    file: &[u8],
    events: &[u8],
) -> Result<Vec<String>, Exit>
    ensures lines { IfOk result (λ v. Answers file.now events.now (map (λ t. string_bytes t) v.items)) }
    ensures fault { IfErr result (IsOfSharing file.now events.now) }
{
    let pools = match pools_in(alloc, file) {
        Ok(pools) => pools,
        Err(exit) => return Err(exit),
    };
    if !are_few_lines(events) {
        return Err(Exit::TooLong);
    }
    let Ok(lines) = pool_lines(alloc, pools, seed, events) else {
        return Err(Exit::OutOfMemory);
    };
    Ok(lines)
}

/// Writes the lines of the answers, each by one call, and flushes.
pub fn write_answers<K: Sink>(lines: &[String], sink: &mut K) -> Result<(), Exit>
    ensures { Grew (K.history sink.old) (K.history sink.new)
        (IsOfOutput (λ pieces. pieces ≡ map (λ t. string_bytes t) lines.now) (record {
          written = K.written sink.old;
          after = K.written sink.new;
          faults = (K.faults sink.old, K.faults sink.new);
        }) (exit_of result)) }
{
    match write_lines(sink, lines) {
        Ok(()) => Ok(()),
        Err(_) => Err(Exit::WriteFault),
    }
}
