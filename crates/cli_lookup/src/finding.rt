// From a configuration and an input to the lines of the look-ups, and from these to a sink.
ghost use Rattle.std.specs.Prelude.{◌≡◌, ◌≤◌, IfOk, map, length, string_bytes};
ghost use Rattle.rate_types.specs.declared.limits.TheConstants.{MOST_LINES};
ghost use Rattle.rate_io.specs.Events.{Grew};
ghost use Rattle.descriptor_tree.specs.Views.{config_view};
ghost use Rattle.text_lines.specs.Lines.{cut};
ghost use Rattle.cli_exits.specs.World.{exit_of};
ghost use Rattle.cli_exits.specs.Parts.{IsOfOutput};
ghost use Rattle.cli_lookup.specs.Lookup.{lookup_output};

use crate::lookup::lookup_lines;
use cli_exits::{Exit, write_lines};
use descriptor_tree::Config;
use rate_io::Sink;
use rate_types::OutOfMemory;
use rule_lookup::Index;
use std::alloc::Global;
use std::sync::Arc;

// The lines of the look-ups of an input.
fn found_lines(alloc: Global, config: Config, bytes: &[u8]) -> Result<Vec<String>, OutOfMemory>
    requires { length (cut bytes.now) ≤ MOST_LINES }
    ensures { IfOk result (λ v. map (λ t. string_bytes t) v.items ≡ lookup_output (config_view config) bytes.now) }
{
    let config = Arc::new(alloc, config)?;
    let index = Index::make(alloc, config)?;
    let lines = lookup_lines(alloc, &index, bytes)?;
    Ok(lines)
}

/// Looks the requests of an input up, writes the lines of what is found, and flushes.
pub fn find_and_write<K: Sink>(
    alloc: Global,
    config: Config,
    bytes: &[u8],
    sink: &mut K,
) -> Result<(), Exit>
    requires { length (cut bytes.now) ≤ MOST_LINES }
    ensures { Grew (K.history sink.old) (K.history sink.new)
        (IsOfOutput (λ pieces. pieces ≡ lookup_output (config_view config) bytes.now) (record {
          written = K.written sink.old;
          after = K.written sink.new;
          faults = (K.faults sink.old, K.faults sink.new);
        }) (exit_of result)) }
{
    let Ok(lines) = found_lines(alloc, config, bytes) else {
        return Err(Exit::OutOfMemory);
    };
    match write_lines(sink, &lines) {
        Ok(()) => Ok(()),
        Err(_) => Err(Exit::WriteFault),
    }
}
