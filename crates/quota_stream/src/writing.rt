// From lines to a sink.
ghost use Rattle.std.specs.Prelude.{◌≡◌, ◌++◌, map, OnOk, OnErr};
ghost use Rattle.rate_io.specs.Causes.{HasCause};
ghost use Rattle.rate_io.specs.Events.{Grew, wrote};
ghost use Rattle.quota_stream.specs.Output.{with_feeds};
ghost use Rattle.quota_stream.specs.Replays.{WroteUpTo};

use crate::output_lines::cut_output_line;
use rate_io::{Failed, Sink};

/// Writes each line of a text by one call.
pub fn write_lines<K: Sink>(sink: &mut K, text: &[u8]) -> Result<(), Failed>
    ensures each { OnOk result (K.history sink.new ≡ K.history sink.old ++ map wrote (with_feeds text.now)) }
    ensures up_to { OnErr result (Grew (K.history sink.old) (K.history sink.new) (WroteUpTo (with_feeds text.now))) }
    ensures cause { HasCause (K.faults sink.old) (K.faults sink.new) result }
{
    let mut rest = text;
    'lines: while rest.len() > 0 {
        let (line, after) = cut_output_line(rest);
        let Ok(()) = sink.write(line) else {
            return Err(Failed);
        };
        rest = after;
    }
    Ok(())
}
