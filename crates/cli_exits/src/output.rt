// From pieces to a sink.
ghost use Rattle.std.specs.Prelude.{◌≡◌, ◌∷◌, [], ◌++◌, map, OnOk, OnErr, string_bytes};
ghost use Rattle.std.specs.List.{concat};
ghost use Rattle.rate_io.specs.Causes.{HasCause};
ghost use Rattle.rate_io.specs.Content.{Appends};
ghost use Rattle.rate_io.specs.Events.{Grew, wrote};
ghost use Rattle.cli_exits.specs.World.{all_written, WroteSome, WroteUpTo, exit_of};
ghost use Rattle.cli_exits.specs.Parts.{IsOfOutput};
ghost use Rattle.cli_exits.specs.Output.{AppendsFront};

use crate::Exit;
use crate::pieces::{Pieces, TextPieces};
use rate_io::{Failed, Sink};
use std::alloc::Global;

// Writes each piece by one call.
fn write_each<K: Sink, P: Pieces>(sink: &mut K, pieces: &mut P) -> Result<(), Failed>
    ensures bytes { OnOk result (Appends (K.written sink.old) (K.written sink.new) (concat (P.rest pieces.old))) }
    ensures each { OnOk result (K.history sink.new ≡ K.history sink.old ++ map wrote (P.rest pieces.old)) }
    ensures up_to { OnErr result (Grew (K.history sink.old) (K.history sink.new) (WroteSome (P.rest pieces.old))) }
    ensures part { OnErr result (AppendsFront (K.written sink.old) (K.written sink.new) (concat (P.rest pieces.old))) }
    ensures cause { HasCause (K.faults sink.old) (K.faults sink.new) result }
{
    'pieces: while pieces.next_piece() {
        let Ok(()) = sink.write(pieces.piece()) else {
            return Err(Failed);
        };
    }
    Ok(())
}

/// Writes each piece by one call, and flushes.
pub fn write_all<K: Sink, P: Pieces>(sink: &mut K, pieces: &mut P) -> Result<(), Failed>
    ensures bytes { OnOk result (Appends (K.written sink.old) (K.written sink.new) (concat (P.rest pieces.old))) }
    ensures each { OnOk result (K.history sink.new ≡ K.history sink.old ++ all_written (P.rest pieces.old)) }
    ensures up_to { OnErr result (Grew (K.history sink.old) (K.history sink.new) (WroteUpTo (P.rest pieces.old))) }
    ensures part { OnErr result (AppendsFront (K.written sink.old) (K.written sink.new) (concat (P.rest pieces.old))) }
    ensures cause { HasCause (K.faults sink.old) (K.faults sink.new) result }
{
    let Ok(()) = write_each(sink, pieces) else {
        return Err(Failed);
    };
    sink.flush()
}

/// Writes each line by one call, and flushes.
pub fn write_lines<K: Sink>(sink: &mut K, lines: &[String]) -> Result<(), Failed>
    ensures bytes { OnOk result (Appends (K.written sink.old) (K.written sink.new) (concat (map (λ t. string_bytes t) lines.now))) }
    ensures each { OnOk result (K.history sink.new ≡ K.history sink.old ++ all_written (map (λ t. string_bytes t) lines.now)) }
    ensures up_to { OnErr result (Grew (K.history sink.old) (K.history sink.new) (WroteUpTo (map (λ t. string_bytes t) lines.now))) }
    ensures part { OnErr result (AppendsFront (K.written sink.old) (K.written sink.new) (concat (map (λ t. string_bytes t) lines.now))) }
    ensures cause { HasCause (K.faults sink.old) (K.faults sink.new) result }
{
    let mut pieces = TextPieces {
        here: &[],
        rest: lines,
    };
    write_all(sink, &mut pieces)
}

/// Writes a text by one call, and flushes.
pub fn write_line<K: Sink>(alloc: Global, text: String, sink: &mut K) -> Result<(), Exit>
    ensures { Grew (K.history sink.old) (K.history sink.new) (IsOfOutput (λ pieces. pieces ≡ string_bytes text ∷ []) (record {
      written = K.written sink.old;
      after = K.written sink.new;
      faults = (K.faults sink.old, K.faults sink.new);
    }) (exit_of result)) }
{
    let mut lines = Vec::new(alloc);
    if lines.push(text).is_err() {
        return Err(Exit::OutOfMemory);
    }
    match write_lines(sink, &lines) {
        Ok(()) => Ok(()),
        Err(_) => Err(Exit::WriteFault),
    }
}

/// Writes a text by one call, and flushes.
pub fn write_text<K: Sink>(alloc: Global, text: &str, sink: &mut K) -> Result<(), Exit>
    ensures { Grew (K.history sink.old) (K.history sink.new) (IsOfOutput (λ pieces. pieces ≡ text.now ∷ []) (record {
      written = K.written sink.old;
      after = K.written sink.new;
      faults = (K.faults sink.old, K.faults sink.new);
    }) (exit_of result)) }
{
    let Ok(text) = String::from_str(alloc, text) else {
        return Err(Exit::OutOfMemory);
    };
    write_line(alloc, text, sink)
}
