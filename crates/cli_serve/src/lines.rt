// What `serve` writes: the line of its port, and the lines of how its connections ended.
ghost use Rattle.std.specs.Prelude.{◌≡◌, ◌≤◌, length, map, IfOk, string_bytes};
ghost use Rattle.rate_types.specs.declared.limits.TheConstants.{MOST_CONNECTIONS};
ghost use Rattle.rate_io.specs.Events.{Grew};
ghost use Rattle.http_endpoint.specs.ServeLines.{link_end_line};
ghost use Rattle.cli_exits.specs.Output.{with_line_feed};
ghost use Rattle.cli_exits.specs.World.{exit_of};
ghost use Rattle.cli_exits.specs.Parts.{IsOfOutput};
ghost use Rattle.cli_serve.specs.Served.{port_line, end_lines};
ghost use Rattle.cli_serve.specs.Serving.{IsOfPort};

use cli_exits::{Exit, write_lines};
use http_endpoint::{LinkEnd, link_end_line, listening_line};
use rate_io::Sink;
use rate_types::OutOfMemory;
use std::alloc::Global;

// The line of the port.
fn port_text(alloc: Global, port: u16) -> Result<String, OutOfMemory>
    ensures { IfOk result (λ t. string_bytes t ≡ port_line port) }
{
    let mut text = listening_line(alloc, port)?;
    text.push('\n')?;
    Ok(text)
}

/// What came of the line of the port: it was written and flushed, or not, or there was no memory for it.
#[derive(Clone, Copy, Debug, PartialEq, Eq)]
pub enum PortLine {
    Written,
    Unwritten,
    NoMemory,
}

/// Writes the line of the port, and flushes, since a caller waits for it.
pub fn write_port<K: Sink>(alloc: Global, port: u16, sink: &mut K) -> PortLine
    ensures { Grew (K.history sink.old) (K.history sink.new) (IsOfPort port (record {
      written = K.written sink.old;
      after = K.written sink.new;
      faults = (K.faults sink.old, K.faults sink.new);
    }) result) }
{
    let Ok(text) = port_text(alloc, port) else {
        return PortLine::NoMemory;
    };
    let mut port_lines = Vec::new(alloc);
    if port_lines.push(text).is_err() {
        return PortLine::NoMemory;
    }
    match write_lines(sink, &port_lines) {
        Ok(()) => PortLine::Written,
        Err(_) => PortLine::Unwritten,
    }
}

// The line of how a connection ended.
fn end_text(alloc: Global, number: u32, link_end: LinkEnd) -> Result<String, OutOfMemory>
    ensures { IfOk result (λ t. string_bytes t ≡ with_line_feed (link_end_line number link_end)) }
{
    let mut text = link_end_line(alloc, number, link_end)?;
    text.push('\n')?;
    Ok(text)
}

// The line of how each connection ended, in order.
fn end_texts(alloc: Global, ends: &[LinkEnd]) -> Result<Vec<String>, OutOfMemory>
    requires { length ends.now ≤ MOST_CONNECTIONS }
    ensures { IfOk result (λ v. map (λ t. string_bytes t) v.items ≡ end_lines 0 ends.now) }
{
    let mut lines = Vec::new(alloc);
    let mut number = 0u32;
    'ends: for link_end in ends {
        let text = end_text(alloc, number, *link_end)?;
        lines.push(text)?;
        number += 1;
    }
    Ok(lines)
}

/// Writes how each connection ended, in order, and flushes.
pub fn write_ends<K: Sink>(alloc: Global, ends: &[LinkEnd], sink: &mut K) -> Result<(), Exit>
    requires { length ends.now ≤ MOST_CONNECTIONS }
    ensures { Grew (K.history sink.old) (K.history sink.new) (IsOfOutput (λ pieces. pieces ≡ end_lines 0 ends.now) (record {
      written = K.written sink.old;
      after = K.written sink.new;
      faults = (K.faults sink.old, K.faults sink.new);
    }) (exit_of result)) }
{
    let Ok(lines) = end_texts(alloc, ends) else {
        return Err(Exit::OutOfMemory);
    };
    match write_lines(sink, &lines) {
        Ok(()) => Ok(()),
        Err(_) => Err(Exit::WriteFault),
    }
}
