ghost use Rattle.std.specs.Prelude.{◌≡◌, ◌≤◌, ◌<◌, take, length, IfOk, IfErr, OnOk, Err};
ghost use Rattle.rate_io.specs.Causes.{Rose};
ghost use Rattle.rate_io.specs.Events.{Grew};
ghost use Rattle.quota_stream.specs.Progress.{Takes, Stops, EndsLine, StopsLine, Finishes, StopsAtEnd};
ghost use Rattle.quota_stream.specs.Replays.{IsReplay};

use crate::progress::Replay;
use crate::replay_fault::ReplayFault;
use crate::writing::write_lines;
use quota_settings::Settings;
use rate_io::{Sink, Source};
use rate_types::limits::MOST_BYTES;
use std::alloc::Global;
use std::hash::RandomState;
use text_lines::line_feed;

// Ends the line that is pending, and writes what comes of it.
fn end_line<K: Sink>(replay: &mut Replay, sink: &mut K) -> Result<(), ReplayFault>
    ensures done { OnOk result (Grew (K.history sink.old) (K.history sink.new) (EndsLine replay.old replay.new)) }
    ensures fault { IfErr result (λ fault. Grew (K.history sink.old) (K.history sink.new) (StopsLine replay.old fault)) }
    ensures write { result ≡ Err ReplayFault.Write → Rose (K.faults sink.old) (K.faults sink.new) }
    ensures later { K.faults sink.old ≤ K.faults sink.new }
{
    let text = replay.end_line()?;
    let Ok(()) = write_lines(sink, text.as_bytes()) else {
        return Err(ReplayFault::Write);
    };
    Ok(())
}

// Takes bytes up to the first line feed, or all where there is none, and says how many these are.
fn take_first<K: Sink>(
    replay: &mut Replay,
    sink: &mut K,
    bytes: &[u8],
) -> Result<usize, ReplayFault>
    ensures most { IfOk result (λ n. n ≤ length bytes.now) }
    ensures some { IfOk result (λ n. 0 < length bytes.now → 0 < n) }
    ensures took { IfOk result (λ n. Grew (K.history sink.old) (K.history sink.new) (Takes replay.old (take n bytes.now) replay.new)) }
    ensures fault { IfErr result (λ fault. Grew (K.history sink.old) (K.history sink.new) (Stops replay.old bytes.now fault)) }
    ensures write { result ≡ Err ReplayFault.Write → Rose (K.faults sink.old) (K.faults sink.new) }
    ensures later { K.faults sink.old ≤ K.faults sink.new }
{
    let Some(at) = line_feed(bytes) else {
        replay.add(bytes)?;
        return Ok(bytes.len());
    };
    replay.add(&bytes[..at])?;
    end_line(replay, sink)?;
    Ok(at + 1)
}

// Takes bytes.
fn take_all<K: Sink>(replay: &mut Replay, sink: &mut K, bytes: &[u8]) -> Result<(), ReplayFault>
    ensures took { OnOk result (Grew (K.history sink.old) (K.history sink.new) (Takes replay.old bytes.now replay.new)) }
    ensures fault { IfErr result (λ fault. Grew (K.history sink.old) (K.history sink.new) (Stops replay.old bytes.now fault)) }
    ensures write { result ≡ Err ReplayFault.Write → Rose (K.faults sink.old) (K.faults sink.new) }
    ensures later { K.faults sink.old ≤ K.faults sink.new }
{
    let mut at = 0;
    'parts: while at < bytes.len() {
        let count = take_first(replay, sink, &bytes[at..])?;
        at += count;
    }
    Ok(())
}

// Ends the last line, where it has bytes.
fn finish<K: Sink>(replay: &mut Replay, sink: &mut K) -> Result<(), ReplayFault>
    ensures done { OnOk result (Grew (K.history sink.old) (K.history sink.new) (Finishes replay.old)) }
    ensures fault { IfErr result (λ fault. Grew (K.history sink.old) (K.history sink.new) (StopsAtEnd replay.old fault)) }
    ensures write { result ≡ Err ReplayFault.Write → Rose (K.faults sink.old) (K.faults sink.new) }
    ensures later { K.faults sink.old ≤ K.faults sink.new }
{
    if !replay.has_pending() {
        return Ok(());
    }
    end_line(replay, sink)?;
    Ok(())
}

/// Replays a stream from a source, and writes its output line by line. It holds one line at a time, and leaves the flush of the
/// sink to its caller. The hashes of buckets' names go by `seed`. A stream of more than 67,108,864 bytes or 1,048,576 lines stops it with TooLong. After a fault the first lines
/// of the output of what was read were written.
pub fn replay<S: Source, K: Sink>(
    alloc: Global,
    settings: &Settings,
    seed: RandomState,
    stream: u64,
    source: &mut S,
    sink: &mut K,
) -> Result<(), ReplayFault>
    ensures replayed { Grew (S.history source.old) (S.history source.new) (λ reads.
        Grew (K.history sink.old) (K.history sink.new) (IsReplay settings.now stream result reads)) }
    ensures read { result ≡ Err ReplayFault.Read → Rose (S.faults source.old) (S.faults source.new) }
    ensures write { result ≡ Err ReplayFault.Write → Rose (K.faults sink.old) (K.faults sink.new) }
{
    let Ok(settings) = settings.copy(alloc) else {
        return Err(ReplayFault::OutOfMemory);
    };
    let mut replay = Replay::new(alloc, settings, seed, stream);
    let mut buf = [0u8; 16384];
    let mut count: u64 = 0;
    'turns: loop {
        let Ok(read) = source.read(&mut buf) else {
            return Err(ReplayFault::Read);
        };
        if read == 0 {
            return finish(&mut replay, sink);
        }
        count += read as u64;
        if count > MOST_BYTES {
            return Err(ReplayFault::TooLong { read: count });
        }
        take_all(&mut replay, sink, &buf[..read])?;
    }
}
