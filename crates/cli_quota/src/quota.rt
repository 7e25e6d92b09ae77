// `quota`: recorded streams replayed by a settings file.
ghost use Rattle.std.specs.Prelude.{◌≡◌, ℕ, List, Some, Ok, IfOk, IfErr, OnOk, All};
ghost use Rattle.std.specs.List.{flat_map};
ghost use Rattle.rate_io.specs.Events.{Grew};
ghost use Rattle.quota_stream.specs.Output.{AreLines, quota_output, with_feeds};
ghost use Rattle.quota_stream.specs.Tasks.{IsShort, output_text, texts_from};
ghost use Rattle.cli_exits.specs.World.{exit_of};
ghost use Rattle.cli_exits.specs.Parts.{IsOfOutput, IsOfSettings};
ghost use Rattle.cli_quota.specs.Parts.{IsOfReplay, IsOfStreams, Replays};
ghost use Rattle.cli_quota.specs.Quota.{settings_of};

use crate::output_lines::OutputLines;
use cli_exits::{Exit, write_all};
use proto_json::FormFault;
use quota_settings::Settings;
use quota_settings_json::read_settings;
use quota_stream::{ReplayFault, replay_all};
use rate_io::Sink;
use rate_types::{Blobs, Names};
use std::alloc::Global;
use std::hash::RandomState;
use std::thread::Threads;

// The settings that a file spells.
fn settings_in(alloc: Global, file: &[u8]) -> Result<Settings, Exit>
    ensures spells { IfOk result (λ s. settings_of file.now ≡ Ok (Some s)) }
    ensures fault { IfErr result (IsOfSettings (settings_of file.now)) }
{
    match read_settings(alloc, file) {
        Ok(settings) => Ok(settings),
        Err(FormFault::Refused(refused)) => Err(Exit::SettingsRefused(refused)),
        Err(FormFault::OutOfMemory) => Err(Exit::OutOfMemory),
    }
}

// The text of the output of each stream.
fn texts_of<R: Threads + Sync>(
    rt: &R,
    alloc: Global,
    settings: &Settings,
    seed: RandomState,
    streams: &Blobs,
    workers: u32,
) -> Result<Names, Exit>
    ensures texts { IfOk result (λ v. v ≡ texts_from settings.now 0 streams.now) }
    ensures short { OnOk result (All IsShort streams.now) }
    ensures lines { (index : ℕ) (bytes : List ℕ) → AreLines (quota_output settings.now index bytes) }
    ensures cut { (index : ℕ) (bytes : List ℕ) → with_feeds (output_text settings.now index bytes) ≡ quota_output settings.now index bytes }
    ensures fault { IfErr result (IsOfStreams streams.now) }
{
    match replay_all(rt, alloc, settings, seed, streams, workers.max(1)) {
        Ok(texts) => Ok(texts),
        Err(ReplayFault::TooLong { .. }) => Err(Exit::TooLong),
        Err(ReplayFault::OutOfMemory) => Err(Exit::OutOfMemory),
        Err(ReplayFault::Read) => unreachable!(),
        Err(ReplayFault::Write) => unreachable!(),
    }
}

/// The text of the output of each stream by a settings file. The hashes of buckets' names go by `seed`.
pub fn replayed<R: Threads + Sync>(
    rt: &R,
    alloc: Global,
    file: &[u8],
    seed: RandomState,
    streams: &Blobs,
    workers: u32,
) -> Result<Names, Exit>
    ensures texts { IfOk result (λ v. Replays file.now streams.now (flat_map with_feeds v)) }
    ensures lines { IfOk result (λ v. AreLines (flat_map with_feeds v)) }
    ensures fault { IfErr result (IsOfReplay file.now streams.now) }
{
    let settings = match settings_in(alloc, file) {
        Ok(settings) => settings,
        Err(exit) => return Err(exit),
    };
    texts_of(rt, alloc, &settings, seed, streams, workers)
}

/// Writes the lines of texts, each by one call, and flushes.
pub fn write_texts<K: Sink>(texts: &Names, sink: &mut K) -> Result<(), Exit>
    ensures { Grew (K.history sink.old) (K.history sink.new) (IsOfOutput (λ pieces. pieces ≡ flat_map with_feeds texts.now) (record {
      written = K.written sink.old;
      after = K.written sink.new;
      faults = (K.faults sink.old, K.faults sink.new);
    }) (exit_of result)) }
{
    let mut lines = OutputLines {
        here: &[],
        text: &[],
        texts: texts.items(),
    };
    match write_all(sink, &mut lines) {
        Ok(()) => Ok(()),
        Err(_) => Err(Exit::WriteFault),
    }
}
