ghost use Rattle.std.specs.Prelude.{◌≡◌, ℕ, List, ◌<◌, ◌++◌, ◌∷◌, [], length, slice_index_or, IfOk, IfErr, OnOk, All};
ghost use Rattle.quota_stream.specs.Output.{AreLines, quota_output, with_feeds};
ghost use Rattle.quota_stream.specs.Tasks.{Task, GoesOn, IsShort, output_text, texts_from};
ghost use Rattle.quota_stream.specs.Runs.{StandEach, IsFaultOfOne};

use crate::replay_fault::ReplayFault;
use crate::stream_task::StreamTask;
use quota_settings::Settings;
use rate_types::{Blob, Blobs, Names, OutOfMemory, Word};
use std::alloc::Global;
use std::hash::RandomState;
use std::thread::{Threads, for_each_chunk_mut};

/// The most turns after which a replay has ended: that many times 64 lines are more than a stream may have.
const MOST_TURNS: u32 = 16_385;

// One turn of each task, in order, and whether a line is left of some.
fn turn_each(tasks: &mut [StreamTask<'_>]) -> bool
    ensures { (k : ℕ) (d : Task) → k < length tasks.old → GoesOn (slice_index_or tasks.old k d) (slice_index_or tasks.new k d) }
{
    let mut is_left = false;
    'tasks: for index in 0..tasks.len() {
        tasks[index].turn();
        if !tasks[index].is_ended() {
            is_left = true;
        }
    }
    is_left
}

// Tasks in turn, until all have ended.
fn run_in_turn(tasks: &mut [StreamTask<'_>])
    ensures { (k : ℕ) (d : Task) → k < length tasks.old → GoesOn (slice_index_or tasks.old k d) (slice_index_or tasks.new k d) }
{
    'turns: for _ in 0..MOST_TURNS {
        if !turn_each(tasks) {
            return;
        }
    }
}

// A task for each stream, in order.
fn tasks_of<'a>(
    alloc: Global,
    settings: &Settings,
    seed: RandomState,
    streams: &'a [Blob],
) -> Result<Vec<StreamTask<'a>>, OutOfMemory>
    ensures { IfOk result (λ v. StandEach settings.now streams.now v.items) }
{
    let mut tasks = Vec::new(alloc);
    'streams: for index in 0..streams.len() {
        let settings = settings.copy(alloc)?;
        let task = StreamTask::new(alloc, settings, seed, index as u64, streams[index].bytes());
        tasks.push(task)?;
    }
    Ok(tasks)
}

// Adds a text.
fn push_word(words: &mut Vec<Word>, word: Word) -> Result<(), ReplayFault>
    ensures added { OnOk result (words.new.items ≡ words.old.items ++ word ∷ []) }
    ensures fault { IfErr result (λ fault. fault ≡ ReplayFault.OutOfMemory) }
{
    if words.push(word).is_err() {
        return Err(ReplayFault::OutOfMemory);
    }
    Ok(())
}

// The answers of tasks, one for each stream, in order, or the first fault.
fn answers_of(
    alloc: Global,
    settings: &Settings,
    streams: &[Blob],
    tasks: &mut [StreamTask<'_>],
) -> Result<Vec<Word>, ReplayFault>
    requires { StandEach settings.now streams.now tasks.old }
    ensures texts { IfOk result (λ v. v.items ≡ texts_from settings.now 0 streams.now) }
    ensures short { OnOk result (All IsShort streams.now) }
    ensures fault { IfErr result (λ fault. IsFaultOfOne streams.now fault) }
{
    let mut words = Vec::new(alloc);
    'streams: for index in 0..streams.len() {
        let word = match tasks[index].finish() {
            Ok(word) => word,
            Err(fault) => return Err(fault),
        };
        push_word(&mut words, word)?;
    }
    Ok(words)
}

// Runs tasks, one for each stream, on at most so many workers, each of which has some in turn. Their answers, in order.
fn run_all<R: Threads + Sync>(
    rt: &R,
    alloc: Global,
    settings: &Settings,
    streams: &[Blob],
    tasks: &mut [StreamTask<'_>],
    workers: u32,
) -> Result<Vec<Word>, ReplayFault>
    requires workers { 0 < workers }
    requires tasks { StandEach settings.now streams.now tasks.old }
    ensures texts { IfOk result (λ v. v.items ≡ texts_from settings.now 0 streams.now) }
    ensures short { OnOk result (All IsShort streams.now) }
    ensures fault { IfErr result (λ fault. IsFaultOfOne streams.now fault) }
{
    let size = tasks.len().div_ceil(workers as usize).max(1);
    for_each_chunk_mut(
        rt,
        tasks,
        size,
        &|_start: usize, part: &mut [StreamTask<'_>]|
            ensures { (k : ℕ) (d : Task) → k < length part.entry.now
                → GoesOn (slice_index_or part.entry.now k d) (slice_index_or part.exit.now k d) }
        { run_in_turn(part) },
    );
    answers_of(alloc, settings, streams, tasks)
}

/// Replays streams that are in memory, on at most so many workers: the text of each, in order, whatever the number of workers.
/// Each worker has some of the streams, and replays 64 lines of one after 64 lines of the other. A text is the lines of its
/// stream's output, each with one line feed, at its end. The hashes of buckets' names go by `seed`. A stream of more than 67,108,864 bytes or 1,048,576 lines is refused
/// with TooLong.
pub fn replay_all<R: Threads + Sync>(
    rt: &R,
    alloc: Global,
    settings: &Settings,
    seed: RandomState,
    streams: &Blobs,
    workers: u32,
) -> Result<Names, ReplayFault>
    requires { 0 < workers }
    ensures texts { IfOk result (λ v. v ≡ texts_from settings.now 0 streams.now) }
    ensures short { OnOk result (All IsShort streams.now) }
    ensures lines { (index : ℕ) (bytes : List ℕ) → AreLines (quota_output settings.now index bytes) }
    ensures cut { (index : ℕ) (bytes : List ℕ) → with_feeds (output_text settings.now index bytes) ≡ quota_output settings.now index bytes }
    ensures fault { IfErr result (λ fault. IsFaultOfOne streams.now fault) }
{
    let Ok(mut tasks) = tasks_of(alloc, settings, seed, streams.items()) else {
        return Err(ReplayFault::OutOfMemory);
    };
    match run_all(rt, alloc, settings, streams.items(), &mut tasks, workers) {
        Ok(words) => Ok(Names::of(words)),
        Err(fault) => Err(fault),
    }
}
