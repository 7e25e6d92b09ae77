// Streams that are replayed.
mod rows;
mod sinks;
mod turns;

use quota_settings::Settings;
use quota_settings_json::read_settings;
use quota_stream::{ReplayFault, replay_all};
use rate_types::{Blob, Blobs, Names};
use std::alloc::Global;
use std::hash::RandomState;
use std::process::Abort;
use std::random::RandomSource;
use std::test::Fail;
use std::thread::Threads;

/// Settings of one bucket, `name` with the value b, with these further fields.
pub fn settings_with(alloc: Global, further: &str) -> Result<Settings, Fail> {
    let text = format!(in alloc;
        r#"{{"domain":"q","buckets":[{{"bucketIdBuilder":{{"bucketIdBuilder":{{"name":{{"stringValue":"b"}}}}}}{further}}}]}}"#
    )?;
    let settings = read_settings(alloc, text.as_bytes())
        .ok()
        .ok_or("settings")?;
    Ok(settings)
}

/// These texts as streams.
pub fn streams_of(alloc: Global, texts: &[&str]) -> Result<Blobs, Fail> {
    let mut streams = Vec::new(alloc);
    for text in texts {
        streams.push(Blob::of(text.as_bytes().to_vec(alloc)?))?;
    }
    Ok(Blobs::of(streams))
}

/// What a replay answers, in words: the texts one after the other, or the fault.
pub fn answer_text(alloc: Global, answer: Result<Names, ReplayFault>) -> Result<String, Fail> {
    match answer {
        Ok(names) => {
            let mut all = String::new(alloc);
            for name in names.items() {
                all.push_str(name.as_str())?;
            }
            Ok(all)
        }
        Err(ReplayFault::TooLong { read }) => Ok(format!(in alloc; "too long: {read}")?),
        Err(_) => Ok(String::from_str(alloc, "another fault")?),
    }
}

/// What the replay of these streams answers with so many workers.
pub fn replayed<R: RandomSource + Threads + Sync>(
    rt: &R,
    alloc: Global,
    settings: &Settings,
    texts: &[&str],
    workers: u32,
) -> Result<String, Fail> {
    let streams = streams_of(alloc, texts)?;
    answer_text(
        alloc,
        replay_all(
            rt,
            alloc,
            settings,
            RandomState::new(rt)?,
            &streams,
            workers.max(1),
        ),
    )
}
