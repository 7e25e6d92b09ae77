use quota_buckets::{
    AdvanceFault, Assigned, Attributes, BucketId, Buckets, Decided, NoBucket, Pair, Report,
    Reports, Strategy,
};
use quota_settings_json::read_settings;
use rate_types::{Millis, Text};
use std::alloc::Global;
use std::hash::RandomState;
use std::process::Abort;
use std::random::RandomSource;
use std::test::Fail;

/// What is done at a moment. Each bucket has a name of one pair, `name` with the given value.
#[derive(Clone, Copy)]
pub enum Step<'a> {
    /// Time goes on.
    Wait,
    /// A request whose attribute `name` has this value.
    Request(&'a str),
    /// A request of the bucket.
    Decide(&'a str),
    /// An assignment to the bucket, with its lifetime in milliseconds.
    Assign(&'a str, Option<u64>, Strategy),
    /// The bucket is abandoned.
    Abandon(&'a str),
    /// The stream is up, or is lost.
    SetUp(bool),
}

/// A moment of so many milliseconds.
pub fn moment(millis: u64) -> Result<Millis, Fail> {
    let moment = Millis::new(millis).ok_or("a moment")?;
    Ok(moment)
}

/// The attributes of one pair, `name` with this value.
pub fn named(alloc: Global, value: &str) -> Result<Attributes, Fail> {
    let name = Text::new(alloc, "name")?;
    let value = Text::new(alloc, value)?;
    let mut pairs = Vec::new(alloc);
    pairs.push(Pair { name, value })?;
    Ok(Attributes::sorted(pairs))
}

/// The bucket's name with this value.
pub fn id_named(alloc: Global, value: &str) -> Result<BucketId, Fail> {
    let id = BucketId::of(named(alloc, value)?).ok_or("a name")?;
    Ok(id)
}

/// The value in a bucket's name.
pub fn value_of(id: &BucketId) -> &str {
    match id.items().first() {
        Some(pair) => pair.value.as_str(),
        None => "",
    }
}

/// New buckets with the settings that this text spells.
pub fn buckets_of<R: RandomSource>(rt: &R, alloc: Global, settings: &str) -> Result<Buckets, Fail> {
    let settings = read_settings(alloc, settings.as_bytes())
        .ok()
        .ok_or("settings")?;
    Ok(Buckets::make(alloc, settings, RandomState::new(rt)?))
}

// Adds words, with a space between them and those before.
fn add(told: &mut String, words: &str) -> Result<(), Fail> {
    if !told.is_empty() {
        told.push(' ')?;
    }
    told.push_str(words)?;
    Ok(())
}

// Adds a report.
fn add_report(alloc: Global, told: &mut String, report: &Report) -> Result<(), Fail> {
    let words = format!(in alloc;
        "[{} at {} after {}: {} allowed, {} denied]",
        value_of(&report.bucket),
        report.at.get(),
        report.elapsed.get(),
        report.allowed,
        report.denied
    )?;
    add(told, &words)
}

// Adds reports.
fn add_reports(alloc: Global, told: &mut String, reports: &Reports) -> Result<(), Fail> {
    for report in reports.items() {
        add_report(alloc, told, report)?;
    }
    Ok(())
}

// Adds why time doesn't go on.
fn add_fault(alloc: Global, told: &mut String, fault: AdvanceFault) -> Result<(), Fail> {
    match fault {
        AdvanceFault::TimeBack { last } => {
            let words = format!(in alloc; "before {}", last.get())?;
            add(told, &words)
        }
        AdvanceFault::OutOfMemory => add(told, "out of memory"),
    }
}

// Brings the buckets to a moment, and adds what that says.
fn advance(alloc: Global, told: &mut String, buckets: &mut Buckets, at: u64) -> Result<(), Fail> {
    match buckets.advance(moment(at)?) {
        Ok(reports) => add_reports(alloc, told, &reports),
        Err(fault) => add_fault(alloc, told, fault),
    }
}

// Adds the answer to a request, its bucket and its first report.
fn add_decided(alloc: Global, told: &mut String, decided: &Decided) -> Result<(), Fail> {
    add(told, if decided.allowed { "allow" } else { "deny" })?;
    if let Some(id) = &decided.bucket {
        add(told, value_of(id))?;
    }
    if let Some(report) = &decided.report {
        add_report(alloc, told, report)?;
    }
    Ok(())
}

// The answer to a request of a bucket.
fn answer_word(answer: Option<bool>) -> &'static str {
    match answer {
        Some(true) => "allow",
        Some(false) => "deny",
        None => "none",
    }
}

// What an assignment did.
fn assigned_word(assigned: Result<Assigned, NoBucket>) -> &'static str {
    match assigned {
        Ok(Assigned::New) => "new",
        Ok(Assigned::Renewed) => "renewed",
        Err(NoBucket) => "no bucket",
    }
}

// What an abandonment did.
fn abandoned_word(abandoned: Result<(), NoBucket>) -> &'static str {
    match abandoned {
        Ok(()) => "abandoned",
        Err(NoBucket) => "no bucket",
    }
}

// Asks with the attribute `name`, and adds what that says.
fn request(
    alloc: Global,
    told: &mut String,
    buckets: &mut Buckets,
    value: &str,
) -> Result<(), Fail> {
    let attributes = named(alloc, value)?;
    let decided = buckets.request(&attributes)?;
    add_decided(alloc, told, &decided)
}

// Assigns a strategy, and says what that did.
fn assign(
    alloc: Global,
    buckets: &mut Buckets,
    value: &str,
    lifetime: Option<u64>,
    strategy: Strategy,
) -> Result<&'static str, Fail> {
    let id = id_named(alloc, value)?;
    let lifetime = match lifetime {
        Some(millis) => Some(moment(millis)?),
        None => None,
    };
    Ok(assigned_word(buckets.assign(&id, lifetime, strategy)))
}

// Does what a step does, and adds what that says.
fn take(
    alloc: Global,
    told: &mut String,
    buckets: &mut Buckets,
    step: &Step<'_>,
) -> Result<(), Fail> {
    match step {
        Step::Wait => Ok(()),
        Step::Request(value) => request(alloc, told, buckets, value),
        Step::Decide(value) => {
            let id = id_named(alloc, value)?;
            add(told, answer_word(buckets.decide(&id)))
        }
        Step::Assign(value, lifetime, strategy) => {
            add(told, assign(alloc, buckets, value, *lifetime, *strategy)?)
        }
        Step::Abandon(value) => {
            let id = id_named(alloc, value)?;
            add(told, abandoned_word(buckets.abandon(&id)))
        }
        Step::SetUp(up) => {
            buckets.set_up(*up);
            Ok(())
        }
    }
}

/// Takes the steps at their moments, and compares what each says.
pub fn run<R: Abort + RandomSource>(
    rt: &R,
    alloc: Global,
    settings: &str,
    rows: &[(u64, Step<'_>, &str)],
) -> Result<(), Fail> {
    let mut buckets = buckets_of(rt, alloc, settings)?;
    for (at, step, want) in rows {
        let mut told = String::new(alloc);
        advance(alloc, &mut told, &mut buckets, *at)?;
        take(alloc, &mut told, &mut buckets, step)?;
        assert_eq!(rt; told.as_str(), *want, "at {at}");
    }
    Ok(())
}
