use super::rows::{RENEWED, RENEWED_OUTPUT};
use super::settings_with;
use quota_stream::{ReplayFault, replay};
use rate_io::{MemSink, MemSource};
use std::alloc::Global;
use std::hash::RandomState;
use std::random::RandomSource;
use std::test::Fail;

// What a replay of this text answers, where the calls of these numbers fail.
fn replayed_into<R: RandomSource>(
    rt: &R,
    alloc: Global,
    text: &str,
    read: u64,
    write: u64,
) -> Result<(Result<(), ReplayFault>, MemSink), Fail> {
    let settings = settings_with(alloc, r#","reportingInterval":"5s""#)?;
    let mut reads = Vec::new(alloc);
    reads.push(read)?;
    let mut writes = Vec::new(alloc);
    writes.push(write)?;
    let mut source = MemSource::new(text.as_bytes().to_vec(alloc)?, reads);
    let mut sink = MemSink::new(alloc, writes);
    let answer = replay(
        alloc,
        &settings,
        RandomState::new(rt)?,
        0,
        &mut source,
        &mut sink,
    );
    Ok((answer, sink))
}

#[test]
fn a_replay_writes_each_line_by_one_call(rt: HostRuntime) -> Result<(), Fail> {
    let (answer, sink) = replayed_into(&rt, rt.alloc(), RENEWED, 0, 0)?;
    assert!(rt; answer.is_ok());
    assert!(rt; sink.bytes() == RENEWED_OUTPUT.as_bytes());
    assert_eq!(rt; sink.pieces().len(), 10);
    Ok(())
}

#[test]
fn a_replay_stops_at_a_fault(rt: HostRuntime) -> Result<(), Fail> {
    let (answer, sink) = replayed_into(&rt, rt.alloc(), RENEWED, 0, 4)?;
    assert_eq!(rt; answer, Err(ReplayFault::Write));
    assert_eq!(rt; sink.pieces().len(), 3);
    let (answer, sink) = replayed_into(&rt, rt.alloc(), RENEWED, 1, 0)?;
    assert_eq!(rt; answer, Err(ReplayFault::Read));
    assert!(rt; sink.bytes().is_empty());
    Ok(())
}
