use super::settings_with;
use futures::executor::block_on;
use quota_stream::StreamTask;
use std::alloc::Global;
use std::hash::RandomState;
use std::test::Fail;

// So many lines without event.
fn passing(alloc: Global, count: u32) -> Result<String, Fail> {
    let mut text = String::new(alloc);
    for _ in 0..count {
        text.push_str("{\"at\":\"0s\"}\n")?;
    }
    Ok(text)
}

#[test]
fn a_turn_is_64_lines(rt: HostRuntime) -> Result<(), Fail> {
    let alloc = rt.alloc();
    for (count, turns) in [(0, 0), (1, 1), (64, 1), (65, 2), (129, 3)] {
        let text = passing(alloc, count)?;
        let settings = settings_with(alloc, r#","reportingInterval":"5s""#)?;
        let mut task = StreamTask::new(alloc, settings, RandomState::new(&rt)?, 0, text.as_bytes());
        let mut found: u32 = 0;
        for _ in 0..4 {
            if !task.is_ended() {
                task.turn();
                found = found.saturating_add(1);
            }
        }
        assert_eq!(rt; found, turns, "{count} lines");
        assert!(rt; task.is_ended());
    }
    Ok(())
}

#[test]
fn a_task_is_a_future_of_its_text(rt: HostRuntime) -> Result<(), Fail> {
    let alloc = rt.alloc();
    let text = passing(alloc, 65)?;
    let settings = settings_with(alloc, r#","reportingInterval":"5s""#)?;
    let task = StreamTask::new(alloc, settings, RandomState::new(&rt)?, 7, text.as_bytes());
    let answer = block_on(&rt, task)?;
    let word = answer.ok().ok_or("a text")?;
    assert_eq!(rt; word.as_str().lines().count(), 65);
    let last = word.as_str().lines().last().ok_or("a line")?;
    assert_eq!(rt; last, r#"{"at":"0s","line":65,"stream":7}"#);
    Ok(())
}
