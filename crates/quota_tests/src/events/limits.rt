use crate::events::{action_said, event_said};
use std::alloc::Global;
use std::test::Fail;

// An action on a bucket of so many names, with these further fields.
fn action_on(alloc: Global, count: u32, further: &str) -> Result<String, Fail> {
    let mut names = String::new(alloc);
    for k in 0..count {
        let comma = if k == 0 { "" } else { "," };
        let name = format!(in alloc; r#"{comma}"n{k}":"b""#)?;
        names.push_str(&name)?;
    }
    Ok(format!(in alloc; r#"{{"bucketId":{{"bucket":{{{names}}}}}{further}}}"#)?)
}

const COUNTED: [(u32, &str, &str); 4] = [
    (33, r#","abandonAction":{}"#, r#"37 at """#),
    (33, r#","quotaAssignmentAction":{}"#, r#"37 at """#),
    (
        33,
        r#","quotaAssignmentAction":{},"abandonAction":{}"#,
        r#"34 at """#,
    ),
    (33, "", r#"35 at """#),
];

#[test]
fn a_bucket_has_at_most_32_names(rt: HostRuntime) -> Result<(), Fail> {
    let alloc = rt.alloc();
    let action = action_on(alloc, 32, r#","abandonAction":{}"#)?;
    let found = action_said(alloc, &action)?;
    assert!(rt; found.ends_with(" n9=b abandoned;"));
    for (count, further, want) in COUNTED {
        let action = action_on(alloc, count, further)?;
        let found = action_said(alloc, &action)?;
        assert_eq!(rt; found.as_str(), want, "with {further}");
    }
    Ok(())
}

// A text of so many bytes.
fn long_text(alloc: Global, count: u32) -> Result<String, Fail> {
    let mut text = String::new(alloc);
    for _ in 0..count {
        text.push('x')?;
    }
    Ok(text)
}

#[test]
fn names_and_values_have_at_most_1024_bytes(rt: HostRuntime) -> Result<(), Fail> {
    let alloc = rt.alloc();
    let most = long_text(alloc, 1_024)?;
    let more = long_text(alloc, 1_025)?;
    let event = format!(in alloc; r#""request":{{"attributes":{{"{most}":"{most}"}}}}"#)?;
    let found = event_said(alloc, &event)?;
    assert!(rt; found.starts_with("0 ms: request xxx"));
    let event = format!(in alloc; r#""request":{{"attributes":{{"{more}":"a"}}}}"#)?;
    let found = event_said(alloc, &event)?;
    assert_eq!(rt; found.as_str(), r#"18 at "/request/attributes""#);
    let event = format!(in alloc; r#""request":{{"attributes":{{"a":"{more}"}}}}"#)?;
    let found = event_said(alloc, &event)?;
    assert_eq!(rt; found.as_str(), r#"18 at "/request/attributes/a""#);
    let action = format!(in alloc; r#"{{"bucketId":{{"bucket":{{"a":"{more}"}}}}}}"#)?;
    let found = action_said(alloc, &action)?;
    assert_eq!(rt; found.as_str(), r#"18 at "/bucketId/bucket/a""#);
    Ok(())
}
