use crate::settings::{bucket_said, settings_said};
use std::alloc::Global;
use std::test::Fail;

// So many letters.
fn letters(alloc: Global, count: u32) -> Result<String, Fail> {
    let mut text = String::new(alloc);
    for _ in 0..count {
        text.push('k')?;
    }
    Ok(text)
}

// SHORT stands for 1,024 letters, LONG for 1,025.
const TEXTS: &str = r#""match":{"SHORT":"SHORT"} => 31 at "/buckets/0"
"match":{"a":"","LONG":1} => 18 at "/buckets/0/match"
"match":{"a":"LONG","LONG":1} => 18 at "/buckets/0/match/a"
"bucketIdBuilder":{"bucketIdBuilder":{"LONG":1}} => 18 at "/buckets/0/bucketIdBuilder/bucketIdBuilder"
"bucketIdBuilder":{"bucketIdBuilder":{"n":{"attribute":"LONG"}}} => 18 at "/buckets/0/bucketIdBuilder/bucketIdBuilder/n/attribute"
"bucketIdBuilder":{"bucketIdBuilder":{"n":{"stringValue":"LONG"}}} => 18 at "/buckets/0/bucketIdBuilder/bucketIdBuilder/n/stringValue"
"noAssignmentBehavior":{"fallbackRateLimit":{"blanketRule":"LONG"}} => 8 at "/buckets/0/noAssignmentBehavior/fallbackRateLimit/blanketRule""#;

// A text with the letters that SHORT and LONG stand for.
fn lettered(alloc: Global, text: &str) -> Result<String, Fail> {
    let short = letters(alloc, 1024)?;
    let long = letters(alloc, 1025)?;
    let text = text.replace(alloc, "SHORT", &short)?;
    Ok(text.replace(alloc, "LONG", &long)?)
}

#[test]
fn a_text_has_at_most_1024_bytes(rt: HostRuntime) -> Result<(), Fail> {
    let alloc = rt.alloc();
    for row in TEXTS.lines() {
        let (fields, want) = row.split_once(" => ").ok_or("a row")?;
        let found = bucket_said(alloc, &lettered(alloc, fields)?)?;
        assert_eq!(rt; found.as_str(), want, "at {fields}");
    }
    let found = settings_said(alloc, &lettered(alloc, r#"{"domain":"LONG"}"#)?)?;
    assert_eq!(rt; found.as_str(), r#"18 at "/domain""#);
    Ok(())
}

// A bucket whose name has so many parts.
fn with_parts(alloc: Global, count: u32) -> Result<String, Fail> {
    let mut text = String::from_str(
        alloc,
        r#""reportingInterval":"5s","bucketIdBuilder":{"bucketIdBuilder":{"#,
    )?;
    for i in 0..count {
        if i > 0 {
            text.push(',')?;
        }
        let part = format!(in alloc; r#""{i}":{{"stringValue":"b"}}"#)?;
        text.push_str(&part)?;
    }
    text.push_str("}}")?;
    Ok(text)
}

#[test]
fn a_name_has_at_most_32_parts(rt: HostRuntime) -> Result<(), Fail> {
    let alloc = rt.alloc();
    let found = bucket_said(alloc, &with_parts(alloc, 32)?)?;
    assert_eq!(rt; found.as_str(), "q");
    let found = bucket_said(alloc, &with_parts(alloc, 33)?)?;
    assert_eq!(rt; found.as_str(), r#"37 at "/buckets/0""#);
    Ok(())
}
