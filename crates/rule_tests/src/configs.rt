mod orders;

use config_json::{print_config, read_config};
use descriptor_tree::ConfigFault;
use rate_types::{Blob, Blobs};
use std::alloc::Global;
use std::test::Fail;

// What one file reads as: its number of nodes of the first level, or its first fault.
fn said(alloc: Global, text: &str) -> Result<String, Fail> {
    let mut files = Vec::new(alloc);
    files.push(Blob::of(Vec::from_slice(alloc, text.as_bytes())?))?;
    shown(alloc, &Blobs::of(files))
}

fn shown(alloc: Global, files: &Blobs) -> Result<String, Fail> {
    match read_config(alloc, files) {
        Ok(config) => Ok(format!(in alloc; "{} trees", config.trees().len())?),
        Err(ConfigFault::Refused(at)) => Ok(format!(in alloc;
            "{} at {}:{}",
            at.refused.number,
            at.file,
            at.refused.at.as_str()
        )?),
        Err(ConfigFault::OutOfMemory) => Ok(String::from_str(alloc, "out of memory")?),
    }
}

#[test]
fn files_are_refused_at_their_first_fault(rt: HostRuntime) -> Result<(), Fail> {
    const ROWS: &[(&str, &str)] = &[
        ("", "1 at 0:"),
        ("[]", "2 at 0:"),
        (r#"{"domain":"d"}"#, "1 trees"),
        (r#"{"name":5,"domain":"d"}"#, "5 at 0:/name"),
        (r#"{"domain":""}"#, "10 at 0:"),
        (
            r#"{"domain":"d","descriptors":[null]}"#,
            "2 at 0:/descriptors/0",
        ),
        (r#"{"domain":"d","descriptors":{}}"#, "5 at 0:/descriptors"),
        (
            r#"{"domain":"d","descriptors":[{"key":""}]}"#,
            "12 at 0:/descriptors/0",
        ),
        (
            r#"{"domain":"d","descriptors":[{"key":"k"},{"key":"k"}]}"#,
            "13 at 0:/descriptors/1",
        ),
        (
            r#"{"domain":"d","descriptors":[{"key":"k","value":"v"},{"key":"k","value":""}]}"#,
            "1 trees",
        ),
        (
            r#"{"domain":"d","descriptors":[{"key":"k","value":"v"},{"key":"k","value":"v"}]}"#,
            "13 at 0:/descriptors/1",
        ),
        (
            r#"{"domain":"d","descriptors":[{"key":"k","rateLimit":{}}]}"#,
            "14 at 0:/descriptors/0/rateLimit",
        ),
        (
            r#"{"domain":"d","descriptors":[{"key":"k","rate_limit":{"unit":"second","unlimited":true}}]}"#,
            "15 at 0:/descriptors/0/rate_limit",
        ),
        (
            r#"{"domain":"d","descriptors":[{"key":"k","rateLimit":{},"rate_limit":{}}]}"#,
            "4 at 0:/descriptors/0/rateLimit",
        ),
        (
            r#"{"domain":"d","descriptors":[{"key":"k","rateLimit":{"unit":"WEEK","x":1}}]}"#,
            "8 at 0:/descriptors/0/rateLimit/unit",
        ),
        (
            r#"{"domain":"d","descriptors":[{"key":"k","rateLimit":{"x":1}}]}"#,
            "3 at 0:/descriptors/0/rateLimit/x",
        ),
        (
            r#"{"domain":"d","descriptors":[{"key":"k","rateLimit":{"unlimited":true,"name":"n","replaces":["m",{"name":"n"}]}}]}"#,
            "29 at 0:/descriptors/0/rateLimit",
        ),
        (
            r#"{"domain":"d","descriptors":[{"key":"k","rateLimit":{"unlimited":true,"name":"","replaces":["",{}]}}]}"#,
            "1 trees",
        ),
        (
            r#"{"domain":"d","descriptors":[{"key":"k","rateLimit":{"unlimited":true,"replaces":["m",null]}}]}"#,
            "5 at 0:/descriptors/0/rateLimit/replaces/1",
        ),
        (
            r#"{"domain":"d","descriptors":[{"key":"k","rateLimit":{"unlimited":true,"replaces":[{"x":1}]}}]}"#,
            "3 at 0:/descriptors/0/rateLimit/replaces/0/x",
        ),
        (
            r#"{"domain":"d","descriptors":[{"key":"k","shadow_mode":1,"detailedMetric":2}]}"#,
            "5 at 0:/descriptors/0/shadow_mode",
        ),
        (
            r#"{"domain":"d","descriptors":[{"key":"a","descriptors":[{"key":"k"},{"key":""}]},{"key":""}]}"#,
            "12 at 0:/descriptors/0/descriptors/1",
        ),
    ];
    for &(text, want) in ROWS {
        let found = said(rt.alloc(), text)?;
        assert_eq!(rt; found.as_str(), want, "at {text}");
    }
    Ok(())
}

// A file with so many nodes of the first level.
fn wide(alloc: Global, nodes: u32) -> Result<String, Fail> {
    let mut text = String::from_str(alloc, r#"{"domain":"d","descriptors":["#)?;
    for i in 0..nodes {
        if i > 0 {
            text.push(',')?;
        }
        let node = format!(in alloc; r#"{{"key":"k{i}"}}"#)?;
        text.push_str(&node)?;
    }
    text.push_str("]}")?;
    Ok(text)
}

// A file with so many nodes below one another.
fn deep(alloc: Global, levels: u32) -> Result<String, Fail> {
    let mut text = String::from_str(alloc, r#"{"domain":"d""#)?;
    for _ in 0..levels {
        text.push_str(r#","descriptors":[{"key":"k""#)?;
    }
    for _ in 0..levels {
        text.push_str("}]")?;
    }
    text.push('}')?;
    Ok(text)
}

// A file with a key of so many bytes.
fn long_key(alloc: Global, bytes: u32) -> Result<String, Fail> {
    let mut text = String::from_str(alloc, r#"{"domain":"d","descriptors":[{"key":""#)?;
    for _ in 0..bytes {
        text.push('k')?;
    }
    text.push_str(r#""}]}"#)?;
    Ok(text)
}

// So many brackets inside one another.
fn brackets(alloc: Global, count: u32) -> Result<String, Fail> {
    let mut text = String::new(alloc);
    for _ in 0..count {
        text.push('[')?;
    }
    for _ in 0..count {
        text.push(']')?;
    }
    Ok(text)
}

#[test]
fn limits_are_exact(rt: HostRuntime) -> Result<(), Fail> {
    let alloc = rt.alloc();
    let rows = [
        (wide(alloc, 65536)?, "1 trees"),
        (wide(alloc, 65537)?, "17 at 0:/descriptors/65536"),
        (deep(alloc, 32)?, "1 trees"),
        (long_key(alloc, 1024)?, "1 trees"),
        (long_key(alloc, 1025)?, "18 at 0:/descriptors/0/key"),
        (brackets(alloc, 1000)?, "1 at 0:"),
    ];
    for (text, want) in rows {
        let found = said(alloc, &text)?;
        assert_eq!(rt; found.as_str(), want);
    }
    let found = said(alloc, &deep(alloc, 33)?)?;
    assert!(rt; found.starts_with("16 at 0:/descriptors/0/descriptors/0"));
    assert_eq!(rt; found.len(), 8 + 33 * 14);
    Ok(())
}

#[test]
fn a_domain_stands_in_one_file(rt: HostRuntime) -> Result<(), Fail> {
    let alloc = rt.alloc();
    let mut files = Vec::new(alloc);
    const ROWS: &[&str] = &[
        r#"{"domain":"d"}"#,
        r#"{"domain":"e"}"#,
        r#"{"domain":"d"}"#,
    ];
    for &text in ROWS {
        files.push(Blob::of(Vec::from_slice(alloc, text.as_bytes())?))?;
    }
    let found = shown(alloc, &Blobs::of(files))?;
    assert_eq!(rt; found.as_str(), "11 at 2:");
    Ok(())
}

// The printed form of what a file spells.
fn printed(alloc: Global, text: &str) -> Result<Vec<String>, Fail> {
    let mut files = Vec::new(alloc);
    files.push(Blob::of(Vec::from_slice(alloc, text.as_bytes())?))?;
    match read_config(alloc, &Blobs::of(files)) {
        Ok(config) => match print_config(alloc, &config) {
            Ok(texts) => Ok(texts),
            Err(_) => Ok(Vec::new(alloc)),
        },
        Err(_) => Ok(Vec::new(alloc)),
    }
}

#[test]
fn configurations_print_in_one_form(rt: HostRuntime) -> Result<(), Fail> {
    const ROWS: &[(&str, &str)] = &[
        (
            r#"{"domain":"d","descriptors":[{"key":"k","rateLimit":{"unit":"MINUTE","requestsPerUnit":2}}]}"#,
            r#"{"descriptors":[{"key":"k","rateLimit":{"requestsPerUnit":2,"unit":"MINUTE"}}],"domain":"d"}"#,
        ),
        (
            r#"{"name":"x","domain":"d","descriptors":[{"key":"k","value":"v*","shadow_mode":true,"detailed_metric":true,"rate_limit":{"unit":"day","requests_per_unit":"0","name":"a","replaces":["b",{"name":"c"},""]},"descriptors":[{"key":"u","value":"","rateLimit":{"unlimited":true,"requestsPerUnit":7}}]}]}"#,
            r#"{"descriptors":[{"descriptors":[{"key":"u","rateLimit":{"unlimited":true}}],"key":"k","rateLimit":{"name":"a","replaces":[{"name":"b"},{"name":"c"}],"unit":"DAY"},"shadowMode":true,"value":"v*"}],"domain":"d"}"#,
        ),
        // Nodes without a policy and unlimited ones.
        (
            r#"{"domain":"d","descriptors":[{"key":"a"},{"key":"a","value":"x","rateLimit":null,"descriptors":[{"key":"b","rateLimit":{"unlimited":true,"unit":"UNKNOWN","name":""}}]},{"key":"c","rateLimit":{"unlimited":true}}]}"#,
            r#"{"descriptors":[{"key":"a"},{"descriptors":[{"key":"b","rateLimit":{"unlimited":true}}],"key":"a","value":"x"},{"key":"c","rateLimit":{"unlimited":true}}],"domain":"d"}"#,
        ),
    ];
    for &(text, want) in ROWS {
        let first = printed(rt.alloc(), text)?;
        let second = printed(rt.alloc(), want)?;
        match (first.as_slice(), second.as_slice()) {
            ([one], [again]) => {
                assert_eq!(rt; one.as_str(), want);
                assert_eq!(rt; again.as_str(), want);
            }
            _ => assert!(rt; false, "not read: {text}"),
        }
    }
    Ok(())
}
