// Which of two faults in one object counts, and each number that the table of files lacks.
use super::{said, shown};
use rate_types::{Blob, Blobs};
use std::test::Fail;

// A policy inside the one node of a file.
fn said_of_policy(rt: &HostRuntime, policy: &str) -> Result<String, Fail> {
    let text = format!(in rt.alloc();
        r#"{{"domain":"d","descriptors":[{{"key":"k","rateLimit":{policy}}}]}}"#
    )?;
    said(rt.alloc(), &text)
}

#[test]
fn fields_of_a_file_are_read_in_order(rt: HostRuntime) -> Result<(), Fail> {
    const ROWS: &[(&str, &str)] = &[
        (r#"{"domain":5,"name":5}"#, "5 at 0:/name"),
        (r#"{"descriptors":5,"domain":5}"#, "5 at 0:/domain"),
        (
            r#"{"a":1,"domain":"d","descriptors":[5]}"#,
            "2 at 0:/descriptors/0",
        ),
        (r#"{"b":1,"a":1,"domain":"d"}"#, "3 at 0:/a"),
        (r#"{"domain":"","a/b~c":1}"#, "3 at 0:/a~1b~0c"),
        (r#"{"domain":null}"#, "10 at 0:"),
        (r#"{"domain":"","descriptors":[{"key":""}]}"#, "10 at 0:"),
    ];
    for &(text, want) in ROWS {
        let found = said(rt.alloc(), text)?;
        assert_eq!(rt; found.as_str(), want, "at {text}");
    }
    Ok(())
}

#[test]
fn fields_of_a_node_are_read_in_order(rt: HostRuntime) -> Result<(), Fail> {
    const ROWS: &[(&str, &str)] = &[
        (r#"{"value":5,"key":5}"#, "5 at 0:/descriptors/0/key"),
        (
            r#"{"rateLimit":5,"value":5}"#,
            "5 at 0:/descriptors/0/value",
        ),
        (
            r#"{"shadowMode":5,"rateLimit":5}"#,
            "2 at 0:/descriptors/0/rateLimit",
        ),
        (
            r#"{"detailedMetric":5,"shadowMode":5}"#,
            "5 at 0:/descriptors/0/shadowMode",
        ),
        (
            r#"{"descriptors":5,"detailedMetric":5}"#,
            "5 at 0:/descriptors/0/detailedMetric",
        ),
        (
            r#"{"a":5,"descriptors":5}"#,
            "5 at 0:/descriptors/0/descriptors",
        ),
        (r#"{"key":"","a":5}"#, "3 at 0:/descriptors/0/a"),
        (
            r#"{"shadowMode":null,"shadow_mode":true,"a":5}"#,
            "4 at 0:/descriptors/0/shadowMode",
        ),
        (r#"{"key":""},{"key":""}"#, "12 at 0:/descriptors/0"),
        (
            r#"{"key":"k"},{"key":"k"},{"key":""}"#,
            "13 at 0:/descriptors/1",
        ),
    ];
    for &(nodes, want) in ROWS {
        let text = format!(in rt.alloc(); r#"{{"domain":"d","descriptors":[{nodes}]}}"#)?;
        let found = said(rt.alloc(), &text)?;
        assert_eq!(rt; found.as_str(), want, "at {nodes}");
    }
    Ok(())
}

#[test]
fn fields_of_a_policy_are_read_in_order(rt: HostRuntime) -> Result<(), Fail> {
    const ROWS: &[(&str, &str, &str)] = &[
        (r#"{"requestsPerUnit":"x","unit":5}"#, "5 at", "/unit"),
        (
            r#"{"unlimited":5,"requestsPerUnit":"x"}"#,
            "6 at",
            "/requestsPerUnit",
        ),
        (r#"{"name":5,"unlimited":5}"#, "5 at", "/unlimited"),
        (r#"{"replaces":5,"name":5}"#, "5 at", "/name"),
        (r#"{"a":5,"replaces":5}"#, "5 at", "/replaces"),
        (r#"{"a":5}"#, "3 at", "/a"),
        (r#"{"name":"n","replaces":["n"]}"#, "14 at", ""),
        (r#"{"unit":"unknown"}"#, "14 at", ""),
        (
            r#"{"unit":"DAY","unlimited":true,"name":"n","replaces":["n"]}"#,
            "15 at",
            "",
        ),
        (r#"{"requestsPerUnit":1.5}"#, "6 at", "/requestsPerUnit"),
        (r#"{"requests_per_unit":""}"#, "6 at", "/requests_per_unit"),
        (
            r#"{"requestsPerUnit":"000000000000000000001"}"#,
            "6 at",
            "/requestsPerUnit",
        ),
        (r#"{"requestsPerUnit":-1}"#, "7 at", "/requestsPerUnit"),
        (
            r#"{"requestsPerUnit":4294967296}"#,
            "7 at",
            "/requestsPerUnit",
        ),
        (
            r#"{"requestsPerUnit":"99999999999999999999"}"#,
            "7 at",
            "/requestsPerUnit",
        ),
        (r#"{"requestsPerUnit":true}"#, "5 at", "/requestsPerUnit"),
        (r#"{"unit":"Week"}"#, "8 at", "/unit"),
    ];
    for &(policy, number, field) in ROWS {
        let found = said_of_policy(&rt, policy)?;
        let want = format!(in rt.alloc(); "{number} 0:/descriptors/0/rateLimit{field}")?;
        assert_eq!(rt; found.as_str(), want.as_str(), "at {policy}");
    }
    Ok(())
}

#[test]
fn numbers_are_read_up_to_the_greatest(rt: HostRuntime) -> Result<(), Fail> {
    let rows = [
        r#"{"unit":"DAY","requestsPerUnit":4294967295}"#,
        r#"{"unit":"DAY","requestsPerUnit":"00000000004294967295"}"#,
        r#"{"unit":"day","requestsPerUnit":null}"#,
    ];
    for policy in rows {
        let found = said_of_policy(&rt, policy)?;
        assert_eq!(rt; found.as_str(), "1 trees", "at {policy}");
    }
    Ok(())
}

// A policy that replaces so many names.
fn replaced(rt: &HostRuntime, count: u32) -> Result<String, Fail> {
    let mut text = String::from_str(rt.alloc(), r#"{"unlimited":true,"name":"a","replaces":["#)?;
    for i in 0..count {
        text.push_str(if i == 0 { "\"b\"" } else { ",\"b\"" })?;
    }
    text.push_str("]}")?;
    Ok(text)
}

#[test]
fn a_rule_replaces_at_most_32_names(rt: HostRuntime) -> Result<(), Fail> {
    let rows = [
        (32, "1 trees"),
        (33, "30 at 0:/descriptors/0/rateLimit/replaces"),
    ];
    for (count, want) in rows {
        let policy = replaced(&rt, count)?;
        let found = said_of_policy(&rt, &policy)?;
        assert_eq!(rt; found.as_str(), want);
    }
    Ok(())
}

// All files are read before the first tree is checked.
#[test]
fn a_later_file_is_read_before_trees_are_checked(rt: HostRuntime) -> Result<(), Fail> {
    let alloc = rt.alloc();
    const ROWS: &[(&str, &str)] = &[
        (r#"{"domain":"e","a":1}"#, "3 at 1:/a"),
        (r#"{"domain":"e"}"#, "10 at 0:"),
    ];
    for &(second, want) in ROWS {
        let mut files = Vec::new(alloc);
        for text in [r#"{"domain":""}"#, second] {
            files.push(Blob::of(Vec::from_slice(alloc, text.as_bytes())?))?;
        }
        let found = shown(alloc, &Blobs::of(files))?;
        assert_eq!(rt; found.as_str(), want);
    }
    Ok(())
}
