use request_tokens::{Cursor, read_compact};
use std::alloc::Global;
use std::test::Fail;

// The domain and the number of descriptors of a text that is taken, and what is left behind it.
fn taken(alloc: Global, text: &str) -> Result<String, Fail> {
    let mut cursor = Cursor::new(text);
    match read_compact(alloc, &mut cursor)? {
        Some(request) => Ok(format!(in alloc;
            "{} {} {}",
            request.domain().as_str(),
            request.descriptors().len(),
            if cursor.is_empty() { "whole" } else { "front" }
        )?),
        None => Ok(String::from_str(alloc, "other")?),
    }
}

// No clause says that a text is taken, since those that aren't are read by their tokens.
#[test]
fn requests_are_taken_where_they_have_no_space_and_no_escape(rt: HostRuntime) -> Result<(), Fail> {
    const ROWS: &[(&str, &str)] = &[
        (
            r#"{"domain":"d","descriptors":[{"entries":[{"key":"k","value":"v"}]}]}"#,
            "d 1 whole",
        ),
        (
            r#"{"domain":"d","descriptors":[{"entries":[{"key":"k","value":"v"}]}]}}"#,
            "d 1 front",
        ),
        (
            r#"{"domain":"d","descriptors":[{"entries":[{"key":"k","value":""}]}]}"#,
            "d 1 whole",
        ),
        (
            r#"{"domain":"é","descriptors":[{"entries":[{"key":"k","value":"☃"}]}]}"#,
            "é 1 whole",
        ),
        (
            r#"{"domain":"d","descriptors":[{"entries":[{"key":"k","value":"v"},{"key":"l","value":"w"}]},{"entries":[{"key":"k","value":"v"}]}]}"#,
            "d 2 whole",
        ),
        (
            r#"{"domain": "d","descriptors":[{"entries":[{"key":"k","value":"v"}]}]}"#,
            "other",
        ),
        (
            r#"{"domain":"\u0064","descriptors":[{"entries":[{"key":"k","value":"v"}]}]}"#,
            "other",
        ),
        (
            r#"{"domain":"d","descriptors":[{"entries":[{"key":"k","value":"\n"}]}]}"#,
            "other",
        ),
        (
            r#"{"domain":"","descriptors":[{"entries":[{"key":"k","value":"v"}]}]}"#,
            "other",
        ),
        (r#"{"domain":"d","descriptors":[]}"#, "other"),
        (r#"{"domain":"d","descriptors":[{"entries":[]}]}"#, "other"),
        (
            r#"{"domain":"d","descriptors":[{"entries":[{"key":"","value":"v"}]}]}"#,
            "other",
        ),
        (
            r#"{"domain":"d","descriptors":[{"entries":[{"key":"k"}]}]}"#,
            "other",
        ),
        (
            r#"{"domain":"d","descriptors":[{"entries":[{"key":"k","value":"v"}]}],"hitsAddend":2}"#,
            "other",
        ),
        (
            r#"{"domain":"d","descriptors":[{"entries":[{"key":"k","value":"v"}]}]"#,
            "other",
        ),
    ];
    for &(text, want) in ROWS {
        let found = taken(rt.alloc(), text)?;
        assert_eq!(rt; found.as_str(), want, "at {text}");
    }
    Ok(())
}
