use script_run::Line;
use script_text::Script;
use std::alloc::Global;
use std::test::Fail;

fn shown(alloc: Global, line: &Line) -> Result<String, Fail> {
    match line {
        Line::Check(request) => Ok(format!(in alloc; "check {};", request.domain().as_str())?),
        Line::Reload(config) => Ok(format!(in alloc; "reload {};", config.trees().len())?),
        Line::Tick(moment) => Ok(format!(in alloc; "tick {};", moment.get())?),
        Line::Bad(refused) => Ok(format!(in alloc;
            "{} at {};",
            refused.number,
            refused.at.as_str()
        )?),
    }
}

// The lines of a script.
fn lines(alloc: Global, text: &str) -> Result<String, Fail> {
    let mut out = String::new(alloc);
    for line in Script::read(alloc, text.as_bytes())?.read_lines(alloc)? {
        out.push_str(&shown(alloc, &line)?)?;
    }
    Ok(out)
}

#[test]
fn scripts_are_cut_at_each_line_feed(rt: HostRuntime) -> Result<(), Fail> {
    const ROWS: &[(&str, &str)] = &[
        ("", ""),
        ("\n", "1 at ;"),
        ("\n\n", "1 at ;1 at ;"),
        ("{\"tick\":1}", "tick 1;"),
        ("{\"tick\":1}\n", "tick 1;"),
        ("{\"tick\":1}\n\n{\"tick\":2}", "tick 1;1 at ;tick 2;"),
        ("{\"tick\":1}\r\n{\"tick\":2}\n", "tick 1;tick 2;"),
        ("{\"tick\":1000000000000}", "tick 1000000000000;"),
        ("{\"tick\":1000000000001}", "7 at /tick;"),
        ("{\"tick\":1.5}", "6 at /tick;"),
        ("{\"tick\":65,\"tick\":7}", "tick 7;"),
        ("{\"tick\":1,\"check\":{}}", "28 at ;"),
        ("{\"tick\":1", "1 at ;"),
        (
            "{\"check\":{\"domain\":\"d\",\"descriptors\":[{\"entries\":[{\"key\":\"k\",\"value\":\"a\"}]}]}}",
            "check d;",
        ),
        ("{\"check\":{\"domain\":\"d\"}}", "21 at /check;"),
    ];
    for &(text, want) in ROWS {
        let found = lines(rt.alloc(), text)?;
        assert_eq!(rt; found.as_str(), want, "at {text}");
    }
    Ok(())
}

// A table is a text. Each of its lines is a line of a script, an arrow, and what that says.
const LINES: &str = r#"{} => 27 at ;
null => 2 at ;
{"check":null,"tick":null} => 27 at ;
{"tick":"0060","check":null} => tick 60;
{"tick":1,"reload":[]} => 28 at ;
{"tick":1,"reload":[],"at":1} => 3 at /at;
{"tick":{}} => 5 at /tick;
{"reload":[]} => reload 0;
{"reload":[{"domain":"d"},{"domain":"e","descriptors":[{"key":"k"}]}]} => reload 2;
{"reload":{}} => 5 at /reload;
{"reload":[[]]} => 2 at /reload/0;
{"reload":[{"domain":"d"},{"domain":"d"}]} => 11 at /reload/1;
{"reload":[{"domain":"d","descriptors":[{"key":""}]}]} => 12 at /reload/0/descriptors/0;
{"reload":[{"domain":""},{"domain":"d","descriptors":[{"keys":1}]}]} => 3 at /reload/1/descriptors/0/keys;
{"reload":[{"domain":"d"},{"domain":"e","descriptors":[{"key":"k"},{"key":"l","descriptors":[{"key":"m"},{"key":"m"}]}]}]} => 13 at /reload/1/descriptors/1/descriptors/1;
{"check":{"domain":"d","descriptors":[{"entries":[{"key":""}]}]}} => 24 at /check/descriptors/0/entries/0;"#;

#[test]
fn lines_are_refused_at_their_places(rt: HostRuntime) -> Result<(), Fail> {
    for row in LINES.lines() {
        let (text, want) = row.split_once(" => ").ok_or("a row")?;
        let found = lines(rt.alloc(), text)?;
        assert_eq!(rt; found.as_str(), want, "at {text}");
    }
    Ok(())
}
