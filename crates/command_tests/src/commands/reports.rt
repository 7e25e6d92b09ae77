// The status and the text of each exit.
use cli_exits::Exit;
use rate_types::{At, Place, Refused};
use std::alloc::Global;
use std::test::Fail;

// A refusal at the member of this name.
fn refused(alloc: Global, name: &str) -> Result<Exit, Fail> {
    let at = Place::empty(alloc).child(name)?;
    Ok(Exit::ConfigRefused(At {
        file: 1,
        refused: Refused { at, number: 3 },
    }))
}

// The status of an exit and its text.
fn report(alloc: Global, exit: &Exit) -> Result<String, Fail> {
    let status = exit.status();
    match exit.text(alloc)? {
        Some(text) => Ok(format!(in alloc; "{status} {text}")?),
        None => Ok(format!(in alloc; "{status}")?),
    }
}

#[test]
fn each_exit_has_its_status_and_its_line(rt: HostRuntime) -> Result<(), Fail> {
    let alloc = rt.alloc();
    let rows = [
        (Exit::Done, "0"),
        (Exit::Usage, "1 ratelimit: usage"),
        (Exit::TooLong, "3 ratelimit: input too long"),
        (Exit::ReadFault, "4 ratelimit: read failed"),
        (Exit::WriteFault, "5 ratelimit: write failed"),
        (Exit::FileFault(2), "6 ratelimit: file 2: read failed"),
        (Exit::OutOfMemory, "7 ratelimit: out of memory"),
        (Exit::ListenFault, "8 ratelimit: listen failed"),
        (
            Exit::SettingsRefused(Refused {
                at: Place::empty(alloc).child("buckets")?,
                number: 31,
            }),
            "9 ratelimit: settings: refused 31 at /buckets",
        ),
    ];
    for (exit, want) in rows {
        let found = report(alloc, &exit)?;
        assert_eq!(rt; found.as_str(), want);
    }
    Ok(())
}

#[test]
fn control_characters_of_a_place_are_escaped(rt: HostRuntime) -> Result<(), Fail> {
    const ROWS: &[(&str, &str)] = &[
        ("a b", "2 ratelimit: config 1: refused 3 at /a b"),
        (
            "a\nb\u{1b}[1m",
            "2 ratelimit: config 1: refused 3 at /a\\u000ab\\u001b[1m",
        ),
        (
            "\u{7f}\u{9f}\u{a0}\u{e9}",
            "2 ratelimit: config 1: refused 3 at /\\u007f\\u009f\u{a0}\u{e9}",
        ),
    ];
    let alloc = rt.alloc();
    for &(name, want) in ROWS {
        let exit = refused(alloc, name)?;
        let found = report(alloc, &exit)?;
        assert_eq!(rt; found.as_str(), want);
    }
    Ok(())
}
