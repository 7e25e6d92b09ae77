use rate_types::{DurationFault, Millis, print_duration, read_duration};
use std::test::Fail;

#[test]
fn durations_are_read(rt: HostRuntime) {
    for (text, want) in [
        ("34s", 34_000),
        ("1.500s", 1500),
        ("1.5s", 1500),
        ("1.05s", 1050),
        ("0s", 0),
        ("0.001s", 1),
        ("0.001000000s", 1),
        ("000000000001s", 1000),
        ("1000000000s", 1_000_000_000_000),
        ("1000000000.000000000s", 1_000_000_000_000),
    ] {
        assert_eq!(rt; read_duration(text).map(Millis::get), Ok(want), "at {text}");
    }
}

#[test]
fn durations_are_refused_in_order(rt: HostRuntime) {
    for (text, want) in [
        ("", DurationFault::Bad),
        ("s", DurationFault::Bad),
        ("1", DurationFault::Bad),
        ("1S", DurationFault::Bad),
        ("1ss", DurationFault::Bad),
        ("1 s", DurationFault::Bad),
        ("-1s", DurationFault::Bad),
        ("+1s", DurationFault::Bad),
        (".5s", DurationFault::Bad),
        ("1.s", DurationFault::Bad),
        ("1.2.3s", DurationFault::Bad),
        ("1e3s", DurationFault::Bad),
        ("٣s", DurationFault::Bad),
        ("0000000000001s", DurationFault::Bad),
        ("9999999999999s", DurationFault::Bad),
        ("0.0000000000s", DurationFault::Bad),
        ("999999999999s", DurationFault::TooLong),
        ("1000000001s", DurationFault::TooLong),
        ("1000000000.001s", DurationFault::TooLong),
        ("1000000000.0001s", DurationFault::TooLong),
        ("0.0001s", DurationFault::TooFine),
        ("999999999.999000001s", DurationFault::TooFine),
    ] {
        assert_eq!(rt;
            read_duration(text).map(Millis::get),
            Err(want),
            "at {text}"
        );
    }
}

#[test]
fn durations_are_printed(rt: HostRuntime) -> Result<(), Fail> {
    for (millis, want) in [
        (0, "0s"),
        (34_000, "34s"),
        (1500, "1.500s"),
        (1, "0.001s"),
        (1050, "1.050s"),
        (999_999_999_999, "999999999.999s"),
        (1_000_000_000_000, "1000000000s"),
    ] {
        let Some(value) = Millis::new(millis) else {
            assert!(rt; false, "at {millis}");
            return Ok(());
        };
        let text = print_duration(rt.alloc(), value)?;
        assert_eq!(rt; text.as_str(), want, "at {millis}");
    }
    Ok(())
}
