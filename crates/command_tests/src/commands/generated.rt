// `gen`: made-up loads and their summaries.
use super::{FIRST_WRITE, Failing, NONE, said};
use std::test::Fail;

#[test]
fn loads_have_their_summaries(rt: HostRuntime) -> Result<(), Fail> {
    const ROWS: &[(&str, &str, u64, u64)] = &[
        ("1", "64000", 6_400, 57_600),
        ("7", "6401", 6_400, 1),
        ("18446744073709551615", "65", 65, 0),
        ("0", "0", 0, 0),
    ];
    let alloc = rt.alloc();
    for &(number, checks, admitted, denied) in ROWS {
        let want = format!(in alloc;
            "done\n{{\"admitted\":{admitted},\"checks\":{checks},\"denied\":{denied}}}\n"
        )?;
        assert_eq!(rt;
            said(&rt, alloc, &["gen", number, checks], &[], "", NONE)?.as_str(),
            want.as_str()
        );
    }
    Ok(())
}

#[test]
fn each_exit_of_gen_has_its_cause(rt: HostRuntime) -> Result<(), Fail> {
    const ROWS: &[(&[&str], Failing, &str)] = &[
        (&["gen"], NONE, "usage\n"),
        (&["gen", "1"], NONE, "usage\n"),
        (&["gen", "1", "2", "3"], NONE, "usage\n"),
        (&["gen", "18446744073709551616", "1"], NONE, "usage\n"),
        (&["gen", "1", "1048577"], NONE, "usage\n"),
        (&["gen", "1", "two"], NONE, "usage\n"),
        (&["gen", "1", "2"], FIRST_WRITE, "write fault\n"),
    ];
    let alloc = rt.alloc();
    for &(words, failing, want) in ROWS {
        assert_eq!(rt; said(&rt, alloc, words, &[], "", failing)?.as_str(), want);
    }
    Ok(())
}
