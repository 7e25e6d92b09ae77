use super::{A, Failing, NONE, said};
use std::test::Fail;

const SERVE: &[&str] = &["serve", "--port", "7", "--connections", "0", "a"];

// The call of the sink with this number is a flush, and it fails; with 0 none does.
#[test]
fn a_failed_flush_is_a_write_fault(rt: HostRuntime) -> Result<(), Fail> {
    const ROWS: &[(&[&str], u64, &str)] = &[
        (&["--version"], 2, "write fault\nratelimit 0.1.0\n"),
        (&["drive", "a"], 1, "write fault\n"),
        (&["lookup", "a"], 1, "write fault\n"),
        (
            &["audit", "--run", "b", "a"],
            2,
            "write fault\n{\"lawful\":true,\"records\":0}\n",
        ),
        (
            &["gen", "1", "0"],
            2,
            "write fault\n{\"admitted\":0,\"checks\":0,\"denied\":0}\n",
        ),
        (SERVE, 2, "write fault\n{\"listening\":7}\n"),
        (SERVE, 3, "write fault\n{\"listening\":7}\n"),
        (SERVE, 0, "done\n{\"listening\":7}\n"),
    ];
    for &(words, number, want) in ROWS {
        let failing = Failing {
            write: number,
            ..NONE
        };
        let answer = said(&rt, rt.alloc(), words, &[A, ""], "", failing)?;
        assert_eq!(rt; answer.as_str(), want, "call {number} fails");
    }
    Ok(())
}
