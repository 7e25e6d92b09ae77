use std::alloc::Global;
use std::test::Fail;
use text_lines::cut_line;

// The length of each line, with a space after it.
fn lengths(alloc: Global, bytes: &[u8]) -> Result<String, Fail> {
    let mut told = String::new(alloc);
    let mut rest = bytes;
    for _ in 0..bytes.len() {
        if rest.is_empty() {
            break;
        }
        let (line, after) = cut_line(rest);
        told.push_str(&format!(in alloc; "{} ", line.len())?)?;
        rest = after;
    }
    Ok(told)
}

#[test]
fn bytes_are_cut_at_each_line_feed(rt: HostRuntime) -> Result<(), Fail> {
    for (text, want) in [
        ("", ""),
        ("\n", "0 "),
        ("\n\n", "0 0 "),
        ("a", "1 "),
        ("a\n", "1 "),
        ("a\nbc", "1 2 "),
        ("a\n\nbc\n", "1 0 2 "),
        ("a\r\nb", "2 1 "),
    ] {
        assert_eq!(rt;
            lengths(rt.alloc(), text.as_bytes())?.as_str(),
            want,
            "at {text}"
        );
    }
    Ok(())
}
