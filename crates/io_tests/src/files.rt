// Files by their names.
use rate_io::{Files, HostFiles, MemFile, MemFiles};
use rate_types::{Blob, Word};
use std::alloc::Global;
use std::test::Fail;

fn file(alloc: Global, name: &str, content: &str) -> Result<MemFile, Fail> {
    Ok(MemFile {
        name: Word::of(String::from_str(alloc, name)?),
        content: Blob::of(Vec::from_slice(alloc, content.as_bytes())?),
    })
}

// The content of a file as a text, or why it wasn't read.
fn content<F: Files>(alloc: Global, files: &mut F, name: &str, limit: u64) -> Result<String, Fail> {
    match files.read(alloc, name, limit) {
        Ok(bytes) => Ok(format!(in alloc; "{}", String::from_utf8(bytes)?)?),
        Err(fault) => Ok(format!(in alloc; "{fault:?}")?),
    }
}

#[test]
fn files_are_found_by_name(rt: HostRuntime) -> Result<(), Fail> {
    let alloc = rt.alloc();
    let mut items = Vec::new(alloc);
    items.push(file(alloc, "a", "one")?)?;
    items.push(file(alloc, "b", "")?)?;
    items.push(file(alloc, "a", "two")?)?;
    let mut files = MemFiles::new(items, Vec::from_slice(alloc, &[6])?);
    for (name, limit, want) in [
        ("a", 3, "one"),
        ("a", 2, "TooLong { read: 3 }"),
        ("b", 0, ""),
        ("c", 3, "Failed"),
        ("a", 3, "one"),
        ("a", 3, "Failed"),
        ("a", 3, "one"),
    ] {
        let found = content(alloc, &mut files, name, limit)?;
        assert_eq!(rt; found.as_str(), want, "at {name} with {limit}");
    }
    let mut host = HostFiles::new(rt);
    let found = content(alloc, &mut host, "no/such/file", 3)?;
    assert_eq!(rt; found.as_str(), "Failed");
    Ok(())
}
