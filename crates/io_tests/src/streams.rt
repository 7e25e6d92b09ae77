// Sources and sinks.
use rate_io::{
    Failed, FileFault, MemSink, MemSource, ReaderSource, Sink, Source, SureSink, SureSource,
    WriterSink, read_up_to,
};
use std::io::{BufWriter, Cursor, Read, Write, pipe};
use std::test::Fail;

// The answers of four reads of at most 4 bytes.
fn read_four_times<S: Source>(source: &mut S) -> [Result<usize, Failed>; 4] {
    let mut buf = [0u8; 4];
    let first = source.read(&mut buf);
    let second = source.read(&mut buf);
    let third = source.read(&mut buf);
    let fourth = source.read(&mut buf);
    [first, second, third, fourth]
}

#[test]
fn the_calls_named_fail_and_take_no_byte(rt: HostRuntime) -> Result<(), Fail> {
    let alloc = rt.alloc();
    for (failing, want) in [
        (0, [Ok(4), Ok(2), Ok(0), Ok(0)]),
        (1, [Err(Failed), Ok(4), Ok(2), Ok(0)]),
        (2, [Ok(4), Err(Failed), Ok(2), Ok(0)]),
        (4, [Ok(4), Ok(2), Ok(0), Err(Failed)]),
    ] {
        let bytes = Vec::from_slice(alloc, b"abcdef")?;
        let mut source = MemSource::new(bytes, Vec::from_slice(alloc, &[failing])?);
        assert_eq!(rt; read_four_times(&mut source), want, "call {failing} fails");
    }
    Ok(())
}

#[test]
fn each_call_of_a_source_counts(rt: HostRuntime) -> Result<(), Fail> {
    let alloc = rt.alloc();
    let bytes = Vec::from_slice(alloc, b"abcdef")?;
    let mut source = MemSource::new(bytes, Vec::from_slice(alloc, &[2, 5])?);
    assert_eq!(rt;
        read_four_times(&mut source),
        [Ok(4), Err(Failed), Ok(2), Ok(0)]
    );
    let mut buf = [0u8; 4];
    assert_eq!(rt; source.read(&mut buf), Err(Failed));
    assert_eq!(rt; source.read(&mut buf), Ok(0));
    Ok(())
}

#[test]
fn a_failed_write_keeps_what_was_written(rt: HostRuntime) -> Result<(), Fail> {
    let alloc = rt.alloc();
    let mut sink = MemSink::new(alloc, Vec::from_slice(alloc, &[2, 4])?);
    let answers = [
        sink.write(b"ab"),
        sink.write(b"cd"),
        sink.write(b"ef"),
        sink.flush(),
        sink.flush(),
    ];
    assert_eq!(rt; answers, [Ok(()), Err(Failed), Ok(()), Err(Failed), Ok(())]);
    assert_eq!(rt; sink.bytes(), b"abef".as_slice());
    assert_eq!(rt; sink.pieces().len(), 2);
    assert_eq!(rt; sink.pieces()[1].as_slice(), b"ef".as_slice());
    Ok(())
}

#[test]
fn a_source_is_read_whole_up_to_a_limit(rt: HostRuntime) -> Result<(), Fail> {
    let alloc = rt.alloc();
    for (length, limit, failing, want) in [
        (0, 0, 0, Ok(0)),
        (1, 0, 0, Err(FileFault::TooLong { read: 1 })),
        (20_000, 20_000, 0, Ok(20_000)),
        (20_000, 19_999, 0, Err(FileFault::TooLong { read: 20_000 })),
        (20_000, 20_000, 2, Err(FileFault::Failed)),
        (20_000, 20_000, 3, Err(FileFault::Failed)),
    ] {
        let bytes = b"x".repeat(alloc, length)?;
        let mut source = MemSource::new(bytes, Vec::from_slice(alloc, &[failing])?);
        let read = read_up_to(alloc, &mut source, limit).map(|bytes| bytes.len());
        assert_eq!(rt;
            read,
            want,
            "{length} bytes, {limit} at most, call {failing} fails"
        );
    }
    Ok(())
}

#[test]
fn sure_objects_and_adapters_pass_the_bytes_on(rt: HostRuntime) -> Result<(), Fail> {
    let alloc = rt.alloc();
    let want = [Ok(4), Ok(2), Ok(0), Ok(0)];
    let mut sure = SureSource::new(Vec::from_slice(alloc, b"abcdef")?);
    assert_eq!(rt; read_four_times(&mut sure), want);
    let mut reader = ReaderSource::new(Cursor::new(Vec::from_slice(alloc, b"abcdef")?));
    assert_eq!(rt; read_four_times(&mut reader), want);
    let mut sink = SureSink::new(alloc);
    assert_eq!(rt; sink.write(b"ab"), Ok(()));
    assert_eq!(rt; sink.write(b"cd"), Ok(()));
    assert_eq!(rt; sink.flush(), Ok(()));
    assert_eq!(rt; sink.into_bytes()?.as_slice(), b"abcd".as_slice());
    let mut writer = WriterSink::new(BufWriter::new(alloc, Vec::new(alloc))?);
    assert_eq!(rt; writer.write(b"ab"), Ok(()));
    Ok(())
}

// What a writer keeps reaches the pipe at the flush, behind what another one has written there meanwhile.
#[test]
fn what_a_writer_keeps_is_flushed(rt: HostRuntime) -> Result<(), Fail> {
    let (mut reader, writer) = pipe(&rt)?;
    let mut other = writer.try_clone()?;
    let mut sink = WriterSink::new(BufWriter::new(rt.alloc(), writer)?);
    assert_eq!(rt; sink.write(b"ab"), Ok(()));
    other.write_all(b"cd")?;
    assert_eq!(rt; sink.flush(), Ok(()));
    let mut buf = [0u8; 8];
    assert_eq!(rt; reader.read(&mut buf)?, 4);
    assert_eq!(rt; &buf[..4], b"cdab".as_slice());
    Ok(())
}
