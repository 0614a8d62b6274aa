use super::*;
use std::test::Fail;

/// The next bytes of a source, at most four.
fn next<S: Source>(source: &mut S, buf: &mut [u8; 4]) -> Result<usize, Failed> {
    source.read(buf)
}

/// Two pieces of text with a number between them, in one block.
fn put_line<K: Sink>(sink: &mut K) -> Result<(), Failed> {
    let mut block = Block::new();
    block.put(sink, b"row ")?;
    block.put_number(sink, 4096)?;
    block.put(sink, b"\n")?;
    block.flush(sink)
}

#[test]
fn std_reader_over_bytes(rt: HostRuntime) {
    let mut buf = [0; 4];
    let mut source = StdSource::new(b"number".as_slice());
    assert_eq!(rt; next(&mut source, &mut buf), Ok(4));
    assert_eq!(rt; buf.as_slice(), b"numb".as_slice());
    assert_eq!(rt; next(&mut source, &mut buf), Ok(2));
    assert_eq!(rt; next(&mut source, &mut buf), Ok(0));
}

#[test]
fn std_writer_over_a_vector(rt: HostRuntime) -> Result<(), Fail> {
    let mut written = Vec::new(rt.alloc());
    let mut sink = StdSink::new(&mut written);
    put_line(&mut sink)?;
    put_number(&mut sink, i128::MIN)?;
    let text = b"row 4096\n-170141183460469231731687303715884105728";
    assert_eq!(rt; written.as_slice(), text.as_slice());
    Ok(())
}

#[test]
fn std_writer_without_room(rt: HostRuntime) {
    let mut written = [0; 2];
    let mut sink = StdSink::new(written.as_mut_slice());
    assert_eq!(rt; sink.put(b"abc"), Err(Failed));
    assert_eq!(rt; written.as_slice(), b"ab".as_slice());
}

#[test]
fn source_in_memory_fails_once(rt: HostRuntime) -> Result<(), Fail> {
    let mut buf = [0; 4];
    let bytes = Vec::from_slice(rt.alloc(), b"abcdef")?;
    let fails = Vec::from_slice(rt.alloc(), &[2])?;
    let mut source = MemSource::new(bytes, 3, fails);
    assert_eq!(rt; next(&mut source, &mut buf), Ok(3));
    assert_eq!(rt; next(&mut source, &mut buf), Err(Failed));
    assert_eq!(rt; next(&mut source, &mut buf), Ok(3));
    assert_eq!(rt; next(&mut source, &mut buf), Ok(0));
    assert_eq!(rt; buf.as_slice(), b"def\0".as_slice());
    Ok(())
}

#[test]
fn sink_in_memory_without_room(rt: HostRuntime) -> Result<(), Fail> {
    let mut sink = MemSink::new(rt.alloc(), 2, Vec::new(rt.alloc()))?;
    assert_eq!(rt; sink.put(b"abc"), Err(Failed));
    assert_eq!(rt; sink.bytes(), b"ab".as_slice());
    Ok(())
}

#[test]
fn sink_in_memory_fails_once(rt: HostRuntime) -> Result<(), Fail> {
    let fails = Vec::from_slice(rt.alloc(), &[(2, 1), (2, 3)])?;
    let mut sink = MemSink::new(rt.alloc(), 9, fails)?;
    put_number(&mut sink, -7)?;
    assert_eq!(rt; put_line(&mut sink), Err(Failed));
    put_number(&mut sink, 0)?;
    assert_eq!(rt; sink.bytes(), b"-7r0".as_slice());
    Ok(())
}
