//! Streams: those in memory, and readers and writers of std.
use crate::{MemSink, ReadSource, Sink, Source, WriteSink};
use std::fs::{self, OpenOptions};
use std::io::BufWriter;
use std::test::Fail;

#[test]
fn a_sink_in_memory_keeps_half_of_a_failed_piece(rt: HostRuntime) -> Result<(), Fail> {
    let mut sink = MemSink::new(rt.alloc(), vec![in rt.alloc(); 1]?);
    assert!(rt; sink.put(b"ab").is_ok());
    assert!(rt; sink.put(b"cdef").is_err());
    assert_eq!(rt; sink.bytes(), b"abcd".as_slice());
    Ok(())
}

#[test]
fn a_reader_is_a_source(rt: HostRuntime) -> Result<(), Fail> {
    let mut source = ReadSource::new(b"abcd".as_slice());
    let mut buf = [0; 3];
    assert_eq!(rt; source.take(&mut buf), Ok(3));
    assert_eq!(rt; buf, *b"abc");
    assert_eq!(rt; source.take(&mut buf), Ok(1));
    assert_eq!(rt; source.take(&mut buf), Ok(0), "at the end");
    Ok(())
}

// The file has each piece as soon as it was put, though the writer has a buffer.
#[test]
fn a_sink_over_a_writer_flushes_each_piece(rt: HostRuntime) -> Result<(), Fail> {
    let mut how = OpenOptions::new();
    how.write(true);
    how.create(true);
    how.truncate(true);
    let file = how.open(&rt, "pieces")?;
    let mut sink = WriteSink::new(BufWriter::new(rt.alloc(), file)?);
    for (piece, length) in [(b"one".as_slice(), 3), (b"", 3), (b"two", 6)] {
        assert!(rt; sink.put(piece).is_ok());
        assert_eq!(rt; fs::metadata(&rt, "pieces")?.len(), length);
    }
    drop(sink);
    fs::remove_file(&rt, "pieces")?;
    Ok(())
}
