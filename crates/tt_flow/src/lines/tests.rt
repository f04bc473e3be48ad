//! Lines of scripts: how they end, that they are whole after a failure, and how many bytes a script has.
ghost use Rattle.std.specs.Prelude.{◌≤◌};
ghost use Rattle.tt_flow.specs.Script.{script_most};

use super::*;
use crate::MemSource;
use std::process::Abort;
use std::test::Fail;

// Asserts that this line comes next.
fn expect_line<S: Source>(
    rt: &impl Abort,
    reader: &mut LineReader,
    source: &mut S,
    line: &mut LineBuf,
    expected: &[u8],
) {
    assert_eq!(rt; reader.next(source, line), Ok(LineRead::Line));
    assert_eq!(rt; line.line(), expected);
}

#[test]
fn lines_end_with_a_feed_or_the_input(rt: HostRuntime) -> Result<(), Fail> {
    let bytes = b"a\r\n\nlast\r".to_vec(rt.alloc())?;
    let mut source = MemSource::new(bytes, Vec::new(rt.alloc()));
    let mut reader = LineReader::new();
    let mut line = LineBuf::new();
    expect_line(&rt, &mut reader, &mut source, &mut line, b"a");
    expect_line(&rt, &mut reader, &mut source, &mut line, b"");
    expect_line(&rt, &mut reader, &mut source, &mut line, b"last\r");
    assert_eq!(rt; reader.next(&mut source, &mut line), Ok(LineRead::End));
    Ok(())
}

// Of two lines of 4,096 bytes and one of 4,097 the first take gives no more than a part of the second, and the next take fails.
#[test]
fn a_line_is_given_whole_after_a_failure(rt: HostRuntime) -> Result<(), Fail> {
    let mut bytes = [b'x'; 4096].to_vec(rt.alloc())?;
    bytes.push(b'\n')?;
    bytes.extend_from_slice(&[b'y'; 4096])?;
    bytes.push(b'\n')?;
    bytes.extend_from_slice(&[b'z'; 4097])?;
    bytes.extend_from_slice(b"\nend")?;
    let mut source = MemSource::new(bytes, vec![in rt.alloc(); 1]?);
    let mut reader = LineReader::new();
    let mut line = LineBuf::new();
    expect_line(&rt, &mut reader, &mut source, &mut line, &[b'x'; 4096]);
    assert!(rt; reader.next(&mut source, &mut line).is_err());
    expect_line(&rt, &mut reader, &mut source, &mut line, &[b'y'; 4096]);
    assert_eq!(rt; reader.next(&mut source, &mut line), Ok(LineRead::TooLong));
    expect_line(&rt, &mut reader, &mut source, &mut line, b"end");
    assert_eq!(rt; reader.next(&mut source, &mut line), Ok(LineRead::End));
    Ok(())
}

// A reader that has taken all but so many of the bytes that a script has.
fn reader_with_room(bytes: u64) -> LineReader
    requires { bytes ≤ script_most }
{
    let mut reader = LineReader::new();
    reader.taken = SCRIPT_MOST - bytes;
    reader
}

#[test]
fn a_script_of_one_byte_more_is_too_long(rt: HostRuntime) -> Result<(), Fail> {
    let alloc = rt.alloc();
    let mut line = LineBuf::new();
    let mut source = MemSource::new(b"first\nlast".to_vec(alloc)?, Vec::new(alloc));
    let mut reader = reader_with_room(10);
    expect_line(&rt, &mut reader, &mut source, &mut line, b"first");
    expect_line(&rt, &mut reader, &mut source, &mut line, b"last");
    assert_eq!(rt; reader.next(&mut source, &mut line), Ok(LineRead::End));
    let mut source = MemSource::new(b"first\nlast".to_vec(alloc)?, Vec::new(alloc));
    let mut reader = reader_with_room(9);
    expect_line(&rt, &mut reader, &mut source, &mut line, b"first");
    for _ in 0..2 {
        assert_eq!(rt;
            reader.next(&mut source, &mut line),
            Ok(LineRead::ScriptTooLong)
        );
    }
    Ok(())
}
