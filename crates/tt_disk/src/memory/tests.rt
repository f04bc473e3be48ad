//! What a crash leaves of files in memory, at each kind of pick, and which calls fail.
ghost use Rattle.std.specs.Prelude.{◌≡◌, codes, IsSome, OnOk, Some};

use super::*;
use std::collections::BTreeSet;
use std::test::Fail;

// Makes a file of four bytes and settles it.
fn make<V: Volume + Send>(volume: &mut V, name: Name) -> Result<(), Failed>
    ensures { V.told → OnOk result (V.now volume.new name ≡ Some (codes "abcd")) }
{
    volume.create(name)?;
    volume.write_at(name, 0, b"abcd")?;
    volume.sync(name)
}

// How many bytes the file has, where it is there, and the first of them.
fn read<V: Volume + Send>(volume: &mut V, name: Name) -> Result<Option<(usize, [u8; 8])>, Failed> {
    if volume.size(name)?.is_none() {
        return Ok(None);
    }
    let mut buf = [0; 8];
    let count = volume.read_at(name, 0, &mut buf)?;
    Ok(Some((count, buf)))
}

#[test]
fn leaves_what_was_synced_or_is_pending(rt: HostRuntime) -> Result<(), Fail> {
    let alloc = rt.alloc();
    let (image, log, removed, emptied) = (
        Name::Ds(0),
        Name::Log(1),
        Name::SetLog(2),
        Name::SetImage(2),
    );
    let mut volume = MemVolume::failing_at(alloc, Vec::from_array(alloc, [5])?);
    make(&mut volume, image)?;
    volume.write_at(image, 1, b"XY")?;
    volume.write_at(image, 4, b"ZW")?;
    assert_eq!(rt; volume.size(image), Err(Failed), "the call of number 5");
    volume.create(log)?;
    make(&mut volume, removed)?;
    volume.remove(removed)?;
    make(&mut volume, emptied)?;
    volume.create(emptied)?;
    assert_eq!(rt; volume.calls(), 15);

    let mut least = volume.leave(alloc, 0)?;
    assert_eq!(rt; read(&mut least, image)?, Some((4, *b"abcd\0\0\0\0")));
    assert_eq!(rt; read(&mut least, log)?, None);
    assert_eq!(rt; read(&mut least, removed)?, Some((4, *b"abcd\0\0\0\0")));
    assert_eq!(rt; read(&mut least, emptied)?, Some((0, [0; 8])));
    let mut as_read = volume.leave(alloc, 1)?;
    assert_eq!(rt; read(&mut as_read, image)?, Some((6, *b"aXYdZW\0\0")));
    assert_eq!(rt; read(&mut as_read, log)?, Some((0, [0; 8])));
    assert_eq!(rt; read(&mut as_read, removed)?, None);
    assert_eq!(rt; read(&mut as_read, emptied)?, Some((0, [0; 8])));

    let mut is_left = [false; 3];
    let (mut is_created, mut is_absent) = (false, false);
    for pick in 2..32 {
        let mut left = volume.leave(alloc, pick)?;
        let (count, bytes) = read(&mut left, image)?.ok_or("no image")?;
        assert!(rt; 4 <= count && count <= 6, "{count} bytes at {pick}");
        assert_eq!(rt; (bytes[0], bytes[3]), (b'a', b'd'), "at {pick}");
        is_left[count - 4] = true;
        if read(&mut left, log)?.is_some() {
            is_created = true;
        } else {
            is_absent = true;
        }
    }
    assert_eq!(rt; is_left, [true; 3], "each length is left at some pick");
    assert!(rt;
        is_created && is_absent,
        "the log is left at some picks and not at others"
    );
    Ok(())
}

// A call that changes a file, of the file `tt.ds0` with the bytes "abcd" or of a file that isn't there.
#[derive(Clone, Copy, Debug)]
enum Change {
    Make,
    Empty,
    WriteOne,
    WriteMore,
    Remove,
}

fn make_change<V: Volume + Send>(volume: &mut V, how: Change) -> Result<(), Failed>
    requires { V.told → V.now volume.old (Name.Ds 0) ≡ Some (codes "abcd") }
{
    let image = Name::Ds(0);
    match how {
        Change::Make => volume.create(Name::Log(1)),
        Change::Empty => volume.create(image),
        Change::WriteOne => volume.write_at(image, 1, b"X"),
        Change::WriteMore => volume.write_at(image, 2, &[1; 4]),
        Change::Remove => volume.remove(image),
    }
}

// The bytes of a file, of which there are 8 at most, or `None` where it isn't there.
fn content<V: Volume + Send>(
    alloc: Global,
    volume: &mut V,
    name: Name,
) -> Result<Option<Vec<u8>>, Fail> {
    if volume.size(name)?.is_none() {
        return Ok(None);
    }
    let mut bytes = Vec::from_array(alloc, [0; 8])?;
    let count = volume.read_at(name, 0, &mut bytes)?;
    bytes.truncate(count);
    Ok(Some(bytes))
}

fn slice_of(content: &Option<Vec<u8>>) -> Option<&[u8]> {
    match content {
        Some(bytes) => Some(bytes.as_slice()),
        None => None,
    }
}

// A call that is to fail is pending: at some pick it is done whole, at some not at all, and each byte that it may tear takes
// each value, and each length comes.
#[test]
fn leaves_each_outcome_of_a_failed_call(rt: HostRuntime) -> Result<(), Fail> {
    let alloc = rt.alloc();
    let before = Some(b"abcd".as_slice());
    let empty = Some(b"".as_slice());
    let torn = Some(b"ab\x01\x01\x01\x01".as_slice());
    // Where the call is done the image and the log read so; then come how many lengths of the image are left, and how many
    // values of its bytes together.
    let rows = [
        (Change::Make, before, empty, 1, 4),
        (Change::Empty, empty, None, 5, 4 * 256),
        (Change::WriteOne, Some(b"aXcd".as_slice()), None, 1, 256 + 3),
        (Change::WriteMore, torn, None, 3, 4 * 256 + 2),
        (Change::Remove, None, None, 1, 4),
    ];
    for (how, image_done, log_done, lengths, values) in rows {
        let mut volume = MemVolume::failing_at(alloc, Vec::from_array(alloc, [3])?);
        make(&mut volume, Name::Ds(0))?;
        assert_eq!(rt; make_change(&mut volume, how), Err(Failed));
        assert_eq!(rt; volume.unnoted(), 0, "{how:?}");
        let (mut is_done, mut is_undone) = (false, false);
        let mut values_left = BTreeSet::new(alloc);
        let mut lengths_left = BTreeSet::new(alloc);
        for pick in 1..32768 {
            let mut left = volume.leave(alloc, pick)?;
            let image_left = content(alloc, &mut left, Name::Ds(0))?;
            let log_left = content(alloc, &mut left, Name::Log(1))?;
            let (image, log) = (slice_of(&image_left), slice_of(&log_left));
            if pick == 1 {
                assert!(rt; image == before && log == None, "{how:?}");
                continue;
            }
            is_done = is_done || (image == image_done && log == log_done);
            is_undone = is_undone || (image == before && log == None);
            let Some(bytes) = image else {
                continue;
            };
            let _ = lengths_left.insert(bytes.len())?;
            for (i, byte) in bytes.iter().enumerate() {
                let _ = values_left.insert((i, *byte))?;
            }
        }
        assert!(rt; is_done && is_undone, "{how:?}");
        assert_eq!(rt; lengths_left.len(), lengths, "{how:?}");
        assert_eq!(rt; values_left.len(), values, "{how:?}");
    }
    Ok(())
}

#[test]
fn fails_from_a_call_on(rt: HostRuntime) -> Result<(), Fail> {
    let alloc = rt.alloc();
    let mut volume = MemVolume::failing_from(alloc, 1);
    volume.create(Name::Log(3))?;
    assert_eq!(rt; volume.next_log(0), Err(Failed), "the call of number 1");
    assert_eq!(rt; volume.next_log(0), Err(Failed), "a later one");
    let mut volume = MemVolume::new(alloc);
    volume.create(Name::Log(3))?;
    assert_eq!(rt; volume.next_log(0), Ok(Some(3)));
    Ok(())
}
