//! Where one file of the log ends, and files that no log names.
ghost use Rattle.std.specs.Prelude.{◌<◌};

use super::steps::{
    ORIGIN, Reached, add, add_inserts, expect_found, expect_inserts, forced_from, insert_of,
    write_file,
};
use crate::{Log, LogRefusal};
use std::alloc::Global;
use std::process::Abort;
use std::test::Fail;
use tt_disk::{Failed, MemVolume, Name, Volume};
use tt_record::Entry;
use tt_value::Position;

// The rows of one text of 7 and of 8 letters, whose inserts have 32 and 33 bytes.
const SEVEN: [u8; 11] = *b"\x01\x03\0\x07letters";

const EIGHT: [u8; 12] = *b"\x01\x03\0\x08lettered";

// Log file 1 with an insert of the row (1, 10) by transaction 9 at place 3.
const OTHER_TIME: [u8; 66] = [
    84, 84, 76, 71, 0, 0, 0, 1, 0, 0, 0, 1, 0, 0, 0, 0, 1, 0, 0, 0, 0, 0, 0, 0, 40, 1, 0, 0, 0, 0,
    0, 0, 0, 9, 0, 0, 0, 3, 0, 1, 0, 0, 0, 16, 0, 19, 2, 1, 0, 0, 0, 0, 0, 0, 0, 1, 1, 0, 0, 0, 0,
    0, 0, 0, 10, 0,
];

const RUBBISH: [u8; 66] = [7; 66];

// Adds 204 inserts of 40 bytes, which are 8,160, and one of this row, and answers where that one stands.
fn add_last<V: Volume>(
    rt: &impl Abort,
    alloc: Global,
    volume: &mut V,
    row: &[u8],
) -> Result<Position, LogRefusal> {
    let mut log = Log::start(alloc, volume, ORIGIN, 8192, 4096)?;
    let mut reached = Reached {
        handed: 0,
        forced: 0,
    };
    add_inserts(rt, alloc, &mut log, volume, &mut reached, 204)?;
    let last = insert_of(rt, alloc, row, 204)?;
    let at = add(&mut log, volume, &last)?.expect(rt, "a place");
    log.force(volume)?;
    Ok(at)
}

#[test]
fn a_file_is_filled_to_its_last_byte(rt: HostRuntime) -> Result<(), Fail> {
    let alloc = rt.alloc();
    let next = Position { file: 1, offset: 0 };
    let mut longer = MemVolume::new(alloc);
    Log::make(&mut longer)?;
    assert_eq!(rt; add_last(&rt, alloc, &mut longer, &EIGHT)?, next);

    let mut volume = MemVolume::new(alloc);
    Log::make(&mut volume)?;
    let last = Position {
        file: 0,
        offset: 8160,
    };
    assert_eq!(rt; add_last(&rt, alloc, &mut volume, &SEVEN)?, last);
    assert_eq!(rt; volume.size(Name::Log(1))?, None);
    let mut log = Log::start(alloc, &mut volume, ORIGIN, 8192, 4096)?;
    let end = Position {
        file: 0,
        offset: 8192,
    };
    assert_eq!(rt; log.write_position(), end);
    assert_eq!(rt; add(&mut log, &mut volume, &Entry::Mark)?, Some(next));
    let mut read = volume.leave(alloc, 1)?;
    assert_eq!(rt; read.size(Name::Log(1))?, Some(17));
    log.force(&mut volume)?;
    expect_all(&rt, alloc, &mut volume, last, next)?;
    Ok(())
}

// Asserts that the log has 204 inserts, and behind them the insert of seven letters and a Mark at these positions.
fn expect_all(
    rt: &impl Abort,
    alloc: Global,
    volume: &mut MemVolume,
    last: Position,
    next: Position,
) -> Result<(), LogRefusal> {
    let log = Log::start(alloc, volume, ORIGIN, 8192, 4096)?;
    let found = forced_from(alloc, &log, volume, ORIGIN)?;
    assert_eq!(rt; found.len(), 206);
    expect_inserts(rt, alloc, &found, 204)?;
    expect_found(
        rt,
        found.get(204),
        last,
        &insert_of(rt, alloc, &SEVEN, 204)?,
    );
    expect_found(rt, found.get(205), next, &Entry::Mark);
    Ok(())
}

// Whether a file has just these bytes.
fn is_still<V: Volume>(volume: &mut V, name: Name, bytes: &[u8; 66]) -> Result<bool, Failed> {
    let size = volume.size(name)?;
    if size != Some(66) {
        return Ok(false);
    }
    let mut found = [0; 66];
    let count = volume.read_at(name, 0, &mut found)?;
    Ok(count == 66 && found == *bytes)
}

// Asserts that the log has so many inserts and no other entry.
fn expect_only(
    rt: &impl Abort,
    alloc: Global,
    volume: &mut MemVolume,
    count: u32,
) -> Result<(), LogRefusal>
    requires { count < 2097152 }
{
    let log = Log::start(alloc, volume, ORIGIN, 8192, 4096)?;
    let found = forced_from(alloc, &log, volume, ORIGIN)?;
    assert_eq!(rt; found.len(), count as usize);
    expect_inserts(rt, alloc, &found, count)
}

// Opens the log, adds inserts behind so many until there are so many, and forces them.
fn grow<V: Volume>(
    rt: &impl Abort,
    alloc: Global,
    volume: &mut V,
    from: u32,
    until: u32,
) -> Result<(), LogRefusal>
    requires { until < 2097152 }
{
    let mut log = Log::start(alloc, volume, ORIGIN, 8192, 4096)?;
    let mut reached = Reached {
        handed: from,
        forced: from,
    };
    add_inserts(rt, alloc, &mut log, volume, &mut reached, until)?;
    log.force(volume)?;
    Ok(())
}

#[test]
fn files_that_no_log_names_stay(rt: HostRuntime) -> Result<(), Fail> {
    let alloc = rt.alloc();
    let mut volume = MemVolume::new(alloc);
    Log::make(&mut volume)?;
    write_file(&mut volume, Name::Log(1), &OTHER_TIME)?;
    write_file(&mut volume, Name::Log(5), &RUBBISH)?;
    for (from, until, stays) in [(0, 3, true), (3, 204, true), (204, 205, false)] {
        grow(&rt, alloc, &mut volume, from, until)?;
        expect_only(&rt, alloc, &mut volume, until)?;
        assert_eq!(rt; is_still(&mut volume, Name::Log(1), &OTHER_TIME)?, stays);
        assert!(rt; is_still(&mut volume, Name::Log(5), &RUBBISH)?);
    }
    Ok(())
}
