//! Logs, and the rows that opening finds in them.
ghost use Rattle.std.specs.Prelude.{◌≡◌, OnOk, false};
ghost use Rattle.tt_record.specs.Entry.{IsEntry};
ghost use Rattle.tt_log.specs.Log.{IsOpen};
ghost use Rattle.tt_log.specs.Walk.{is_switch};

use crate::{RecoveredRow, Replay, recover};
use std::alloc::Global;
use std::process::Abort;
use std::test::Fail;
use tt_disk::{Failed, MemVolume, Volume};
use tt_log::{Log, LogRefusal};
use tt_record::{Entry, read_entry};
use tt_value::{Cell, Position};

// The insert of the row (1, 10) by transaction 2 into table 16 at place 3.
const INSERT: [u8; 40] = [
    1, 0, 0, 0, 0, 0, 0, 0, 2, 0, 0, 0, 3, 0, 1, 0, 0, 0, 16, 0, 19, 2, 1, 0, 0, 0, 0, 0, 0, 0, 1,
    1, 0, 0, 0, 0, 0, 0, 0, 10,
];

// Where that insert's place and its transaction's number end.
const PLACE_END: usize = 13;

const TRANSACTION_END: usize = 9;

// The same insert at another place by another transaction.
fn insert_bytes(transaction: u8, place: u8) -> [u8; 40] {
    let mut bytes = INSERT;
    bytes[TRANSACTION_END - 1] = transaction;
    bytes[PLACE_END - 1] = place;
    bytes
}

// Takes such an insert, or its reverse.
fn take_change(
    alloc: Global,
    replay: &mut Replay,
    transaction: u8,
    place: u8,
    reverse: bool,
) -> Result<(), Fail> {
    let bytes = insert_bytes(transaction, place);
    if let Some(
        (
            Entry::Change {
                transaction,
                place,
                before,
                after,
            },
            _,
        ),
    ) = read_entry(alloc, &bytes)?
    {
        let change = if reverse {
            Entry::Change {
                transaction,
                place,
                before: after,
                after: before,
            }
        } else {
            Entry::Change {
                transaction,
                place,
                before,
                after,
            }
        };
        replay.take(change)?;
    }
    Ok(())
}

// Asserts that the rows lie at these places.
fn expect_places(rt: &impl Abort, rows: &[RecoveredRow], places: &[u32]) {
    assert_eq!(rt; rows.len(), places.len());
    for (row, place) in rows.iter().zip(places) {
        assert_eq!(rt; row.place, *place);
        assert_eq!(rt; row.table, 16);
    }
}

#[test]
fn ended_changes_stand_and_others_do_not(rt: HostRuntime) -> Result<(), Fail> {
    let alloc = rt.alloc();
    let mut replay = Replay::new(alloc);
    take_change(alloc, &mut replay, 6, 9, true)?;
    take_change(alloc, &mut replay, 4, 7, false)?;
    take_change(alloc, &mut replay, 5, 2, false)?;
    take_change(alloc, &mut replay, 4, 1, true)?;
    replay.take(Entry::Commit { transaction: 4 })?;
    let rows = replay.finish()?;
    expect_places(&rt, rows.as_slice(), &[7, 9]);
    Ok(())
}

// Adds an entry, if it has a place.
fn add<V: Volume>(log: &mut Log, volume: &mut V, entry: &Entry) -> Result<(), Failed>
    requires entry { IsEntry entry.now }
    requires plain { is_switch entry.now ≡ false }
    requires open { V.told → IsOpen log.old (V.now volume.old) (V.may volume.old) }
    ensures open { V.told → OnOk result (IsOpen log.new (V.now volume.new) (V.may volume.new)) }
{
    if log.has_place(entry) {
        log.append(volume, entry)?;
    }
    Ok(())
}

// Adds an entry, if it is a change.
fn add_change<V: Volume>(log: &mut Log, volume: &mut V, entry: &Entry) -> Result<(), Failed>
    requires entry { IsEntry entry.now }
    requires open { V.told → IsOpen log.old (V.now volume.old) (V.may volume.old) }
    ensures open { V.told → OnOk result (IsOpen log.new (V.now volume.new) (V.may volume.new)) }
{
    match entry {
        Entry::Change { .. } => add(log, volume, entry),
        _ => Ok(()),
    }
}

// Adds the insert.
fn add_insert<V: Volume>(alloc: Global, log: &mut Log, volume: &mut V) -> Result<(), LogRefusal>
    requires open { V.told → IsOpen log.old (V.now volume.old) (V.may volume.old) }
    ensures open { V.told → OnOk result (IsOpen log.new (V.now volume.new) (V.may volume.new)) }
{
    match read_entry(alloc, &INSERT) {
        Ok(Some((entry, _))) => match add_change(log, volume, &entry) {
            Ok(()) => Ok(()),
            Err(_) => Err(LogRefusal::Failed),
        },
        _ => Err(LogRefusal::NoMemory),
    }
}

// Makes a log with the insert, the commit of its transaction and the abort of another.
fn make_log<V: Volume>(alloc: Global, volume: &mut V) -> Result<(), Fail> {
    Log::make(volume)?;
    let origin = Position { file: 0, offset: 0 };
    let mut log = Log::start(alloc, volume, origin, 8192, 4096)?;
    add_insert(alloc, &mut log, volume)?;
    add(&mut log, volume, &Entry::Commit { transaction: 2 })?;
    add(&mut log, volume, &Entry::Abort { transaction: 5 })?;
    log.force(volume)?;
    Ok(())
}

#[test]
fn a_log_is_recovered(rt: HostRuntime) -> Result<(), Fail> {
    let alloc = rt.alloc();
    let mut volume = MemVolume::new(alloc);
    make_log(alloc, &mut volume)?;
    let recovered = recover(alloc, &mut volume, 8192, 4096)?;
    expect_places(&rt, recovered.rows.as_slice(), &[3]);
    assert_eq!(rt; recovered.next_transaction, 6);
    let end = Position {
        file: 0,
        offset: 58,
    };
    assert_eq!(rt; recovered.log.write_position(), end);
    Ok(())
}
